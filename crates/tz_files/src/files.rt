//! The files of a command: each is read, then its length, then its form, in the order of the words.

ghost use Rattle.std.specs.Prelude.{◌≡◌, ◌≤◌, ◌<◌, ◌^◌, true, length, IfOk, IfErr, Ok};
ghost use Rattle.tz_asm.specs.Errors.{IsRefusal};
ghost use Rattle.tz_asm.specs.declared.error.AsmError.TheVariants.{Memory};
ghost use Rattle.tz_words.specs.StartWords.{start_in};
ghost use Rattle.tz_words.specs.ShowWords.{saved_in};
ghost use Rattle.tz_words.specs.Resume.{resume_in};
ghost use Rattle.tz_words.specs.Pair.{pair_in};
ghost use Rattle.tz_words.specs.Dis.{dis_in};
ghost use Rattle.tz_files.specs.Told.{assembly_in, file_with};
ghost use Rattle.tz_files.specs.Reads.{Form, one_file};
ghost use Rattle.tz_files.specs.Starts.{board_files, image_files, state_files, script_files, source_files, start_files, saved_files, shown_files, pair_start_files, listed_files};
ghost use Rattle.tz_files.specs.Faults.{IsRead, standing, read_as, start_value, pair_value, saved_value};

use crate::stops::LoadError;
use std::alloc::{AllocError, Global};
use tz_asm::{AsmError, assemble, list};
use tz_board::{Script, demo_board, read_board, read_script};
use tz_core::Machine;
use tz_elf::{read_image, write_image, write_plain};
use tz_model::{Board, Image, Shelf, ShelfError, Side};
use tz_snap::Saved;
use tz_words::{
    AsmWords, DisWords, Form as AsmForm, PairWords, ResumeWords, SavedWords, StartWords,
};

/// What the files of a run give.
#[derive(Drop)]
pub struct Files {
    pub board: Board,
    pub secure: Image,
    pub nonsecure: Image,
    pub script: Script,
}

/// What the files of a pair give.
#[derive(Drop)]
pub struct PairFiles {
    pub board: Board,
    pub first: Image,
    pub second: Image,
    pub nonsecure: Image,
    pub script: Script,
}

/// What the files of a run that goes on give.
#[derive(Drop)]
pub struct SavedFiles {
    pub board: Board,
    pub machine: Machine,
    pub step: u32,
    pub script: Script,
}

/// The most bytes of a board file.
const BOARD_LIMIT: usize = 65_536;

/// The most bytes of an image file.
const IMAGE_LIMIT: usize = 8_388_608;

/// The most bytes of a script file.
const SCRIPT_LIMIT: usize = 1_048_576;

/// The most bytes of a source file.
const SOURCE_LIMIT: usize = 1_048_576;

/// The bytes of a file of at most `limit` bytes.
fn read<'a, H: Shelf>(
    alloc: Global,
    shelf: &mut H,
    name: &'a str,
    limit: usize,
) -> Result<Vec<u8>, LoadError<'a>>
    requires { limit < 2 ^ 31 }
    ensures files { (form : Form) → IsRead (standing H.held H.sound H.faults shelf.old) (standing H.held H.sound H.faults shelf.new) (λ held. one_file true (record { name = name.now; form = form }) (file_with name.now limit (held name.now))) (read_as (λ v. v.items) result) }
    ensures short { IfOk result (λ v. length v.items ≤ limit) }
{
    let mut bytes = Vec::new(alloc);
    match shelf.get(name, limit, &mut bytes) {
        Ok(()) => Ok(bytes),
        Err(ShelfError::Failed) => Err(LoadError::Unread(name)),
        Err(ShelfError::Long) => Err(LoadError::Long(name)),
        Err(ShelfError::Memory) => Err(LoadError::Memory),
    }
}

/// The board of a name: the built-in one, or a file.
fn load_board<'a, H: Shelf>(
    alloc: Global,
    shelf: &mut H,
    name: &'a str,
) -> Result<Board, LoadError<'a>>
    ensures { IsRead (standing H.held H.sound H.faults shelf.old) (standing H.held H.sound H.faults shelf.new) (λ held. board_files held name.now) result }
{
    if name == "@demo" {
        return match demo_board(alloc) {
            Ok(board) => Ok(board),
            Err(_) => Err(LoadError::Memory),
        };
    }
    let bytes = match read(alloc, shelf, name, BOARD_LIMIT) {
        Ok(bytes) => bytes,
        Err(fault) => return Err(fault),
    };
    match read_board(alloc, &bytes) {
        Ok(board) => Ok(board),
        Err(error) => Err(LoadError::Board(name, error)),
    }
}

/// The image of a name, for a side of a board.
fn load_image<'a, H: Shelf>(
    alloc: Global,
    shelf: &mut H,
    name: &'a str,
    board: &Board,
    side: Side,
) -> Result<Image, LoadError<'a>>
    ensures { IsRead (standing H.held H.sound H.faults shelf.old) (standing H.held H.sound H.faults shelf.new) (λ held. image_files held board.now side name.now) result }
{
    let bytes = match read(alloc, shelf, name, IMAGE_LIMIT) {
        Ok(bytes) => bytes,
        Err(fault) => return Err(fault),
    };
    match read_image(alloc, &bytes, board, side) {
        Ok(image) => Ok(image),
        Err(error) => Err(LoadError::Image(name, error)),
    }
}

/// The machine of a name, with the number of its steps, for a board. Its file has the limit of an image.
fn load_state<'a, H: Shelf>(
    alloc: Global,
    shelf: &mut H,
    name: &'a str,
    board: &Board,
) -> Result<Saved, LoadError<'a>>
    ensures { IsRead (standing H.held H.sound H.faults shelf.old) (standing H.held H.sound H.faults shelf.new) (λ held. state_files held board.now name.now) (read_as (λ x. record { state = x.machine; step = x.step }) result) }
{
    let bytes = match read(alloc, shelf, name, IMAGE_LIMIT) {
        Ok(bytes) => bytes,
        Err(fault) => return Err(fault),
    };
    match tz_snap::load(alloc, board, &bytes) {
        Ok(saved) => Ok(saved),
        Err(error) => Err(LoadError::State(name, error)),
    }
}

/// The script of a name: the empty one, or a file.
fn load_script<'a, H: Shelf>(
    alloc: Global,
    shelf: &mut H,
    name: &'a str,
    interrupts: u16,
) -> Result<Script, LoadError<'a>>
    ensures { IsRead (standing H.held H.sound H.faults shelf.old) (standing H.held H.sound H.faults shelf.new) (λ held. script_files held interrupts name.now) result }
{
    if name == "@none" {
        return match Script::of(alloc, &[]) {
            Ok(script) => Ok(script),
            Err(_) => Err(LoadError::Memory),
        };
    }
    let bytes = match read(alloc, shelf, name, SCRIPT_LIMIT) {
        Ok(bytes) => bytes,
        Err(fault) => return Err(fault),
    };
    match read_script(alloc, &bytes, interrupts) {
        Ok(script) => Ok(script),
        Err(error) => Err(LoadError::Script(name, error)),
    }
}

/// The files of a run, in the order of its words. The error is the first fault, in that order.
pub fn load<'a, H: Shelf>(
    alloc: Global,
    shelf: &mut H,
    words: &StartWords<'a>,
) -> Result<Files, LoadError<'a>>
    ensures { IsRead (standing H.held H.sound H.faults shelf.old) (standing H.held H.sound H.faults shelf.new) (λ held. start_files held (start_in words.now)) (read_as start_value result) }
{
    let board = match load_board(alloc, shelf, words.board) {
        Ok(board) => board,
        Err(fault) => return Err(fault),
    };
    let secure = match load_image(alloc, shelf, words.secure, &board, Side::Secure) {
        Ok(image) => image,
        Err(fault) => return Err(fault),
    };
    let nonsecure = match load_image(alloc, shelf, words.nonsecure, &board, Side::NonSecure) {
        Ok(image) => image,
        Err(fault) => return Err(fault),
    };
    match load_script(alloc, shelf, words.script, board.interrupts) {
        Ok(script) => Ok(Files {
            board,
            secure,
            nonsecure,
            script,
        }),
        Err(fault) => Err(fault),
    }
}

/// The files of a pair, in the order of its words. The error is the first fault, in that order.
pub fn load_pair<'a, H: Shelf>(
    alloc: Global,
    shelf: &mut H,
    words: &PairWords<'a>,
) -> Result<PairFiles, LoadError<'a>>
    ensures { IsRead (standing H.held H.sound H.faults shelf.old) (standing H.held H.sound H.faults shelf.new) (λ held. pair_start_files held (pair_in words.now)) (read_as pair_value result) }
{
    let board = match load_board(alloc, shelf, words.board) {
        Ok(board) => board,
        Err(fault) => return Err(fault),
    };
    let first = match load_image(alloc, shelf, words.first, &board, Side::Secure) {
        Ok(image) => image,
        Err(fault) => return Err(fault),
    };
    let second = match load_image(alloc, shelf, words.second, &board, Side::Secure) {
        Ok(image) => image,
        Err(fault) => return Err(fault),
    };
    let nonsecure = match load_image(alloc, shelf, words.nonsecure, &board, Side::NonSecure) {
        Ok(image) => image,
        Err(fault) => return Err(fault),
    };
    match load_script(alloc, shelf, words.script, board.interrupts) {
        Ok(script) => Ok(PairFiles {
            board,
            first,
            second,
            nonsecure,
            script,
        }),
        Err(fault) => Err(fault),
    }
}

/// The files of a run that goes on, in the order of its words. The error is the first fault, in that order.
pub fn load_saved<'a, H: Shelf>(
    alloc: Global,
    shelf: &mut H,
    words: &ResumeWords<'a>,
) -> Result<SavedFiles, LoadError<'a>>
    ensures { IsRead (standing H.held H.sound H.faults shelf.old) (standing H.held H.sound H.faults shelf.new) (λ held. saved_files held (resume_in words.now)) (read_as saved_value result) }
{
    let board = match load_board(alloc, shelf, words.board) {
        Ok(board) => board,
        Err(fault) => return Err(fault),
    };
    let Saved { machine, step } = match load_state(alloc, shelf, words.state, &board) {
        Ok(saved) => saved,
        Err(fault) => return Err(fault),
    };
    match load_script(alloc, shelf, words.script, board.interrupts) {
        Ok(script) => Ok(SavedFiles {
            board,
            machine,
            step,
            script,
        }),
        Err(fault) => Err(fault),
    }
}

/// The state of a page, for the board that is read first. The error is the first fault, the board's before the
/// other's.
pub fn load_shown<'a, H: Shelf>(
    alloc: Global,
    shelf: &mut H,
    words: &SavedWords<'a>,
) -> Result<Saved, LoadError<'a>>
    ensures { IsRead (standing H.held H.sound H.faults shelf.old) (standing H.held H.sound H.faults shelf.new) (λ held. shown_files held (saved_in words.now)) (read_as (λ x. record { state = x.machine; step = x.step }) result) }
{
    let board = match load_board(alloc, shelf, words.board) {
        Ok(board) => board,
        Err(fault) => return Err(fault),
    };
    match load_state(alloc, shelf, words.state, &board) {
        Ok(saved) => Ok(saved),
        Err(fault) => Err(fault),
    }
}

/// The image of a disassembly, for the board that is read first. The error is the first fault, the board's before the
/// other's.
pub fn load_listed<'a, H: Shelf>(
    alloc: Global,
    shelf: &mut H,
    words: &DisWords<'a>,
) -> Result<Image, LoadError<'a>>
    ensures { IsRead (standing H.held H.sound H.faults shelf.old) (standing H.held H.sound H.faults shelf.new) (λ held. listed_files held (dis_in words.now)) result }
{
    let board = match load_board(alloc, shelf, words.board) {
        Ok(board) => board,
        Err(fault) => return Err(fault),
    };
    match load_image(alloc, shelf, words.image, &board, words.side) {
        Ok(image) => Ok(image),
        Err(fault) => Err(fault),
    }
}

/// A file that was written, or want of memory.
fn or_no_memory(file: Result<Vec<u8>, AllocError>) -> Result<Vec<u8>, AsmError>
    ensures ok { IfOk result (λ v. file ≡ Ok v) }
    ensures err { IfErr result (λ e. e ≡ Memory) }
{
    match file {
        Ok(file) => Ok(file),
        Err(_) => Err(AsmError::Memory),
    }
}

/// What is written of a source in a form.
#[tactic(auto, unfolding(crate::specs::Told::assembly_in))]
fn assembly_in(alloc: Global, form: AsmForm, source: &[u8]) -> Result<Vec<u8>, AsmError>
    requires { length source.now < 2 ^ 32 }
    ensures ok { IfOk result (λ v. assembly_in form source.now ≡ Ok v.items) }
    ensures err { IfErr result (λ e. IsRefusal e (assembly_in form source.now)) }
{
    match form {
        AsmForm::Hex => match assemble(alloc, source) {
            Ok(image) => or_no_memory(write_plain(alloc, &image)),
            Err(error) => Err(error),
        },
        AsmForm::Elf => match assemble(alloc, source) {
            Ok(image) => or_no_memory(write_image(alloc, &image)),
            Err(error) => Err(error),
        },
        AsmForm::Listing => list(alloc, source),
    }
}

/// What an assembly writes. Fails where the source can't be read, and where it is refused.
pub fn load_assembled<'a, H: Shelf>(
    alloc: Global,
    shelf: &mut H,
    words: &AsmWords<'a>,
) -> Result<Vec<u8>, LoadError<'a>>
    ensures { IsRead (standing H.held H.sound H.faults shelf.old) (standing H.held H.sound H.faults shelf.new) (λ held. source_files held words.now.form words.now.source.now) (read_as (λ v. v.items) result) }
{
    let bytes = match read(alloc, shelf, words.source, SOURCE_LIMIT) {
        Ok(bytes) => bytes,
        Err(fault) => return Err(fault),
    };
    match assembly_in(alloc, words.form, &bytes) {
        Ok(file) => Ok(file),
        Err(error) => Err(LoadError::Source(words.source, error)),
    }
}
