//! A state file as it is read: its first word, its board, its length, and each word of the state.

ghost use Rattle.std.specs.Prelude.{◌≡◌, ◌^◌, ◌<◌, length, drop, slice_get, Ok, IfOk, IfErr};
ghost use Rattle.tz_fields.specs.ReadWords.{words_of};
ghost use Rattle.tz_snap.specs.StateFile.{board_words, begins_with, step_in, file_length, values_of, saved_of};
ghost use Rattle.tz_snap.specs.Refusals.{IsStateRefusal};

use crate::error::SnapError;
use crate::head::{MAGIC, MOST_STEPS, board_word, file_count, head_count};
use std::alloc::Global;
use tz_core::Machine;
use tz_fields::WordsError;
use tz_model::Board;

/// A machine as a file has it, and how many steps led to its state.
#[derive(Drop)]
pub struct Saved {
    pub machine: Machine,
    pub step: u32,
}

/// The word at an index of a file.
fn word_at(bytes: &[u8], index: u32) -> Option<u32>
    ensures { result ≡ slice_get (words_of bytes.now) index }
{
    let place = 4 * index as usize;
    if bytes.len() < place + 4 {
        return None;
    }
    Some(u32::from_le_bytes([
        bytes[place],
        bytes[place + 1],
        bytes[place + 2],
        bytes[place + 3],
    ]))
}

/// Whether the words of a file from the third on begin with those of a board.
fn has_board(board: &Board, bytes: &[u8]) -> bool
    ensures { result ≡ begins_with (board_words board.now) (drop 2 (words_of bytes.now)) }
{
    for index in 0..head_count(board) - 2 {
        if word_at(bytes, index + 2) != board_word(board, index) {
            return false;
        }
    }
    true
}

/// The number of steps in a file that begins as a state file.
fn step_of(bytes: &[u8]) -> Option<u32>
    ensures { result ≡ step_in (words_of bytes.now) }
{
    let first = word_at(bytes, 0)?;
    let step = word_at(bytes, 1)?;
    if first == MAGIC { Some(step) } else { None }
}

/// How many bytes the files of a board have.
fn file_length(board: &Board) -> usize
    ensures is { result ≡ file_length board.now }
    ensures few { result < 2 ^ 26 }
{
    4 * file_count(board) as usize
}

/// Reads the state of a file whose board and length were tested, behind so many steps.
fn read_state(alloc: Global, board: &Board, step: u32, bytes: &[u8]) -> Result<Saved, SnapError>
    requires whole { length bytes.now ≡ file_length board.now }
    requires few { length bytes.now < 2 ^ 26 }
    ensures ok { IfOk result (λ x. values_of board.now step (words_of bytes.now) ≡ Ok (record { state = x.machine; step = x.step })) }
    ensures err { IfErr result (λ e. IsStateRefusal e (values_of board.now step (words_of bytes.now))) }
{
    if MOST_STEPS < step {
        return Err(SnapError::Value(1));
    }
    let head = head_count(board);
    match Machine::from_words(alloc, board, &bytes[4 * head as usize..]) {
        Ok(machine) => Ok(Saved { machine, step }),
        Err(WordsError::Value(index)) => Err(SnapError::Value(head + index)),
        Err(WordsError::Memory) => Err(SnapError::Memory),
    }
}

/// Reads a state file of a board.
///
/// The error is the first refusal, in the order of the variants; `Memory` comes only where memory runs out.
#[tactic(auto, unfolding(crate::specs::StateFile::saved_of))]
pub fn load(alloc: Global, board: &Board, bytes: &[u8]) -> Result<Saved, SnapError>
    ensures ok { IfOk result (λ x. saved_of board.now bytes.now ≡ Ok (record { state = x.machine; step = x.step })) }
    ensures err { IfErr result (λ e. IsStateRefusal e (saved_of board.now bytes.now)) }
{
    let Some(step) = step_of(bytes) else {
        return Err(SnapError::Magic);
    };
    if !has_board(board, bytes) {
        return Err(SnapError::Board);
    }
    if bytes.len() != file_length(board) {
        return Err(SnapError::Length);
    }
    read_state(alloc, board, step, bytes)
}
