//! The lines on standard error, and texts that go out line by line.
//!
//! A line is built whole and goes out as one put. Its text is exactly the definition's.

ghost use Rattle.std.specs.Prelude.{◌≡◌, ◌⊎◌, ◌<◌, ◌≤◌, ◌+◌, ◌++◌, Err, IfOk, OnOk, IsSome, codes, decimal, length, vec_len};
ghost use Rattle.tz_model.specs.Outside.{HasCause, Put};
ghost use Rattle.tz_elf.specs.Images.{Refusal};
ghost use Rattle.tz_board.specs.BoardErrors.{refusal_of, place_of};
ghost use Rattle.tz_board.specs.ScriptErrors.{script_refusal_of};
ghost use Rattle.tz_files.specs.LineTold.{IsTold};
ghost use Rattle.tz_files.specs.Lines.{board_code, image_code, script_code, source_code, state_code, place_text, put_status};
ghost use Rattle.tz_files.specs.Faults.{image_refusal, source_refusal, state_refusal, line_with, name_told, status_with, stop_of, code_with};

use crate::stops::LoadError;
use itoa::Buffer;
use std::alloc::{AllocError, Global};
use tz_asm::AsmError;
use tz_board::{BoardError, Place, ScriptError};
use tz_elf::ElfError;
use tz_model::{Sink, SinkError};
use tz_snap::SnapError;

/// Appends a text.
fn push_text(line: &mut Vec<u8>, text: &str) -> Result<(), AllocError>
    ensures bytes { OnOk result (line.new.items ≡ line.old.items ++ text.now) }
    ensures len { OnOk result (vec_len line.new ≤ vec_len line.old + length text.now) }
{
    line.extend_from_slice(text.as_bytes())
}

/// Appends a number in decimal digits.
fn push_number(line: &mut Vec<u8>, number: u32) -> Result<(), AllocError>
    ensures bytes { OnOk result (line.new.items ≡ line.old.items ++ decimal number) }
    ensures len { OnOk result (vec_len line.new ≤ vec_len line.old + 10) }
{
    let mut buffer = Buffer::new();
    push_text(line, buffer.format(number))
}

/// Appends a text and a number.
fn push_code(line: &mut Vec<u8>, text: &str, number: u32) -> Result<(), AllocError>
    ensures bytes { OnOk result (line.new.items ≡ line.old.items ++ (text.now ++ decimal number)) }
    ensures len { OnOk result (vec_len line.new ≤ vec_len line.old + length text.now + 10) }
{
    push_text(line, text)?;
    push_number(line, number)
}

/// Appends a place of a board file.
fn push_place(line: &mut Vec<u8>, place: Place) -> Result<(), AllocError>
    ensures bytes { OnOk result (line.new.items ≡ line.old.items ++ place_text (place_of place)) }
    ensures len { OnOk result (vec_len line.new ≤ vec_len line.old + 32) }
{
    match place {
        Place::Top(_) => {}
        Place::Region(index, _) => {
            push_code(line, "region ", index)?;
            push_text(line, " ")?;
        }
        Place::Sau(index, _) => {
            push_code(line, "sau ", index)?;
            push_text(line, " ")?;
        }
    }
    push_text(line, place.key().text())
}

/// Appends the code of an image's refusal with its place; its error is want of memory.
fn push_image_error(line: &mut Vec<u8>, error: ElfError) -> Result<(), AllocError>
    ensures bytes { OnOk result (line.new.items ≡ line.old.items ++ code_with image_code (image_refusal error)) }
    ensures len { OnOk result (vec_len line.new ≤ vec_len line.old + 24) }
    ensures told { OnOk result (IsSome (image_refusal error)) }
{
    match error {
        ElfError::Magic => push_text(line, "L1"),
        ElfError::ClassOrOrder => push_text(line, "L2"),
        ElfError::TypeOrMachine => push_text(line, "L3"),
        ElfError::HeaderCut => push_text(line, "L4"),
        ElfError::SegmentCut(index) => push_code(line, "L5 ", index),
        ElfError::Outside(index) => push_code(line, "L6 ", index),
        ElfError::WrongSide(index) => push_code(line, "L7 ", index),
        ElfError::Overlap(earlier, index) => {
            push_code(line, "L8 ", earlier)?;
            push_code(line, " ", index)
        }
        ElfError::Hex(number) => push_code(line, "L9 ", number),
        ElfError::Memory => Err(AllocError),
    }
}

/// Appends the code of a board's refusal with its place; its error is want of memory.
fn push_board_error(line: &mut Vec<u8>, error: BoardError) -> Result<(), AllocError>
    ensures bytes { OnOk result (line.new.items ≡ line.old.items ++ code_with board_code (refusal_of error)) }
    ensures len { OnOk result (vec_len line.new ≤ vec_len line.old + 36) }
    ensures told { OnOk result (IsSome (refusal_of error)) }
{
    match error {
        BoardError::NotToml => push_text(line, "B1"),
        BoardError::Missing(place) => {
            push_text(line, "B2 ")?;
            push_place(line, place)
        }
        BoardError::WrongKind(place) => {
            push_text(line, "B3 ")?;
            push_place(line, place)
        }
        BoardError::Range(place) => {
            push_text(line, "B4 ")?;
            push_place(line, place)
        }
        BoardError::Overlap(i, j) => {
            push_code(line, "B5 ", i)?;
            push_code(line, " ", j)
        }
        BoardError::TooMany => push_text(line, "B6"),
        BoardError::Memory => Err(AllocError),
    }
}

/// Appends the code of a state file's refusal with its place; its error is want of memory.
fn push_state_error(line: &mut Vec<u8>, error: SnapError) -> Result<(), AllocError>
    ensures bytes { OnOk result (line.new.items ≡ line.old.items ++ code_with state_code (state_refusal error)) }
    ensures len { OnOk result (vec_len line.new ≤ vec_len line.old + 24) }
    ensures told { OnOk result (IsSome (state_refusal error)) }
{
    match error {
        SnapError::Magic => push_text(line, "S1"),
        SnapError::Board => push_text(line, "S2"),
        SnapError::Length => push_text(line, "S3"),
        SnapError::Value(index) => push_code(line, "S4 ", index),
        SnapError::Memory => Err(AllocError),
    }
}

/// Appends the code of a script's refusal with its line; its error is want of memory.
fn push_script_error(line: &mut Vec<u8>, error: ScriptError) -> Result<(), AllocError>
    ensures bytes { OnOk result (line.new.items ≡ line.old.items ++ code_with script_code (script_refusal_of error)) }
    ensures len { OnOk result (vec_len line.new ≤ vec_len line.old + 24) }
    ensures told { OnOk result (IsSome (script_refusal_of error)) }
{
    match error {
        ScriptError::BadLine(number) => push_code(line, "C1 ", number),
        ScriptError::OutOfOrder(number) => push_code(line, "C2 ", number),
        ScriptError::NoSuchInterrupt(number) => push_code(line, "C3 ", number),
        ScriptError::TooMany => push_text(line, "C4"),
        ScriptError::Memory => Err(AllocError),
    }
}

/// Appends the code of a source's refusal with its line; its error is want of memory.
fn push_source_error(line: &mut Vec<u8>, error: AsmError) -> Result<(), AllocError>
    ensures bytes { OnOk result (line.new.items ≡ line.old.items ++ code_with source_code (source_refusal error)) }
    ensures len { OnOk result (vec_len line.new ≤ vec_len line.old + 24) }
    ensures told { OnOk result (IsSome (source_refusal error)) }
{
    match error {
        AsmError::Token(number) => push_code(line, "A1 ", number),
        AsmError::Mnemonic(number) => push_code(line, "A2 ", number),
        AsmError::Operands(number) => push_code(line, "A3 ", number),
        AsmError::Range(number) => push_code(line, "A4 ", number),
        AsmError::NoLabel(number) => push_code(line, "A5 ", number),
        AsmError::TwoLabels(number) => push_code(line, "A6 ", number),
        AsmError::OrgBackwards(number) => push_code(line, "A7 ", number),
        AsmError::TooLarge(number) => push_code(line, "A8 ", number),
        AsmError::Memory => Err(AllocError),
    }
}

/// Appends the name of a refused file, and what stands between it and the code.
fn push_name(line: &mut Vec<u8>, name: &str) -> Result<(), AllocError>
    ensures bytes { OnOk result (line.new.items ≡ line.old.items ++ (name.now ++ codes ": ")) }
    ensures len { OnOk result (vec_len line.new ≤ vec_len line.old + length name.now + 2) }
{
    push_text(line, name)?;
    push_text(line, ": ")
}

/// Appends what is told of a fault, up to the end of its line; its error is want of memory.
fn push_fault(line: &mut Vec<u8>, fault: LoadError<'_>) -> Result<(), AllocError>
    ensures bytes { OnOk result (line.new.items ++ codes "\n" ≡ line.old.items ++ line_with (stop_of fault.entry)) }
    ensures len { OnOk result (vec_len line.new ≤ vec_len line.old + 63 + length (name_told fault.entry)) }
    ensures told { OnOk result (IsSome (stop_of fault.entry)) }
{
    match fault {
        LoadError::Unread(name) => {
            push_text(line, "cannot read ")?;
            push_text(line, name)
        }
        LoadError::Long(name) => {
            push_text(line, "limit ")?;
            push_text(line, name)
        }
        LoadError::Board(name, error) => {
            push_name(line, name)?;
            push_board_error(line, error)
        }
        LoadError::Image(name, error) => {
            push_name(line, name)?;
            push_image_error(line, error)
        }
        LoadError::State(name, error) => {
            push_name(line, name)?;
            push_state_error(line, error)
        }
        LoadError::Script(name, error) => {
            push_name(line, name)?;
            push_script_error(line, error)
        }
        LoadError::Source(name, error) => {
            push_name(line, name)?;
            push_source_error(line, error)
        }
        LoadError::Memory => Err(AllocError),
    }
}

/// The line of a fault; its error is want of memory.
fn fault_line(alloc: Global, fault: LoadError<'_>) -> Result<Vec<u8>, AllocError>
    ensures bytes { IfOk result (λ line. line.items ≡ line_with (stop_of fault.entry)) }
    ensures len { IfOk result (λ line. vec_len line ≤ 64 + length (name_told fault.entry)) }
    ensures told { IfOk result (λ _. IsSome (stop_of fault.entry)) }
{
    let mut line = Vec::new(alloc);
    push_fault(&mut line, fault)?;
    push_text(&mut line, "\n")?;
    Ok(line)
}

/// The status of a fault that has a line: 3, 5 or 6.
fn fault_status(fault: LoadError<'_>) -> u8
    ensures { IsSome (stop_of fault.entry) → status_with (stop_of fault.entry) ≡ result }
{
    match fault {
        LoadError::Unread(_) => 3,
        LoadError::Long(_) => 6,
        _ => 5,
    }
}

/// The status of a text that is put: 0, or 4 where it can't be.
pub fn put_status(outcome: Result<(), SinkError>) -> u8
    ensures { result ≡ put_status outcome }
{
    match outcome {
        Ok(()) => 0,
        Err(_) => 4,
    }
}

/// How many bytes the first line of a text has, with its line feed.
fn line_length(text: &[u8]) -> usize
    requires { 0 < length text.now }
    ensures some { 0 < result }
    ensures within { result ≤ length text.now }
{
    for (place, byte) in text.iter().enumerate() {
        if *byte == b'\n' {
            return place + 1;
        }
    }
    text.len()
}

/// Writes a text, each line with its line feed as one put. Fails where a line can't be written; nothing is put after it.
pub fn put_lines<O: Sink>(text: &[u8], out: &mut O) -> Result<(), SinkError>
    ensures put { Put (O.written out.old) (O.written out.new) (O.space out.old) (O.space out.new) text.now result }
    ensures cause { HasCause (O.faults out.old) (O.faults out.new) (result ≡ Err SinkError.Failed) }
{
    let mut rest = text;
    'lines: while !rest.is_empty() {
        let (line, behind) = rest.split_at(line_length(rest));
        if let Err(error) = out.put(line) {
            return Err(error);
        }
        rest = behind;
    }
    Ok(())
}

/// Puts a line on standard error. The answer is the status that is given, but 4 where the put fails.
pub fn refuse<E: Sink>(err: &mut E, line: &[u8], status: u8) -> u8
    ensures { IsTold result line.now status (E.written err.old) (E.written err.new) (E.space err.old) (E.faults err.old) (E.faults err.new) }
{
    match err.put(line) {
        Ok(()) => status,
        Err(_) => 4,
    }
}

/// Writes the line of a fault on standard error, and answers its status. Where there is no memory for the
/// line, it is that of want of memory.
pub fn refuse_fault<E: Sink>(alloc: Global, fault: LoadError<'_>, err: &mut E) -> u8
    ensures { ((length (line_with (stop_of fault.entry)) ≤ 64 + length (name_told fault.entry))
        × IsTold result (line_with (stop_of fault.entry)) (status_with (stop_of fault.entry))
        (E.written err.old) (E.written err.new) (E.space err.old) (E.faults err.old) (E.faults err.new))
        ⊎ IsTold result (codes "no memory\n") 7 (E.written err.old) (E.written err.new) (E.space err.old) (E.faults err.old) (E.faults err.new) }
{
    match fault_line(alloc, fault) {
        Ok(line) => refuse(err, &line, fault_status(fault)),
        Err(_) => refuse(err, b"no memory\n", 7),
    }
}
