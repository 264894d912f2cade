//! Plain images: text that says, a line at a time, which bytes stand from which address on.
//!
//! Each line is judged before the next one is looked at, so the refusal is that of the first bad line.
//! What a line means is told by the definitions; digits are read by the crate hex.

ghost use Rattle.std.specs.Prelude.{◌≡◌, ◌+◌, ◌^◌, ◌<◌, ◌≤◌, ℕ, ◌∷◌, length, slice_index, Ok, IfOk, IfErr, OnOk};
ghost use Rattle.tz_elf.specs.Placement.{placed_in};
ghost use Rattle.tz_elf.specs.PlainImage.{plain_segments, segment_of, without_return};
ghost use Rattle.tz_elf.specs.Refusals.{IsImageRefusal};
ghost use Rattle.tz_elf.specs.Steps.{LineGives, LineIsRefused};
ghost use Rattle.tz_elf.specs.Taken.{Keeps};

use crate::error::ElfError;
use crate::placed::Placed;
use crate::placement::test_segment;
use std::alloc::{AllocError, Global};
use tz_model::{Region, Segment};
use tz_syntax::first_line;

/// The segment that a line tells, or none where the line isn't of the form that tells one.
fn read_line(alloc: Global, line: &[u8]) -> Result<Option<Segment>, AllocError>
    ensures { IfOk result (λ s. segment_of line.now ≡ s) }
{
    if line.len() < 11 || line.len() > 137 || line[8] != b' ' {
        return Ok(None);
    }
    let mut address = [0u8; 4];
    if hex::decode_to_slice(&line[..8], &mut address).is_err() {
        return Ok(None);
    }
    match hex::decode(alloc, &line[9..]) {
        Ok(bytes) => Ok(Some(Segment {
            base: u32::from_be_bytes(address),
            bytes,
        })),
        Err(error) => match error {
            hex::FromHexError::OutOfMemory => Err(AllocError),
            _ => Ok(None),
        },
    }
}

/// The line without the carriage return at its end.
fn line_without_return(line: &[u8]) -> &[u8]
    ensures { without_return line.now ≡ result.now }
{
    if !line.is_empty() && line[line.len() - 1] == b'\r' {
        &line[..line.len() - 1]
    } else {
        line
    }
}

/// Puts a line's segment behind those of the lines before it, if the line has one and it may stand
/// there.
fn add_line(
    alloc: Global,
    regions: &[Region],
    usable: &[Region],
    number: u32,
    line: &[u8],
    placed: &mut Placed,
) -> Result<(), ElfError>
    requires kept { Keeps placed.old }
    requires few { length placed.old.segments.items < 2 ^ 32 }
    ensures ok { OnOk result (LineGives (placed_in regions.now usable.now) number
        placed.old.segments.items line.now placed.new.segments.items) }
    ensures kept { OnOk result (Keeps placed.new) }
    ensures grows { OnOk result (length placed.new.segments.items ≤ length placed.old.segments.items + 1) }
    ensures err { IfErr result (LineIsRefused (placed_in regions.now usable.now) number
        placed.old.segments.items line.now) }
{
    if line.is_empty() {
        return Ok(());
    }
    let segment = match read_line(alloc, line) {
        Ok(Some(segment)) => segment,
        Ok(None) => return Err(ElfError::Hex(number)),
        Err(_) => return Err(ElfError::Memory),
    };
    let index = placed.segments.len() as u32;
    let earlier = placed.first_sharing(&segment);
    if let Err(error) = test_segment(regions, usable, index, earlier, &segment) {
        return Err(error);
    }
    match placed.push(segment) {
        Ok(()) => Ok(()),
        Err(_) => Err(ElfError::Memory),
    }
}

/// Reads a plain image whose segments may stand in some of all regions.
pub fn read_plain(
    alloc: Global,
    file: &[u8],
    regions: &[Region],
    usable: &[Region],
) -> Result<Vec<Segment>, ElfError>
    requires { length file.now < 2 ^ 32 }
    ensures ok { IfOk result (λ v. plain_segments (placed_in regions.now usable.now) file.now ≡ Ok v.items) }
    ensures err { IfErr result (λ e. IsImageRefusal e (plain_segments (placed_in regions.now usable.now) file.now)) }
{
    let mut placed = Placed::new(alloc);
    let mut rest = file;
    let mut number: u64 = 1;
    while !rest.is_empty() {
        let (whole, after) = first_line(rest);
        let line = line_without_return(whole);
        if let Err(error) = add_line(alloc, regions, usable, number as u32, line, &mut placed) {
            return Err(error);
        }
        number += 1;
        rest = after;
    }
    Ok(placed.segments)
}
