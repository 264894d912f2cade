//! What lines show of instructions, kept under their addresses and codes.
//!
//! That is a function of address and code, and a loop runs the same instructions again and again. `Texts` keeps what was
//! shown last at each of its places, and an address has one place. Nothing ever has to be dropped, whatever is written to
//! memory. What is kept shows in no line.

ghost use Rattle.std.specs.Prelude.{◌≡◌, ◌≤◌, ◌<◌, ◌+◌, ◌++◌, length, take};
ghost use Rattle.tz_table.specs.declared.units.Code.{Code};
ghost use Rattle.tz_text.specs.Instruction.{ran_text};
ghost use Rattle.tz_text.specs.Kept.{number_of, upper_of};
ghost use Rattle.tz_text.specs.Room.{IsText};

use crate::instructions::{Text, push_ran};
use crate::room::Line;
use std::marker::Model;
use tz_table::Code;

/// How many places there are.
const PLACES: usize = 512;

/// An odd number near 2³² divided by the golden ratio: its products spread addresses that are near each other.
const SPREAD: u32 = 0x9e37_79b1;

/// How many bytes most texts have at most. Those are copied by fewer moves.
const SHORT: usize = 48;

/// How many bytes the longest has.
const LONGEST: usize = 116;

/// The number of a second halfword.
fn upper_of(second: Option<u16>) -> u64
    ensures value { result ≡ upper_of second }
    ensures small { result ≤ 65537 }
{
    match second {
        Some(second) => u64::from(second) + 2,
        None => 1,
    }
}

/// A code as a number.
fn number_of(code: &Code) -> u64
    ensures value { result ≡ number_of code.now }
    ensures first { code.now.first < 65536 }
{
    let first = code.first;
    upper_of(code.second) * 65536 + u64::from(first)
}

/// What a line shows of an instruction: the first `len` bytes of a piece, for the code with this number at `pc`.
#[derive(Clone, Copy)]
struct Entry {
    number: u64,
    pc: u32,
    len: usize,
    piece: [u8; LONGEST],
    ghost within: { len ≤ 116 },
    ghost text: { IsText (take len piece) },
    ghost tells: { (code : Code) → code.first < 65536 → number_of code ≡ number → take len piece ≡ ran_text pc code },
}

impl Entry {
    /// The entry of nothing.
    fn empty() -> Entry {
        let piece = [0; LONGEST];
        Entry {
            number: 0,
            pc: 0,
            len: 0,
            piece,
        }
    }

    /// The entry of an instruction.
    #[inline(never)]
    fn of(pc: u32, code: &Code) -> Entry
        ensures pc { result.pc ≡ pc }
        ensures number { result.number ≡ number_of code.now }
        ensures first { code.now.first < 65536 }
    {
        let number = number_of(code);
        let mut text = Text::new();
        push_ran(&mut text, pc, code);
        let len = text.len();
        let mut piece = [0; LONGEST];
        piece[..len].copy_from_slice(text.as_str().as_bytes());
        Entry {
            number,
            pc,
            len,
            piece,
        }
    }

    /// Appends it to a line.
    #[inline(always)]
    fn push(&self, line: &mut Line)
        requires { length line.old.bytes + 116 ≤ 768 }
        ensures bytes { line.new.bytes ≡ line.old.bytes ++ take self.now.len self.now.piece }
        ensures len { length line.new.bytes ≤ length line.old.bytes + 116 }
    {
        if self.len <= SHORT {
            line.push_front(&self.piece[..SHORT], self.len);
        } else {
            line.push_front(&self.piece, self.len);
        }
    }
}

/// The place of an address: the highest bits of a product.
fn place_of(pc: u32) -> usize
    ensures { result < 512 }
{
    (pc.wrapping_mul(SPREAD) >> 23) as usize % PLACES
}

/// What lines showed of instructions.
#[derive(Drop)]
pub struct Texts {
    entries: [Entry; PLACES],
}

impl Model for Texts {
    ghost use Rattle.std.specs.Prelude.{⊤};

    ghost Value = { ⊤ };

    ghost view = { λ t. tt };
}

impl Texts {
    /// Keeps nothing yet.
    pub fn new() -> Texts {
        let entries = [Entry::empty(); PLACES];
        Texts { entries }
    }

    /// Appends what a line shows of an instruction. It is made anew where its place keeps another, and kept there then.
    #[inline(always)]
    pub fn push(&mut self, line: &mut Line, pc: u32, code: &Code)
        requires { length line.old.bytes + 116 ≤ 768 }
        ensures bytes { line.new.bytes ≡ line.old.bytes ++ ran_text pc code.now }
        ensures len { length line.new.bytes ≤ length line.old.bytes + 116 }
    {
        let place = place_of(pc);
        let number = number_of(code);
        let kept = &self.entries[place];
        if kept.pc == pc && kept.number == number {
            kept.push(line);
            return;
        }
        self.push_anew(line, place, pc, code);
    }

    /// The same, made anew.
    #[inline(never)]
    fn push_anew(&mut self, line: &mut Line, place: usize, pc: u32, code: &Code)
        requires place { place < 512 }
        requires room { length line.old.bytes + 116 ≤ 768 }
        ensures bytes { line.new.bytes ≡ line.old.bytes ++ ran_text pc code.now }
        ensures len { length line.new.bytes ≤ length line.old.bytes + 116 }
    {
        let entry = Entry::of(pc, code);
        entry.push(line);
        self.entries[place] = entry;
    }
}
