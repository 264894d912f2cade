//! A line as it is made: bytes in a room of fixed size.
//!
//! A piece is copied whole, and then counts up to where its text ends: its size is known to the compiler, which copies it
//! by a few moves and without a call. What it leaves behind the end belongs to no text.

ghost use Rattle.std.specs.Prelude.{◌≡◌, ◌≤◌, ◌+◌, ◌++◌, [], length, take};
ghost use Rattle.tz_syntax.specs.Digits.{hex_word};
ghost use Rattle.tz_text.specs.Room.{IsText};

use crate::hex::write_word;
use std::marker::Model;
use std::str;

/// How many bytes there is room for: a line of at most 768, and a piece of at most 128 behind it.
pub const ROOM: usize = 896;

/// A line of the trace. The longest has 706 bytes: 130 with no register and no store, 14 for each of
/// 16 registers, and 22 for each of 16 stores.
#[derive(Drop)]
pub struct Line {
    cells: [u8; ROOM],
    len: usize,
}

impl Model for Line {
    ghost use Rattle.std.specs.Prelude.{◌≤◌, take};
    ghost use Rattle.tz_text.specs.Room.{LineBytes, IsText};

    ghost Value = { LineBytes };

    ghost view = { λ l. record { bytes = take l.len l.cells } };

    ghost invariant = { λ l. (l.len ≤ 768) × IsText (take l.len l.cells) };
}

impl Line {
    /// An empty line.
    pub fn new() -> Line
        ensures { result.bytes ≡ [] }
    {
        Line {
            cells: [0; ROOM],
            len: 0,
        }
    }

    /// Its bytes.
    #[inline(always)]
    pub fn bytes(&self) -> &[u8]
        ensures { result.now ≡ self.now.bytes }
    {
        &self.cells[..self.len]
    }

    /// The same as text.
    pub fn as_str(&self) -> &str
        ensures value { result.now ≡ self.now.bytes }
        ensures fits { length result.now ≤ 768 }
    {
        match str::from_utf8(&self.cells[..self.len]) {
            Ok(text) => text,
            Err(_) => "",
        }
    }

    /// Makes it empty.
    #[inline(always)]
    pub(crate) fn clear(&mut self)
        ensures { self.new.bytes ≡ [] }
    {
        self.len = 0;
    }

    /// Appends the front of a piece, a text that has `count` bytes.
    #[inline(always)]
    pub(crate) fn push_front(&mut self, piece: &[u8], count: usize)
        requires short { length piece.now ≤ 128 }
        requires within { count ≤ length piece.now }
        requires text { IsText (take count piece.now) }
        requires room { length self.old.bytes + count ≤ 768 }
        ensures bytes { self.new.bytes ≡ self.old.bytes ++ take count piece.now }
        ensures len { length self.new.bytes ≡ length self.old.bytes + count }
    {
        let end = self.len;
        self.cells[end..end + piece.len()].copy_from_slice(piece);
        self.len = end + count;
    }

    /// Appends a text.
    #[inline(always)]
    pub(crate) fn push(&mut self, text: &str)
        requires short { length text.now ≤ 128 }
        requires room { length self.old.bytes + length text.now ≤ 768 }
        ensures bytes { self.new.bytes ≡ self.old.bytes ++ text.now }
        ensures len { length self.new.bytes ≡ length self.old.bytes + length text.now }
    {
        self.push_front(text.as_bytes(), text.len());
    }

    /// Appends the eight digits of a word.
    #[inline(always)]
    pub(crate) fn push_word(&mut self, word: u32)
        requires { length self.old.bytes + 8 ≤ 768 }
        ensures bytes { self.new.bytes ≡ self.old.bytes ++ hex_word word }
        ensures len { length self.new.bytes ≡ length self.old.bytes + 8 }
    {
        let end = self.len;
        write_word(&mut self.cells, end, word);
        self.len = end + 8;
    }
}
