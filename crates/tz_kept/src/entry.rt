//! A code beside its meaning.

ghost use Rattle.std.specs.Prelude.{◌≡◌, ◌%◌, ◌/◌};
ghost use Rattle.tz_table.specs.Table.{decode_of};

use tz_decode::{Decoded, decode};

/// Both halfwords of a code in one word, as they stand in memory: the first one is the low half.
pub(crate) fn key_of(first: u16, second: u16) -> u32
    ensures first { result % 65536 ≡ first }
    ensures second { result / 65536 ≡ second }
{
    u32::from(second) * 0x1_0000 + u32::from(first)
}

/// A code in one word, and what it means.
#[derive(Clone, Copy)]
pub(crate) struct Entry {
    pub(crate) key: u32,
    pub(crate) meaning: Decoded,
    ghost means: { meaning ≡ decode_of (key % 65536) (key / 65536) },
}

impl Entry {
    /// The entry of a code.
    pub(crate) fn of(first: u16, second: u16) -> Entry
        ensures first { result.key % 65536 ≡ first }
        ensures second { result.key / 65536 ≡ second }
    {
        Entry {
            key: key_of(first, second),
            meaning: decode(first, second),
        }
    }

    /// Makes it the entry of another code. It is a call, so that where a code is kept nothing has room for its decoding.
    #[inline(never)]
    pub(crate) fn decode_anew(&mut self, first: u16, second: u16)
        ensures first { self.new.key % 65536 ≡ first }
        ensures second { self.new.key / 65536 ≡ second }
    {
        *self = Entry::of(first, second);
    }
}
