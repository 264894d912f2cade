//! Decoded instructions, kept under their codes.
//!
//! What a code means is a function of its halfwords, and a loop runs the same codes again and again. `Codes` keeps
//! what it decoded last at each of its places, and a code has one place. All memory is taken when it is made;
//! nothing ever has to be dropped, whatever is written to memory, since no address is kept. What is kept isn't
//! part of any state: it shows in no answer.
#![tactic(auto)]

ghost use Rattle.std.specs.Prelude.{◌≡◌, ◌<◌};
ghost use Rattle.tz_table.specs.Table.{decode_of};

mod entry;

use crate::entry::{Entry, key_of};
use std::alloc::{AllocError, Global};
use std::marker::Model;
use tz_decode::Decoded;

/// How many places there are.
const PLACES: usize = 512;

/// An odd number near 2³² divided by the golden ratio: its products spread codes that are near each other.
const SPREAD: u32 = 0x9e37_79b1;

/// Decoded instructions, kept under their halfwords.
#[derive(Drop)]
pub struct Codes {
    entries: Box<[Entry; PLACES]>,
}

impl Model for Codes {
    ghost use Rattle.std.specs.Prelude.{⊤};

    ghost Value = { ⊤ };

    ghost view = { λ c. tt };
}

/// The place of a code: the highest bits of a product.
fn place_of(key: u32) -> usize
    ensures { result < 512 }
{
    (key.wrapping_mul(SPREAD) >> 23) as usize % PLACES
}

impl Codes {
    /// A table whose places all keep the code 0.
    ///
    /// # Errors
    ///
    /// `AllocError` where memory runs out.
    pub fn new(alloc: Global) -> Result<Codes, AllocError> {
        let entries = Box::new(alloc, [Entry::of(0, 0); PLACES])?;
        Ok(Codes { entries })
    }

    /// What a code means, as `tz_decode::decode` has it: `second` is the second halfword, and 0 where the code has
    /// none. It is decoded where its place keeps another code, and kept there then.
    pub fn decode(&mut self, first: u16, second: u16) -> Decoded
        ensures { result ≡ decode_of first second }
    {
        let key = key_of(first, second);
        let place = place_of(key);
        let entry = &mut self.entries[place];
        if entry.key != key {
            entry.decode_anew(first, second);
        }
        entry.meaning
    }
}
