//! The segments that a file has put so far, and the addresses that they take.
//!
//! The ranges of addresses are kept in order by their first ones. Ranges that were put share no address, so
//! whether a segment shares one with them is told by the last that begins below its end. Only where it
//! does are the segments looked at one by one, for the first that shares a byte, and that ends the reading.
//! What regions a board has isn't known here.

ghost use Rattle.std.specs.Prelude.{◌≡◌, ◌↔◌, ◌+◌, ◌^◌, ◌<◌, ◌≤◌, ◌++◌, [], ◌∷◌, length, IsTrue, None, IfSome, OnOk};
ghost use Rattle.tz_elf.specs.Placement.{first_sharing};
ghost use Rattle.tz_elf.specs.Taken.{AreApart, AreFree, Keeps};

use crate::placement::first_sharing;
use std::alloc::{AllocError, Global};
use std::collections::BTreeMap;
use tz_model::Segment;

/// The ranges of addresses that segments take: by the first address the first one past it.
type Ranges = BTreeMap<u64, u64>;

/// Segments in the order of their file, none of which shares a byte with another, and their ranges.
#[derive(Drop)]
pub struct Placed {
    pub segments: Vec<Segment>,
    ranges: Ranges,
}

/// Whether no range has an address from a first one to before another.
fn are_free(ranges: &Ranges, first: u64, past: u64) -> bool
    requires { AreApart ranges.now }
    ensures { IsTrue result ↔ AreFree ranges.now first past }
{
    match ranges.range(..past).next_back() {
        None => true,
        Some((_, end)) => *end <= first,
    }
}

impl Placed {
    /// No segments.
    pub fn new(alloc: Global) -> Placed
        ensures segments { result.segments.items ≡ [] }
        ensures kept { Keeps result }
    {
        Placed {
            segments: Vec::new(alloc),
            ranges: BTreeMap::new(alloc),
        }
    }

    /// The place of the first segment that shares a byte with another.
    pub fn first_sharing(&self, segment: &Segment) -> Option<u32>
        requires kept { Keeps self.now }
        requires few { length self.now.segments.items < 2 ^ 32 }
        ensures first { first_sharing 0 segment.now self.now.segments.items ≡ result }
        ensures within { IfSome result (λ place. place < length self.now.segments.items) }
    {
        let base = u64::from(segment.base);
        if are_free(&self.ranges, base, base + segment.bytes.len() as u64) {
            return None;
        }
        first_sharing(&self.segments, segment)
    }

    /// Puts a segment that has bytes, and shares none with those before it.
    pub fn push(&mut self, segment: Segment) -> Result<(), AllocError>
        requires kept { Keeps self.old }
        requires some { 0 < length segment.bytes }
        requires clear { first_sharing 0 segment self.old.segments.items ≡ None }
        ensures segments { OnOk result (self.new.segments.items ≡ self.old.segments.items ++ segment ∷ []) }
        ensures kept { OnOk result (Keeps self.new) }
    {
        let base = u64::from(segment.base);
        let past = base + segment.bytes.len() as u64;
        let _ = self.ranges.insert(base, past)?;
        self.segments.push(segment)?;
        Ok(())
    }
}
