//! Where a segment may stand: in the regions of the board, in those that its side uses, and clear of
//! the segments before it.
//!
//! Each function answers as the definition of its name does, by looking at regions and segments and
//! never at single bytes.

ghost use Rattle.std.specs.Prelude.{◌≡◌, ◌^◌, ◌<◌, ◌≤◌, ℕ, false, true, length, None, IfNone, IfOk, IfErr, IfSome, OnOk};
ghost use Rattle.tz_elf.specs.Placement as placement;
ghost use Rattle.tz_elf.specs.Steps.{IsCause};

use crate::error::ElfError;
use std::alloc::{AllocError, Global};
use tz_model::{Region, RegionSide, Segment, Side};

/// The end of the first region that holds an address.
fn end_at(regions: &[Region], address: u64) -> Option<u64>
    ensures none { IfNone result (placement.in_some regions.now address ≡ false) }
    ensures past { IfSome result (λ end. address < end) }
    ensures within { IfSome result (λ end. (a : ℕ) → address ≤ a → a < end
        → placement.in_some regions.now a ≡ true) }
{
    for region in regions {
        let base = u64::from(region.base);
        let end = base + u64::from(region.size);
        if base <= address && address < end {
            return Some(end);
        }
    }
    None
}

/// Whether each of `count` bytes from `base` on lies in one of the regions.
fn lies_in(regions: &[Region], base: u32, count: usize) -> bool
    requires { count < 2 ^ 63 }
    ensures { placement.lies_in regions.now base count ≡ result }
{
    let end = u64::from(base) + count as u64;
    let mut at = u64::from(base);
    while at < end {
        match end_at(regions, at) {
            Some(next) => at = next,
            None => return false,
        }
    }
    true
}

/// Whether an image of a side uses a region.
fn serves(side: Side, region: &Region) -> bool
    ensures { placement.serves side region.now ≡ result }
{
    match (side, region.side) {
        (Side::Secure, RegionSide::NonSecure) => false,
        (Side::Secure, _) => true,
        (Side::NonSecure, RegionSide::NonSecure) => true,
        (Side::NonSecure, _) => false,
    }
}

/// The regions that an image of a side uses.
pub fn regions_for(alloc: Global, side: Side, regions: &[Region]) -> Result<Vec<Region>, AllocError>
    ensures { IfOk result (λ v. v.items ≡ placement.regions_for side regions.now) }
{
    let mut usable = Vec::new(alloc);
    for region in regions {
        if serves(side, region) {
            usable.push(*region)?;
        }
    }
    Ok(usable)
}

/// The place of the first segment that shares a byte with another.
pub fn first_sharing(segments: &[Segment], segment: &Segment) -> Option<u32>
    requires { length segments.now < 2 ^ 32 }
    ensures first { placement.first_sharing 0 segment.now segments.now ≡ result }
    ensures within { IfSome result (λ place. place < length segments.now) }
{
    let base = u64::from(segment.base);
    let end = base + segment.bytes.len() as u64;
    for (place, earlier) in segments.iter().enumerate() {
        let from = u64::from(earlier.base);
        if base < from + earlier.bytes.len() as u64 && from < end {
            return Some(place as u32);
        }
    }
    None
}

/// Tests a segment by its number, where the number of the first segment before it that shares a byte
/// is known.
pub fn test_segment(
    regions: &[Region],
    usable: &[Region],
    index: u32,
    earlier: Option<u32>,
    segment: &Segment,
) -> Result<(), ElfError>
    ensures ok { OnOk result (placement.placed_in regions.now usable.now index earlier segment.now ≡ None) }
    ensures err { IfErr result (IsCause (placement.placed_in regions.now usable.now index earlier segment.now)) }
{
    if !lies_in(regions, segment.base, segment.bytes.len()) {
        return Err(ElfError::Outside(index));
    }
    if !lies_in(usable, segment.base, segment.bytes.len()) {
        return Err(ElfError::WrongSide(index));
    }
    match earlier {
        Some(place) => Err(ElfError::Overlap(place, index)),
        None => Ok(()),
    }
}
