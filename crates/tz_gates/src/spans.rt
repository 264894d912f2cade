//! The regions of a board one after the other by their addresses, whatever their order.

ghost use Rattle.std.specs.Prelude.{◌≡◌, ℕ, ◌%◌, true, List, [], ◌∷◌, ◌++◌};
ghost use Rattle.tz_model.specs.declared.board.Region.{Region};
ghost use Rattle.tz_model.specs.Board.{are_regions, is_region};
ghost use Rattle.tz_gates.specs.Scanned.{IsNextOf};

use tz_model::Region;

/// The part of a region from an address on, if it has one.
fn part_from(region: &Region, from: u32) -> Option<(u32, u32)>
    requires region { is_region region.now ≡ true }
    requires block { from % 32 ≡ 0 }
    ensures { IsNextOf (region.now ∷ []) from result }
{
    let end = region.base + region.size;
    if end <= from {
        return None;
    }
    if region.base < from {
        return Some((from, end));
    }
    Some((region.base, end))
}

/// Which of two parts comes first.
fn sooner(one: Option<(u32, u32)>, other: Option<(u32, u32)>) -> Option<(u32, u32)>
    ensures { (rs qs : List Region) (from : ℕ) → IsNextOf rs from one → IsNextOf qs from other → IsNextOf (rs ++ qs) from result }
{
    match one {
        None => other,
        Some(first) => match other {
            None => one,
            Some(second) => { if first.0 <= second.0 { one } else { other } }
        },
    }
}

/// The first bytes that regions hold from an address on, as the first of them and the end of their region.
pub fn next_span(regions: &[Region], from: u32) -> Option<(u32, u32)>
    requires regions { are_regions regions.now ≡ true }
    requires block { from % 32 ≡ 0 }
    ensures { IsNextOf regions.now from result }
{
    let mut next = None;
    for region in regions {
        next = sooner(next, part_from(region, from));
    }
    next
}
