//! The SAU as the board starts it.

ghost use Rattle.std.specs.Prelude.{◌≡◌, ◌≤◌, ◌-◌, ◌++◌, false, length, map, replicate, take};
ghost use Rattle.tz_state.specs.Regions.{no_bounds};
ghost use Rattle.tz_state.specs.UnitRegisters.{bounds_of, reset_sau};

use crate::unit::Sau;
use arrayvec::ArrayVec;
use tz_model::{Board, Region, RegionKind, RegionSide, SauRegion};
use tz_state::Bounds;
use tz_state::unit_bits::{SAU_RLAR_ENABLE, SAU_RLAR_NSC};

/// RBAR and RLAR of a region that the board starts with.
fn bounds_of(region: &SauRegion) -> Bounds
    ensures { result ≡ bounds_of region.now }
{
    Bounds {
        rbar: region.base,
        rlar: region.limit / 32 * 32 + if region.nsc { SAU_RLAR_NSC } else { 0 } + SAU_RLAR_ENABLE,
    }
}

/// So many regions: those that the board starts with, and after them some that aren't enabled.
fn first_bounds(count: u8, started: &[SauRegion]) -> ArrayVec<Bounds, 8>
    requires room { count ≤ 8 }
    requires fit { length started.now ≤ count }
    ensures { result.items ≡ map bounds_of started.now ++ replicate (count - length started.now) no_bounds }
{
    let mut bounds = ArrayVec::new();
    for region in started {
        bounds.push(bounds_of(region));
    }
    for _ in started.len()..count as usize {
        bounds.push(Bounds { rbar: 0, rlar: 0 });
    }
    bounds
}

/// Regions in an array of 32.
fn kept(regions: &[Region]) -> [Region; 32]
    requires { length regions.now ≤ 32 }
    ensures { take (length regions.now) result ≡ regions.now }
{
    let mut kept = [Region {
        base: 0,
        size: 0,
        kind: RegionKind::Rom,
        side: RegionSide::Secure,
    }; 32];
    for (index, region) in regions.iter().enumerate() {
        kept[index] = *region;
    }
    kept
}

impl Sau {
    ghost use Rattle.tz_sau.specs.Unit.{SauValue};

    /// The SAU as a board starts it: on exactly where the board starts it with a region at least.
    #[tactic(auto, unfolding(tz_state::specs::UnitRegisters::reset_sau))]
    pub fn new(board: &Board) -> Sau
        ensures { result ≡ record { regions = board.now.regions; sau = reset_sau board.now.sau_regions board.now.sau; changed = false } }
    {
        Sau {
            regions: kept(&board.regions),
            region_count: board.regions.len(),
            bounds: first_bounds(board.sau_regions, &board.sau),
            ctrl: if board.sau.is_empty() { 0 } else { 1 },
            rnr: 0,
            changed: false,
        }
    }
}
