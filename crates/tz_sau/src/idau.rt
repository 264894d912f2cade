//! The board's own attribution.

ghost use Rattle.std.specs.Prelude.{◌≡◌, ◌≤◌, length};
ghost use Rattle.tz_model.specs.Board.{in_region};
ghost use Rattle.tz_state.specs.Attribution.{idau_side, idau_region};

use tz_model::{Region, RegionSide};

/// What the board says of an address.
#[derive(Clone, Copy)]
pub struct IdauWord {
    pub side: RegionSide,
    /// The number of the region that holds the address.
    pub region: Option<u8>,
}

fn in_region(region: &Region, addr: u32) -> bool
    ensures { result ≡ in_region region.now addr }
{
    region.base <= addr && addr - region.base < region.size
}

/// The board's word on an address, which is Non-secure outside all regions.
#[tactic(auto, unfolding(tz_state::specs::Attribution::idau_side, tz_state::specs::Attribution::idau_region))]
pub fn idau_word(regions: &[Region], addr: u32) -> IdauWord
    requires { length regions.now ≤ 32 }
    ensures side { result.side ≡ idau_side regions.now addr }
    ensures region { result.region ≡ idau_region 0 regions.now addr }
{
    for (index, region) in regions.iter().enumerate() {
        if in_region(region, addr) {
            return IdauWord {
                side: region.side,
                region: Some(index as u8),
            };
        }
    }
    IdauWord {
        side: RegionSide::NonSecure,
        region: None,
    }
}
