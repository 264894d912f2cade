//! The regions of an MPU that hold an address.

ghost use Rattle.std.specs.Prelude.{◌≡◌, ◌≤◌, length};
ghost use Rattle.tz_state.specs.Regions.{spans, holds, holding};
ghost use Rattle.tz_mpu.specs.Holders.{holders_of};

use tz_state::Bounds;

/// The enabled regions that hold an address.
#[derive(Clone, Copy)]
pub enum Holders {
    Nothing,
    /// The number of the only one, and its registers.
    One(u8, Bounds),
    Several,
}

/// Whether a region is enabled and holds an address.
fn holds(bounds: &Bounds, addr: u32) -> bool
    ensures { result ≡ holds bounds.now addr }
{
    bounds.rlar % 2 == 1 && bounds.rbar / 32 * 32 <= addr && addr <= bounds.rlar / 32 * 32 + 31
}

/// Which enabled regions hold an address: each is asked once, up to the second that does.
#[tactic(auto, unfolding(tz_state::specs::Regions::holding))]
pub fn find_holders(regions: &[Bounds], addr: u32) -> Holders
    requires { length regions.now ≤ 16 }
    ensures { result ≡ holders_of (holding 0 regions.now addr) }
{
    let mut found = Holders::Nothing;
    for (index, bounds) in regions.iter().enumerate() {
        if holds(bounds, addr) {
            match found {
                Holders::Nothing => found = Holders::One(index as u8, *bounds),
                _ => return Holders::Several,
            }
        }
    }
    found
}
