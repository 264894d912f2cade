//! The regions of the SAU that hold an address.

ghost use Rattle.std.specs.Prelude.{◌≡◌, ◌≤◌, length};
ghost use Rattle.tz_state.specs.Regions.{holds, holding};
ghost use Rattle.tz_sau.specs.Holders.{holders_of};

use tz_state::Bounds;

/// Which regions hold an address: none, one, or several.
#[derive(Clone, Copy)]
pub enum Holders {
    Nobody,
    /// Its number, and the region.
    One(u8, Bounds),
    Several,
}

/// Whether a region is enabled and holds an address.
fn holds(region: &Bounds, addr: u32) -> bool
    ensures { result ≡ holds region.now addr }
{
    region.rlar % 2 == 1 && region.rbar / 32 * 32 <= addr && addr <= region.rlar / 32 * 32 + 31
}

/// The enabled regions that hold an address. None behind the second of them is asked.
#[tactic(auto, unfolding(tz_state::specs::Regions::holding))]
pub fn find_holders(bounds: &[Bounds], addr: u32) -> Holders
    requires { length bounds.now ≤ 8 }
    ensures { result ≡ holders_of (holding 0 bounds.now addr) }
{
    let mut found: Option<(u8, Bounds)> = None;
    for (index, region) in bounds.iter().enumerate() {
        if holds(region, addr) {
            if found.is_some() {
                return Holders::Several;
            }
            found = Some((index as u8, *region));
        }
    }
    match found {
        None => Holders::Nobody,
        Some((number, region)) => Holders::One(number, region),
    }
}
