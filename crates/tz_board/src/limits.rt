//! The limits of a board as a whole: how much it has, and that no two regions share a byte.

ghost use Rattle.std.specs.Prelude.{◌≡◌, ℕ, ◌<◌, ◌≤◌, ◌&&◌, nat_le, length, [], IfOk, IfErr};
ghost use Rattle.tz_model.specs.Board.{bytes_of, is_apart, most_bytes};
ghost use Rattle.tz_board.specs.Boards.{first_overlap, first_shared};

use tz_model::{Region, SauRegion};

/// The most regions that a board has.
const MOST_REGIONS: usize = 32;

/// The most bytes that its regions have together: 4 MiB.
const MOST_BYTES: u64 = 4_194_304;

/// How many bytes the regions have together.
fn bytes_in(regions: &[Region]) -> u64
    requires { length regions.now ≤ 32 }
    ensures { result ≡ bytes_of regions.now }
{
    let mut bytes = 0;
    for r in regions {
        bytes += u64::from(r.size);
    }
    bytes
}

/// Whether the board is within the limits.
pub fn is_small(regions: &[Region], sau: &[SauRegion], sau_regions: u8) -> bool
    ensures { result ≡ (nat_le (length regions.now) 32 && (nat_le (length sau.now) sau_regions && nat_le (bytes_of regions.now) most_bytes)) }
{
    regions.len() <= MOST_REGIONS
        && sau.len() <= usize::from(sau_regions)
        && bytes_in(regions) <= MOST_BYTES
}

/// Whether two regions share no byte.
fn is_apart(q: &Region, r: &Region) -> bool
    ensures { result ≡ is_apart q.now r.now }
{
    u64::from(q.base) + u64::from(q.size) <= u64::from(r.base)
        || u64::from(r.base) + u64::from(r.size) <= u64::from(q.base)
}

/// The least of some regions that shares a byte with a region.
fn first_shared(regions: &[Region], r: &Region) -> Option<u32>
    requires { length regions.now ≤ 32 }
    ensures { result ≡ first_shared 0 regions.now r.now }
{
    for (index, q) in regions.iter().enumerate() {
        if !is_apart(q, r) {
            return Some(index as u32);
        }
    }
    None
}

/// The least region that shares a byte with an earlier one, after the least such earlier one.
pub fn first_overlap(regions: &[Region]) -> Option<(u32, u32)>
    requires { length regions.now ≤ 32 }
    ensures { result ≡ first_overlap [] regions.now }
{
    for (index, r) in regions.iter().enumerate() {
        if let Some(earlier) = first_shared(&regions[..index], r) {
            return Some((earlier, index as u32));
        }
    }
    None
}
