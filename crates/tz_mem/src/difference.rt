//! What tells the bytes of blocks apart.

ghost use Rattle.std.specs.Prelude.{◌≡◌, ◌+◌, ◌<◌, ◌≤◌, length, map, true};
ghost use Rattle.tz_model.specs.Board.{are_apart};
ghost use Rattle.tz_mem.specs.Blocks.{memory_of, region_of};
ghost use Rattle.tz_mem.specs.Difference.{some_from, region_at};
ghost use Rattle.tz_state.specs.Difference.{byte_differs};

use crate::block::Block;

/// Whether blocks of the same regions, which share no bytes, differ in some of so many bytes from an offset in
/// a block on. It holds them all.
pub fn differ_in(
    blocks: &[Block],
    others: &[Block],
    index: usize,
    offset: usize,
    count: usize,
) -> bool
    requires same { map region_of blocks.now ≡ map region_of others.now }
    requires apart { are_apart (map region_of blocks.now) ≡ true }
    requires there { index < length blocks.now }
    requires fit { offset + count ≤ (region_at (map region_of blocks.now) index).size }
    ensures { result ≡ some_from (byte_differs (memory_of blocks.now) (memory_of others.now)) ((region_at (map region_of blocks.now) index).base + offset) count }
{
    let mine = &blocks[index];
    let other = &others[index];
    mine.bytes[offset..offset + count] != other.bytes[offset..offset + count]
}
