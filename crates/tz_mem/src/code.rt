//! What a fetch reads among blocks.

ghost use Rattle.std.specs.Prelude.{◌≡◌, ◌+◌, ◌<◌, length, true, false, MatchOption, map};
ghost use Rattle.tz_table.specs.declared.units.Size.TheVariants.{Half};
ghost use Rattle.tz_mem.specs.Blocks.{AreApart, region_of, memory_of, view_of, number_in};
ghost use Rattle.tz_mem.specs.Values.{IsCode};
ghost use Rattle.tz_state.specs.Access.{is_mapped};
ghost use Rattle.tz_state.specs.Memory.{every, half_at};

use crate::block::{Block, half_in};
use crate::numbers::{byte_of, likely_whole, whole_near};
use tz_model::Size;

/// The halfword at an address, byte by byte.
#[tactic(auto, using(crate::proofs::Places::mapped_at, crate::proofs::Bytes::get_memory_of), unfolding(tz_state::specs::Memory::half_at))]
fn half_by_bytes(blocks: &[Block], addr: u32) -> Option<u16>
    ensures { MatchOption result (every (is_mapped (map region_of blocks.now)) addr Half ≡ false)
        (λ half. (every (is_mapped (map region_of blocks.now)) addr Half ≡ true) × (half ≡ half_at (memory_of blocks.now) addr)) }
{
    let Some(first) = byte_of(blocks, addr) else {
        return None;
    };
    let Some(second) = byte_of(blocks, addr.wrapping_add(1)) else {
        return None;
    };
    Some(u16::from_le_bytes([first, second]))
}

/// The halfword at an address and the one after it, byte by byte.
fn code_by_bytes(blocks: &[Block], addr: u32) -> Option<(u16, Option<u16>)>
    ensures { MatchOption result (every (is_mapped (map region_of blocks.now)) addr Half ≡ false)
        (λ code. IsCode (view_of blocks.now) addr code.0 code.1) }
{
    let Some(first) = half_by_bytes(blocks, addr) else {
        return None;
    };
    Some((first, half_by_bytes(blocks, addr.wrapping_add(2))))
}

/// Two halfwords from an offset on.
fn code_in(bytes: &[u8], offset: usize) -> (u16, u16)
    requires { offset + 3 < length bytes.now }
    ensures first { result.0 ≡ number_in bytes.now offset Half }
    ensures second { result.1 ≡ number_in bytes.now (offset + 2) Half }
{
    (half_in(bytes, offset), half_in(bytes, offset + 2))
}

/// The halfword at an address, if blocks hold it, and the one after it, if they hold that too: in one look at the block
/// behind the one that was likely, or in one walk, where a block holds both.
#[inline(never)]
fn code_by_walk(blocks: &[Block], likely: usize, addr: u32) -> Option<(u16, Option<u16>)>
    requires { AreApart blocks.now }
    ensures { MatchOption result (every (is_mapped (map region_of blocks.now)) addr Half ≡ false)
        (λ code. IsCode (view_of blocks.now) addr code.0 code.1) }
{
    match whole_near(blocks, likely, addr, Size::Word) {
        Some((index, offset)) => {
            let block = &blocks[index];
            let both = code_in(&block.bytes, offset);
            Some((both.0, Some(both.1)))
        }
        None => code_by_bytes(blocks, addr),
    }
}

/// The halfword at an address, if blocks hold it, and the one after it, if they hold that too.
#[inline(always)]
pub fn code_at(blocks: &[Block], likely: usize, addr: u32) -> Option<(u16, Option<u16>)>
    requires { AreApart blocks.now }
    ensures { MatchOption result (every (is_mapped (map region_of blocks.now)) addr Half ≡ false)
        (λ code. IsCode (view_of blocks.now) addr code.0 code.1) }
{
    match likely_whole(blocks, likely, addr, Size::Word) {
        Some((index, offset)) => {
            let block = &blocks[index];
            let pair = code_in(&block.bytes, offset);
            Some((pair.0, Some(pair.1)))
        }
        None => code_by_walk(blocks, likely, addr),
    }
}
