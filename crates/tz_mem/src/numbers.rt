//! Bytes and numbers among blocks.
//!
//! An access asks for the block that holds all of it: first whether that which likely does, and else in one walk over
//! the blocks. Where there is none, as at the end of a block that another follows, it goes byte by byte.

ghost use Rattle.std.specs.Prelude.{◌≡◌, ◌+◌, ◌<◌, ◌^◌, true, false, None, Some, IfSome, IfErr, OnOk, OnErr, MatchOption, MatchResult, map};
ghost use Rattle.tz_mem.specs.Blocks.{AreApart, region_of, memory_of, view_of, byte_in, more_of, IsRun};
ghost use Rattle.tz_mem.specs.Values.{with_bytes, IsRefusal};
ghost use Rattle.tz_state.specs.Access.{is_mapped, is_writable, takes_writes};
ghost use Rattle.tz_state.specs.Memory as map_bytes;
ghost use Rattle.tz_state.specs.Memory.{byte_at, every, value_at, with_byte, with_value};

use crate::block::{Block, more_of, number_in, place_of, run_of};
use crate::error::Refused;
use tz_model::{RegionKind, Size};

/// The byte of an address.
pub fn byte_of(blocks: &[Block], addr: u32) -> Option<u8>
    ensures { result ≡ byte_in blocks.now addr }
{
    match place_of(blocks, addr) {
        Some((index, offset)) => {
            let block = &blocks[index];
            Some(block.bytes[offset])
        }
        None => None,
    }
}

/// A byte is below 2 to the 8th.
fn know_small(byte: u8)
    ensures { byte < 2 ^ 8 }
{
    let _known = byte;
}

/// What stands at an address is a byte.
pub fn know_byte(blocks: &[Block], addr: u32)
    ensures { byte_at (memory_of blocks.now) addr < 2 ^ 8 }
{
    match byte_of(blocks, addr) {
        Some(byte) => know_small(byte),
        None => {}
    }
}

/// The number of a size at an address, byte by byte.
fn number_by_bytes(blocks: &[Block], addr: u32, size: Size) -> Option<u32>
    ensures { MatchOption result (every (is_mapped (map region_of blocks.now)) addr size ≡ false)
        (λ value. (every (is_mapped (map region_of blocks.now)) addr size ≡ true) × (value ≡ value_at (memory_of blocks.now) size addr)) }
{
    let Some(first) = byte_of(blocks, addr) else {
        return None;
    };
    match size {
        Size::Byte => Some(u32::from(first)),
        Size::Half => {
            let Some(second) = byte_of(blocks, addr.wrapping_add(1)) else {
                return None;
            };
            Some(u32::from(u16::from_le_bytes([first, second])))
        }
        Size::Word => {
            let Some(second) = byte_of(blocks, addr.wrapping_add(1)) else {
                return None;
            };
            let Some(third) = byte_of(blocks, addr.wrapping_add(2)) else {
                return None;
            };
            let Some(fourth) = byte_of(blocks, addr.wrapping_add(3)) else {
                return None;
            };
            Some(u32::from_le_bytes([first, second, third, fourth]))
        }
    }
}

/// The block that holds all of an access, and the offset of its first byte, if a block does.
pub fn whole_of(blocks: &[Block], addr: u32, size: Size) -> Option<(usize, usize)>
    ensures { IfSome result (λ place. (addr + more_of size < 2 ^ 32)
        × IsRun blocks.now addr (addr + more_of size) place.0 place.1) }
{
    match addr.checked_add(more_of(size)) {
        Some(last) => run_of(blocks, addr, last),
        None => None,
    }
}

/// The block of this number, and the offset of an access in it, if it holds all of it: where blocks share no byte, no
/// other does then.
#[inline(always)]
pub fn likely_whole(
    blocks: &[Block],
    likely: usize,
    addr: u32,
    size: Size,
) -> Option<(usize, usize)>
    requires { AreApart blocks.now }
    ensures { IfSome result (λ place. (addr + more_of size < 2 ^ 32)
        × IsRun blocks.now addr (addr + more_of size) place.0 place.1) }
{
    match addr.checked_add(more_of(size)) {
        Some(last) => {
            if likely < blocks.len() {
                let block = &blocks[likely];
                if block.holds_all(addr, last) {
                    return Some((likely, (addr - block.base) as usize));
                }
            }
            None
        }
        None => None,
    }
}

/// The block that holds all of an access, if a block does, where the likely one doesn't: regions that begin in one
/// sixteenth of the addresses mostly follow one another, so the one behind it is looked at before all are.
pub fn whole_near(blocks: &[Block], likely: usize, addr: u32, size: Size) -> Option<(usize, usize)>
    requires { AreApart blocks.now }
    ensures { IfSome result (λ place. (addr + more_of size < 2 ^ 32)
        × IsRun blocks.now addr (addr + more_of size) place.0 place.1) }
{
    match likely_whole(blocks, likely.wrapping_add(1), addr, size) {
        Some(place) => Some(place),
        None => whole_of(blocks, addr, size),
    }
}

/// The number of a size at an address, its low byte first, if blocks hold all of it, by a walk over them.
#[inline(never)]
fn value_by_walk(blocks: &[Block], addr: u32, size: Size) -> Option<u32>
    ensures { MatchOption result (every (is_mapped (map region_of blocks.now)) addr size ≡ false)
        (λ value. (every (is_mapped (map region_of blocks.now)) addr size ≡ true) × (value ≡ value_at (memory_of blocks.now) size addr)) }
{
    match whole_of(blocks, addr, size) {
        Some((index, offset)) => {
            let block = &blocks[index];
            Some(number_in(&block.bytes, offset, size))
        }
        None => number_by_bytes(blocks, addr, size),
    }
}

/// The number of a size at an address, its low byte first, if blocks hold all of it.
#[inline(always)]
pub fn value_at(blocks: &[Block], likely: usize, addr: u32, size: Size) -> Option<u32>
    requires { AreApart blocks.now }
    ensures { MatchOption result (every (is_mapped (map region_of blocks.now)) addr size ≡ false)
        (λ value. (every (is_mapped (map region_of blocks.now)) addr size ≡ true) × (value ≡ value_at (memory_of blocks.now) size addr)) }
{
    match likely_whole(blocks, likely, addr, size) {
        Some((index, offset)) => {
            let block = &blocks[index];
            Some(number_in(&block.bytes, offset, size))
        }
        None => value_by_walk(blocks, addr, size),
    }
}

/// Replaces the byte of an address, and tells whether some block holds it; where none does, nothing changes.
pub fn put_byte(blocks: &mut [Block], addr: u32, byte: u8) -> bool
    ensures mapped { result ≡ is_mapped (map region_of blocks.old) addr }
    ensures put { view_of blocks.new ≡ with_bytes (view_of blocks.old) (with_byte (memory_of blocks.old) addr byte) }
    ensures kept { result ≡ false → view_of blocks.new ≡ view_of blocks.old }
{
    match place_of(blocks, addr) {
        Some((index, offset)) => {
            let block = &mut blocks[index];
            block.put(offset, Size::Byte, u32::from(byte));
            true
        }
        None => false,
    }
}

/// Puts bytes from an address on; those of addresses that no block holds are left out.
#[tactic(auto, unfolding(tz_state::specs::Memory::with_bytes))]
pub fn put_all(blocks: &mut [Block], base: u32, bytes: &[u8])
    ensures { view_of blocks.new ≡ with_bytes (view_of blocks.old) (map_bytes.with_bytes (memory_of blocks.old) base bytes.now) }
{
    let mut addr = base;
    for byte in bytes {
        put_byte(blocks, addr, *byte);
        addr = addr.wrapping_add(1);
    }
}

/// The kind of the region that holds an address.
fn kind_of(blocks: &[Block], addr: u32) -> Option<RegionKind>
    ensures { MatchOption result
        ((is_mapped (map region_of blocks.now) addr ≡ false) × (is_writable (map region_of blocks.now) addr ≡ false))
        (λ kind. (is_mapped (map region_of blocks.now) addr ≡ true) × (is_writable (map region_of blocks.now) addr ≡ takes_writes kind)) }
{
    match place_of(blocks, addr) {
        Some((index, _)) => {
            let block = &blocks[index];
            Some(block.kind)
        }
        None => None,
    }
}

/// Whether some block holds an address.
fn is_mapped(blocks: &[Block], addr: u32) -> bool
    ensures { result ≡ is_mapped (map region_of blocks.now) addr }
{
    kind_of(blocks, addr).is_some()
}

/// Whether the region that holds an address takes writes.
fn is_writable(blocks: &[Block], addr: u32) -> bool
    ensures { result ≡ is_writable (map region_of blocks.now) addr }
{
    match kind_of(blocks, addr) {
        Some(RegionKind::Ram) => true,
        _ => false,
    }
}

/// Whether blocks hold each byte of an access.
fn all_mapped(blocks: &[Block], addr: u32, size: Size) -> bool
    ensures { result ≡ every (is_mapped (map region_of blocks.now)) addr size }
{
    match size {
        Size::Byte => is_mapped(blocks, addr),
        Size::Half => is_mapped(blocks, addr) && is_mapped(blocks, addr.wrapping_add(1)),
        Size::Word => {
            is_mapped(blocks, addr)
                && is_mapped(blocks, addr.wrapping_add(1))
                && is_mapped(blocks, addr.wrapping_add(2))
                && is_mapped(blocks, addr.wrapping_add(3))
        }
    }
}

/// Whether each byte of an access takes writes.
fn all_writable(blocks: &[Block], addr: u32, size: Size) -> bool
    ensures { result ≡ every (is_writable (map region_of blocks.now)) addr size }
{
    match size {
        Size::Byte => is_writable(blocks, addr),
        Size::Half => is_writable(blocks, addr) && is_writable(blocks, addr.wrapping_add(1)),
        Size::Word => {
            is_writable(blocks, addr)
                && is_writable(blocks, addr.wrapping_add(1))
                && is_writable(blocks, addr.wrapping_add(2))
                && is_writable(blocks, addr.wrapping_add(3))
        }
    }
}

/// Writes the low part of a number, of a size, byte by byte; those of addresses that no block holds are left out.
#[tactic(auto, using(crate::proofs::Over::half_over, crate::proofs::Over::word_over))]
pub fn put_bytes(blocks: &mut [Block], addr: u32, size: Size, value: u32)
    ensures { view_of blocks.new ≡ with_bytes (view_of blocks.old) (with_value (memory_of blocks.old) size addr value) }
{
    match size {
        Size::Byte => {
            put_byte(blocks, addr, (value % 0x100) as u8);
        }
        Size::Half => put_all(blocks, addr, &((value % 0x1_0000) as u16).to_le_bytes()),
        Size::Word => put_all(blocks, addr, &value.to_le_bytes()),
    }
}

/// Writes the low part of a number, of a size, where its bytes needn't stand in one block.
fn write_by_bytes(blocks: &mut [Block], addr: u32, size: Size, value: u32) -> Result<(), Refused>
    ensures written { OnOk result (view_of blocks.new ≡ with_bytes (view_of blocks.old) (with_value (memory_of blocks.old) size addr value)) }
    ensures takes { OnOk result (every (is_writable (map region_of blocks.old)) addr size ≡ true) }
    ensures refused { OnErr result (every (is_writable (map region_of blocks.old)) addr size ≡ false) }
    ensures cause { IfErr result (λ e. IsRefusal e (map region_of blocks.old) addr size) }
    ensures kept { OnErr result (view_of blocks.new ≡ view_of blocks.old) }
{
    if !all_mapped(blocks, addr, size) {
        return Err(Refused::NotMapped);
    }
    if !all_writable(blocks, addr, size) {
        return Err(Refused::ReadOnly);
    }
    put_bytes(blocks, addr, size, value);
    Ok(())
}

/// Writes the low part of a number, of a size, at an address, its low byte first, by a walk over the blocks.
#[inline(never)]
fn write_by_walk(blocks: &mut [Block], addr: u32, size: Size, value: u32) -> Result<(), Refused>
    ensures written { OnOk result (view_of blocks.new ≡ with_bytes (view_of blocks.old) (with_value (memory_of blocks.old) size addr value)) }
    ensures takes { OnOk result (every (is_writable (map region_of blocks.old)) addr size ≡ true) }
    ensures refused { OnErr result (every (is_writable (map region_of blocks.old)) addr size ≡ false) }
    ensures cause { IfErr result (λ e. IsRefusal e (map region_of blocks.old) addr size) }
    ensures kept { OnErr result (view_of blocks.new ≡ view_of blocks.old) }
{
    let Some((index, offset)) = whole_of(blocks, addr, size) else {
        return write_by_bytes(blocks, addr, size, value);
    };
    let block = &mut blocks[index];
    if !block.takes_writes() {
        return Err(Refused::ReadOnly);
    }
    block.put(offset, size, value);
    Ok(())
}

/// Writes the low part of a number, of a size, at an address, its low byte first.
#[inline(always)]
pub fn write_number(
    blocks: &mut [Block],
    likely: usize,
    addr: u32,
    size: Size,
    value: u32,
) -> Result<(), Refused>
    requires { AreApart blocks.old }
    ensures written { OnOk result (view_of blocks.new ≡ with_bytes (view_of blocks.old) (with_value (memory_of blocks.old) size addr value)) }
    ensures takes { OnOk result (every (is_writable (map region_of blocks.old)) addr size ≡ true) }
    ensures refused { OnErr result (every (is_writable (map region_of blocks.old)) addr size ≡ false) }
    ensures cause { IfErr result (λ e. IsRefusal e (map region_of blocks.old) addr size) }
    ensures kept { OnErr result (view_of blocks.new ≡ view_of blocks.old) }
{
    let Some((index, offset)) = likely_whole(blocks, likely, addr, size) else {
        return write_by_walk(blocks, addr, size, value);
    };
    let block = &mut blocks[index];
    if !block.takes_writes() {
        return Err(Refused::ReadOnly);
    }
    block.put(offset, size, value);
    Ok(())
}
