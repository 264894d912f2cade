//! Memory, by addresses.

ghost use Rattle.std.specs.Prelude.{◌≡◌, ◌+◌, ◌^◌, ◌<◌, ◌≤◌, true, false, IfOk, IfErr, OnOk, OnErr, MatchResult, length, map};
ghost use Rattle.tz_table.specs.declared.units.Size.TheVariants.{Half};
ghost use Rattle.tz_mem.specs.Blocks.{entries_of, region_of};
ghost use Rattle.tz_mem.specs.Difference.{some_from, region_at, IsFilled};
ghost use Rattle.tz_mem.specs.Values.{MemoryValue, with_bytes, IsRefusal, IsCode};
ghost use Rattle.tz_state.specs.Access.{is_mapped, is_writable};
ghost use Rattle.tz_model.specs.Board.{are_apart};
ghost use Rattle.tz_state.specs.Difference.{byte_differs};
ghost use Rattle.tz_state.specs.Memory as bytes;
ghost use Rattle.tz_state.specs.Memory.{byte_at, every, value_at, with_byte, with_value};
ghost use Rattle.tz_state.specs.Zeros.{zero_entries, zero_memory};

use crate::block::Block;
use crate::code::code_at;
use crate::difference::differ_in;
use crate::error::{NotMapped, Refused};
use crate::numbers::{know_byte, put_all, put_byte, put_bytes, value_at, write_number};
use std::alloc::{AllocError, Global};
use std::marker::Model;
use tz_model::{Board, Region, Segment, Size};

/// How many bytes a sixteenth of all addresses has.
const SIXTEENTH: u32 = 0x1000_0000;

/// The regions of a board and their bytes. Beside them, which is no part of any value, stands for each sixteenth of
/// the addresses the number of a region that begins in it, if one does: that one likely holds what is asked for there.
#[derive(Drop)]
pub struct Memory {
    blocks: Vec<Block>,
    likely: [usize; 16],
}

impl Model for Memory {
    ghost use Rattle.std.specs.Coded.{codes, coded_ℕ};
    ghost use Rattle.std.specs.FinMap as map;
    ghost use Rattle.std.specs.Ordering.{nat_cmp};
    ghost use Rattle.tz_mem.specs.Values.{MemoryValue};

    ghost Value = { MemoryValue };

    ghost coded = { Prim.hlevel (codes, map.code {R = nat_cmp} coded_ℕ coded_ℕ) };

    ghost use Rattle.tz_mem.specs.Blocks.{AreApart, view_of};

    ghost view = { λ m. view_of m.blocks.items };

    ghost invariant = { λ m. AreApart m.blocks.items };
}

/// A block of zeros for each region.
fn zero_blocks(alloc: Global, regions: &[Region]) -> Result<Vec<Block>, AllocError>
    ensures regions { IfOk result (λ v. map region_of v.items ≡ regions.now) }
    ensures bytes { IfOk result (λ v. entries_of v.items ≡ zero_entries regions.now) }
{
    let mut blocks = Vec::new(alloc);
    for region in regions {
        let bytes = vec![in alloc; 0u8; region.size as usize]?;
        blocks.push(Block {
            base: region.base,
            kind: region.kind,
            side: region.side,
            bytes,
        })?;
    }
    Ok(blocks)
}

/// The sixteenth of the addresses that an address is in.
fn sixteenth_of(addr: u32) -> usize
    ensures { result < 16 }
{
    (addr / SIXTEENTH) as usize
}

/// Of each sixteenth of the addresses the number of the first block that begins in it, or else that of the first.
fn likely_blocks(blocks: &[Block]) -> [usize; 16] {
    let mut likely = [0; 16];
    let count = blocks.len();
    for index in 0..count {
        let last = count - 1 - index;
        let block = &blocks[last];
        likely[sixteenth_of(block.base)] = last;
    }
    likely
}

impl Memory {
    /// Memory with zeros in all regions of a board.
    ///
    /// # Errors
    ///
    /// `AllocError` where memory runs out.
    #[tactic(auto, unfolding(tz_state::specs::Zeros::zero_memory, crate::specs::Blocks::memory_of))]
    pub fn new(alloc: Global, board: &Board) -> Result<Memory, AllocError>
        ensures { IfOk result (λ m. m ≡ record { regions = board.now.regions; bytes = zero_memory board.now.regions }) }
    {
        let blocks = zero_blocks(alloc, &board.regions)?;
        let likely = likely_blocks(&blocks);
        Ok(Memory { blocks, likely })
    }

    /// The number of the region that likely holds an address.
    #[inline(always)]
    fn likely_at(&self, addr: u32) -> usize {
        self.likely[sixteenth_of(addr)]
    }

    /// Puts a byte at an address, whatever the kind of its region.
    ///
    /// # Errors
    ///
    /// `NotMapped` where no region holds the address; nothing changes then.
    pub fn place(&mut self, addr: u32, byte: u8) -> Result<(), NotMapped>
        ensures { MatchResult result
            (λ _. (is_mapped self.old.regions addr ≡ true) × (self.new ≡ with_bytes self.old (with_byte self.old.bytes addr byte)))
            (λ _. (is_mapped self.old.regions addr ≡ false) × (self.new ≡ self.old)) }
    {
        if !put_byte(&mut self.blocks, addr, byte) {
            return Err(NotMapped);
        }
        Ok(())
    }

    /// The number of a size at an address, its low byte first.
    ///
    /// # Errors
    ///
    /// `NotMapped` where no region holds some byte of it.
    #[inline(always)]
    pub fn read(&self, addr: u32, size: Size) -> Result<u32, NotMapped>
        ensures { MatchResult result
            (λ value. (every (is_mapped self.now.regions) addr size ≡ true) × (value ≡ value_at self.now.bytes size addr))
            (λ _. every (is_mapped self.now.regions) addr size ≡ false) }
    {
        match value_at(&self.blocks, self.likely_at(addr), addr, size) {
            Some(value) => Ok(value),
            None => Err(NotMapped),
        }
    }

    /// What a fetch at an address reads: its halfword, and the one after it, or none where no region holds
    /// some byte of that.
    ///
    /// # Errors
    ///
    /// `NotMapped` where no region holds some byte of the first.
    #[inline(always)]
    pub fn read_code(&self, addr: u32) -> Result<(u16, Option<u16>), NotMapped>
        ensures { MatchResult result (λ code. IsCode self.now addr code.0 code.1)
            (λ _. every (is_mapped self.now.regions) addr Half ≡ false) }
    {
        match code_at(&self.blocks, self.likely_at(addr), addr) {
            Some(code) => Ok(code),
            None => Err(NotMapped),
        }
    }

    /// Writes the low part of a number, of a size, at an address, its low byte first.
    ///
    /// # Errors
    ///
    /// `NotMapped` where no region holds some byte, `ReadOnly` where regions hold all bytes and that of some
    /// byte is `rom`; nothing changes then.
    #[inline(always)]
    pub fn write(&mut self, addr: u32, size: Size, value: u32) -> Result<(), Refused>
        ensures written { OnOk result (self.new ≡ with_bytes self.old (with_value self.old.bytes size addr value)) }
        ensures takes { OnOk result (every (is_writable self.old.regions) addr size ≡ true) }
        ensures refused { OnErr result (every (is_writable self.old.regions) addr size ≡ false) }
        ensures cause { IfErr result (λ e. IsRefusal e self.old.regions addr size) }
        ensures kept { OnErr result (self.new ≡ self.old) }
    {
        let likely = self.likely_at(addr);
        write_number(&mut self.blocks, likely, addr, size, value)
    }

    /// Puts the bytes of a segment of an image, in `rom` too. Bytes that no region holds are left out.
    pub fn put_segment(&mut self, segment: &Segment)
        ensures { self.new ≡ with_bytes self.old (bytes.with_bytes self.old.bytes segment.now.base segment.now.bytes) }
    {
        put_all(&mut self.blocks, segment.base, &segment.bytes);
    }

    /// Puts the low part of a number, of a size, at an address, in `rom` too. Bytes that no region holds are left out.
    pub fn put(&mut self, addr: u32, size: Size, value: u32)
        ensures { self.new ≡ with_bytes self.old (with_value self.old.bytes size addr value) }
    {
        put_bytes(&mut self.blocks, addr, size, value);
    }

    /// What stands at an address is a byte.
    pub fn know_byte(&self, addr: u32)
        ensures { byte_at self.now.bytes addr < 2 ^ 8 }
    {
        know_byte(&self.blocks, addr);
    }

    /// There is a byte at exactly the addresses of the regions.
    pub fn know_filled(&self)
        ensures { IsFilled self.now }
    {
        let _blocks = &self.blocks;
    }

    /// Whether two memories of the same regions, which share no bytes, differ in some of so many bytes from an
    /// offset in a region on. The region is told by its number, and holds them all.
    pub fn differs_in(&self, other: &Memory, index: usize, offset: usize, count: usize) -> bool
        requires same { self.now.regions ≡ other.now.regions }
        requires apart { are_apart self.now.regions ≡ true }
        requires there { index < length self.now.regions }
        requires fit { offset + count ≤ (region_at self.now.regions index).size }
        ensures { result ≡ some_from (byte_differs self.now.bytes other.now.bytes) ((region_at self.now.regions index).base + offset) count }
    {
        differ_in(&self.blocks, &other.blocks, index, offset, count)
    }
}
