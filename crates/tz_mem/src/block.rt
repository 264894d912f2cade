//! The bytes of one region, and where among regions those of an access stand.

ghost use Rattle.std.specs.Prelude.{◌≡◌, ◌+◌, ◌<◌, ◌≤◌, length};
ghost use Rattle.tz_state.specs.Access.{takes_writes};
ghost use Rattle.tz_mem.specs.Blocks.{holds, place_in, more_of, is_apart, holds_all, run_in, number_in, bytes_of, over, written_over};
ghost use Rattle.tz_table.specs.declared.units.Size.TheVariants.{Half};

use std::marker::Model;
use tz_model::{RegionKind, RegionSide, Size};

/// A region and its bytes.
#[derive(Drop)]
pub struct Block {
    pub base: u32,
    pub kind: RegionKind,
    pub side: RegionSide,
    pub bytes: Vec<u8>,
}

impl Model for Block {
    ghost use Rattle.tz_mem.specs.Blocks.{BlockValue};

    ghost Value = { BlockValue };

    ghost view = { λ b. record { base = b.base; kind = b.kind; side = b.side; bytes = b.bytes.items } };
}

impl Block {
    /// Whether the block holds an address.
    fn holds(&self, addr: u32) -> bool
        ensures { result ≡ holds self.now addr }
    {
        self.base <= addr && ((addr - self.base) as usize) < self.bytes.len()
    }

    /// Whether the block holds none of the addresses from `addr` to `last`.
    fn is_apart(&self, addr: u32, last: u32) -> bool
        ensures { result ≡ is_apart self.now addr last }
    {
        last < self.base || (self.base <= addr && (addr - self.base) as usize >= self.bytes.len())
    }

    /// Whether the block holds all addresses from `addr` to `last`.
    pub fn holds_all(&self, addr: u32, last: u32) -> bool
        requires { addr ≤ last }
        ensures { result ≡ holds_all self.now addr last }
    {
        self.base <= addr && ((last - self.base) as usize) < self.bytes.len()
    }

    /// Whether the block takes writes.
    pub fn takes_writes(&self) -> bool
        ensures { result ≡ takes_writes self.now.kind }
    {
        match self.kind {
            RegionKind::Rom => false,
            RegionKind::Ram => true,
        }
    }

    /// Writes the low part of a number, of a size, at an offset, its low byte first.
    #[inline(always)]
    pub fn put(&mut self, offset: usize, size: Size, value: u32)
        requires { offset + more_of size < length self.old.bytes }
        ensures { self.new ≡ written_over self.old offset (bytes_of size value) }
    {
        put_number(&mut self.bytes, offset, size, value);
    }
}

/// How many bytes an access has beside its first.
pub fn more_of(size: Size) -> u32
    ensures { result ≡ more_of size }
{
    match size {
        Size::Byte => 0,
        Size::Half => 1,
        Size::Word => 3,
    }
}

/// Where the byte of an address stands: the first block that holds it, and the offset in it.
#[tactic(auto, unfolding(crate::specs::Blocks::place_in))]
pub fn place_of(blocks: &[Block], addr: u32) -> Option<(usize, usize)>
    ensures { result ≡ place_in 0 blocks.now addr }
{
    for (index, block) in blocks.iter().enumerate() {
        if block.holds(addr) {
            return Some((index, (addr - block.base) as usize));
        }
    }
    None
}

/// The halfword at an offset, its low byte first.
pub fn half_in(bytes: &[u8], offset: usize) -> u16
    requires { offset + 1 < length bytes.now }
    ensures { result ≡ number_in bytes.now offset Half }
{
    u16::from_le_bytes([bytes[offset], bytes[offset + 1]])
}

/// The number of a size at an offset, its low byte first.
#[inline(always)]
pub fn number_in(bytes: &[u8], offset: usize, size: Size) -> u32
    requires { offset + more_of size < length bytes.now }
    ensures { result ≡ number_in bytes.now offset size }
{
    match size {
        Size::Byte => u32::from(bytes[offset]),
        Size::Half => u32::from(half_in(bytes, offset)),
        Size::Word => u32::from_le_bytes([
            bytes[offset],
            bytes[offset + 1],
            bytes[offset + 2],
            bytes[offset + 3],
        ]),
    }
}

/// Writes the low part of a number, of a size, at an offset, its low byte first.
fn put_number(bytes: &mut [u8], offset: usize, size: Size, value: u32)
    requires { offset + more_of size < length bytes.old }
    ensures { bytes.new ≡ over bytes.old offset (bytes_of size value) }
{
    match size {
        Size::Byte => bytes[offset] = (value % 0x100) as u8,
        Size::Half => {
            let low = ((value % 0x1_0000) as u16).to_le_bytes();
            bytes[offset] = low[0];
            bytes[offset + 1] = low[1];
        }
        Size::Word => {
            let all = value.to_le_bytes();
            bytes[offset] = all[0];
            bytes[offset + 1] = all[1];
            bytes[offset + 2] = all[2];
            bytes[offset + 3] = all[3];
        }
    }
}

/// Where the bytes from `addr` to `last` stand, if the first block that holds any of them holds all: the block,
/// and the offset of the first.
#[tactic(auto, unfolding(crate::specs::Blocks::run_in))]
#[inline(never)]
pub fn run_of(blocks: &[Block], addr: u32, last: u32) -> Option<(usize, usize)>
    requires { addr ≤ last }
    ensures { result ≡ run_in 0 blocks.now addr last }
{
    for (index, block) in blocks.iter().enumerate() {
        if !block.is_apart(addr, last) {
            if block.holds_all(addr, last) {
                return Some((index, (addr - block.base) as usize));
            }
            return None;
        }
    }
    None
}
