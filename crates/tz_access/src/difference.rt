//! What tells two memories apart for Non-secure code.

ghost use Rattle.std.specs.Prelude.{◌≡◌, ◌+◌, ◌*◌, ◌<◌, ◌≤◌, length, true};
ghost use Rattle.tz_mem.specs.Difference.{some_from, region_at, IsFilled};
ghost use Rattle.tz_model.specs.Board.{are_apart, is_nonsecure, is_region};
ghost use Rattle.tz_state.specs.Difference.{byte_differs, open_byte_differs, open_bytes_differ};

use crate::bus::Bus;
use crate::units::holds;
use tz_model::RegionSide;

impl Bus {
    /// The board's regions share no bytes.
    fn know_apart(&self)
        ensures { are_apart self.now.state.board.regions ≡ true }
    {
        let board = &self.board;
        let _read = board.interrupts;
    }

    /// There is a byte at exactly the addresses of the board's regions.
    pub fn know_filled(&self)
        ensures { IsFilled (record { regions = self.now.state.board.regions; bytes = self.now.state.memory }) }
    {
        self.memory.know_filled();
    }

    /// The region of a number is made of whole blocks.
    fn know_region(&self, index: usize)
        requires { index < length self.now.state.board.regions }
        ensures { is_region (region_at self.now.state.board.regions index) ≡ true }
    {
        self.know_regions();
    }

    /// How many regions there are.
    fn region_count(&self) -> usize
        ensures { result ≡ length self.now.state.board.regions }
    {
        self.board.regions.len()
    }

    /// The first address of a block of a region.
    fn address_of(&self, index: usize, block: usize) -> u32
        requires there { index < length self.now.state.board.regions }
        requires fit { (block + 1) * 32 ≤ (region_at self.now.state.board.regions index).size }
        ensures { result ≡ (region_at self.now.state.board.regions index).base + block * 32 }
    {
        self.know_region(index);
        self.board.regions[index].base + (block * 32) as u32
    }

    /// How many bytes a region has.
    fn size_of(&self, index: usize) -> usize
        requires { index < length self.now.state.board.regions }
        ensures { result ≡ (region_at self.now.state.board.regions index).size }
    {
        self.board.regions[index].size as usize
    }

    /// Whether some of so many bytes of a region differ, from an offset on.
    fn differs_in(&self, other: &Bus, index: usize, offset: usize, count: usize) -> bool
        requires same { self.now.state.board.regions ≡ other.now.state.board.regions }
        requires there { index < length self.now.state.board.regions }
        requires fit { offset + count ≤ (region_at self.now.state.board.regions index).size }
        ensures { result ≡ some_from (byte_differs self.now.state.memory other.now.state.memory) ((region_at self.now.state.board.regions index).base + offset) count }
    {
        self.know_apart();
        self.memory.differs_in(&other.memory, index, offset, count)
    }

    /// Whether a byte that is open in both differs in a block of 32 bytes of a region. `block` is the number of the
    /// block, from 0 at the region's base.
    fn differs_in_block(&self, other: &Bus, index: usize, block: usize) -> bool
        requires same { self.now.state.board.regions ≡ other.now.state.board.regions }
        requires there { index < length self.now.state.board.regions }
        requires fit { (block + 1) * 32 ≤ (region_at self.now.state.board.regions index).size }
        ensures { result ≡ some_from (open_byte_differs self.now.state other.now.state) ((region_at self.now.state.board.regions index).base + block * 32) 32 }
    {
        self.know_regions();
        self.know_region(index);
        self.know_apart();
        if !self.is_left_to_sau(index) {
            return false;
        }
        if !self.differs_in(other, index, block * 32, 32) {
            return false;
        }
        let addr = self.address_of(index, block);
        let mine = self.is_open(addr);
        let others = other.is_open(addr);
        mine && others
    }

    /// Whether a byte that is open in both differs in a block of 32 bytes, told by its number in the address space.
    pub fn differs_at_block(&self, other: &Bus, block: u32) -> bool
        requires same { self.now.state.board.regions ≡ other.now.state.board.regions }
        requires few { block < 134217728 }
        ensures { result ≡ some_from (open_byte_differs self.now.state other.now.state) (block * 32) 32 }
    {
        self.know_filled();
        other.know_filled();
        self.know_regions();
        for index in 0..self.region_count() {
            if holds(&self.board.regions[index], block * 32) {
                self.know_region(index);
                let from = self.board.regions[index].base / 32;
                return self.differs_in_block(other, index, (block - from) as usize);
            }
        }
        false
    }

    /// Whether the board leaves the attribution of a region to the SAU. Else no byte of it is open.
    fn is_left_to_sau(&self, index: usize) -> bool
        requires { index < length self.now.state.board.regions }
        ensures { result ≡ is_nonsecure (region_at self.now.state.board.regions index).side }
    {
        self.board.regions[index].side == RegionSide::NonSecure
    }

    /// Whether a byte of a region differs and is open in both. It looks at bytes only where the board leaves
    /// the region to the SAU, and goes block by block only where some byte differs.
    fn differs_in_region(&self, other: &Bus, index: usize) -> bool
        requires same { self.now.state.board.regions ≡ other.now.state.board.regions }
        requires there { index < length self.now.state.board.regions }
        ensures { result ≡ some_from (open_byte_differs self.now.state other.now.state) (region_at self.now.state.board.regions index).base (region_at self.now.state.board.regions index).size }
    {
        self.know_regions();
        self.know_region(index);
        self.know_apart();
        if !self.is_left_to_sau(index) {
            return false;
        }
        let size = self.size_of(index);
        if !self.differs_in(other, index, 0, size) {
            return false;
        }
        for block in 0..size / 32 {
            if self.differs_in_block(other, index, block) {
                return true;
            }
        }
        false
    }

    /// Whether an address that Non-secure code may read in both, each by its own SAU, has another byte in each.
    /// Both are of the same regions. Each byte is compared once or twice at most; the attribution is asked once
    /// for a block of 32 bytes, of those that differ alone.
    pub fn differs_in_open_bytes(&self, other: &Bus) -> bool
        requires { self.now.state.board.regions ≡ other.now.state.board.regions }
        ensures { result ≡ open_bytes_differ self.now.state other.now.state }
    {
        self.know_filled();
        other.know_filled();
        for index in 0..self.region_count() {
            if self.differs_in_region(other, index) {
                return true;
            }
        }
        false
    }
}
