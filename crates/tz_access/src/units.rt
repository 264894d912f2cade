//! What the units say of one byte. Each answers the same for a block of 32 bytes.

ghost use Rattle.std.specs.Prelude.{◌≡◌, true};
ghost use Rattle.tz_access.specs.Checks.{IsByBlocks};
ghost use Rattle.tz_state.specs.Access.{is_mapped, is_writable, is_accessible, lets, is_private};
ghost use Rattle.tz_state.specs.Attribution.{is_open};
ghost use Rattle.tz_state.specs.Fetch.{lets_run};
ghost use Rattle.tz_state.specs.Protection.{permits};
ghost use Rattle.tz_state.specs.State.{map_in, mpu_of};
ghost use Rattle.tz_model.specs.Board.{in_region, are_regions};

use crate::bus::Bus;
use tz_model::address_map::{PRIVATE_FIRST, PRIVATE_LAST};
use tz_model::{Region, RegionKind, RegionSide, Side};
use tz_state::{Kind, Request};

/// Whether an address is in the private peripheral space.
pub fn is_private(addr: u32) -> bool
    ensures { result ≡ is_private addr }
{
    addr >= PRIVATE_FIRST && addr <= PRIVATE_LAST
}

/// Whether a region holds an address.
pub fn holds(region: &Region, addr: u32) -> bool
    ensures { result ≡ in_region region.now addr }
{
    region.base <= addr && addr - region.base < region.size
}

/// Whether some region holds an address.
#[tactic(auto, unfolding(tz_state::specs::Access::is_mapped))]
fn is_mapped(regions: &[Region], addr: u32) -> bool
    ensures { result ≡ is_mapped regions.now addr }
{
    for region in regions {
        if holds(region, addr) {
            return true;
        }
    }
    false
}

/// Whether the region that holds an address takes writes.
#[tactic(auto, unfolding(tz_state::specs::Access::is_writable))]
fn is_writable(regions: &[Region], addr: u32) -> bool
    ensures { result ≡ is_writable regions.now addr }
{
    for region in regions {
        if holds(region, addr) {
            return region.kind == RegionKind::Ram;
        }
    }
    false
}

impl Bus {
    /// The board's regions are made of whole blocks.
    pub(crate) fn know_regions(&self)
        ensures { are_regions self.now.state.board.regions ≡ true }
    {
        let board = &self.board;
        let _read = board.interrupts;
    }

    /// Whether Non-secure code may read a byte.
    #[tactic(auto, using(crate::proofs::Blocks::open_by_blocks), unfolding(tz_state::specs::Attribution::is_open))]
    pub(crate) fn is_open(&self, addr: u32) -> bool
        ensures value { result ≡ is_open (map_in self.now.state) addr }
        ensures blocks { IsByBlocks (is_open (map_in self.now.state)) }
    {
        self.know_regions();
        self.sau.data_attribution(Side::NonSecure, addr) == RegionSide::NonSecure
    }

    /// Whether the MPU of a side permits a byte.
    pub(crate) fn permits(
        &self,
        side: Side,
        addr: u32,
        kind: Kind,
        privileged: bool,
        negative: bool,
    ) -> bool
        ensures { result ≡ permits self.now.state.board.profile (mpu_of side self.now.state) addr kind privileged negative }
    {
        self.mpu(side)
            .check(addr, kind, privileged, negative)
            .is_ok()
    }

    /// Whether the MPU lets an access have a byte.
    #[tactic(auto, using(crate::proofs::Blocks::lets_by_blocks))]
    pub(crate) fn lets(&self, request: &Request, addr: u32) -> bool
        ensures value { result ≡ lets self.now.state request.now addr }
        ensures blocks { IsByBlocks (lets self.now.state request.now) }
    {
        is_private(addr)
            || self.permits(
                request.side,
                addr,
                request.kind,
                request.privileged,
                request.negative,
            )
    }

    /// Whether the MPU of a side lets code run at a byte.
    #[tactic(auto, using(crate::proofs::Blocks::runs_by_blocks))]
    pub(crate) fn lets_run(&self, side: Side, privileged: bool, negative: bool, addr: u32) -> bool
        ensures value { result ≡ lets_run self.now.state side privileged negative addr }
        ensures blocks { IsByBlocks (lets_run self.now.state side privileged negative) }
    {
        addr < PRIVATE_FIRST && self.permits(side, addr, Kind::Fetch, privileged, negative)
    }

    /// Whether the map takes an access of a kind at a byte.
    #[tactic(auto, using(crate::proofs::Blocks::takes_by_blocks))]
    pub(crate) fn is_accessible(&self, kind: Kind, addr: u32) -> bool
        ensures value { result ≡ is_accessible self.now.state.board.regions kind addr }
        ensures blocks { IsByBlocks (is_accessible self.now.state.board.regions kind) }
    {
        self.know_regions();
        match kind {
            Kind::Read => is_mapped(&self.board.regions, addr),
            Kind::Write => is_writable(&self.board.regions, addr),
            Kind::Fetch => is_mapped(&self.board.regions, addr),
        }
    }
}
