//! The search for gates, from one address on to the next.

ghost use Rattle.std.specs.Prelude.{◌≡◌, ◌+◌, ◌≤◌, ◌<◌, ◌%◌, ◌^◌, true, false, ◌&&◌, OnOk};
ghost use Rattle.tz_model.specs.Board.{are_regions};
ghost use Rattle.tz_state.specs.State.{map_of};
ghost use Rattle.tz_state.specs.Fetch.{is_entry};
ghost use Rattle.tz_gates.specs.Gates.{is_gate_half};
ghost use Rattle.tz_gates.specs.Scanned.{Scanned, IsGap};

use std::alloc::{AllocError, Global};
use tz_core::Machine;
use tz_model::{RegionSide, Side, Size};

/// The gates found so far, and whether the last halfword might begin one.
#[derive(Drop)]
pub struct Scan {
    pub gates: Vec<u32>,
    half: bool,
}

/// The board's regions are made of whole blocks.
pub fn know_regions(machine: &Machine)
    ensures { are_regions machine.now.bus.board.regions ≡ true }
{
    let board = machine.board();
    let _read = board.interrupts;
}

/// Whether Non-secure code may call an address.
fn is_entry(machine: &Machine, addr: u32) -> bool
    ensures { result ≡ is_entry (map_of machine.now) addr }
{
    machine.bus().sau().fetch_attribution(Side::NonSecure, addr) == RegionSide::Nsc
}

/// Whether a halfword that Non-secure code may call is one of a gate.
fn is_gate_half(machine: &Machine, addr: u32) -> bool
    requires { is_entry (map_of machine.now) addr ≡ true }
    ensures { result ≡ is_gate_half machine.now addr }
{
    match machine.bus().read(addr, Size::Half) {
        Ok(half) => half == 0xe97f,
        Err(_) => false,
    }
}

impl Scan {
    ghost use Rattle.tz_state.specs.State.{State};

    /// Nothing is found below the first address.
    pub fn new(alloc: Global) -> Scan
        ensures { (s : State) → Scanned s 0 result.gates.items result.half }
    {
        Scan {
            gates: Vec::new(alloc),
            half: false,
        }
    }

    /// Goes on over addresses that no region holds.
    pub fn go_to(&mut self, machine: &Machine, from: u32, first: u32)
        requires scanned { Scanned machine.now from self.old.gates.items self.old.half }
        requires gap { IsGap machine.now.bus.board.regions from first }
        requires above { from ≤ first }
        requires low { first < 2 ^ 32 }
        requires from_even { from % 2 ≡ 0 }
        requires first_even { first % 2 ≡ 0 }
        ensures { Scanned machine.now first self.new.gates.items self.new.half }
    {
        if first > from {
            self.half = false;
        }
    }

    /// Whether a halfword ends a gate that the one before it begins.
    fn ends_gate(&self, half: bool) -> bool
        ensures { result ≡ (half && self.now.half) }
    {
        half && self.half
    }

    /// Goes on over one halfword that Non-secure code may call.
    fn read_half(&mut self, machine: &Machine, addr: u32) -> Result<(), AllocError>
        requires scanned { Scanned machine.now addr self.old.gates.items self.old.half }
        requires entry { is_entry (map_of machine.now) addr ≡ true }
        requires even { addr % 2 ≡ 0 }
        ensures { OnOk result (Scanned machine.now (addr + 2) self.new.gates.items self.new.half) }
    {
        let half = is_gate_half(machine, addr);
        if self.ends_gate(half) {
            self.gates.push(addr - 2)?;
        }
        self.half = half;
        Ok(())
    }

    /// Goes on over a block of 32 bytes that Non-secure code may call.
    fn read_block(&mut self, machine: &Machine, block: u32) -> Result<(), AllocError>
        requires scanned { Scanned machine.now block self.old.gates.items self.old.half }
        requires entry { is_entry (map_of machine.now) block ≡ true }
        requires whole { block % 32 ≡ 0 }
        requires low { block < 0xE0000000 }
        ensures { OnOk result (Scanned machine.now (block + 32) self.new.gates.items self.new.half) }
    {
        know_regions(machine);
        for index in 0..16 {
            self.read_half(machine, block + 2 * index)?;
        }
        Ok(())
    }

    /// Goes on over a block of 32 bytes that Non-secure code may not call.
    fn pass_block(&mut self, machine: &Machine, block: u32)
        requires scanned { Scanned machine.now block self.old.gates.items self.old.half }
        requires entry { is_entry (map_of machine.now) block ≡ false }
        requires whole { block % 32 ≡ 0 }
        requires low { block < 0xE0000000 }
        ensures { Scanned machine.now (block + 32) self.new.gates.items self.new.half }
    {
        know_regions(machine);
        self.half = false;
    }

    /// Goes on over blocks of 32 bytes, up to an address.
    pub fn read_span(&mut self, machine: &Machine, first: u32, end: u32) -> Result<(), AllocError>
        requires scanned { Scanned machine.now first self.old.gates.items self.old.half }
        requires first_block { first % 32 ≡ 0 }
        requires end_block { end % 32 ≡ 0 }
        requires above { first ≤ end }
        requires low { end ≤ 0xE0000000 }
        ensures { OnOk result (Scanned machine.now end self.new.gates.items self.new.half) }
    {
        let mut block = first;
        'span: while block < end {
            if is_entry(machine, block) {
                self.read_block(machine, block)?;
            } else {
                self.pass_block(machine, block);
            }
            block += 32;
        }
        Ok(())
    }
}
