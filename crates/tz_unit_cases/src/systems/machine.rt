//! What the steps of a case are done to.

ghost use Rattle.std.specs.Prelude.{◌≤◌};

use std::alloc::{AllocError, Global};
use tz_access::Bus;
use tz_board::demo_board;
use tz_model::{Board, Profile, Region, RegionKind, RegionSide};
use tz_nvic::Exceptions;
use tz_regs::Core;
use tz_testing::{Case, profile_in};

/// A core with its exceptions and the bus.
#[derive(Drop)]
pub struct Machine {
    pub core: Core,
    /// The core as the case begins.
    pub start: Core,
    /// The core that a change is told from.
    pub before: Core,
    /// The execution priority that instructions are told.
    pub priority: i32,
    pub exceptions: Exceptions,
    pub bus: Bus,
}

/// A board with a mover, with 8 regions of the SAU and of the Secure MPU, and 4 of the Non-secure one.
fn small_board(alloc: Global, profile: Profile) -> Result<Board, AllocError> {
    let region = Region {
        base: 0x2000_0000,
        size: 0x20,
        kind: RegionKind::Ram,
        side: RegionSide::Secure,
    };
    let regions = vec![in alloc; region]?;
    Ok(Board {
        secure_vtor: 0,
        nonsecure_vtor: 0,
        interrupts: 40,
        sau_regions: 8,
        mpu_secure: 8,
        mpu_nonsecure: 4,
        profile,
        mover: true,
        regions,
        sau: Vec::new(alloc),
    })
}

/// The board of a name: the built-in one, or the small one of a profile.
fn board_of(case: &mut Case<'_>, name: &str) -> Result<Board, AllocError> {
    if name == "demo" {
        demo_board(case.alloc)
    } else {
        let profile = profile_in(case, name);
        small_board(case.alloc, profile)
    }
}

/// A machine after a reset, of a board and a number of interrupts.
fn machine_on(alloc: Global, board: &Board, interrupts: u16) -> Result<Machine, AllocError>
    requires some { 1 ≤ interrupts }
    requires few { interrupts ≤ 240 }
{
    let core = Core::new();
    Ok(Machine {
        core,
        start: core,
        before: core,
        priority: 256,
        exceptions: Exceptions::new(alloc, interrupts)?,
        bus: Bus::new(alloc, board)?,
    })
}

/// The machine that the step of a case says: the name of a board and a number of interrupts.
pub fn machine_of(case: &mut Case<'_>) -> Result<Machine, AllocError> {
    let name = case.word(0);
    let mut interrupts = case.half(1);
    if interrupts < 1 || interrupts > 240 {
        case.refuse();
        interrupts = 1;
    }
    let board = board_of(case, name)?;
    machine_on(case.alloc, &board, interrupts)
}
