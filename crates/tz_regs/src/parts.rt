//! The core's parts, by who writes them.
//!
//! `Running` is written by the step alone, `Registers`, `Stacks` and `Masks` by instructions, `Status` by
//! the system registers and by faults. Words are 32 bits, bit 0 of PC is clear, and so are the low bits of
//! stack pointers (2) and limits (3).

use tz_model::{Channel, Side, Sleep};

/// The flags of the application (DDI0553, APSR).
#[derive(Clone, Copy)]
pub struct Apsr {
    pub n: bool,
    pub z: bool,
    pub c: bool,
    pub v: bool,
    /// A value was saturated.
    pub q: bool,
}

/// What the running code has, whichever side it is of.
#[derive(Clone, Copy)]
pub struct Registers {
    /// R0 to R12.
    pub general: [u32; 13],
    pub lr: u32,
    pub pc: u32,
    pub apsr: Apsr,
    /// EPSR.IT: the condition and the mask of the IT block, 0 outside one.
    pub it: u8,
    /// EPSR.T: whether code is of the Thumb instruction set.
    pub t: bool,
    /// The number of the exception that is handled, 0 in Thread mode.
    pub ipsr: u16,
}

/// Whose code runs, and whether any does.
#[derive(Clone, Copy)]
pub struct Running {
    pub side: Side,
    /// A locked core does nothing any more.
    pub locked: bool,
    pub sleep: Sleep,
}

/// The stack pointers of a side, with their limits and CONTROL.
#[derive(Clone, Copy)]
pub struct Stacks {
    pub msp: u32,
    pub psp: u32,
    pub msplim: u32,
    pub psplim: u32,
    /// CONTROL.nPRIV: Thread mode is unprivileged.
    pub npriv: bool,
    /// CONTROL.SPSEL: Thread mode uses PSP.
    pub spsel: bool,
}

/// What masks exceptions, by side.
#[derive(Clone, Copy)]
pub struct SideMasks {
    pub primask: bool,
    pub basepri: u8,
    pub faultmask: bool,
}

/// The masks of both sides.
#[derive(Clone, Copy)]
pub struct Masks {
    pub s: SideMasks,
    pub ns: SideMasks,
}

/// The configuration, the fault registers and the channel of the mover of a side. Of a board without a mover the channel
/// is zero.
#[derive(Clone, Copy)]
pub struct SideStatus {
    pub vtor: u32,
    pub ccr: u32,
    pub ufsr: u32,
    pub mmfsr: u32,
    pub mmfar: u32,
    pub channel: Channel,
}

/// The fault registers of SecureFault.
#[derive(Clone, Copy)]
pub struct SecurityStatus {
    pub sfsr: u32,
    pub sfar: u32,
}

/// The fault registers of BusFault and HardFault, which are of the side that AIRCR.BFHFNMINS gives them.
#[derive(Clone, Copy)]
pub struct BusStatus {
    pub bfsr: u32,
    pub bfar: u32,
    pub hfsr: u32,
}

/// All that system registers and faults write of the core, and moves.
#[derive(Clone, Copy)]
pub struct Status {
    pub s: SideStatus,
    pub ns: SideStatus,
    pub security: SecurityStatus,
    pub bus: BusStatus,
}

/// All that a core holds but its exceptions and its monitor.
#[derive(Clone, Copy)]
pub struct Core {
    pub run: Running,
    pub registers: Registers,
    pub stacks_s: Stacks,
    pub stacks_ns: Stacks,
    pub masks: Masks,
    /// The event flag.
    pub event: bool,
    pub status: Status,
}

/// What the report of a step needs of the core before it.
#[derive(Clone, Copy)]
pub struct Before {
    /// The state in which the step starts; a locked core counts as Secure.
    pub side: Side,
    pub registers: Registers,
    /// The stack pointer in use.
    pub sp: u32,
}
