//! The system registers by name. A name has two levels: the group, by the part of the machine that a register
//! stands in, and the register within it.

use crate::units::{MpuRegister, SauRegister};
use tz_model::Side;

/// The registers of a SysTick timer.
#[derive(Clone, Copy)]
pub enum TimerRegister {
    Csr,
    Rvr,
    Cvr,
    Calib,
}

/// The arrays of the NVIC that have a bit for each interrupt: ISER, ICER, ISPR, ICPR, IABR and ITNS.
#[derive(Clone, Copy)]
pub enum Bank {
    Enable,
    Disable,
    Pend,
    Unpend,
    Active,
    Target,
}

/// The registers of the system control block, but for those of faults.
#[derive(Clone, Copy)]
pub enum ControlRegister {
    Cpuid,
    Icsr,
    Vtor,
    Aircr,
    Ccr,
    Shpr1,
    Shpr2,
    Shpr3,
    Shcsr,
}

/// The registers of a channel of the mover (own).
#[derive(Clone, Copy)]
pub enum MoverRegister {
    Src,
    Dst,
    Count,
    Ctrl,
}

/// The status and address registers of faults.
#[derive(Clone, Copy)]
pub enum FaultRegister {
    Cfsr,
    Hfsr,
    Mmfar,
    Bfar,
    Sfsr,
    Sfar,
}

/// A system register. The number of `Bits` is that of the word, for 32 interrupts each, and that of
/// `Priorities` that of the word for 4.
#[derive(Clone, Copy)]
pub enum Register {
    Ictr,
    Stir,
    Timer(TimerRegister),
    Bits(Bank, u8),
    Priorities(u8),
    Control(ControlRegister),
    Fault(FaultRegister),
    Mover(MoverRegister),
    Mpu(MpuRegister),
    Sau(SauRegister),
}

/// A register at an address, and whose view of it is had there.
#[derive(Clone, Copy)]
pub struct ViewedRegister {
    pub view: Side,
    pub register: Register,
}

/// What a write of a byte or a halfword does to a register.
#[derive(Clone, Copy)]
pub enum Narrow {
    /// It writes its bytes, and the others stay.
    Keeps,
    /// It is a write of a word whose other bytes are zero, so that ones clear no others.
    Zeros,
    /// Nothing.
    Ignored,
}
