//! The numbers of exceptions, as IPSR and the vector table have them (DDI0553, chapter B3), and priorities.

pub const NMI: u16 = 2;

pub const HARD_FAULT: u16 = 3;

pub const MEM_MANAGE: u16 = 4;

pub const BUS_FAULT: u16 = 5;

pub const USAGE_FAULT: u16 = 6;

pub const SECURE_FAULT: u16 = 7;

pub const SV_CALL: u16 = 11;

pub const PEND_SV: u16 = 14;

pub const SYS_TICK: u16 = 15;
/// The number of the first external interrupt; those of the system are below it.
pub const FIRST_INTERRUPT: u16 = 16;

/// The manual's priority 0; those below it are negative, as priorities stand four above the manual's.
pub const ZERO_PRIORITY: u32 = 4;
/// That of HardFault, -1.
pub const HARD_FAULT_PRIORITY: u32 = 3;
/// That of NMI, -2.
pub const NMI_PRIORITY: u32 = 2;
/// That of Secure HardFault while BFHFNMINS is 1, -3.
pub const SECURE_HARD_FAULT_PRIORITY: u32 = 1;
/// That of no exception and no mask.
pub const IDLE_PRIORITY: u32 = 260;
