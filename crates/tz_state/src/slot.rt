//! What is kept of each exception, and the registers of a timer.

use tz_model::Side;

/// What is kept of a slot.
#[derive(Clone, Copy, PartialEq, Eq)]
pub struct SlotState {
    pub pending: bool,
    pub active: bool,
    /// Whether software enabled it; NMI, HardFault, SVCall, PendSV and SysTick need no enabling.
    pub enabled: bool,
    /// All eight bits of the priority register.
    pub priority: u8,
    /// The side of an external interrupt (NVIC_ITNS), and Secure for the others.
    pub target: Side,
}

/// The SysTick timer of a side: SYST_CSR with ENABLE 0, TICKINT 1, CLKSOURCE 2 and COUNTFLAG 16, and 24
/// bits each of SYST_RVR and SYST_CVR, in counts.
#[derive(Clone, Copy)]
pub struct Timer {
    pub csr: u32,
    pub rvr: u32,
    pub cvr: u32,
}
