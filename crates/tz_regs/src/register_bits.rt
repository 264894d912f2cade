//! The bits of CCR, CONTROL and APSR, each as the word that has it alone (DDI0553, CCR, CONTROL, APSR).

// ---- CCR

pub const CCR_UNALIGN_TRP: u32 = 1 << 3;

pub const CCR_DIV_0_TRP: u32 = 1 << 4;
/// Reserved, and read as 1.
pub const CCR_RES1: u32 = 1 << 9;
/// Those that a write keeps.
pub const CCR_BITS: u32 = CCR_UNALIGN_TRP | CCR_DIV_0_TRP;

// ---- CONTROL

pub const CONTROL_SPSEL: u32 = 1 << 1;

// ---- APSR

pub const APSR_Q: u32 = 1 << 27;

pub const APSR_V: u32 = 1 << 28;

pub const APSR_C: u32 = 1 << 29;

pub const APSR_Z: u32 = 1 << 30;

pub const APSR_N: u32 = 1 << 31;
