//! The bits of SYST_CSR, each as the word that has it alone (DDI0553, SYST_CSR).

pub const SYST_CSR_ENABLE: u32 = 1 << 0;

pub const SYST_CSR_TICKINT: u32 = 1 << 1;

pub const SYST_CSR_CLKSOURCE: u32 = 1 << 2;

pub const SYST_CSR_COUNTFLAG: u32 = 1 << 16;
/// All of them.
pub const SYST_CSR_BITS: u32 = SYST_CSR_ENABLE
    | SYST_CSR_TICKINT
    | SYST_CSR_CLKSOURCE
    | SYST_CSR_COUNTFLAG;
