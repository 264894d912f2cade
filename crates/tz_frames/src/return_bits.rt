//! The bits of EXC_RETURN and RETPSR, each as the word that has it alone; a field is told by its lowest bit (DDI0553,
//! EXC_RETURN, RETPSR).

pub const EXC_RETURN_ES: u32 = 1 << 0;

pub const EXC_RETURN_SPSEL: u32 = 1 << 2;

pub const EXC_RETURN_MODE: u32 = 1 << 3;

pub const EXC_RETURN_FTYPE: u32 = 1 << 4;

pub const EXC_RETURN_DCRS: u32 = 1 << 5;

pub const EXC_RETURN_S: u32 = 1 << 6;

pub const EXC_RETURN_PREFIX: u32 = 1 << 24;
/// PREFIX and the bits 23 to 7, which are ones.
pub const EXC_RETURN_ONES: u32 = 0xFFFF_FF80;

/// Bit 2 of the stack pointer below which the frame was written.
pub const RETPSR_SPREALIGN: u32 = 1 << 9;
/// IT 7:2.
pub const RETPSR_IT_HIGH: u32 = 1 << 10;

pub const RETPSR_T: u32 = 1 << 24;
/// IT 1:0.
pub const RETPSR_IT_LOW: u32 = 1 << 25;
