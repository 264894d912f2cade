//! The bits of CTRL of a channel of the mover, each as the word that has it alone (own).

pub const MOVER_GO: u32 = 1 << 0;

pub const MOVER_DONE: u32 = 1 << 1;

pub const MOVER_ERROR: u32 = 1 << 2;

pub const MOVER_IE: u32 = 1 << 3;
/// The lowest bit of IRQ, which has eight.
pub const MOVER_IRQ_0: u32 = 1 << 8;
/// What a write writes: GO, IE and IRQ.
pub const MOVER_CTRL_WRITTEN: u32 = MOVER_GO | MOVER_IE | 0xFF * MOVER_IRQ_0;
/// All of them.
pub const MOVER_CTRL_BITS: u32 = MOVER_CTRL_WRITTEN | MOVER_DONE | MOVER_ERROR;
