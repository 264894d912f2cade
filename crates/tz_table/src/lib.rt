//! The words in which every other crate speaks of the instruction set: security states, sizes of
//! accesses, shifts, codes, and the instructions of Armv8-M Mainline without floating point and DSP.
//!
//! Beside them stands the table: each instruction's row, its pattern, and the limits of its fields. Nothing here decodes or
//! runs a code.
#![tactic(auto)]

mod data_limits;
mod decoded;
mod holds;
mod instruction;
pub mod limits;
mod memory_limits;
mod narrow_limits;
mod other_limits;
mod parts;
mod rows;
mod units;

pub use decoded::Decoded;
pub use holds::limits_hold;
pub use instruction::{
    Address, BarrierOp, DataOp, ExtendOp, FieldOp, Flags, Insn, LongOp, MultiplyOp, ReverseOp,
};
pub use parts::{high_register, imm5, imm12};
pub use rows::{Row, row_at, row_count};
pub use units::{Code, Shift, Side, Size, Width};
