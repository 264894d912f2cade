//! The system registers by address (DDI0553, chapter D1.2): what each shows to the code of a side, and what
//! reads and writes change.
//!
//! `SystemRegisters` is lent the state that they stand in, and `System` the whole core. Whether the code may
//! access them at all isn't known here.
#![tactic(auto)]

mod bits;
mod channels;
mod control;
mod faults;
mod interrupts;
mod numbers;
mod parts;
mod pieces;
mod system;
mod table;
mod timers;
mod views;

pub use system::{System, SystemRegisters};
pub use table::register_at;
