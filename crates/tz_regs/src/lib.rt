//! The core's registers, with both banks: what is in use, reads and writes, special registers, the IT state, masks and
//! fault status (DDI0553, chapter B3 and `R[]`, `SP`, `MRS`, `MSR`).
//!
//! The structs are what the definitions in `specs/` speak of. Each reader gives the word that the manual's register
//! has; each writer keeps the bits that the register has and changes nothing else.
#![tactic(auto)]

mod access;
mod channels;
pub mod fault_bits;
mod it;
mod parts;
mod readers;
pub mod register_bits;
mod reset;
mod special;
mod status;
mod writers;

pub use parts::{
    Apsr, Before, BusStatus, Core, Masks, Registers, Running, SecurityStatus, SideMasks,
    SideStatus, Stacks, Status,
};
pub use special::{Special, StackLimit};
