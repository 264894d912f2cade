//! Frames: how entries and returns of exceptions, and the return of a call, reach stacks and vector tables; and the
//! definitions of entries, returns and the calls between the sides: frames, what a fault sets and pends, how an
//! exception is taken, and how one is left.
//!
//! `Frames` is what they are written over; the machine's are made of the bus, in `tz_access`. The definitions of
//! entries stand in `specs/`, over whatever frames and ports they reach; bodies that meet them stand in crates
//! above. The one call of their own is a law.
#![tactic(auto)]

ghost use Rattle.std.specs.Prelude.{◌≡◌, ℕ, Bool, true};
ghost use Rattle.tz_model.specs.declared.board.Profile.{Profile};
ghost use Rattle.tz_regs.specs.declared.parts.Core.{Core};
ghost use Rattle.tz_frames.specs.Registers.{taken_registers};
ghost use Rattle.tz_table.specs.declared.units.Side.TheVariants.{NonSecure};
ghost use Rattle.tz_regs.specs.declared.parts.Registers.{Registers};
ghost use Rattle.std.specs.Prelude.{replicate};

mod entering;
mod fault;
mod frame;
mod frames;
mod leaving;
pub mod return_bits;

pub use entering::{Choice, Entered, Entering, FrameFault};
pub use fault::{FaultAddress, FaultEffect, FaultException};
pub use frame::{
    ADDITIONAL_FRAME_SIZE, BASIC_FRAME_SIZE, BOTH_FRAMES_SIZE, Basic, CALL_FRAME_SIZE, Callee,
    StackFault,
};
pub use frames::Frames;
pub use leaving::{Left, Refusal, Returning, Unstacked};

/// A Non-secure exception that interrupts Secure code finds zeros in R0 to R12, whatever stood there.
pub fn hides_registers()
    ensures { (profile : Profile) (r : Registers) → (taken_registers profile NonSecure true r).general ≡ replicate 13 0 }
{}
