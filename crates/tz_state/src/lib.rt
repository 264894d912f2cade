//! The state of the machine, as definitions speak of it, and how it answers: memory, attribution, protection,
//! accesses, fetches, TT; the exceptions with their priorities and timers; the system registers by address; and what
//! tells two states apart.
//!
//! There are definitions here, and the types that they speak of, but no bodies: these stand in the crates above, in the
//! one that owns the part. The core is below, in tz_regs. The two calls are laws.
#![tactic(auto)]

ghost use Rattle.std.specs.Prelude.{◌≡◌, ◌↔◌, ℕ, OnErr, true, false};
ghost use Rattle.std.specs.FinMap.{get};
ghost use Rattle.tz_model.specs.Ports.{Access};
ghost use Rattle.tz_state.specs.Access.{Reached, access};
ghost use Rattle.tz_state.specs.Attribution.{SauState, is_open};
ghost use Rattle.tz_state.specs.Difference.{sau_differs, mpu_differs, exceptions_differ, open_bytes_differ};
ghost use Rattle.tz_state.specs.Protection.{MpuState};
ghost use Rattle.tz_state.specs.Slots.{ExceptionsValue};
ghost use Rattle.tz_state.specs.State.{Bus, map_in};

mod asker;
pub mod exception;
mod fetcher;
pub mod mover_bits;
mod moves;
mod probe;
mod register;
mod request;
mod slot;
pub mod systick_bits;
mod taken;
pub mod unit_bits;
mod units;

pub use asker::Asker;
pub use fetcher::Fetcher;
pub use moves::{Move, Moves};
pub use probe::Probe;
pub use register::{
    Bank, ControlRegister, FaultRegister, MoverRegister, Narrow, Register, TimerRegister,
    ViewedRegister,
};
pub use request::{Exclusive, Kind, Request};
pub use slot::{SlotState, Timer};
pub use taken::Taken;
pub use units::{Attribute, Bounds, MpuRegister, SauRegister};

/// An access that faults changes nothing.
pub fn faulting_access_changes_nothing()
    ensures { (r : Reached) (a : Access) → OnErr (access r a).1 ((access r a).0 ≡ r) }
{}

/// What nothing tells apart is the same: two SAUs, two MPUs, the exceptions of two cores whose timers are the same, and
/// the bytes of two memories at the addresses that Non-secure code may read in both. And what is the same isn't told
/// apart.
pub fn differences_tell()
    ensures sau { (u v : SauState) → (sau_differs u v ≡ false) ↔ (u ≡ v) }
    ensures mpu { (m n : MpuState) → (mpu_differs m n ≡ false) ↔ (m ≡ n) }
    ensures exceptions { (e f : ExceptionsValue) → e.timer_s ≡ f.timer_s → e.timer_ns ≡ f.timer_ns → (exceptions_differ e f ≡ false) ↔ (e ≡ f) }
    ensures bytes { (b c : Bus) → (open_bytes_differ b c ≡ false) ↔ ((a : ℕ) → is_open (map_in b) a ≡ true → is_open (map_in c) a ≡ true → get b.memory a ≡ get c.memory a) }
{}
