//! The exceptions of a core: which are pending, active and enabled, their priorities, what groups them,
//! both SysTick timers, and which exception comes first (DDI0553, chapter B3, and the registers of NVIC and SysTick).
//!
//! A slot is a number with its side. All slots stand in one table by `index_of`; the definitions, in
//! `tz_state`, speak of that table and of the fields beside it. Nothing here knows the masks of the core.
#![tactic(auto)]

mod active;
mod choice;
mod copy;
mod difference;
mod due;
mod exceptions;
mod known;
mod laws;
mod lists;
mod place;
mod priority;
mod side;
mod tick;

pub use exceptions::Exceptions;
pub use laws::{chosen_comes_first, places_tell_slots};
pub use place::{FIRST_INTERRUPT_PLACE, PLACES, is_always_enabled};
pub use tz_ready::Steps;
pub use tz_state::{SlotState, Timer};
