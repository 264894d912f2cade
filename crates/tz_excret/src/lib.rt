//! Exceptions as they are raised, taken and left (DDI0553, chapter B3): what a fault sets and pends, entry and
//! return, over any `Frames`.
//!
//! Each call is its definition in `tz_frames`. Nothing here reaches memory but through the frames.
#![tactic(auto)]

ghost use Rattle.std.specs.Prelude.{◌≡◌, ◌≤◌, ℕ, length};
ghost use Rattle.tz_model.specs.declared.board.Profile.{Profile};
ghost use Rattle.tz_state.specs.Slots.{places};
ghost use Rattle.tz_frames.specs.Machine.{Framed, framed};
ghost use Rattle.tz_frames.specs.Enter.{Work, tries, chooses};

mod choice;
mod choices;
mod effect;
mod entering;
mod exc_return;
mod frame;
mod leaving;
mod raise;
mod release;
mod sides;
mod status;
mod vector;
mod work;

pub use choice::takes_first_uncounted;
pub use entering::enter;
pub use exc_return::{is_exc_return, is_well_formed, returning_by};
pub use frame::has_callee;
pub use leaving::leave;
pub use raise::{exception_of, frame_exception, raise_fault};
pub use sides::side_of_bit;
pub use tz_frames::{Entered, Left};

/// The bound of the choices of an entry or a tail-chain bounds nothing: with each bound from three on they end alike. So no
/// fourth choice is ever made.
pub fn choices_are_enough()
    ensures { (profile : Profile) (w : Work Framed) (n : ℕ) → length w.exceptions.slots ≡ places → 3 ≤ n → tries framed profile n w ≡ chooses framed profile w }
{}
