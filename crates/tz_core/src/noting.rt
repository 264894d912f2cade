//! What is noted of how exceptions came into a step.

ghost use Rattle.std.specs.Prelude.{◌≡◌, ◌&&◌, Some};
ghost use Rattle.tz_state.specs.Timers.{interrupts, runs_out};
ghost use Rattle.tz_sem.specs.Taking.{unnoted, handling_of, with_fault, with_value, by_entry, by_value};

use tz_frames::{Entering, Refusal};
use tz_model::Fault;
use tz_sem::Handling;
use tz_state::Timer;
use tz_state::systick_bits::SYST_CSR_TICKINT;

const UNNOTED: Handling = Handling {
    fault: None,
    value: None,
    refused: None,
    entry: None,
};

/// What was noted before, where anything was.
fn handling_of(before: &Option<Handling>) -> Handling
    ensures { result ≡ handling_of before.now }
{
    match before {
        Some(handling) => *handling,
        None => UNNOTED,
    }
}

/// An entry from running code.
pub(crate) fn by_entry(entry: Entering) -> Handling
    ensures { result ≡ by_entry entry }
{
    Handling {
        fault: None,
        value: None,
        refused: None,
        entry: Some(entry),
    }
}

/// A return by a value, with the entry in its place, where there was one.
pub(crate) fn by_value(value: u32, refused: Option<Refusal>, entry: Option<Entering>) -> Handling
    ensures { result ≡ by_value value refused entry }
{
    Handling {
        fault: None,
        value: Some(value),
        refused,
        entry,
    }
}

/// Notes the fault with which the handling of exceptions began, of the instruction or of its fetch.
pub(crate) fn note_fault(noted: &mut Option<Handling>, fault: Fault)
    ensures { noted.new ≡ Some (with_fault fault (handling_of noted.old)) }
{
    let mut handling = handling_of(noted);
    handling.fault = Some(fault);
    *noted = Some(handling);
}

/// Notes the value by which code returned, or tried to.
pub(crate) fn note_value(noted: &mut Option<Handling>, value: u32)
    ensures { noted.new ≡ Some (with_value value (handling_of noted.old)) }
{
    let mut handling = handling_of(noted);
    handling.value = Some(value);
    *noted = Some(handling);
}

/// Whether the next count of a timer takes it from 1 to 0, so that its SysTick pends.
pub(crate) fn pends_next(timer: &Timer) -> bool
    ensures { result ≡ (runs_out timer.now && interrupts timer.now) }
{
    timer.csr % 2 == 1 && timer.cvr == 1 && timer.csr / SYST_CSR_TICKINT % 2 == 1
}

/// Blanks what was noted. Few steps note anything, and to blank it takes more than to look.
#[inline(always)]
pub(crate) fn unnote(noted: &mut Option<Handling>)
    ensures { noted.new ≡ None }
{
    if noted.is_some() {
        *noted = None;
    }
}
