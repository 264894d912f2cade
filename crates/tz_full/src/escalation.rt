//! What became of the exception of a fault, by the state after the step (DDI0553, `CreateException`).

ghost use Rattle.std.specs.Prelude.{◌≡◌, ◌≤◌, ◌<◌, ◌+◌, ◌++◌, length, min, true, if◌then◌else◌};
ghost use Rattle.arrayvec.specs.ArrayString.{array_string_len};
ghost use Rattle.tz_state.specs.Slots.{exists, places};
ghost use Rattle.tz_state.specs.Priority.{priority_of};
ghost use Rattle.tz_full.specs.Escalation.{was_active, active_before, execution_before, hardened_at, escalated_at, why_text, forced_line, nor_text, lockup_line, became_text, raised_at, raised_text};

use crate::names::{push_exception_name, push_priority, push_slot};
use crate::text::{Text, push_side};
use tz_model::{Side, Slot};
use tz_nvic::{Exceptions, PLACES};
use tz_prio::{Taken, hard_side, side_priority};
use tz_regs::Masks;
use tz_state::exception::{HARD_FAULT, IDLE_PRIORITY};
use tz_tell::LentState;

/// Whether a slot stands at a place that was active before the exception at another one was taken.
fn was_active(exceptions: &Exceptions, taken: usize, index: usize) -> bool
    requires { index < 272 }
    ensures { result ≡ was_active exceptions.now taken index }
{
    exceptions.is_place(index) && exceptions.at(index).active && index != taken
}

/// The least priority so far, with the slot at a place where it was active.
fn least_with(exceptions: &Exceptions, taken: usize, index: usize, least: u32) -> u32
    requires index { index < 272 }
    requires few { least ≤ 260 }
    ensures is { result ≡ (if was_active exceptions.now taken index then min (priority_of exceptions.now index) least else least) }
    ensures few { result ≤ 260 }
{
    if was_active(exceptions, taken, index) {
        exceptions.priority_of(index).min(least)
    } else {
        least
    }
}

/// The least priority of the slots that were active, by a look at each.
#[tactic(auto, unfolding(crate::specs::Escalation::active_before))]
fn active_before(exceptions: &Exceptions, taken: usize) -> u32
    ensures is { result ≡ active_before exceptions.now taken places }
    ensures few { result ≤ 260 }
{
    let mut least = IDLE_PRIORITY;
    for index in 0..PLACES {
        least = least_with(exceptions, taken, index, least);
    }
    least
}

/// The execution priority before the exception at a place was taken.
#[tactic(auto, unfolding(crate::specs::Escalation::execution_before))]
fn execution_before(exceptions: &Exceptions, masks: &Masks, taken: usize) -> u32
    ensures is { result ≡ execution_before exceptions.now masks.now taken }
    ensures few { result ≤ 260 }
{
    let secure = side_priority(exceptions, Side::Secure, &masks.s);
    let nonsecure = side_priority(exceptions, Side::NonSecure, &masks.ns);
    active_before(exceptions, taken).min(secure.min(nonsecure))
}

/// HardFault of a side, or lockup, at an execution priority.
fn hardened_at(exceptions: &Exceptions, execution: u32, side: Side) -> Taken
    ensures { result ≡ hardened_at exceptions.now execution side }
{
    if exceptions.hard_priority(side) < execution {
        Taken::Hard(side)
    } else {
        Taken::Lockup
    }
}

/// What the exception at a place becomes at an execution priority.
fn escalated_at(exceptions: &Exceptions, execution: u32, index: usize) -> Taken
    requires { index < 272 }
    ensures { result ≡ escalated_at exceptions.now execution index }
{
    if exceptions.is_enabled(index) && exceptions.priority_of(index) < execution {
        return Taken::AsIs;
    }
    let side = hard_side(exceptions, exceptions.side_at(index));
    hardened_at(exceptions, execution, side)
}

/// Why an exception became HardFault.
fn push_why(text: &mut Text, slot: Slot, enabled: bool)
    requires { array_string_len text.old + 43 ≤ 4096 }
    ensures bytes { text.new.bytes ≡ text.old.bytes ++ why_text slot enabled }
    ensures len { array_string_len text.new ≤ array_string_len text.old + 43 }
{
    if enabled {
        text.push_str("its priority is not above that of the code");
    } else {
        push_exception_name(text, slot.number);
        text.push_str(" is not enabled");
    }
}

/// That HardFault of a side pends in place of an exception.
#[tactic(auto, unfolding(crate::specs::Escalation::forced_line))]
fn push_forced(text: &mut Text, side: Side, slot: Slot, enabled: bool)
    requires { array_string_len text.old + 104 ≤ 4096 }
    ensures bytes { text.new.bytes ≡ text.old.bytes ++ forced_line side slot enabled }
    ensures len { array_string_len text.new ≤ array_string_len text.old + 104 }
{
    text.push_str("    HardFault ");
    push_side(text, side);
    text.push_str(" for ");
    push_slot(text, slot);
    text.push_str(" (FORCED): ");
    push_why(text, slot, enabled);
    text.push_str("\n");
}

/// That neither an exception nor HardFault can be taken.
fn nor_text(slot: Slot) -> &'static str
    ensures text { result.now ≡ nor_text slot }
    ensures short { length result.now ≤ 30 }
{
    if slot.number == HARD_FAULT {
        " can't be taken"
    } else {
        " can't be taken, nor HardFault"
    }
}

/// That the core locks, as neither an exception nor HardFault is above an execution priority.
#[tactic(auto, unfolding(crate::specs::Escalation::lockup_line))]
fn push_lockup(text: &mut Text, slot: Slot, execution: u32)
    requires small { execution ≤ 260 }
    requires room { array_string_len text.old + 104 ≤ 4096 }
    ensures bytes { text.new.bytes ≡ text.old.bytes ++ lockup_line slot execution }
    ensures len { array_string_len text.new ≤ array_string_len text.old + 104 }
{
    text.push_str("    lockup: ");
    push_slot(text, slot);
    text.push_str(nor_text(slot));
    text.push_str(": the code has priority ");
    push_priority(text, execution);
    text.push_str("\n");
}

/// What an exception became, where it didn't stay what it is.
#[tactic(auto, unfolding(crate::specs::Escalation::became_text))]
fn push_became(text: &mut Text, became: Taken, slot: Slot, enabled: bool, execution: u32)
    requires small { execution ≤ 260 }
    requires room { array_string_len text.old + 104 ≤ 4096 }
    ensures bytes { text.new.bytes ≡ text.old.bytes ++ became_text became slot enabled execution }
    ensures len { array_string_len text.new ≤ array_string_len text.old + 104 }
{
    match became {
        Taken::AsIs => {}
        Taken::Hard(side) => push_forced(text, side, slot, enabled),
        Taken::Lockup => push_lockup(text, slot, execution),
    }
}

/// What the exception at a place became at an execution priority.
#[tactic(auto, unfolding(crate::specs::Escalation::raised_at))]
fn push_raised_at(text: &mut Text, exceptions: &Exceptions, execution: u32, index: usize)
    requires below { index < 272 }
    requires small { execution ≤ 260 }
    requires room { array_string_len text.old + 104 ≤ 4096 }
    ensures bytes { text.new.bytes ≡ text.old.bytes ++ raised_at exceptions.now execution index }
    ensures len { array_string_len text.new ≤ array_string_len text.old + 104 }
{
    let became = escalated_at(exceptions, execution, index);
    let slot = exceptions.slot_at(index);
    push_became(text, became, slot, exceptions.is_enabled(index), execution);
}

/// What an exception that a fault raised became, in a step that took the one at a place.
#[tactic(auto, unfolding(crate::specs::Escalation::raised_text))]
pub fn push_raised(text: &mut Text, state: &LentState, taken: usize, slot: Slot)
    requires exists { exists state.now.exceptions slot ≡ true }
    requires room { array_string_len text.old + 104 ≤ 4096 }
    ensures bytes { text.new.bytes ≡ text.old.bytes ++ raised_text state.now taken slot }
    ensures len { array_string_len text.new ≤ array_string_len text.old + 104 }
{
    let exceptions = state.exceptions();
    let execution = execution_before(exceptions, &state.core().masks, taken);
    push_raised_at(text, exceptions, execution, exceptions.place_of(slot));
}
