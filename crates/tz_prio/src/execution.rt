//! The execution priority.

ghost use Rattle.std.specs.Prelude.{◌≡◌, ◌≤◌, true};
ghost use Rattle.tz_state.specs.Slots.{exists};
ghost use Rattle.tz_state.specs.Execution as told;
ghost use Rattle.tz_state.specs.Execution.{manual_priority};

use crate::masks::{side_priority, without_primask};
use std::sync::ledger::Ledger;
use tz_model::{Side, Slot};
use tz_nvic::{Exceptions, Steps};
use tz_regs::{Core, Masks};
use tz_state::exception::ZERO_PRIORITY;

/// The execution priority, four above the manual's.
#[tactic(auto, unfolding(tz_state::specs::Execution::execution))]
pub(crate) fn execution(masks: &Masks, exceptions: &Exceptions) -> u32
    ensures is { result ≡ told.execution exceptions.now masks.now }
    ensures few { result ≤ 260 }
{
    let secure = side_priority(exceptions, Side::Secure, &masks.s);
    let nonsecure = side_priority(exceptions, Side::NonSecure, &masks.ns);
    exceptions.raw_priority().min(secure.min(nonsecure))
}

/// The least group priority of the active exceptions (DDI0553, `RawExecutionPriority`): -3 to 255, or 256 where
/// none is active.
pub fn raw_priority(exceptions: &Exceptions) -> i32
    ensures { result ≡ manual_priority (told.raw_priority exceptions.now) }
{
    exceptions.raw_priority() as i32 - ZERO_PRIORITY as i32
}

/// The execution priority (DDI0553, `ExecutionPriority`): the least of the group priorities of active exceptions
/// and of the masks of both sides. It is -3 to 255, or 256 where nothing is active and no mask is set.
pub fn execution_priority(core: &Core, exceptions: &Exceptions) -> i32
    ensures { result ≡ manual_priority (told.execution exceptions.now core.now.masks) }
{
    execution(&core.masks, exceptions) as i32 - ZERO_PRIORITY as i32
}

/// Whether the group priority of a slot is below the execution priority under masks. The slot exists.
fn can_take_under(masks: &Masks, exceptions: &Exceptions, slot: Slot) -> bool
    requires { exists exceptions.now slot ≡ true }
    ensures { result ≡ told.can_take exceptions.now masks.now slot }
{
    exceptions.priority_of(exceptions.place_of(slot)) < execution(masks, exceptions)
}

/// Whether the group priority of a slot is below the execution priority. The slot exists.
pub fn can_take(core: &Core, exceptions: &Exceptions, slot: Slot) -> bool
    requires { exists exceptions.now slot ≡ true }
    ensures { result ≡ told.can_take exceptions.now core.now.masks slot }
{
    can_take_under(&core.masks, exceptions, slot)
}

/// Whether the exception that comes first is there and can be taken under masks.
fn takes_under<L: Ledger>(masks: &Masks, exceptions: &Exceptions, steps: &mut Steps<L>) -> bool
    ensures { result ≡ told.takes_first exceptions.now masks.now }
{
    match exceptions.chosen(steps) {
        None => false,
        Some(slot) => can_take_under(masks, exceptions, slot),
    }
}

/// Whether the exception that comes first (DDI0553, `PendingExceptionDetails`) is there, and its group priority is
/// below the execution priority. Where none comes first, no priority is asked.
pub fn takes_first<L: Ledger>(core: &Core, exceptions: &Exceptions, steps: &mut Steps<L>) -> bool
    ensures { result ≡ told.takes_first exceptions.now core.now.masks }
{
    takes_under(&core.masks, exceptions, steps)
}

/// Whether it would be taken with both PRIMASKs 0, as what ends a sleep is (DDI0553, WFI). Where none comes first,
/// no priority is asked.
pub fn wakes<L: Ledger>(core: &Core, exceptions: &Exceptions, steps: &mut Steps<L>) -> bool
    ensures { result ≡ told.wakes exceptions.now core.now.masks }
{
    takes_under(&without_primask(&core.masks), exceptions, steps)
}
