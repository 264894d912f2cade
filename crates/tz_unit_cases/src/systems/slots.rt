//! The slots of exceptions.

use crate::words::{side_at, tell_count, tell_flag, tell_number};
use tz_model::{Side, Slot};
use tz_nvic::{Exceptions, PLACES, SlotState};
use tz_testing::{Case, events_of, meant, side_word};

/// The slot of a step: its number and its side.
pub fn slot_of(case: &mut Case<'_>) -> Slot {
    Slot {
        number: case.half(1),
        side: side_at(case, 2),
    }
}

/// A step of slots.
pub enum SlotStep {
    Change,
    Target,
    Given,
    Place,
    Stands,
    Places,
    Due,
    Pending,
}

/// A change of a slot.
enum SlotChange {
    Pend,
    Unpend,
    Activate,
    Deactivate,
    Enable,
    Disable,
}

static CHANGES: [(&str, SlotChange); 6] = [
    ("pend", SlotChange::Pend),
    ("unpend", SlotChange::Unpend),
    ("activate", SlotChange::Activate),
    ("deactivate", SlotChange::Deactivate),
    ("enable", SlotChange::Enable),
    ("disable", SlotChange::Disable),
];

/// Changes a slot: `slot NUMBER SIDE CHANGE ..`, with the changes in order, of which a number is a priority.
fn change(exceptions: &mut Exceptions, case: &mut Case<'_>) {
    let slot = slot_of(case);
    for word in case.behind(3).split_whitespace() {
        if !exceptions.exists(slot) {
            return case.refuse();
        }
        match meant(&CHANGES, word) {
            Some(SlotChange::Pend) => exceptions.pend(slot),
            Some(SlotChange::Unpend) => exceptions.unpend(slot),
            Some(SlotChange::Activate) => exceptions.activate(slot),
            Some(SlotChange::Deactivate) => exceptions.deactivate(slot),
            Some(SlotChange::Enable) => exceptions.set_enabled(slot, true),
            Some(SlotChange::Disable) => exceptions.set_enabled(slot, false),
            None => {
                let number = case.number_in(word);
                exceptions.set_priority(slot, case.byte_in(number));
            }
        }
    }
}

/// Shows whether a slot is there, and where it is, whether it is pending, active and enabled, and its priority.
fn show(exceptions: &Exceptions, case: &mut Case<'_>) {
    let slot = slot_of(case);
    if !exceptions.exists(slot) {
        return case.tell_word("absent");
    }
    tell_flag(case, exceptions.pending(slot));
    tell_flag(case, exceptions.active(slot));
    tell_flag(case, exceptions.enabled(slot));
    tell_number(case, u32::from(exceptions.priority(slot)))
}

/// Gives an external interrupt to a side, `target NUMBER SIDE`, or shows the side that it is given to, `given NUMBER`.
fn target(exceptions: &mut Exceptions, gives: bool, case: &mut Case<'_>) {
    let number = case.half(1);
    if number < 16 || number >= exceptions.interrupts() + 16 {
        return case.refuse();
    }
    if gives {
        exceptions.set_target(number, side_at(case, 2));
    } else {
        case.tell_word(side_word(exceptions.target(number)))
    }
}

/// Puts a Secure slot at a place: `place INDEX PENDING ACTIVE ENABLED PRIORITY`.
fn place(exceptions: &mut Exceptions, case: &mut Case<'_>) {
    let index = case.half(1) as usize;
    let state = SlotState {
        pending: case.flag(2),
        active: case.flag(3),
        enabled: case.flag(4),
        priority: case.byte(5),
        target: Side::Secure,
    };
    if index >= PLACES {
        return case.refuse();
    }
    exceptions.put_at(index, state);
}

/// Shows how many interrupts there are, and how many places have a slot.
fn show_places(exceptions: &Exceptions, case: &mut Case<'_>) {
    let mut count: i32 = 0;
    for index in 0..PLACES {
        if exceptions.is_place(index) {
            count = count.saturating_add(1);
        }
    }
    tell_count(case, i32::from(exceptions.interrupts()));
    tell_count(case, count)
}

/// Pends at most three events of a script: `due EVENT ..`.
fn due(exceptions: &mut Exceptions, case: &mut Case<'_>) {
    let words = case.behind(1);
    let (events, count) = events_of(case, words);
    exceptions.pend_due(&events[..count.min(3)]);
}

/// Shows the places that are pending, or `none`.
fn show_pending(exceptions: &Exceptions, case: &mut Case<'_>) {
    let mut none = true;
    for index in 0..PLACES {
        if exceptions.at(index).pending {
            none = false;
            tell_count(case, index as i32);
        }
    }
    if none {
        case.tell_word("none");
    }
}

/// Does a step of slots.
pub fn step(exceptions: &mut Exceptions, step: &SlotStep, case: &mut Case<'_>) {
    match step {
        SlotStep::Change => change(exceptions, case),
        SlotStep::Target => target(exceptions, true, case),
        SlotStep::Given => target(exceptions, false, case),
        SlotStep::Place => place(exceptions, case),
        SlotStep::Stands => show(exceptions, case),
        SlotStep::Places => show_places(exceptions, case),
        SlotStep::Due => due(exceptions, case),
        SlotStep::Pending => show_pending(exceptions, case),
    }
}
