//! What is active: its least priority, and whether it is one slot or several.

ghost use Rattle.std.specs.Prelude.{◌≡◌, ◌≤◌, ◌<◌, min, if◌then◌else◌};
ghost use Rattle.tz_state.specs.Priority.{priority_of};
ghost use Rattle.tz_state.specs.Execution.{is_active, raw_priority};
ghost use Rattle.tz_state.specs.Slots.{exception_number};
ghost use Rattle.tz_nvic.specs.ActiveSlots.{slot_added, has_other, active_slots};

use crate::exceptions::Exceptions;
use crate::place::exception_number;
use tz_state::exception::IDLE_PRIORITY;

/// What is active, as far as it tells whether there is a slot beside one of a given number.
#[derive(Clone, Copy)]
pub(crate) enum ActiveSlots {
    /// Nothing is active.
    Nothing,
    /// One slot is active, of this number.
    One(u16),
    /// Two slots or more are active. Both may have one number, on either side.
    Several,
}

impl ActiveSlots {
    /// With one more slot, of a given number.
    fn with(self, number: u16) -> ActiveSlots
        ensures { result ≡ slot_added number self }
    {
        match self {
            ActiveSlots::Nothing => ActiveSlots::One(number),
            ActiveSlots::One(_) | ActiveSlots::Several => ActiveSlots::Several,
        }
    }

    /// Whether there is one beside a slot of a given number.
    pub(crate) fn has_other(self, number: u16) -> bool
        ensures { result ≡ has_other self number }
    {
        match self {
            ActiveSlots::Nothing => false,
            ActiveSlots::One(other) => other != number,
            ActiveSlots::Several => true,
        }
    }
}

/// What a look at all slots finds of those that are active.
#[derive(Clone, Copy)]
pub(crate) struct Found {
    /// Their least priority, four above the manual's.
    pub(crate) least: u32,
    pub(crate) slots: ActiveSlots,
}

impl Exceptions {
    /// Whether a slot stands at a place that is active.
    fn is_active(&self, index: usize) -> bool
        requires { index < 272 }
        ensures { result ≡ is_active self.now index }
    {
        self.slots[index].active && self.is_place(index)
    }

    /// What is found with one more place.
    fn found_with(&self, index: usize, found: Found) -> Found
        requires index { index < 272 }
        requires few { found.least ≤ 260 }
        ensures least { result.least ≡ (if is_active self.now index then min (priority_of self.now index) found.least else found.least) }
        ensures slots { result.slots ≡ (if is_active self.now index then slot_added (exception_number index) found.slots else found.slots) }
        ensures few { result.least ≤ 260 }
    {
        if self.is_active(index) {
            Found {
                least: self.priority_of(index).min(found.least),
                slots: found.slots.with(exception_number(index)),
            }
        } else {
            found
        }
    }

    /// What is active, by a look at each slot that isn't idle, and at none where none is active.
    #[tactic(auto, unfolding(tz_state::specs::Execution::active_below, crate::specs::ActiveSlots::active_slots_below))]
    pub(crate) fn active_found(&self) -> Found
        ensures least { result.least ≡ raw_priority self.now }
        ensures slots { result.slots ≡ active_slots self.now }
        ensures few { result.least ≤ 260 }
    {
        let mut found = Found {
            least: IDLE_PRIORITY,
            slots: ActiveSlots::Nothing,
        };
        if self.active_count == 0 {
            return found;
        }
        for index in 0..self.idle_from {
            found = self.found_with(index, found);
        }
        found
    }

    /// The least priority of the active slots, four above the manual's.
    pub(crate) fn least_active(&self) -> u32
        ensures is { result ≡ raw_priority self.now }
        ensures few { result ≤ 260 }
    {
        self.active_found().least
    }

    /// The active slots.
    pub(crate) fn active_slots(&self) -> ActiveSlots
        ensures { result ≡ active_slots self.now }
    {
        self.active_found().slots
    }
}
