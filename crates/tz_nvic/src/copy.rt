//! Exceptions as they were, or as others are. No memory is taken.

ghost use Rattle.std.specs.Prelude.{◌≡◌, ◌≤◌, ◌++◌, length, take, drop};

use crate::exceptions::Exceptions;
use tz_state::SlotState;

/// Makes the slots below a place as others are.
fn copy_below(slots: &mut [SlotState], others: &[SlotState], end: usize)
    requires slots { end ≤ length slots.old }
    requires others { end ≤ length others.now }
    ensures { slots.new ≡ take end others.now ++ drop end slots.old }
{
    slots[..end].copy_from_slice(&others[..end]);
}

impl Exceptions {
    /// Makes all of it as other exceptions are, with what is known of them. Slots that are idle in both stay.
    pub fn copy_from(&mut self, other: &Exceptions)
        ensures { self.new ≡ other.now }
    {
        let end = self.idle_from.max(other.idle_from);
        copy_below(&mut self.slots, &other.slots, end);
        self.ready.copy_from(&other.ready, end);
        self.idle_from = other.idle_from;
        self.active_count = other.active_count;
        self.interrupts = other.interrupts;
        self.prigroup_s = other.prigroup_s;
        self.prigroup_ns = other.prigroup_ns;
        self.pris = other.pris;
        self.bfhfnmins = other.bfhfnmins;
        self.timer_s = other.timer_s;
        self.timer_ns = other.timer_ns;
        self.known = other.known;
    }
}
