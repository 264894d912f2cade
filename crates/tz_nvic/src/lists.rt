//! The ready lists of the slots: a slot that is pending and enabled is linked in the list of its priority and side.
//!
//! NMI and HardFault, whose priorities are fixed, are linked in none; the choice looks at their three slots each time. The
//! order by group priority and subpriority within a side is that of the priority registers, whatever PRIGROUP and PRIS
//! are, so a change of these moves no slot.
//!
//! The lists stand beside the table of slots, by the places of that table, and not in its records: these are what the
//! definitions speak of, and what is copied when a step is noted. A copy of the lists writes nothing where nothing is
//! linked, as in most steps.

ghost use Rattle.std.specs.Prelude.{◌≡◌, ◌<◌};
ghost use Rattle.tz_nvic.specs.Lists.{side_by, queue_by};

use crate::exceptions::Exceptions;
use crate::place::{FIRST_INTERRUPT_PLACE, exception_number, is_always_enabled};
use tz_model::Side;
use tz_ready::Queue;
use tz_state::SlotState;
use tz_state::exception::{BUS_FAULT, HARD_FAULT, NMI};

impl Exceptions {
    /// The side of the slot at a place, where this is kept of it.
    pub(crate) fn side_by(&self, index: usize, slot: &SlotState) -> Side
        requires { index < 272 }
        ensures { result ≡ side_by self.now index slot.now }
    {
        if index < FIRST_INTERRUPT_PLACE {
            let number = index as u16 / 2;
            if index % 2 == 1 || ((number == NMI || number == BUS_FAULT) && self.bfhfnmins) {
                Side::NonSecure
            } else {
                Side::Secure
            }
        } else {
            slot.target
        }
    }

    /// The list in which the slot at a place is linked, where this is kept of it.
    pub(crate) fn queue_by(&self, index: usize, slot: &SlotState) -> Option<Queue>
        requires { index < 272 }
        ensures { result ≡ queue_by self.now index slot.now }
    {
        let number = exception_number(index);
        let waits = slot.pending && (is_always_enabled(number) || slot.enabled);
        if waits && self.is_place(index) && number != NMI && number != HARD_FAULT {
            Some(Queue {
                level: slot.priority,
                side: self.side_by(index, slot),
            })
        } else {
            None
        }
    }
}
