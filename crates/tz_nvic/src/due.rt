//! The events of a script.

ghost use Rattle.std.specs.Prelude.{◌≡◌};
ghost use Rattle.tz_state.specs.Due as told;
ghost use Rattle.tz_state.specs.Due.{slots_pended, slot_of_event};

use crate::exceptions::Exceptions;
use tz_model::{ScriptEvent, Side, Slot};
use tz_state::exception::{FIRST_INTERRUPT, NMI};

impl Exceptions {
    /// Sets the slot of an event pending. That of an interrupt that the core hasn't is passed over.
    fn pend_event(&mut self, event: ScriptEvent)
        ensures { self.new ≡ record self.old { slots = slots_pended self.old (slot_of_event event) } }
    {
        match event {
            ScriptEvent::Irq(n) => {
                if n < self.interrupts {
                    self.pend(Slot {
                        number: n + FIRST_INTERRUPT,
                        side: Side::Secure,
                    });
                }
            }
            ScriptEvent::Nmi => self.pend(Slot {
                number: NMI,
                side: Side::Secure,
            }),
        }
    }

    /// Sets the slots of events pending, in order. Those of interrupts that the core hasn't are passed over.
    #[tactic(auto, unfolding(tz_state::specs::Due::slots_due))]
    pub fn pend_due(&mut self, due: &[ScriptEvent])
        ensures { self.new ≡ told.due self.old due.now }
    {
        for event in due {
            self.pend_event(*event);
        }
    }
}
