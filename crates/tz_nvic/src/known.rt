//! What a look at all slots finds, and the calls that answer from it.

ghost use Rattle.std.specs.Prelude.{◌≡◌, ◌≤◌, ◌<◌, ◌+◌, true, IfSome};
ghost use Rattle.tz_state.specs.Slots.{exists, is_place};
ghost use Rattle.tz_state.specs.Priority.{chosen_place, chosen};
ghost use Rattle.tz_state.specs.Execution.{raw_priority};
ghost use Rattle.tz_state.specs.ControlRegisters.{is_interrupt_pending, returns_to_base};
ghost use Rattle.tz_nvic.specs.ActiveSlots.{active_slots};
ghost use Rattle.tz_nvic.specs.Known.{IsKnown};

use crate::active::ActiveSlots;
use crate::exceptions::Exceptions;
use std::sync::ledger::Ledger;
use tz_model::Slot;
use tz_ready::Steps;

/// What a look at all slots finds.
#[derive(Clone, Copy)]
pub(crate) struct Known {
    /// The place of the slot that comes first.
    chosen: Option<usize>,
    /// The least priority of the active slots, four above the manual's.
    raw: u32,
    /// Whether an external interrupt is pending.
    interrupt: bool,
    /// The active slots.
    active: ActiveSlots,
}

impl Exceptions {
    /// Looks at the slots.
    fn look<L: Ledger>(&self, steps: &mut Steps<L>) -> Known
        ensures is { IsKnown self.now result }
        ensures looks { steps.new ≤ steps.old + 24 }
    {
        let found = self.active_found();
        Known {
            chosen: self.chosen_place(steps),
            raw: found.least,
            interrupt: self.any_pending(),
            active: found.slots,
        }
    }

    /// Looks at the slots, of which nothing is known. Few steps come here.
    #[inline(never)]
    fn settle_anew<L: Ledger>(&mut self, steps: &mut Steps<L>)
        ensures same { self.new ≡ self.old }
        ensures looks { steps.new ≤ steps.old + 24 }
    {
        let known = self.look(steps);
        self.known = Some(known);
    }

    /// Looks at the slots once, where something was written since the last look that it depends on; timers are
    /// not. Until the next such write `chosen`, `raw_priority`, `is_interrupt_pending` and `returns_to_base`
    /// answer without a look.
    #[inline(always)]
    pub fn settle<L: Ledger>(&mut self, steps: &mut Steps<L>)
        ensures same { self.new ≡ self.old }
        ensures looks { steps.new ≤ steps.old + 24 }
    {
        if self.known.is_none() {
            self.settle_anew(steps);
        }
    }

    /// The place of the slot that comes first.
    fn first_place<L: Ledger>(&self, steps: &mut Steps<L>) -> Option<usize>
        ensures is { result ≡ chosen_place self.now }
        ensures few { IfSome result (λ i. i < 272) }
        ensures place { IfSome result (λ i. is_place self.now i ≡ true) }
        ensures looks { steps.new ≤ steps.old + 24 }
    {
        match &self.known {
            Some(known) => known.chosen,
            None => self.chosen_place(steps),
        }
    }

    /// The active slots, as far as RETTOBASE needs them.
    fn known_active(&self) -> ActiveSlots
        ensures { result ≡ active_slots self.now }
    {
        match &self.known {
            Some(known) => known.active,
            None => self.active_slots(),
        }
    }

    /// The exception that comes first (DDI0553, `PendingExceptionDetails`): of those that are pending and
    /// enabled, that of the least group priority, then subpriority, then number, and of one number the Secure
    /// one. None exactly where nothing is pending and enabled. It takes at most 24 looks, however many slots there are.
    pub fn chosen<L: Ledger>(&self, steps: &mut Steps<L>) -> Option<Slot>
        ensures is { result ≡ chosen self.now }
        ensures exists { IfSome result (λ slot. exists self.now slot ≡ true) }
        ensures looks { steps.new ≤ steps.old + 24 }
    {
        match self.first_place(steps) {
            None => None,
            Some(index) => Some(self.slot_at(index)),
        }
    }

    /// The least group priority of the active exceptions (DDI0553, `RawExecutionPriority`), four above the
    /// manual's: 1 to 259, or 260 where none is active.
    pub fn raw_priority(&self) -> u32
        ensures is { result ≡ raw_priority self.now }
        ensures few { result ≤ 260 }
    {
        match &self.known {
            Some(known) => known.raw,
            None => self.least_active(),
        }
    }

    /// ICSR.ISRPENDING: whether an external interrupt of either side is pending, enabled or not.
    pub fn is_interrupt_pending(&self) -> bool
        ensures { result ≡ is_interrupt_pending self.now }
    {
        match &self.known {
            Some(known) => known.interrupt,
            None => self.any_pending(),
        }
    }

    /// ICSR.RETTOBASE in a handler of an exception number, 0 in Thread mode: whether an exception is handled and
    /// no slot is active but one of its number. Two slots of one number, of both sides, are two.
    #[tactic(auto, using(crate::proofs::ActiveSlots::others_told))]
    pub fn returns_to_base(&self, ipsr: u16) -> bool
        ensures { result ≡ returns_to_base self.now ipsr }
    {
        ipsr != 0 && !self.known_active().has_other(ipsr)
    }
}
