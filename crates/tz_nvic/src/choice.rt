//! The choice among the exceptions.

ghost use Rattle.std.specs.Prelude.{◌≡◌, ◌≤◌, ◌<◌, ◌+◌, true, IfSome};
ghost use Rattle.tz_nvic.specs.Choice.{candidate_at, lower, Leads, IsOn};
ghost use Rattle.tz_state.specs.Slots.{is_place};
ghost use Rattle.tz_state.specs.ControlRegisters.{is_interrupt_pending};
ghost use Rattle.tz_state.specs.Priority.{is_ready, chosen_place};

use crate::exceptions::Exceptions;
use crate::place::{FIRST_INTERRUPT_PLACE, HARD_FAULT_PLACE_NS, HARD_FAULT_PLACE_S, NMI_PLACE};
use std::sync::ledger::Ledger;
use tz_model::Side;
use tz_ready::Steps;

/// A slot that is ready: its place, and where it stands in the order of priorities.
#[derive(Clone, Copy)]
pub(crate) struct Candidate {
    place: usize,
    rank: u32,
}

/// The one that comes before the other.
fn lower(one: Option<Candidate>, other: Option<Candidate>) -> Option<Candidate>
    ensures { result ≡ lower one other }
{
    match (one, other) {
        (None, _) => other,
        (Some(_), None) => one,
        (Some(a), Some(b)) => { if a.rank < b.rank { one } else { other } }
    }
}

impl Exceptions {
    /// Whether a slot stands at a place that is pending and enabled.
    fn is_ready(&self, index: usize) -> bool
        requires { index < 272 }
        ensures { result ≡ is_ready self.now index }
    {
        self.slots[index].pending && self.is_enabled(index) && self.is_place(index)
    }

    /// The slot at a place, where it is ready. It takes one look.
    fn candidate<L: Ledger>(&self, index: usize, steps: &mut Steps<L>) -> Option<Candidate>
        requires { index < 272 }
        ensures is { result ≡ candidate_at self.now index }
        ensures looks { steps.new ≡ steps.old + 1 }
    {
        steps.look();
        if self.is_ready(index) {
            Some(Candidate {
                place: index,
                rank: self.rank_of(index),
            })
        } else {
            None
        }
    }

    /// The slot that comes first of those of a side whose priorities aren't fixed. It takes at most ten looks, however
    /// many are ready: the lists have it first.
    fn first_on<L: Ledger>(&self, side: Side, steps: &mut Steps<L>) -> Option<Candidate>
        ensures is { Leads self.now (IsOn self.now side) result }
        ensures looks { steps.new ≤ steps.old + 10 }
    {
        match self.ready.first(side, 0, steps) {
            None => None,
            Some(slot) => self.candidate(usize::from(slot), steps),
        }
    }

    /// The place of the slot that comes first, by at most 24 looks: at what comes first of each side, and at the three
    /// slots of fixed priority. Most steps know it from earlier: so it stays a call, and what each step does is small.
    #[inline(never)]
    pub(crate) fn chosen_place<L: Ledger>(&self, steps: &mut Steps<L>) -> Option<usize>
        ensures is { result ≡ chosen_place self.now }
        ensures few { IfSome result (λ i. i < 272) }
        ensures place { IfSome result (λ i. is_place self.now i ≡ true) }
        ensures looks { steps.new ≤ steps.old + 24 }
    {
        let nmi = self.candidate(NMI_PLACE, steps);
        let hard_s = self.candidate(HARD_FAULT_PLACE_S, steps);
        let hard_ns = self.candidate(HARD_FAULT_PLACE_NS, steps);
        let secure = self.first_on(Side::Secure, steps);
        let nonsecure = self.first_on(Side::NonSecure, steps);
        let fixed = lower(nmi, lower(hard_s, hard_ns));
        match lower(fixed, lower(secure, nonsecure)) {
            None => None,
            Some(first) => Some(first.place),
        }
    }

    /// Whether an external interrupt of either side is pending, by a look at each that isn't idle.
    #[tactic(auto, unfolding(tz_state::specs::Pieces::any_below))]
    pub(crate) fn any_pending(&self) -> bool
        ensures { result ≡ is_interrupt_pending self.now }
    {
        let count = self.idle_from.saturating_sub(FIRST_INTERRUPT_PLACE);
        let mut found = false;
        for n in 0..count.min(usize::from(self.interrupts)) {
            found = found || self.slots[FIRST_INTERRUPT_PLACE + n].pending;
        }
        found
    }
}
