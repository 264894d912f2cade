//! What tells the exceptions of two cores apart.

ghost use Rattle.std.specs.Prelude.{◌≡◌, ◌+◌, ◌*◌, if◌then◌else◌};
ghost use Rattle.std.specs.Cmp.Lexicographic.{pointwise};
ghost use Rattle.tz_state.specs.Difference.{is_same_slot, is_same_choice, exceptions_differ};

use crate::exceptions::Exceptions;
use tz_state::SlotState;

/// The flags and the priority of a slot, a byte each, so that one comparison tells all of them apart.
fn packed(slot: &SlotState) -> u32
    ensures { result ≡ (if slot.now.pending then 1 else 0) + 256 * ((if slot.now.active then 1 else 0) + 256 * ((if slot.now.enabled then 1 else 0) + 256 * slot.now.priority)) }
{
    let enabled = u32::from(slot.enabled) + 256 * u32::from(slot.priority);
    u32::from(slot.pending) + 256 * (u32::from(slot.active) + 256 * enabled)
}

/// Whether two slots are the same.
fn is_same_slot(slot: &SlotState, other: &SlotState) -> bool
    ensures { result ≡ is_same_slot slot.now other.now }
{
    packed(slot) == packed(other) && slot.target == other.target
}

/// Whether all slots are the same.
fn are_same_slots(slots: &[SlotState], others: &[SlotState]) -> bool
    ensures { result ≡ pointwise is_same_slot slots.now others.now }
{
    if slots.len() != others.len() {
        return false;
    }
    for index in 0..slots.len() {
        if !is_same_slot(&slots[index], &others[index]) {
            return false;
        }
    }
    true
}

impl Exceptions {
    /// Whether all slots of both are the same. Those that are idle in both from a place on aren't looked at.
    #[tactic(auto, using(crate::proofs::Idle::same_below))]
    fn has_same_slots(&self, other: &Exceptions) -> bool
        ensures { result ≡ pointwise is_same_slot self.now.slots other.now.slots }
    {
        let end = self.idle_from.max(other.idle_from);
        are_same_slots(&self.slots[..end], &other.slots[..end])
    }

    /// Whether PRIGROUP of both sides, PRIS and BFHFNMINS are the same.
    fn has_same_choice(&self, other: &Exceptions) -> bool
        ensures { result ≡ is_same_choice self.now other.now }
    {
        self.prigroup_s == other.prigroup_s
            && self.prigroup_ns == other.prigroup_ns
            && self.pris == other.pris
            && self.bfhfnmins == other.bfhfnmins
    }

    /// Whether the exceptions of two cores differ in anything but their timers.
    #[tactic(auto, unfolding(tz_state::specs::Difference::exceptions_differ))]
    pub fn differs(&self, other: &Exceptions) -> bool
        ensures { result ≡ exceptions_differ self.now other.now }
    {
        !(self.has_same_slots(other)
            && self.interrupts == other.interrupts
            && self.has_same_choice(other))
    }
}
