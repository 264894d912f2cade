//! Priorities, four above the manual's.

ghost use Rattle.std.specs.Prelude.{◌≡◌, ◌≤◌, ◌<◌, ◌+◌, ◌^◌};
ghost use Rattle.tz_state.specs.Priority.{group_size, group_of, restricted_priority, hard_priority, priority_of, subpriority_of, rank_of};

use crate::exceptions::Exceptions;
use crate::place::exception_number;
use tz_model::Side;
use tz_state::exception::{
    HARD_FAULT, HARD_FAULT_PRIORITY, NMI, NMI_PRIORITY, SECURE_HARD_FAULT_PRIORITY, ZERO_PRIORITY,
};

/// Two to the power n + 1, the size of a group under PRIGROUP n.
fn power(n: u8) -> u32
    requires { n ≤ 7 }
    ensures is { result ≡ 2 ^ (n + 1) }
    ensures some { 2 ≤ result }
    ensures few { result ≤ 256 }
{
    match n {
        0 => 2,
        1 => 4,
        2 => 8,
        3 => 16,
        4 => 32,
        5 => 64,
        6 => 128,
        _ => 256,
    }
}

impl Exceptions {
    /// The size of a group of a side.
    fn group_size(&self, side: Side) -> u32
        ensures is { result ≡ group_size self.now side }
        ensures some { 2 ≤ result }
        ensures few { result ≤ 256 }
    {
        power(self.grouping(side))
    }

    /// The group of a priority of a side: its bits above PRIGROUP.
    pub fn group_of(&self, side: Side, byte: u8) -> u32
        ensures is { result ≡ group_of self.now side byte }
        ensures few { result < 256 }
    {
        let size = self.group_size(side);
        u32::from(byte) / size * size
    }

    /// The priority of a group of a side: with PRIS, a Non-secure one is restricted to the upper half (DDI0553,
    /// `RestrictedNSPri`).
    pub fn restricted_priority(&self, side: Side, group: u32) -> u32
        requires { group < 256 }
        ensures is { result ≡ restricted_priority self.now side group }
        ensures few { result < 256 }
    {
        match side {
            Side::Secure => group,
            Side::NonSecure => { if self.pris { 128 + group / 2 } else { group } }
        }
    }

    /// The priority of HardFault of a side, four above the manual's.
    pub fn hard_priority(&self, side: Side) -> u32
        ensures is { result ≡ hard_priority self.now side }
        ensures few { result ≤ 3 }
    {
        match side {
            Side::Secure => {
                if self.bfhfnmins {
                    SECURE_HARD_FAULT_PRIORITY
                } else {
                    HARD_FAULT_PRIORITY
                }
            }
            Side::NonSecure => HARD_FAULT_PRIORITY,
        }
    }

    /// The group priority of the slot at a place, four above the manual's.
    #[tactic(auto, unfolding(tz_state::specs::Priority::priority_of))]
    pub fn priority_of(&self, index: usize) -> u32
        requires { index < 272 }
        ensures is { result ≡ priority_of self.now index }
        ensures few { result < 260 }
    {
        let number = exception_number(index);
        let side = self.side_at(index);
        if number == NMI {
            NMI_PRIORITY
        } else if number == HARD_FAULT {
            self.hard_priority(side)
        } else {
            let group = self.group_of(side, self.slots[index].priority);
            ZERO_PRIORITY + self.restricted_priority(side, group)
        }
    }

    /// The subpriority of the slot at a place.
    #[tactic(auto, unfolding(tz_state::specs::Priority::subpriority_of))]
    fn subpriority_of(&self, index: usize) -> u32
        requires { index < 272 }
        ensures is { result ≡ subpriority_of self.now index }
        ensures few { result < 256 }
    {
        let number = exception_number(index);
        let side = self.side_at(index);
        if number == NMI || number == HARD_FAULT {
            0
        } else {
            u32::from(self.slots[index].priority) % self.group_size(side)
        }
    }

    /// Where the slot at a place stands in the order of priorities; no two have one rank.
    #[tactic(auto, unfolding(tz_state::specs::Priority::rank_of))]
    pub(crate) fn rank_of(&self, index: usize) -> u32
        requires { index < 272 }
        ensures { result ≡ rank_of self.now index }
    {
        (self.priority_of(index) * 256 + self.subpriority_of(index)) * 512 + index as u32
    }
}
