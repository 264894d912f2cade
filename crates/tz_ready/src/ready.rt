//! The lists, and the calls that keep them.

ghost use Rattle.std.specs.Prelude.{◌≡◌, ◌<◌, ◌≤◌, ◌+◌, Some, None, MatchOption, replicate, slice_set, IsSome, nat_le, ◌==◌, ◌&&◌};
ghost use Rattle.tz_ready.specs.Links.{queue_of, linked, unlinked, IsFirst, HasNone};
ghost use Rattle.tz_ready.specs.Threads.{words_to, IsNext, IsLast};

use crate::levels::Levels;
use crate::queue::Queue;
use crate::steps::Steps;
use std::marker::Model;
use std::sync::ledger::Ledger;
use tz_table::Side;

/// How many slots there are.
pub(crate) const SLOTS: usize = 272;
/// What follows the last slot of a list.
const END: u16 = 272;

/// Which slots are linked, each in one list: that of a level of a side.
#[derive(Drop)]
pub struct Ready {
    /// Of each slot the list in which it is linked.
    pub(crate) queues: [Option<Queue>; 272],
    /// Of each slot that is linked the next of its list, and behind them of each list the first.
    pub(crate) after: [u16; 784],
    /// Of each slot that is linked the node before it. Nothing reads what stands behind the slots.
    pub(crate) before: [u16; 273],
    /// Which lists aren't empty.
    pub(crate) levels: Levels,
    /// How many slots are linked.
    pub(crate) count: u16,
}

impl Model for Ready {
    ghost use Rattle.tz_ready.specs.Links.{Linked};

    ghost Value = { Linked };

    ghost use Rattle.tz_ready.specs.Threads.{Holds};

    ghost view = { λ r. r.queues };

    ghost invariant = { Holds };
}

/// Where a slot that isn't linked would stand in a list.
#[derive(Clone, Copy)]
pub(crate) struct Gap {
    /// The node before it.
    before: u16,
    /// The slot after it.
    after: u16,
}

/// Whether a slot stands alone in its list, by the node before it and the slot after it.
fn is_alone(before: u16, after: u16) -> bool
    ensures { result ≡ (nat_le 272 before && after == 272) }
{
    before >= END && after == END
}

/// How many words tell of the lists up to the last of a side.
fn words_to(side: Side) -> usize
    ensures { result ≡ words_to side }
{
    match side {
        Side::Secure => 8,
        Side::NonSecure => 16,
    }
}

impl Ready {
    /// Nothing is linked.
    pub fn new() -> Ready
        ensures { result ≡ replicate 272 None }
    {
        Ready {
            queues: [None; 272],
            after: [END; 784],
            before: [END; 273],
            levels: Levels::none(),
            count: 0,
        }
    }

    /// The list in which a slot is linked.
    pub fn queue(&self, slot: u16) -> Option<Queue>
        requires { slot < 272 }
        ensures { result ≡ queue_of self.now slot }
    {
        self.queues[slot as usize]
    }

    /// The first slot of a list, or what follows the last where it is empty.
    fn head(&self, queue: Queue) -> u16
        ensures { IsNext (queue_of self.now) queue 0 result }
    {
        let number = queue.number();
        if self.levels.has(number) {
            self.after[SLOTS + number]
        } else {
            END
        }
    }

    /// Where a slot that isn't linked would stand in a list.
    fn gap(&self, slot: u16, queue: Queue) -> Gap
        requires slot { slot < 272 }
        requires free { queue_of self.now slot ≡ None }
        ensures before { IsLast (queue_of self.now) queue slot result.before }
        ensures after { IsNext (queue_of self.now) queue (slot + 1) result.after }
    {
        let mut before = END + queue.number() as u16;
        let mut after = self.head(queue);
        while after < slot {
            before = after;
            after = self.after[after as usize];
        }
        Gap { before, after }
    }

    /// Links a slot in the list of a level of a side. It isn't linked.
    pub fn link(&mut self, slot: u16, level: u8, side: Side)
        requires slot { slot < 272 }
        requires free { queue_of self.old slot ≡ None }
        ensures { self.new ≡ linked self.old slot (record { level = level; side = side }) }
    {
        let queue = Queue { level, side };
        let gap = self.gap(slot, queue);
        self.queues[slot as usize] = Some(queue);
        self.after[slot as usize] = gap.after;
        self.after[gap.before as usize] = slot;
        self.before[slot as usize] = gap.before;
        self.before[gap.after as usize] = slot;
        self.levels.put(queue.number());
        self.count += 1;
    }

    /// Takes a slot out of its list. It is linked.
    pub fn unlink(&mut self, slot: u16)
        requires slot { slot < 272 }
        requires linked { IsSome (queue_of self.old slot) }
        ensures { self.new ≡ unlinked self.old slot }
    {
        if let Some(queue) = self.queues[slot as usize] {
            let before = self.before[slot as usize];
            let after = self.after[slot as usize];
            self.queues[slot as usize] = None;
            self.after[before as usize] = after;
            self.before[after as usize] = before;
            self.levels.take_if(queue.number(), is_alone(before, after));
            self.count -= 1;
        }
    }

    /// Moves a slot to the list of a level of a side. It is linked.
    pub fn move_to(&mut self, slot: u16, level: u8, side: Side)
        requires slot { slot < 272 }
        requires linked { IsSome (queue_of self.old slot) }
        ensures { self.new ≡ linked self.old slot (record { level = level; side = side }) }
    {
        self.unlink(slot);
        self.link(slot, level, side);
    }

    /// Puts a slot in a list, or in none, wherever it was.
    pub fn put(&mut self, slot: u16, queue: Option<Queue>)
        requires { slot < 272 }
        ensures { self.new ≡ slice_set self.old slot queue }
    {
        match (self.queue(slot), queue) {
            (None, None) => {}
            (None, Some(queue)) => self.link(slot, queue.level, queue.side),
            (Some(_), None) => self.unlink(slot),
            (Some(old), Some(queue)) => {
                if old != queue {
                    self.move_to(slot, queue.level, queue.side);
                }
            }
        }
    }

    /// The first slot of the least level of a side, at or above a level, that has one; None exactly where there is none.
    /// At most nine looks: at the words that tell of the levels of a side, and at the first slot of one.
    pub fn first<L: Ledger>(&self, side: Side, from: u8, steps: &mut Steps<L>) -> Option<u16>
        ensures is { MatchOption result (HasNone self.now side from) (IsFirst self.now side from) }
        ensures few { steps.new ≤ steps.old + 9 }
        ensures some { steps.old ≤ steps.new }
    {
        // In most steps nothing is linked, and then no word is read.
        if self.count == 0 {
            return None;
        }
        let start = Queue { level: from, side }.number();
        match self.levels.least_from(start, words_to(side), steps) {
            None => None,
            Some(number) => {
                steps.look();
                Some(self.after[SLOTS + number])
            }
        }
    }
}
