//! Lists as others are.

ghost use Rattle.std.specs.Prelude.{◌≡◌, ℕ, ◌≤◌, ◌<◌, ◌+◌, ◌*◌, ◌/◌, true, None, length, slice_index};
ghost use Rattle.tz_ready.specs.Copies.{IsCopied};
ghost use Rattle.tz_ready.specs.Levels.{is_set};
ghost use Rattle.tz_ready.specs.Links.{queue_of};

use crate::levels::{Levels, WORD, WORDS};
use crate::ready::{Ready, SLOTS};

/// Makes what stands from one place up to another as others are.
fn copy_between<T: Copy>(places: &mut [T], others: &[T], from: usize, to: usize)
    requires order { from ≤ to }
    requires places { to ≤ length places.old }
    requires others { to ≤ length others.now }
    ensures { IsCopied places.old others.now from to places.new }
{
    for i in from..to {
        places[i] = others[i];
    }
}

/// Makes the heads of the lists that aren't empty as others are, of those that one word tells of.
fn copy_heads_of(word: usize, after: &mut [u16], others: &[u16], levels: &Levels)
    requires word { word < 16 }
    requires after { length after.old ≡ 784 }
    requires others { length others.now ≡ 784 }
    ensures before { (i : ℕ) → i < 272 + 32 * word → slice_index after.new i ≡ slice_index after.old i }
    ensures heads { (k : ℕ) → k / 32 ≡ word → is_set levels.now.words k ≡ true → slice_index after.new (272 + k) ≡ slice_index others.now (272 + k) }
{
    if levels.words[word] != 0 {
        let from = SLOTS + WORD * word;
        copy_between(after, others, from, from + WORD);
    }
}

/// Makes the heads of the lists that aren't empty as others are.
fn copy_heads(after: &mut [u16], others: &[u16], levels: &Levels)
    requires after { length after.old ≡ 784 }
    requires others { length others.now ≡ 784 }
    ensures slots { (i : ℕ) → i < 272 → slice_index after.new i ≡ slice_index after.old i }
    ensures heads { (k : ℕ) → k < 512 → is_set levels.now.words k ≡ true → slice_index after.new (272 + k) ≡ slice_index others.now (272 + k) }
{
    for word in 0..WORDS {
        copy_heads_of(word, after, others, levels);
    }
}

impl Ready {
    /// Makes all lists as others are, none of which has a slot from `end` on. Where nothing is linked in either nothing is
    /// written, else no more than the slots before that, and 32 heads for a list that isn't empty.
    pub fn copy_from(&mut self, other: &Ready, end: usize)
        requires few { end ≤ 272 }
        requires none_here { (i : ℕ) → end ≤ i → i < 272 → queue_of self.old i ≡ None }
        requires none_there { (i : ℕ) → end ≤ i → i < 272 → queue_of other.now i ≡ None }
        ensures { self.new ≡ other.now }
    {
        if self.count == 0 && other.count == 0 {
            return;
        }
        copy_between(&mut self.queues, &other.queues, 0, end);
        copy_between(&mut self.after, &other.after, 0, end);
        copy_between(&mut self.before, &other.before, 0, end);
        copy_heads(&mut self.after, &other.after, &other.levels);
        self.levels = other.levels;
        self.count = other.count;
    }
}
