//! Which lists aren't empty, a bit each.

ghost use Rattle.std.specs.Prelude.{◌≡◌, ◌≢◌, ℕ, ◌≤◌, ◌<◌, ◌+◌, ◌-◌, ◌*◌, ◌/◌, ◌&&◌, not, true, false, replicate};
ghost use Rattle.tz_ready.specs.Levels.{has_bit, is_set, Finds};

use crate::steps::Steps;
use std::sync::ledger::Ledger;

/// How many bits a word has.
pub(crate) const WORD: usize = 32;
/// How many words there are.
pub(crate) const WORDS: usize = 16;

/// A bit for each list, by its number.
#[derive(Clone, Copy)]
pub(crate) struct Levels {
    pub(crate) words: [u32; WORDS],
}

/// The least bit of a word that is set, from one on.
fn least_bit(word: u32, from: u32) -> Option<u32>
    requires { from < 32 }
    ensures { Finds (has_bit word) from 32 result }
{
    let rest = word & (u32::MAX << from);
    if rest == 0 {
        None
    } else {
        Some(rest.trailing_zeros())
    }
}

impl Levels {
    /// No bit is set.
    pub(crate) fn none() -> Levels
        ensures { result.words ≡ replicate 16 0 }
    {
        Levels { words: [0; WORDS] }
    }

    /// Whether a bit is set.
    pub(crate) fn has(&self, number: usize) -> bool
        requires { number < 512 }
        ensures { result ≡ is_set self.now.words number }
    {
        self.words[number / WORD] >> (number % WORD) & 1 == 1
    }

    /// Sets a bit.
    pub(crate) fn put(&mut self, number: usize)
        requires { number < 512 }
        ensures set { is_set self.new.words number ≡ true }
        ensures others { (j : ℕ) → j ≢ number → is_set self.new.words j ≡ is_set self.old.words j }
    {
        self.words[number / WORD] |= 1 << (number % WORD);
    }

    /// Clears a bit where nothing is left that it tells of.
    pub(crate) fn take_if(&mut self, number: usize, gone: bool)
        requires { number < 512 }
        ensures here { is_set self.new.words number ≡ (is_set self.old.words number && not gone) }
        ensures others { (j : ℕ) → j ≢ number → is_set self.new.words j ≡ is_set self.old.words j }
    {
        if gone {
            self.words[number / WORD] &= !(1 << (number % WORD));
        }
    }

    /// The least bit that is set, from one on, up to the end of a word. Each word counts one look.
    pub(crate) fn least_from<L: Ledger>(
        &self,
        from: usize,
        words: usize,
        steps: &mut Steps<L>,
    ) -> Option<usize>
        requires few { words ≤ 16 }
        requires from { from / 32 < words }
        ensures is { Finds (is_set self.now.words) from (32 * words) result }
        ensures few { steps.new ≤ steps.old + (words - from / 32) }
        ensures some { steps.old ≤ steps.new }
    {
        for word in from / WORD..words {
            steps.look();
            let low = if word == from / WORD { from % WORD } else { 0 };
            if let Some(bit) = least_bit(self.words[word], low as u32) {
                return Some(WORD * word + bit as usize);
            }
        }
        None
    }
}
