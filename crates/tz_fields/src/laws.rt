//! Laws about states as words. Nothing here runs.

ghost use Rattle.std.specs.Prelude.{◌≡◌, ◌<◌, ℕ, List, Some, length, slice_get};
ghost use Rattle.tz_state.specs.State.{State};
ghost use Rattle.tz_fields.specs.StateWords.{state_words, word_count};
ghost use Rattle.tz_fields.specs.ReadWords.{words_of, AreWords};

/// The words of a state are as many as its board says, and bytes give words of 32 bits.
pub fn words_are_counted()
    ensures count { (s : State) → length (state_words s) ≡ word_count s.bus.board }
    ensures words { (bs : List ℕ) → ((k x : ℕ) → slice_get bs k ≡ Some x → x < 256) → AreWords (words_of bs) }
{}
