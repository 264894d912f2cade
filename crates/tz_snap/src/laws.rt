//! Laws about states as words and about state files. Nothing here runs.

ghost use Rattle.std.specs.Prelude.{◌≡◌, ◌≤◌, ℕ, List, Ok, length};
ghost use Rattle.tz_model.specs.Board.{BoardValue, IsBoard};
ghost use Rattle.tz_model.specs.Image.{ImageValue};
ghost use Rattle.tz_state.specs.State.{State};
ghost use Rattle.tz_sem.specs.Boot.{boot};
ghost use Rattle.tz_fields.specs.StateWords.{state_words, word_count};
ghost use Rattle.tz_fields.specs.ReadWords.{AreWords, IsState, read_words};
ghost use Rattle.tz_snap.specs.FileWords.{AreBytes, HasBytes};
ghost use Rattle.tz_snap.specs.StateFile.{SavedState, file_of, most_steps, saved_of};

use tz_fields::words_are_counted;

/// Reading words is the inverse of writing them: the words of a state of a board make that state again, so that they
/// tell all of it; and words that make a state are those of that state, which is one of the board.
pub fn words_read_back()
    ensures back { (b : BoardValue) (s : State) → IsBoard b → IsState b s → read_words b (state_words s) ≡ Ok s }
    ensures only { (b : BoardValue) (ws : List ℕ) (s : State) → IsBoard b → AreWords ws → length ws ≡ word_count b → read_words b ws ≡ Ok s →
        (state_words s ≡ ws) × IsState b s }
{}

/// The file of a state of a board after so many steps is read as that state and that number, and so is that of no
/// other state or number.
pub fn file_reads_back()
    ensures back { (b : BoardValue) (s : State) (n : ℕ) → IsBoard b → IsState b s → n ≤ most_steps → saved_of b (file_of s n) ≡ Ok (record { state = s; step = n }) }
    ensures apart { (b : BoardValue) (s t : State) (n m : ℕ) → IsBoard b → IsState b s → IsState b t → n ≤ most_steps → m ≤ most_steps →
        file_of s n ≡ file_of t m → (s ≡ t) × (n ≡ m) }
{}

/// A file is accepted only where it is that of the state and the number of steps that it is read as, a state of the
/// board.
pub fn only_files_are_read()
    ensures { (b : BoardValue) (bytes : List ℕ) (x : SavedState) → IsBoard b → AreBytes bytes → saved_of b bytes ≡ Ok x →
        (bytes ≡ file_of x.state x.step) × IsState b x.state × (x.step ≤ most_steps) }
{
    words_are_counted();
}

/// The state in which a machine starts is one of its board.
pub fn start_is_a_state()
    ensures { (b : BoardValue) (secure nonsecure : ImageValue) → IsBoard b → HasBytes secure → HasBytes nonsecure → IsState b (boot b secure nonsecure) }
{}
