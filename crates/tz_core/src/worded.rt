//! The machine's state as it is lent, and by its words, told and read back.

ghost use Rattle.std.specs.Prelude.{◌≡◌, ◌*◌, Ok, MatchResult, length, slice_get};
ghost use Rattle.tz_fields.specs.StateWords.{state_words, word_count};
ghost use Rattle.tz_fields.specs.ReadWords.{read_words, words_of, IsWordsRefusal};

use crate::running::Machine;
use std::alloc::Global;
use tz_fields::{ReadState, WordsError, word};
use tz_kept::Codes;
use tz_model::Board;
use tz_tell::LentState;

impl Machine {
    /// The state, lent to what tells of it.
    pub fn lent(&self) -> LentState<'_>
        ensures { result ≡ self.now }
    {
        LentState::new(&self.core, &self.exceptions, &self.bus)
    }

    /// The word of an index, of those that tell all of the machine: fields, slots, the channels of a mover, memory. None
    /// exactly past their count.
    pub fn word(&self, index: u32) -> Option<u32>
        ensures { result ≡ slice_get (state_words self.now) index }
    {
        word(&self.lent(), index)
    }

    /// The machine of a board that has these words, with the low byte of each first.
    ///
    /// # Errors
    ///
    /// `Value` with the index of the first word that its field can't hold; `Memory` where memory runs out.
    pub fn from_words(alloc: Global, board: &Board, bytes: &[u8]) -> Result<Machine, WordsError>
        requires { length bytes.now ≡ 4 * word_count board.now }
        ensures { MatchResult result
            (λ m. read_words board.now (words_of bytes.now) ≡ Ok m)
            (λ e. IsWordsRefusal e (read_words board.now (words_of bytes.now))) }
    {
        let state = match ReadState::from_words(alloc, board, bytes) {
            Ok(state) => state,
            Err(error) => return Err(error),
        };
        let Ok(kept) = Codes::new(alloc) else {
            return Err(WordsError::Memory);
        };
        let (core, exceptions, bus) = state.into_parts();
        Ok(Machine {
            core,
            exceptions,
            bus,
            kept,
        })
    }
}
