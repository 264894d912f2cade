//! A state as words, told and read back: fields in their order, slots, the channels of a mover, memory.
//!
//! `word` tells the word of an index, of a state that is lent, and `ReadState` is a state that words gave. Each field's word
//! is a value that the field can hold; a word that isn't is refused by its index. What a file has before the words is told
//! above.
#![tactic(auto)]

mod fields;
mod from_words;
mod laws;
mod put;
mod words;

pub use from_words::{ReadState, WordsError};
pub use laws::words_are_counted;
pub use words::{word, word_count};
