//! State files: the state of a machine with the number of steps that led to it, written and read again.
//!
//! A file is a list of words: first what the file is, the number of steps and the board, each word of which
//! has one description that writing and reading go by; then the words of the state. A file is accepted
//! exactly where it is that of some state of the named board, and else the first refusal is told by its code.
//! Nothing is known here of what a step does.
#![tactic(auto)]

mod error;
mod head;
mod laws;
mod reading;
mod writing;

pub use error::SnapError;
pub use laws::{file_reads_back, only_files_are_read, start_is_a_state, words_read_back};
pub use reading::{Saved, load};
pub use writing::save;
