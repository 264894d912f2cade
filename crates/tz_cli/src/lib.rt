//! tzrun: runs a Secure and a Non-secure image on a board and writes the trace of their steps, where they enter
//! Secure code, or the file of the state after them, from which a run goes on; tells where the runs of two Secure
//! images disagree; writes the last lines of a run, or its state as a page; makes an image from its source, the
//! text of an image's instructions, or a job from a number.
//!
//! `top` does all that the program does, over any shelf of files and any two sinks.
//!
//! What the words mean is said in `tz_words`, and what is read of files in `tz_files`. The edge of the program is the shelf
//! there and `output`, which stands over the system and tells no contents, since no proof knows what a stream takes. It is
//! thin, and counts a fault where the system answers an error.
#![tactic(auto)]

mod asm;
mod back;
mod comparison;
mod dis;
mod generated;
mod output;
mod page;
mod pair;
mod process;
mod program;
mod resume;
mod run;

pub use comparison::pair_run;
pub use output::OutSink;
pub use process::run_process;
pub use program::top;
pub use tz_files::{FileShelf, read_to_limit};
pub use tz_words::{
    AsmWords, BackWords, Command, DisWords, Form, GenWords, PairWords, ResumeWords, SavedWords,
    StartWords, Work, command_words,
};
