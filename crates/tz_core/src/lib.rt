//! The machine: a board with two images in its memory, and its steps.
//!
//! `Machine` stands for a `State`, and `step` for the step relation. The order of a step is here; what memory holds, how
//! addresses are attributed and which check fails first is decided below, and so is which words a state has.
#![tactic(auto)]

mod asking;
mod changes;
mod concluding;
mod ending;
mod exchange;
mod exclusive;
mod execute;
mod note;
mod noting;
mod port;
mod running;
mod start;
mod taking;
mod waiting;
mod worded;

pub use changes::Stores;
pub use ending::{Close, UNCLOSED};
pub use note::Note;
pub use running::Machine;
pub use tz_fields::WordsError;
