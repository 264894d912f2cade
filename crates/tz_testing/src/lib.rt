//! What tests stand on: cases as text with the answers that are wanted of them, and doubles.
//!
//! A case is `FIELD | FIELD | .. => WANTED`. It begins at the start of a line, and goes on over the lines that begin
//! with a blank. Empty lines, and those that begin with `#`, are passed over. In a case `(A, B, ..: TEXT)` stands for
//! TEXT with A in the place of each `@`, behind that for TEXT with B, and so on.
//!
//! A case is data so, and no function that has to be proved. What a case asks is for the program to say, by `Answers`.
//! What can't be read, and memory that is refused, is kept with the case until its end, so that what answers has one
//! way through.
//!
//! The doubles keep the contracts that their originals have: of the outside, a shelf and a sink in memory, and ones
//! that fail at listed calls; of memory, a port and frames onto a table. No program but those of tests has them.
#![tactic(auto)]

mod case;
mod files;
mod frames_double;
mod port_double;
mod report;
mod shelf_double;
mod sink_double;
mod words;

pub use case::{Case, field_of, number_of};
pub use files::{add_file, case_of};
pub use frames_double::TableFrames;
pub use port_double::{TableEntry, TablePort};
pub use report::{Answers, told};
pub use shelf_double::{FailingShelf, File, MemoryShelf};
pub use sink_double::{FailingSink, MemorySink};
pub use words::{events_of, meant, profile_in, side_word};
