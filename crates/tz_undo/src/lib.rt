//! Steps that are taken back: a machine with notes of its last steps, in a ring of places.
//!
//! `History` stands for a machine with the states before it, as many as it keeps, the newest first. `step` makes
//! a step, and `back` takes one back. All memory is taken at the start; nothing is known here of what a step does.
#![tactic(auto)]

mod history;
mod laws;

pub use history::{History, HistoryError};
pub use laws::{steps_are_kept, steps_go_back};
