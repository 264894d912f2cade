//! View `full`: the line of a step as in view `all`, and under it what the line doesn't say.
//!
//! `put_step` writes exactly the line and what the definition `full` says. That is a function of the account of the step,
//! its report, the events that were due and the state after it; what makes steps stands above. No memory is taken, and
//! nothing here knows where bytes go.
#![tactic(auto)]

mod begun;
mod crossing;
mod entry;
mod escalation;
mod faults;
mod frames;
mod full;
mod instruction;
mod loads;
mod moves;
mod names;
mod refusals;
mod register_names;
mod taken;
mod text;
mod ways;

pub use crossing::kind_word;
pub use full::{Texts, put_step};
