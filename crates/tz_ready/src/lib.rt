//! What is ready, and how many looks it takes to find it.
//!
//! `Ready` links slots, which are numbers below 272, in lists: one a level of a side, each in ascending order of its slots.
//! Its value is of each slot the list in which it is linked, if any, so a slot is in one at most. What is found of it is
//! the first slot of the least level of a side, by at most nine looks. It doesn't know what a slot is, nor why one is
//! linked.
//!
//! The lists are threaded both ways through tables of fixed size, by number, so no call takes memory. The head of a list
//! is a node behind the slots, and a bit for each list tells whether it is empty; what the tables have for a slot that
//! isn't linked and for an empty list has no meaning, and is neither read nor copied.
//!
//! `Steps` counts the looks of a search, so that a contract can bound them. It says nothing of looks
//! that a body makes without counting them.
#![tactic(auto)]

mod copy;
mod laws;
mod levels;
mod queue;
mod ready;
mod steps;

pub use laws::lists_ascend;
pub use queue::Queue;
pub use ready::Ready;
pub use steps::Steps;
