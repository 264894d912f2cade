//! The mover (own): at the beginning of a step each channel that goes moves a word of memory, as a data access of its
//! side, without an MPU.
//!
//! It knows nothing of the core but its channels. Which channels there are, and which of them go, is told with each call;
//! attribution and the map are asked of the bus.
#![tactic(auto)]

mod channel;
mod moves;

pub use moves::advance;
