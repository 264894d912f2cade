//! Two machines that run beside each other: one board, one Non-secure image, two Secure images.
//!
//! At each step both make the step of the same events. Where they cross out of Secure state, what
//! Secure code leaves is compared: the way, the registers that it hands over, the public state. As long
//! as nothing differed, Non-secure code sees the same in both. What is compared, and in which order, is
//! defined in `specs/`; nothing here knows of scripts, lines or texts.
#![tactic(auto)]

mod answer;
mod compared;
mod crossed;
mod handed;
mod laws;
mod marks;
mod parts;
mod runs;

pub use answer::{PairStep, What};
pub use laws::{crossings_told, difference_told};
pub use runs::Pair;
