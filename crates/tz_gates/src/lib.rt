//! Gates: where Non-secure code can enter Secure code, and how often a run enters there.
//!
//! `list` finds all addresses at which SG stands in memory that Non-secure code may call, as the machine
//! starts. `count` makes steps and counts the entries at such addresses, and those elsewhere. What the
//! Secure MPU permits isn't asked of a gate: a fetch at it meets SG or that MPU's fault. `put_gates` writes
//! both as lines.
#![tactic(auto)]

mod laws;
mod listing;
mod scan;
mod spans;
mod tally;
mod text;

pub use laws::gates_hold;
pub use listing::list;
pub use tally::count;
pub use text::put_gates;
