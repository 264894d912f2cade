//! What the page of a state and view `full` both tell: the names of exceptions, and where a return takes its frame; and
//! what both are told of, a state in its parts.
#![tactic(auto)]

mod exceptions;
mod frames;
mod lent;

pub use exceptions::system_name;
pub use frames::{frame_pointer, frame_uses_process};
pub use lent::LentState;
