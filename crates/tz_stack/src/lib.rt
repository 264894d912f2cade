//! Frames on stacks: how a basic frame and an additional one are written and read, over whatever holds their words
//! (DDI0553, `PushStack`, `PushCalleeStack`, `PopStack`).
//!
//! A frame is written from its lowest word up. Where a word can't be written, those before it stand. The stack
//! pointer moves in both cases; reading a frame leaves it to the caller.
#![tactic(auto)]

mod pop;
mod push;
mod words;

pub use pop::{pop_additional, pop_basic};
pub use push::{basic_base, push_additional, push_basic, set_side_sp, splim_of};
pub use tz_frames::{Basic, Callee, StackFault};
