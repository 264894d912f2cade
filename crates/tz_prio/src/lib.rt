//! The execution priority, and what it lets be taken (DDI0553, `ExecutionPriority`, `RawExecutionPriority`).
//!
//! It joins the exceptions of `tz_nvic` with the masks of `tz_regs`; it changes neither. A lower number is
//! more urgent.
#![tactic(auto)]

mod escalation;
mod execution;
mod masks;
mod negative;

pub use escalation::{escalate, hard_side};
pub use execution::{can_take, execution_priority, raw_priority, takes_first, wakes};
pub use masks::{basepri_priority, faultmask_priority, primask_priority, side_priority};
pub use negative::is_negative;
pub use tz_state::Taken;
