//! What is told of a step beside its report.

use crate::ending::Ending;
use tz_regs::Core;
use tz_state::Moves;

/// What is told of a step beside its report: what neither that nor the state after the step tells.
#[derive(Clone, Copy)]
pub struct Account {
    /// The core before the step.
    pub core: Core,
    /// The Secure SysTick counted to 0 at the beginning of the step, and pended.
    pub ticked_s: bool,
    /// The Non-secure one did.
    pub ticked_ns: bool,
    /// What the mover moved at the beginning of the step, after the timers counted.
    pub moves: Moves,
    pub ending: Ending,
}
