//! How a step ended, apart from the state that it left.

use tz_frames::{Entering, Refusal};
use tz_model::{Code, Fault};

/// What the last thing was that a step did to the side that runs.
#[derive(Clone, Copy, PartialEq, Eq)]
pub enum Cause {
    /// Code went on, locked, or entered Secure state by a gateway.
    Went,
    /// Secure code returned to Non-secure code (DDI0553, `BXNS`).
    Returned,
    /// Secure code called Non-secure code (DDI0553, `BLXNS`).
    Called,
    /// Code that was called from Secure code came back (DDI0553, `FunctionReturn`).
    CameBack,
    /// An exception returned to the code that it had interrupted (DDI0553, `ExceptionReturn`).
    Resumed,
    /// An exception was taken (DDI0553, `ExceptionEntry`, `TailChain`).
    Taken,
}

/// What the stages of a step know of it so far.
#[derive(Clone, Copy)]
pub struct Course {
    /// The step has touched Secure state.
    pub touched: bool,
    /// The execution priority is below 0 after what the step begins with.
    pub negative: bool,
}

/// How exceptions came into a step.
#[derive(Clone, Copy)]
pub struct Handling {
    /// The fault of the instruction or of its fetch; SVCall is one.
    pub fault: Option<Fault>,
    /// The EXC_RETURN or FNC_RETURN value by which code returned, or tried to.
    pub value: Option<u32>,
    /// Why the exception's return was refused.
    pub refused: Option<Refusal>,
    /// The entry of an exception, as it ended: one was taken, or the core locked.
    pub entry: Option<Entering>,
}

/// How a step ended.
#[derive(Clone, Copy)]
pub struct Ending {
    /// Whether the step touched Secure state.
    pub touched: bool,
    pub cause: Cause,
    /// The code of the instruction that ran, where one did.
    pub ran: Option<Code>,
    /// How exceptions came into it, where they had a part in it.
    pub handling: Option<Handling>,
}
