//! A return under way, and how it ends.

use crate::entering::Entering;
use crate::frame::{Basic, Callee, StackFault};
use tz_model::{Fault, Side, Slot};

/// The bits of an EXC_RETURN value, of which ES counts as 0 where Non-secure code returns.
#[derive(Clone, Copy)]
pub struct Returning {
    /// ES: the exception that returns is Secure.
    pub es: bool,
    /// SPSEL: what CONTROL.SPSEL of the side of ES becomes.
    pub process: bool,
    /// Mode: to Thread mode.
    pub thread: bool,
    /// DCRS: the additional frame wasn't left out.
    pub dcrs: bool,
    /// S: to a frame of a Secure stack.
    pub secure: bool,
}

/// What is taken from a stack.
#[derive(Clone, Copy)]
pub struct Unstacked {
    pub callee: Option<Callee>,
    pub basic: Basic,
}

/// Why a return is refused.
#[derive(Clone, Copy)]
pub enum Refusal {
    /// The EXC_RETURN value, with its fault (INVPC or INVER).
    Value(Fault),
    /// A frame that can't be read, or isn't signed.
    Frame(StackFault),
    /// The mode of the value isn't that of the frame: INVPC of a side.
    Mode(Side),
}

/// How a return ends.
#[derive(Clone, Copy)]
pub enum Left {
    /// The code that was interrupted goes on; whether a frame of a Secure stack was read.
    Resumed {
        touched: bool,
    },
    /// Another exception is taken in its place, by this entry; why the return was refused, where it was.
    Chained {
        slot: Slot,
        refused: Option<Refusal>,
        entry: Entering,
    },
    /// The core locks, by this entry, or before it began.
    Lockup {
        refused: Option<Refusal>,
        entry: Entering,
    },
}
