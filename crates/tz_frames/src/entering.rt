//! An entry under way, and how it ends.

use crate::frame::StackFault;
use tz_model::Slot;

/// A frame that can't be written, and why.
#[derive(Clone, Copy)]
pub struct FrameFault {
    /// Of the additional frame.
    pub additional: bool,
    pub fault: StackFault,
}

/// What an entry knows besides the machine: of the code that it interrupts, by the bits that LR gets of it, and of
/// its own course.
#[derive(Clone, Copy)]
pub struct Entering {
    /// EXC_RETURN.S: the code was Secure.
    pub secure: bool,
    /// EXC_RETURN.Mode: it was in Thread mode.
    pub thread: bool,
    /// EXC_RETURN.DCRS, as long as no choice calls for the additional frame.
    pub dcrs: bool,
    /// No additional frame is to be written, or no more.
    pub skip: bool,
    /// A choice called for the additional frame, written or not.
    pub needed_additional: bool,
    /// The first frame of this entry that has faulted.
    pub frame: Option<FrameFault>,
    /// An exception other than NMI and HardFault whose vector couldn't be read, so that HardFault pends
    /// (HFSR.VECTTBL).
    pub vector: Option<Slot>,
    /// NMI or HardFault, whose vector couldn't be read, so that the core locks.
    pub last: Option<Slot>,
    /// A vector of a Secure exception, or a frame of a Secure stack, was read.
    pub touched: bool,
}

/// What comes of one choice.
#[derive(Clone, Copy)]
pub enum Choice {
    /// A fault has pended, and the choice is made again.
    Again,
    /// An exception is taken.
    Taken(Slot),
    /// The core locks.
    Lockup,
}

/// How an entry ends, with all that it knows then.
#[derive(Clone, Copy)]
pub enum Entered {
    /// The exception that is taken.
    Taken { slot: Slot, entry: Entering },
    /// The core locks.
    Lockup { entry: Entering },
}
