//! Frames on a stack, and what goes wrong with them.

use tz_model::{Fault, Side};

/// The bytes of a basic frame.
pub const BASIC_FRAME_SIZE: u32 = 32;
/// The bytes of an additional frame.
pub const ADDITIONAL_FRAME_SIZE: u32 = 40;
/// Those of a basic frame with an additional one below it.
pub const BOTH_FRAMES_SIZE: u32 = 72;
/// The bytes of what a call leaves on the Secure stack.
pub const CALL_FRAME_SIZE: u32 = 8;

/// Why a frame isn't written or read.
#[derive(Clone, Copy)]
pub enum StackFault {
    /// The stack pointer of a side would go below its limit.
    Limit(Side),
    /// A word can't be accessed.
    Access(Fault),
    /// The frame doesn't begin with the integrity signature.
    Signature,
}

/// The words of a basic frame, from the lowest address up (DDI0553, `PushStack`).
#[derive(Clone, Copy)]
pub struct Basic {
    pub r0: u32,
    pub r1: u32,
    pub r2: u32,
    pub r3: u32,
    pub r12: u32,
    pub lr: u32,
    /// The return address.
    pub back: u32,
    /// xPSR, with bit 2 of the stack pointer before the frame in bit 9.
    pub retpsr: u32,
}

/// The registers in an additional frame (DDI0553, `PushCalleeStack`).
#[derive(Clone, Copy)]
pub struct Callee {
    pub r4: u32,
    pub r5: u32,
    pub r6: u32,
    pub r7: u32,
    pub r8: u32,
    pub r9: u32,
    pub r10: u32,
    pub r11: u32,
}
