//! What a pair answers: that nothing differed, or the step and what differed first.

use tz_model::CrossKind;

/// What differs at a crossing out of Secure state, in the order in which it is looked for.
#[derive(Clone, Copy)]
pub enum What {
    /// One run alone crosses out, in a way of this kind.
    Alone(CrossKind),
    /// The kind of the way, IPSR after it, or LR where an exception was taken.
    Way,
    /// R0 to R12, by number.
    R(u8),
    Lr,
    /// The flags, the IT state and T.
    Apsr,
    Pc,
    /// A byte that is Non-secure in both runs.
    Bytes,
    /// MSP_NS or PSP_NS.
    Sp,
    /// MSPLIM_NS or PSPLIM_NS.
    Limit,
    /// CONTROL_NS.
    Control,
    /// PRIMASK, BASEPRI or FAULTMASK of a side.
    Mask,
    Sau,
    /// The Non-secure MPU.
    Mpu,
    /// VTOR_NS.
    Vtor,
    /// CCR_NS.
    Ccr,
    /// UFSR, MMFSR or MMFAR of the Non-secure side; where BFHFNMINS is 1 in both runs, BFSR, BFAR or HFSR.
    Fault,
    /// The exceptions, but for the timers.
    Exceptions,
    /// The SysTick timer of a side.
    Systick,
    /// The exclusive monitor, the event flag, or what the core waits for.
    Sleep,
    /// The Non-secure channel of the mover.
    Mover,
}

/// What came of a step of a pair.
#[derive(Clone, Copy)]
pub enum PairStep {
    /// Both crossed out of Secure state alike, or neither did.
    Kept,
    /// The first step at which they didn't, and what differed.
    Differ { step: u32, what: What },
}
