//! What becomes of a synchronous exception.

use tz_model::Side;

/// What is taken in place of a synchronous exception.
#[derive(Clone, Copy)]
pub enum Taken {
    /// The exception itself.
    AsIs,
    /// HardFault of a side, with HFSR.FORCED.
    Hard(Side),
    /// Nothing: the core locks.
    Lockup,
}
