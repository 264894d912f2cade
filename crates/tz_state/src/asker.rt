//! Who asks for accesses.

use tz_model::Side;

/// The running code, as its accesses are checked.
#[derive(Clone, Copy)]
pub struct Asker {
    pub side: Side,
    pub privileged: bool,
    /// The execution priority is below 0.
    pub negative: bool,
    /// CCR.UNALIGN_TRP: each access has to be aligned to its size.
    pub aligned: bool,
}
