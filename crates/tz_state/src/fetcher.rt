//! Who fetches.

use tz_model::Side;

/// The running code, as its fetches are checked.
#[derive(Clone, Copy)]
pub struct Fetcher {
    pub side: Side,
    pub privileged: bool,
    /// Secure code would be privileged.
    pub secure_privileged: bool,
    /// The execution priority is below 0.
    pub negative: bool,
}
