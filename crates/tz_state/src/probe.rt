//! A question about an address (TT).

use tz_model::Side;

/// What TT asks.
#[derive(Clone, Copy)]
pub struct Probe {
    pub addr: u32,
    /// The state of the code that asks.
    pub side: Side,
    /// That code is privileged in the state whose MPU is asked.
    pub privileged: bool,
    /// The execution priority is below 0.
    pub negative: bool,
    /// The Non-secure MPU is asked.
    pub alternate: bool,
    /// For an access without privilege.
    pub user: bool,
}
