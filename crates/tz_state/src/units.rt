//! What the SAU and the MPUs are made of, and their registers by name.

use tz_model::Side;

/// RBAR and RLAR of a region of the SAU or of an MPU.
#[derive(Clone, Copy, Default, PartialEq, Eq)]
pub struct Bounds {
    pub rbar: u32,
    pub rlar: u32,
}

/// The attribution of an address (DDI0553, `SecurityCheck`).
#[derive(Clone, Copy)]
pub struct Attribute {
    pub side: Side,
    /// Secure memory that Non-secure code may call.
    pub callable: bool,
    /// The one region of the SAU that holds the address.
    pub sregion: Option<u8>,
    /// The region of the board that holds the address.
    pub iregion: Option<u8>,
}

/// The registers of the SAU.
#[derive(Clone, Copy)]
pub enum SauRegister {
    Ctrl,
    Type,
    Rnr,
    Rbar,
    Rlar,
}

/// The registers of an MPU. RBAR and RLAR with a number of 1 to 3 are the aliases of three regions beside
/// that which RNR selects, and with 0 they are its own.
#[derive(Clone, Copy)]
pub enum MpuRegister {
    Type,
    Ctrl,
    Rnr,
    Rbar(u8),
    Rlar(u8),
    Mair0,
    Mair1,
}
