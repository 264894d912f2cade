//! Accesses, as they are checked.

use tz_model::{Side, Size};

/// What an access does.
#[derive(Clone, Copy, PartialEq, Eq)]
pub enum Kind {
    Read,
    Write,
    Fetch,
}

/// An access that is to be checked.
#[derive(Clone, Copy)]
pub struct Request {
    /// Its first byte.
    pub addr: u32,
    pub size: Size,
    pub kind: Kind,
    /// The state of the code that asks.
    pub side: Side,
    pub privileged: bool,
    /// The execution priority is below 0.
    pub negative: bool,
    /// It has to be aligned to its size.
    pub must_align: bool,
}

/// The address and size that the exclusive monitor holds.
#[derive(Clone, Copy)]
pub struct Exclusive {
    pub addr: u32,
    pub size: Size,
}
