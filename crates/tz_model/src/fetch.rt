//! What a fetch gives.

use crate::report::Fault;
use tz_table::Code;

/// A code, and whether it is the gateway: SG in callable Secure memory, reached from Non-secure state.
#[derive(Clone, Copy)]
pub struct Fetched {
    pub code: Code,
    pub gateway: bool,
}

/// The answer of a fetch, and whether it looked at a Secure address, or is Secure code's.
#[derive(Clone, Copy)]
pub struct FetchAnswer {
    pub touched: bool,
    pub answer: Result<Fetched, Fault>,
}
