//! Why an access of memory is refused.

use thiserror::Error;

/// No region holds some byte of the access.
#[derive(Clone, Copy, Debug, Error)]
#[error("no region holds the address")]
pub struct NotMapped;

/// Why a write is refused.
#[derive(Clone, Copy, Debug, Error)]
pub enum Refused {
    #[error("no region holds the address")]
    NotMapped,
    #[error("the region doesn't take writes")]
    ReadOnly,
}
