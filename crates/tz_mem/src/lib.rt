//! The bytes of the board's regions: one block of bytes a region, seen as the regions and a finite map from
//! addresses to bytes.
//!
//! It says whether the map takes an access. It knows nothing of attribution, privilege or alignment: who may
//! read or write is decided above.
#![tactic(auto)]

mod block;
mod code;
mod difference;
mod error;
mod memory;
mod numbers;

pub use error::{NotMapped, Refused};
pub use memory::Memory;
