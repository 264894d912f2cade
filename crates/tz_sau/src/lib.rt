//! Security attribution: how the SAU and the board's own attribution (the IDAU) see an address.
//!
//! `Sau` holds the board's regions and the SAU's registers, and is the one place that decides whether an
//! address is Secure, Secure and callable, or Non-secure. It knows nothing of protection, of what a
//! region takes, or of who may write its registers.
#![tactic(auto)]

mod attribute;
mod boot;
mod copy;
mod idau;
mod registers;
mod scan;
mod unit;

pub use tz_state::Attribute;
pub use unit::Sau;
