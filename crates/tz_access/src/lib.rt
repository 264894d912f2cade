//! Memory with the units that guard it: the checks of an access in their order, fetches, TT, and the
//! units' registers.
//!
//! `Bus` stands for the part of the state that accesses see and change. It asks attribution, then the MPU,
//! then the map, each once for a block of 32 bytes that an access meets: all three go by such blocks, so
//! the first byte of an access and its last tell all. What attribution and the MPU say of a block is kept, as long as
//! none of their registers is written. It knows nothing of the core: who asks, with which
//! privilege and at which priority, is told with each call. `BusFrames` is the bus as entries and returns of
//! exceptions reach it.
#![tactic(auto)]

mod bus;
mod data;
mod difference;
mod fetch;
mod frames;
mod look_up;
mod looking;
mod monitor;
mod noted_units;
mod place;
mod registers;
mod span;
mod target;
mod units;
mod written;

pub use bus::Bus;
pub use data::is_aligned;
pub use frames::BusFrames;
pub use looking::Kept;
pub use noted_units::Units;
pub use place::Place;
pub use span::last_of;
pub use tz_state::{Kind, Request};
pub use units::is_private;
pub use written::{Was, Written};
