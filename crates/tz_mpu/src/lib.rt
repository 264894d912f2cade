//! Memory protection: one MPU (DDI0553, chapter B9), what it permits, and its registers.
//!
//! An `Mpu` knows neither the state it belongs to nor private space, which no MPU is asked for: its caller
//! decides both.
#![tactic(auto)]

mod holders;
mod mpu;
mod permission;
mod register;

pub use mpu::{Mpu, MpuFault};
pub use permission::{Permitted, has_pxn};
