//! The units that guard memory, and the instructions that stand by themselves.
//!
//! A case is of kind `data`, `loadstore` or `branch` for an instruction of that family, `bus` for steps on the bus of
//! the built-in board, `mpu` for steps on an MPU, `memory` for steps on memory, `table` for steps on the double of
//! frames.

mod asked;
pub mod buses;
mod faults;
pub mod instructions;
pub mod memories;
pub mod mpus;
mod steps;
pub mod tables;
mod words;
