//! Calls and returns between the sides (DDI0553, `SG`, `BXNS`, `BLXNS`, `FunctionReturn`).
//!
//! Each call changes the core as its instruction does, and asks nothing of the instruction before it: where SG
//! opens Secure code, and that Secure code alone branches and calls, is the caller's.
#![tactic(auto)]

mod branch;
mod call;
mod returning;

pub use branch::{branch_ns, secure_gateway};
pub use call::call_ns;
pub use returning::{function_return, is_fnc_return, return_base};
