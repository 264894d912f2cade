//! The machine's model: boards, images and reports as values, and the traits of the outside with their
//! meanings.
//!
//! The definitions stand in `specs/`; the code here only holds values.
#![tactic(auto)]

pub mod address_map;
mod board;
mod channel;
mod fetch;
mod image;
mod outside;
mod port;
mod report;

pub use board::{Board, Profile, Region, RegionKind, RegionSide, SauRegion};
pub use channel::{Channel, Channels};
pub use fetch::{FetchAnswer, Fetched};
pub use image::{Image, Segment};
pub use outside::{Shelf, ShelfError, Sink, SinkError};
pub use port::{ALIGNED_BY_CCR, ALWAYS_ALIGNED, AS_RUNNING, Port, cut_to};
pub use report::{
    Change, CrossKind, Fault, Outcome, Report, ScriptEvent, Sleep, Slot, StepKind, Store, View, Way,
};
pub use tz_table::{
    Address, BarrierOp, Code, DataOp, ExtendOp, FieldOp, Flags, Insn, LongOp, MultiplyOp,
    ReverseOp, Shift, Side, Size, Width,
};
