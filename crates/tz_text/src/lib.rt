//! The texts that are shown of a machine and of an image: the line of a step in the trace, and a line for
//! each instruction, halfword or byte of an image.
//!
//! A line of the trace is exactly what the definition `line` says, for every report and both views. `Lines` makes one
//! after the other, over what it keeps of those before, and takes no memory. Of the machine it knows nothing but reports.
//! `disassembly` writes an image, and the module `spelled` has the law that each instruction that a code
//! means has a text.
#![tactic(auto)]

mod disassembly;
mod hex;
mod instructions;
mod kept;
mod lines;
mod names;
mod number;
mod room;
mod spelled;

pub use disassembly::{disassemble, runs_are_maximal};
pub use lines::{Lines, line};
pub use spelled::decoded_is_spelled;
pub use tz_model::View;
pub use tz_syntax::instruction_text;
