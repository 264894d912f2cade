//! The code of an instruction that is written as a mnemonic and the tokens of its operands.
//!
//! A statement is read by the rows of texts by which instructions are printed: what a row prints, it reads. Of the
//! rows of a mnemonic whose operands have the shape, the first whose values are those of an instruction that has a
//! code gives the code. Nothing here knows a line, a label's name or where bytes go.

mod bits;
mod coded;
mod front;
mod index;
mod mnemonics;
mod operands;
mod pieces;
mod progress;
mod rows;
mod uncoded;

pub use coded::{code_of, coded_once, coded_width, has_shape, width_of};
pub use operands::{has_dot, is_label};
pub use uncoded::Uncoded;
