//! What a line of source says: a label, and a directive or an instruction, or neither.
//!
//! A line is read from its tokens and the text behind them, exactly as the definitions say, or refused for the first cause. An
//! instruction is only told by its mnemonic and its operands; where its operands have the shape of a text,
//! the module `code` tells its code. What stands in other lines isn't known here.

mod directive;
mod label;
mod number;
mod source_line;
mod statement;
mod text;

pub use number::Signed;
pub use source_line::{SourceLine, read_line};
pub use statement::{Ending, Expression, LineError, Statement};
pub use text::{quoted_at, read_text};
