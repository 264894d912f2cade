//! Why source is refused. The text of an error is its code and its line.

use std::fmt;
use thiserror::Error;

/// The first refusal of a source with its line, which counts from 1, or want of memory.
#[derive(Clone, Copy, Drop, Error)]
pub enum AsmError {
    /// The line without its comment isn't a list of tokens.
    #[error("A1 {0}")]
    Token(u32),
    /// The statement doesn't begin with a mnemonic or a directive.
    #[error("A2 {0}")]
    Mnemonic(u32),
    /// The operands don't have a shape that the mnemonic or the directive has, or the label is the name of
    /// a register.
    #[error("A3 {0}")]
    Operands(u32),
    /// The values have no code, or don't fit their bytes.
    #[error("A4 {0}")]
    Range(u32),
    /// A label stands in no line, or one in an `.equ` in none before it.
    #[error("A5 {0}")]
    NoLabel(u32),
    /// The label was defined before.
    #[error("A6 {0}")]
    TwoLabels(u32),
    /// `.org` goes back.
    #[error("A7 {0}")]
    OrgBackwards(u32),
    /// There are more than 4 MiB of bytes, a byte past the last address, or 65,536 segments.
    #[error("A8 {0}")]
    TooLarge(u32),
    /// Memory ran out.
    #[error("no memory")]
    Memory,
}

/// An error is shown by its text.
impl fmt::Debug for AsmError {
    fn fmt<W: fmt::Write>(&self, f: &mut fmt::Formatter<W>) -> fmt::Result {
        fmt::Display::fmt(self, f)
    }
}
