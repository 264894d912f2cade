//! Why a file is refused as a state file. The text of an error is its code and its place.

use std::fmt;
use thiserror::Error;

/// The first refusal of a file, or want of memory.
#[derive(Clone, Copy, Drop, Error)]
pub enum SnapError {
    /// The file doesn't begin as a state file.
    #[error("S1")]
    Magic,
    /// The file is of another board.
    #[error("S2")]
    Board,
    /// The file hasn't as many bytes as those of the board have.
    #[error("S3")]
    Length,
    /// The word at this index, counted from 0, is none that can stand there.
    #[error("S4 {0}")]
    Value(u32),
    /// Memory ran out.
    #[error("no memory")]
    Memory,
}

/// The text, as it is displayed.
impl fmt::Debug for SnapError {
    fn fmt<W: fmt::Write>(&self, f: &mut fmt::Formatter<W>) -> fmt::Result {
        fmt::Display::fmt(self, f)
    }
}
