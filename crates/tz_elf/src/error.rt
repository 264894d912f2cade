//! Why a file is refused as an image. The text of an error is its code and its place.

use std::fmt;
use thiserror::Error;

/// The first refusal of a file, or want of memory. The numbers are those of segments, which count
/// from 0 (the lines with bytes of a plain image, the program headers of an ELF file), and of lines,
/// which count from 1.
#[derive(Clone, Copy, Drop, Error)]
pub enum ElfError {
    /// The file doesn't begin with the four bytes of ELF.
    #[error("L1")]
    Magic,
    /// The file isn't of 32 bits with the low byte first.
    #[error("L2")]
    ClassOrOrder,
    /// The file is no executable for Arm.
    #[error("L3")]
    TypeOrMachine,
    /// The file header, or the table of program headers, goes past the end of the file.
    #[error("L4")]
    HeaderCut,
    /// The bytes of a segment go past the end of the file.
    #[error("L5 {0}")]
    SegmentCut(u32),
    /// A byte of a segment lies in no region of the board.
    #[error("L6 {0}")]
    Outside(u32),
    /// A byte of a segment lies in a region that an image of this side doesn't use.
    #[error("L7 {0}")]
    WrongSide(u32),
    /// The first is the earliest segment that shares a byte with the second.
    #[error("L8 {0} {1}")]
    Overlap(u32, u32),
    /// The line isn't an address and 1 to 64 bytes in hexadecimal digits.
    #[error("L9 {0}")]
    Hex(u32),
    /// Memory ran out.
    #[error("no memory")]
    Memory,
}

/// The text, as it is displayed.
impl fmt::Debug for ElfError {
    fn fmt<W: fmt::Write>(&self, f: &mut fmt::Formatter<W>) -> fmt::Result {
        fmt::Display::fmt(self, f)
    }
}
