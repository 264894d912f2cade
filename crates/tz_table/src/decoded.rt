//! What a code means.

use crate::instruction::Insn;
use crate::units::Width;

/// The answer of decoding a code.
#[derive(Clone, Copy)]
pub enum Decoded {
    /// The instruction of the one row that holds the code, and its width.
    One(Insn, Width),
    /// No row holds the code, and it belongs to a coprocessor (NOCP).
    NoCoprocessor,
    /// No row holds the code of this width (UNDEFINSTR).
    Undefined(Width),
}
