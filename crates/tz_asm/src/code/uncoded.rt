//! Why a statement has no code.

/// Why there is no code.
#[derive(Clone, Copy)]
pub enum Uncoded {
    /// The last operand is a label, and nothing was told that it stands for.
    NoLabel,
    /// No instruction that has a code has these values: a register, a constant, a list or a target isn't one that the
    /// mnemonic takes there, or the operands haven't the shape of one of its texts.
    Range,
}
