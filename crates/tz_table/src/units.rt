//! Security states, sizes, shifts and codes.

/// A security state, or the side of a banked register, a stack or an exception.
#[derive(Clone, Copy, PartialEq, Eq, Debug)]
pub enum Side {
    Secure,
    NonSecure,
}

/// The size of a data access: 1, 2 or 4 bytes.
#[derive(Clone, Copy, PartialEq, Eq, Debug)]
pub enum Size {
    Byte,
    Half,
    Word,
}

/// A shift of a register operand (DDI0553, `SRType`).
#[derive(Clone, Copy, PartialEq, Eq, Debug)]
pub enum Shift {
    Lsl,
    Lsr,
    Asr,
    Ror,
    Rrx,
}

/// The width of an instruction: 16 or 32 bits.
#[derive(Clone, Copy, PartialEq, Eq, Debug)]
pub enum Width {
    Narrow,
    Wide,
}

/// The code of an instruction: one halfword, or two in the order in which they lie in memory.
#[derive(Clone, Copy, PartialEq, Eq, Debug)]
pub struct Code {
    pub first: u16,
    pub second: Option<u16>,
}
