//! Rows of text: which instructions have them, and of which pieces their text is.
//!
//! A place is that of one of the nine values of an instruction, as `tz_bits` gives them: 0 is the form,
//! 1 to 4 are its words, 5 to 8 its numbers.

use tz_table::Width;

/// A piece that is the same in each text that has it.
#[derive(Clone, Copy)]
pub enum Mark {
    /// A space before the operands.
    Gap,
    /// A comma and a space between operands.
    Comma,
    /// `[`
    Open,
    /// `]`
    Close,
    /// `!` behind a base that is written back.
    Back,
    /// The program counter as the base of a literal.
    Pc,
    /// A shift left by 1 of the operand before it.
    Doubled,
}

/// A piece of a text behind the mnemonic. The numbers are places.
#[derive(Clone, Copy)]
pub enum Piece {
    Mark(Mark),
    /// A register.
    Register(u8),
    /// A constant or an offset in decimal.
    Number(u8),
    /// The constant that twelve bits stand for.
    Expanded(u8),
    /// An offset from the instruction's address plus 4, as the address that it leads to.
    Target(u8),
    /// The same where the instruction's address plus 4 is aligned to 4 first.
    AlignedTarget(u8),
    /// A list of registers, a bit each.
    List(u8),
    /// A shift of the operand before it: the place of its kind, and that of its amount.
    Shift(u8, u8),
    /// A shift left, by the amount at the place.
    Left(u8),
    /// A shift right that keeps the sign.
    Right(u8),
    /// A rotation right.
    Rotated(u8),
    /// A special register.
    Special(u8),
    /// A condition.
    Condition(u8),
    /// The letters behind `it`: the place of the condition, and that of the mask.
    Letters(u8, u8),
    /// `i`, `f` or both: the places where 1 says so.
    Masks(u8, u8),
}

/// The text of the instructions of a form and a width that have these values at these places.
#[derive(Clone, Copy)]
pub struct TextRow {
    /// The value at place 0.
    pub form: u16,
    pub width: Width,
    pub fixed: [Option<(u8, i32)>; 4],
    pub mnemonic: &'static str,
    pub pieces: [Option<Piece>; 11],
}
