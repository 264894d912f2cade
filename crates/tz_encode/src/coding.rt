//! How the number in the bits of a field stands for its value.

/// How a number stands for a value. Places count from 1, the form's fields before the others; place 0 is
/// the variant.
#[derive(Clone, Copy)]
pub enum Coding {
    /// No bits: one value.
    Is(i32),
    /// No bits: the value at an earlier place.
    Same(u8),
    /// The number.
    Natural,
    /// That much more than the number.
    Above(u8),
    /// The number below zero.
    Minus,
    /// The number, where those from this one on stand for those from minus this one on.
    Signed(u32),
    /// Bits 11:0, plus where bit 12 is 1, else minus; minus 0 is 0.
    Sign,
    /// The distance of B.W and BL: bits 23 and 22 are inverted where bit 24 is 0.
    Far,
    /// An amount of a shift to the right, where 0 stands for 32.
    Right,
    /// The shift of which the number at place 8 holds kind and amount.
    Kind,
    /// Kind (bits 6:5) and amount (bits 4:0) of the shift at place 2 (`DecodeImmShift`): a shift to the
    /// right by 0 is by 32, and a rotation by 0 is RRX by 1.
    Amount,
    /// The width of a field of bits whose lowest is at place 7 and whose highest is the number.
    UpTo,
    /// Whether the base at place 5 isn't in the list at place 6.
    Unlisted,
    /// Nothing more: the number is the register at place 6 again.
    Again,
}
