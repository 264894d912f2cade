//! Why an instruction has no code of a width.

use tz_bits::FieldName;

/// Why there is no code.
#[derive(Clone, Copy, PartialEq)]
pub enum EncodeError {
    /// There are no codes of this shape at that width, whatever numbers stand in them: of this variant,
    /// operation, flags, sizes and kind of address.
    NoForm,
    /// There are codes of this shape, but none with these registers, constants and offsets. The field is
    /// the one at which the last row that has such codes gives up: its codes can have all the numbers
    /// before this one together, and not this one as well.
    Range(FieldName),
}
