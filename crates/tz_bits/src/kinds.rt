//! The numbers of the named kinds in an instruction: operations, flags, shifts, sizes and addresses.
//! A kind's values count from 0 in the order of its declaration, but for addresses, and for operations that make
//! forms: these count from the first of their forms.

ghost use Rattle.std.specs.Prelude.{◌≡◌, ◌+◌, pos};
ghost use Rattle.tz_table.specs.Forms.{data_number as data_number_of, field_number as field_number_of, extend_number as extend_number_of, reverse_number as reverse_number_of, multiply_number as multiply_number_of, long_number as long_number_of, barrier_number as barrier_number_of};
ghost use Rattle.tz_bits.specs.Values.{address_first as address_first_of, address_number as address_number_of, address_second as address_second_of, address_third as address_third_of, flags_number as flags_number_of, shift_number as shift_number_of, size_number as size_number_of};

use tz_table::{
    Address, BarrierOp, DataOp, ExtendOp, FieldOp, Flags, LongOp, MultiplyOp, ReverseOp, Shift,
    Size,
};

/// The number of a data operation.
pub fn data_number(op: DataOp) -> u8
    ensures { result ≡ data_number_of op }
{
    match op {
        DataOp::And => 0,
        DataOp::Bic => 1,
        DataOp::Orr => 2,
        DataOp::Orn => 3,
        DataOp::Eor => 4,
        DataOp::Add => 5,
        DataOp::Adc => 6,
        DataOp::Sbc => 7,
        DataOp::Sub => 8,
        DataOp::Rsb => 9,
        DataOp::Mov => 10,
        DataOp::Mvn => 11,
        DataOp::Tst => 12,
        DataOp::Teq => 13,
        DataOp::Cmn => 14,
        DataOp::Cmp => 15,
    }
}

/// The number of the form of a bit field operation.
pub fn field_form(op: FieldOp) -> i32
    ensures { result ≡ pos (37 + field_number_of op) }
{
    match op {
        FieldOp::Sbfx => 37,
        FieldOp::Ubfx => 38,
        FieldOp::Bfi => 39,
        FieldOp::Bfc => 40,
    }
}

/// The number of the form of an extension.
pub fn extend_form(op: ExtendOp) -> i32
    ensures { result ≡ pos (41 + extend_number_of op) }
{
    match op {
        ExtendOp::Sxth => 41,
        ExtendOp::Sxtb => 42,
        ExtendOp::Uxth => 43,
        ExtendOp::Uxtb => 44,
    }
}

/// The number of the form of a reversal.
pub fn reverse_form(op: ReverseOp) -> i32
    ensures { result ≡ pos (45 + reverse_number_of op) }
{
    match op {
        ReverseOp::Rev => 45,
        ReverseOp::Rev16 => 46,
        ReverseOp::Rbit => 47,
        ReverseOp::Revsh => 48,
        ReverseOp::Clz => 49,
    }
}

/// The number of the form of a multiplication.
pub fn multiply_form(op: MultiplyOp) -> i32
    ensures { result ≡ pos (50 + multiply_number_of op) }
{
    match op {
        MultiplyOp::Mul => 50,
        MultiplyOp::Mla => 51,
        MultiplyOp::Mls => 52,
    }
}

/// The number of the form of a multiplication of 64 bits.
pub fn long_form(op: LongOp) -> i32
    ensures { result ≡ pos (53 + long_number_of op) }
{
    match op {
        LongOp::Smull => 53,
        LongOp::Umull => 54,
        LongOp::Smlal => 55,
        LongOp::Umlal => 56,
    }
}

/// The number of the form of a barrier.
pub fn barrier_form(op: BarrierOp) -> i32
    ensures { result ≡ pos (78 + barrier_number_of op) }
{
    match op {
        BarrierOp::Clrex => 78,
        BarrierOp::Dsb => 79,
        BarrierOp::Dmb => 80,
        BarrierOp::Isb => 81,
    }
}

/// The number of when an instruction sets the flags.
pub fn flags_number(flags: Flags) -> i32
    ensures { result ≡ pos (flags_number_of flags) }
{
    match flags {
        Flags::Never => 0,
        Flags::Always => 1,
        Flags::OutsideIt => 2,
    }
}

/// The number of a shift.
pub fn shift_number(shift: Shift) -> i32
    ensures { result ≡ pos (shift_number_of shift) }
{
    match shift {
        Shift::Lsl => 0,
        Shift::Lsr => 1,
        Shift::Asr => 2,
        Shift::Ror => 3,
        Shift::Rrx => 4,
    }
}

/// The number of a size.
pub fn size_number(size: Size) -> i32
    ensures { result ≡ pos (size_number_of size) }
{
    match size {
        Size::Byte => 0,
        Size::Half => 1,
        Size::Word => 2,
    }
}

/// The number of the kind of an address: between `Index` and `Literal` the bit P (the access is at the sum)
/// plus twice the bit W (the register takes the sum).
pub fn address_number(address: Address) -> i32
    ensures { result ≡ pos (address_number_of address) }
{
    match address {
        Address::Index { .. } => 0,
        Address::Offset { .. } => 1,
        Address::Post { .. } => 2,
        Address::Pre { .. } => 3,
        Address::Literal { .. } => 4,
    }
}

/// The first number of an address.
pub fn address_first(address: Address) -> i32
    ensures { result ≡ address_first_of address }
{
    match address {
        Address::Index { rn, .. } => i32::from(rn),
        Address::Offset { rn, .. } => i32::from(rn),
        Address::Post { rn, .. } => i32::from(rn),
        Address::Pre { rn, .. } => i32::from(rn),
        Address::Literal { offset } => offset,
    }
}

/// The second number of an address.
pub fn address_second(address: Address) -> i32
    ensures { result ≡ address_second_of address }
{
    match address {
        Address::Index { rm, .. } => i32::from(rm),
        Address::Offset { offset, .. } => offset,
        Address::Post { offset, .. } => offset,
        Address::Pre { offset, .. } => offset,
        Address::Literal { .. } => 0,
    }
}

/// The third number of an address.
pub fn address_third(address: Address) -> i32
    ensures { result ≡ address_third_of address }
{
    match address {
        Address::Index { amount, .. } => i32::from(amount),
        Address::Offset { .. } => 0,
        Address::Post { .. } => 0,
        Address::Pre { .. } => 0,
        Address::Literal { .. } => 0,
    }
}
