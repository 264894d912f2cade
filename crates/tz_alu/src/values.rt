//! Instructions that make a value of registers and constants: addresses, halfwords, saturation, bit fields,
//! extensions and reversals.

ghost use Rattle.std.specs.Prelude.{◌≡◌, ℕ, IsTrue};
ghost use Rattle.tz_table.specs.declared.units.Side.{Side};
ghost use Rattle.tz_sem.specs.Alu.{is_width as has_width, is_field as has_field, finish_adr, finish_move_wide, finish_saturate, finish_bit_field, finish_extend, finish_reverse};
ghost use Rattle.tz_alu.specs.Part.{part, left};

use crate::data::shift;
use crate::operations::{extend, field_of, reverse, saturate};
use crate::results::put;
use tz_model::{ExtendOp, Fault, FieldOp, Outcome, ReverseOp, Shift};
use tz_regs::{Registers, Stacks};

/// An address relative to PC, which is aligned to a word.
pub(crate) fn give_address(
    registers: &mut Registers,
    own: &mut Stacks,
    rd: u8,
    offset: i32,
) -> Result<Outcome, Fault>
    ensures { (side : Side) (ccr : ℕ) → left side ccr registers.old own.old (finish_adr rd offset) ≡ (part side ccr registers.new own.new, result) }
{
    let base = registers.pc.wrapping_add(4) / 4 * 4;
    put(
        registers,
        own,
        rd,
        base.wrapping_add(offset.cast_unsigned()),
    );
    Ok(Outcome::Next)
}

/// A halfword as the value, or as its top halfword alone.
pub(crate) fn move_wide(
    registers: &mut Registers,
    own: &mut Stacks,
    top: bool,
    rd: u8,
    imm: u16,
) -> Result<Outcome, Fault>
    ensures { (side : Side) (ccr : ℕ) → left side ccr registers.old own.old (finish_move_wide top rd imm) ≡ (part side ccr registers.new own.new, result) }
{
    let value = if top {
        u32::from(imm) * 0x1_0000 + registers.reg(own, rd) % 0x1_0000
    } else {
        u32::from(imm)
    };
    put(registers, own, rd, value);
    Ok(Outcome::Next)
}

/// Whether a saturation to this width has a code.
fn is_width(signed: bool, bits: u8) -> bool
    ensures { result ≡ has_width signed bits }
{
    if signed {
        bits != 0 && bits <= 32
    } else {
        bits < 32
    }
}

/// A shifted register held within a width. Q tells that this changed it, and stays set.
pub(crate) fn saturate_register(
    registers: &mut Registers,
    own: &mut Stacks,
    signed: bool,
    rd: u8,
    rn: u8,
    bits: u8,
    asr: bool,
    amount: u8,
) -> Result<Outcome, Fault>
    ensures { (side : Side) (ccr : ℕ) → left side ccr registers.old own.old (finish_saturate signed rd rn bits asr amount) ≡ (part side ccr registers.new own.new, result) }
{
    if is_width(signed, bits) {
        let kind = if asr { Shift::Asr } else { Shift::Lsl };
        let value = shift(registers.reg(own, rn), kind, amount, registers.apsr.c).0;
        let (held, is_other) = saturate(signed, value, u32::from(bits));
        registers.apsr.q = registers.apsr.q || is_other;
        put(registers, own, rd, held);
        Ok(Outcome::Next)
    } else {
        Err(Fault::Undef)
    }
}

/// Whether a field is in a word.
fn is_field(low: u8, width: u8) -> bool
    ensures { result ≡ has_field low width }
{
    width != 0 && u32::from(low) + u32::from(width) <= 32
}

/// A bit field taken out of a register or put into one.
pub(crate) fn take_field(
    registers: &mut Registers,
    own: &mut Stacks,
    op: FieldOp,
    rd: u8,
    rn: u8,
    low: u8,
    width: u8,
) -> Result<Outcome, Fault>
    ensures { (side : Side) (ccr : ℕ) → left side ccr registers.old own.old (finish_bit_field op rd rn low width) ≡ (part side ccr registers.new own.new, result) }
{
    if is_field(low, width) {
        let old = registers.reg(own, rd);
        let source = registers.reg(own, rn);
        let value = field_of(op, old, source, u32::from(low), u32::from(width));
        put(registers, own, rd, value);
        Ok(Outcome::Next)
    } else {
        Err(Fault::Undef)
    }
}

/// A halfword or byte of a rotated register, extended.
pub(crate) fn extend_register(
    registers: &mut Registers,
    own: &mut Stacks,
    op: ExtendOp,
    rd: u8,
    rm: u8,
    rotate: u8,
) -> Result<Outcome, Fault>
    ensures { (side : Side) (ccr : ℕ) → left side ccr registers.old own.old (finish_extend op rd rm rotate) ≡ (part side ccr registers.new own.new, result) }
{
    let value = extend(op, registers.reg(own, rm), u32::from(rotate));
    put(registers, own, rd, value);
    Ok(Outcome::Next)
}

/// The bytes or bits of a register turned round, or the count of its leading zeros.
pub(crate) fn reverse_register(
    registers: &mut Registers,
    own: &mut Stacks,
    op: ReverseOp,
    rd: u8,
    rm: u8,
) -> Result<Outcome, Fault>
    ensures { (side : Side) (ccr : ℕ) → left side ccr registers.old own.old (finish_reverse op rd rm) ≡ (part side ccr registers.new own.new, result) }
{
    let value = reverse(op, registers.reg(own, rm));
    put(registers, own, rd, value);
    Ok(Outcome::Next)
}
