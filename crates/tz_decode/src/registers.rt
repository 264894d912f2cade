//! The codes of 32 bits that process data with a shifted register: those that begin with 1110101.

ghost use Rattle.std.specs.Prelude.{◌≡◌, if◌then◌else◌};
ghost use Rattle.tz_table.specs.Fields.{bits};
ghost use Rattle.tz_table.specs.Limits.{plain2, plain3, plain_base, can_add_register, can_move as can_move_of};
ghost use Rattle.tz_table.specs.Table.{decode_of};
ghost use Rattle.tz_table.specs.Terms.{flags_of, imm_shift_of, imm_amount_of, imm5_of};
ghost use Rattle.tz_table.specs.declared.DataOp.TheVariants as ops;
ghost use Rattle.tz_table.specs.declared.Decoded.TheVariants.{One, Undefined};
ghost use Rattle.tz_table.specs.declared.Flags.TheVariants as flags;
ghost use Rattle.tz_table.specs.declared.Insn.TheVariants as insns;
ghost use Rattle.tz_table.specs.declared.Width.TheVariants.{Wide};

use crate::classes::{DataClass, data_class};
use crate::fields::{field, flags, imm_amount, imm_shift, undefined, wide_if};
use tz_table::limits::{can_add_register, can_move, plain_base, plain2, plain3};
use tz_table::{DataOp, Decoded, Flags, Insn, Width, imm5};

/// An operation with a shifted register.
fn shifted(op: DataOp, flags: Flags, rd: u8, rn: u8, second: u16) -> Insn
    ensures { result ≡ insns.DataReg op flags rd rn (bits second 0 4) (imm_shift_of (bits second 4 2) (imm5_of second)) (imm_amount_of (bits second 4 2) (imm5_of second)) }
{
    let kind = field(second, 4, 2);
    let amount = imm5(second);
    Insn::DataReg {
        op,
        flags,
        rd,
        rn,
        rm: field(second, 0, 4),
        shift: imm_shift(kind, amount),
        amount: imm_amount(kind, amount),
    }
}

/// An operation of three plain registers.
fn of_three(op: DataOp, first: u16, second: u16) -> Decoded
    ensures { result ≡ (if plain3 (bits second 8 4) (bits first 0 4) (bits second 0 4) then One (insns.DataReg op (flags_of (bits first 4 1)) (bits second 8 4) (bits first 0 4) (bits second 0 4) (imm_shift_of (bits second 4 2) (imm5_of second)) (imm_amount_of (bits second 4 2) (imm5_of second))) Wide else Undefined Wide) }
{
    let rd = field(second, 8, 4);
    let rn = field(first, 0, 4);
    wide_if(
        plain3(rd, rn, field(second, 0, 4)),
        shifted(op, flags(field(first, 4, 1)), rd, rn, second),
    )
}

/// A sum or a difference, which may be of SP.
fn sum(op: DataOp, first: u16, second: u16) -> Decoded
    ensures { result ≡ (if can_add_register (bits second 8 4) (bits first 0 4) (bits second 0 4) (bits second 4 2) (imm5_of second) then One (insns.DataReg op (flags_of (bits first 4 1)) (bits second 8 4) (bits first 0 4) (bits second 0 4) (imm_shift_of (bits second 4 2) (imm5_of second)) (imm_amount_of (bits second 4 2) (imm5_of second))) Wide else Undefined Wide) }
{
    let rd = field(second, 8, 4);
    let rn = field(first, 0, 4);
    let rm = field(second, 0, 4);
    let kind = field(second, 4, 2);
    wide_if(
        can_add_register(rd, rn, rm, kind, imm5(second)),
        shifted(op, flags(field(first, 4, 1)), rd, rn, second),
    )
}

/// A test of two plain registers.
fn tested(op: DataOp, first: u16, second: u16) -> Decoded
    ensures { result ≡ (if plain2 (bits first 0 4) (bits second 0 4) then One (insns.DataReg op flags.Always 0 (bits first 0 4) (bits second 0 4) (imm_shift_of (bits second 4 2) (imm5_of second)) (imm_amount_of (bits second 4 2) (imm5_of second))) Wide else Undefined Wide) }
{
    let rn = field(first, 0, 4);
    wide_if(
        plain2(rn, field(second, 0, 4)),
        shifted(op, Flags::Always, 0, rn, second),
    )
}

/// A comparison of two registers, of which the first may be SP.
fn compared(op: DataOp, first: u16, second: u16) -> Decoded
    ensures { result ≡ (if plain_base (bits second 0 4) (bits first 0 4) then One (insns.DataReg op flags.Always 0 (bits first 0 4) (bits second 0 4) (imm_shift_of (bits second 4 2) (imm5_of second)) (imm_amount_of (bits second 4 2) (imm5_of second))) Wide else Undefined Wide) }
{
    let rn = field(first, 0, 4);
    wide_if(
        plain_base(field(second, 0, 4), rn),
        shifted(op, Flags::Always, 0, rn, second),
    )
}

/// A move of a shifted register.
fn moved(first: u16, second: u16) -> Decoded
    ensures { result ≡ (if can_move_of (bits first 4 1) (bits second 8 4) (bits second 0 4) (bits second 4 2) (imm5_of second) then One (insns.DataReg ops.Mov (flags_of (bits first 4 1)) (bits second 8 4) 0 (bits second 0 4) (imm_shift_of (bits second 4 2) (imm5_of second)) (imm_amount_of (bits second 4 2) (imm5_of second))) Wide else Undefined Wide) }
{
    let rd = field(second, 8, 4);
    let rm = field(second, 0, 4);
    let sets = field(first, 4, 1);
    let kind = field(second, 4, 2);
    wide_if(
        can_move(sets, rd, rm, kind, imm5(second)),
        shifted(DataOp::Mov, flags(sets), rd, 0, second),
    )
}

/// A move of a shifted register, inverted.
fn moved_not(first: u16, second: u16) -> Decoded
    ensures { result ≡ (if plain2 (bits second 8 4) (bits second 0 4) then One (insns.DataReg ops.Mvn (flags_of (bits first 4 1)) (bits second 8 4) 0 (bits second 0 4) (imm_shift_of (bits second 4 2) (imm5_of second)) (imm_amount_of (bits second 4 2) (imm5_of second))) Wide else Undefined Wide) }
{
    let rd = field(second, 8, 4);
    wide_if(
        plain2(rd, field(second, 0, 4)),
        shifted(DataOp::Mvn, flags(field(first, 4, 1)), rd, 0, second),
    )
}

/// The codes 1110101.
pub fn registers(first: u16, second: u16) -> Decoded
    requires { bits first 9 7 ≡ 117 }
    ensures { result ≡ decode_of first second }
{
    if field(second, 15, 1) != 0 {
        return undefined();
    }
    match data_class(first, second) {
        DataClass::Plain(op) => of_three(op, first, second),
        DataClass::Sum(op) => sum(op, first, second),
        DataClass::Move => moved(first, second),
        DataClass::MoveNot => moved_not(first, second),
        DataClass::Test(op) => tested(op, first, second),
        DataClass::Comparison(op) => compared(op, first, second),
        DataClass::Undefined => undefined(),
    }
}
