//! The codes of 32 bits that begin with 1111101: shifts by a register, extensions, reversals,
//! multiplications and divisions.

ghost use Rattle.std.specs.Prelude.{◌≡◌, ◌*◌, if◌then◌else◌};
ghost use Rattle.tz_table.specs.Fields.{bits};
ghost use Rattle.tz_table.specs.Limits.{plain2 as plain2_of, plain2_same as plain2_same_of, can_multiply_long as can_multiply_long_of};
ghost use Rattle.tz_table.specs.Table.{decode_of};
ghost use Rattle.tz_table.specs.declared.Decoded.TheVariants.{One, Undefined};
ghost use Rattle.tz_table.specs.declared.Flags.TheVariants as flags;
ghost use Rattle.tz_table.specs.declared.Insn.TheVariants as insns;
ghost use Rattle.tz_table.specs.declared.Width.TheVariants.{Wide};

use crate::fields::{field, flags, shift, undefined, wide_if};
use tz_table::limits::{can_multiply_long, plain2, plain2_same, plain3, plain4};
use tz_table::{Decoded, ExtendOp, Flags, Insn, LongOp, MultiplyOp, ReverseOp, Width};

/// The codes 1111101.
#[tactic(auto, using(crate::proofs::ArithmeticLaws::arithmetic))]
pub fn arithmetic(first: u16, second: u16) -> Decoded
    requires { bits first 9 7 ≡ 125 }
    ensures { result ≡ decode_of first second }
{
    match field(first, 7, 2) {
        0 => shifts_and_extensions(first, second),
        1 => reversals(first, second),
        2 => multiplications(first, second),
        _ => {
            if field(first, 4, 1) == 0 {
                long_multiplications(first, second)
            } else {
                divisions(first, second)
            }
        }
    }
}

/// The codes 111110100.
#[tactic(auto, using(crate::proofs::ArithmeticLaws::shifts_and_extensions))]
fn shifts_and_extensions(first: u16, second: u16) -> Decoded
    requires { bits first 7 9 ≡ 500 }
    ensures { result ≡ decode_of first second }
{
    let rd = field(second, 8, 4);
    let rn = field(first, 0, 4);
    let rm = field(second, 0, 4);
    if field(second, 12, 4) != 15 {
        undefined()
    } else if field(second, 6, 2) == 2 {
        if rn == 15 {
            extensions(first, second)
        } else {
            undefined()
        }
    } else if field(second, 4, 4) != 0 {
        undefined()
    } else {
        let kind = shift(field(first, 5, 2));
        let flags = flags(field(first, 4, 1));
        wide_if(
            plain3(rd, rn, rm),
            Insn::ShiftReg {
                kind,
                flags,
                rd,
                rn,
                rm,
            },
        )
    }
}

/// An extension of a rotated register.
fn extended(op: ExtendOp, second: u16) -> Decoded
    ensures { result ≡ (if plain2_of (bits second 8 4) (bits second 0 4) then One (insns.Extend op (bits second 8 4) (bits second 0 4) (bits second 4 2 * 8)) Wide else Undefined Wide) }
{
    let rd = field(second, 8, 4);
    let rm = field(second, 0, 4);
    let rotate = field(second, 4, 2) * 8;
    wide_if(plain2(rd, rm), Insn::Extend { op, rd, rm, rotate })
}

/// The codes 111110100...1111.
#[tactic(auto, using(crate::proofs::ArithmeticLaws::extensions))]
fn extensions(first: u16, second: u16) -> Decoded
    requires { (bits first 7 9 ≡ 500) × (bits first 0 4 ≡ 15) × (bits second 12 4 ≡ 15) × (bits second 6 2 ≡ 2) }
    ensures { result ≡ decode_of first second }
{
    match field(first, 4, 3) {
        0 => extended(ExtendOp::Sxth, second),
        1 => extended(ExtendOp::Uxth, second),
        4 => extended(ExtendOp::Sxtb, second),
        5 => extended(ExtendOp::Uxtb, second),
        _ => undefined(),
    }
}

/// A reversal of a register that the code names twice.
fn reversed(op: ReverseOp, first: u16, second: u16) -> Decoded
    ensures { result ≡ (if plain2_same_of (bits second 8 4) (bits second 0 4) (bits first 0 4) then One (insns.Reverse op (bits second 8 4) (bits second 0 4)) Wide else Undefined Wide) }
{
    let rd = field(second, 8, 4);
    let rm = field(second, 0, 4);
    wide_if(
        plain2_same(rd, rm, field(first, 0, 4)),
        Insn::Reverse { op, rd, rm },
    )
}

/// The codes 111110101.
#[tactic(auto, using(crate::proofs::ArithmeticLaws::reversals))]
fn reversals(first: u16, second: u16) -> Decoded
    requires { bits first 7 9 ≡ 501 }
    ensures { result ≡ decode_of first second }
{
    if field(second, 12, 4) != 15 {
        return undefined();
    }
    match field(first, 4, 3) {
        1 => orders(first, second),
        3 => {
            if field(second, 4, 4) != 8 {
                undefined()
            } else {
                reversed(ReverseOp::Clz, first, second)
            }
        }
        _ => undefined(),
    }
}

/// The codes 111110101001.
#[tactic(auto, using(crate::proofs::ArithmeticLaws::orders))]
fn orders(first: u16, second: u16) -> Decoded
    requires { (bits first 7 9 ≡ 501) × (bits first 4 3 ≡ 1) × (bits second 12 4 ≡ 15) }
    ensures { result ≡ decode_of first second }
{
    if field(second, 6, 2) != 2 {
        return undefined();
    }
    match field(second, 4, 2) {
        0 => reversed(ReverseOp::Rev, first, second),
        1 => reversed(ReverseOp::Rev16, first, second),
        2 => reversed(ReverseOp::Rbit, first, second),
        _ => reversed(ReverseOp::Revsh, first, second),
    }
}

/// A multiplication with a result of 32 bits.
fn product(op: MultiplyOp, rd: u8, rn: u8, rm: u8, ra: u8) -> Insn
    ensures { result ≡ insns.Multiply op flags.Never rd rn rm ra }
{
    Insn::Multiply {
        op,
        flags: Flags::Never,
        rd,
        rn,
        rm,
        ra,
    }
}

/// The codes 111110110.
#[tactic(auto, using(crate::proofs::ArithmeticLaws::multiplications))]
fn multiplications(first: u16, second: u16) -> Decoded
    requires { bits first 7 9 ≡ 502 }
    ensures { result ≡ decode_of first second }
{
    let rd = field(second, 8, 4);
    let rn = field(first, 0, 4);
    let rm = field(second, 0, 4);
    let ra = field(second, 12, 4);
    if field(first, 4, 3) != 0 || field(second, 5, 3) != 0 {
        return undefined();
    }
    if field(second, 4, 1) != 0 {
        let mls = product(MultiplyOp::Mls, rd, rn, rm, ra);
        wide_if(plain4(rd, rn, rm, ra), mls)
    } else if ra == 15 {
        let mul = product(MultiplyOp::Mul, rd, rn, rm, 0);
        wide_if(plain3(rd, rn, rm), mul)
    } else {
        let mla = product(MultiplyOp::Mla, rd, rn, rm, ra);
        wide_if(plain4(rd, rn, rm, ra), mla)
    }
}

/// A multiplication with two results.
fn multiplied(op: LongOp, first: u16, second: u16) -> Decoded
    ensures { result ≡ (if can_multiply_long_of (bits second 12 4) (bits second 8 4) (bits first 0 4) (bits second 0 4) then One (insns.MultiplyLong op (bits second 12 4) (bits second 8 4) (bits first 0 4) (bits second 0 4)) Wide else Undefined Wide) }
{
    let lo = field(second, 12, 4);
    let hi = field(second, 8, 4);
    let rn = field(first, 0, 4);
    let rm = field(second, 0, 4);
    wide_if(
        can_multiply_long(lo, hi, rn, rm),
        Insn::MultiplyLong { op, lo, hi, rn, rm },
    )
}

/// The codes 111110111..0.
#[tactic(auto, using(crate::proofs::ArithmeticLaws::long_multiplications))]
fn long_multiplications(first: u16, second: u16) -> Decoded
    requires { (bits first 7 9 ≡ 503) × (bits first 4 1 ≡ 0) }
    ensures { result ≡ decode_of first second }
{
    if field(second, 4, 4) != 0 {
        return undefined();
    }
    match field(first, 5, 2) {
        0 => multiplied(LongOp::Smull, first, second),
        1 => multiplied(LongOp::Umull, first, second),
        2 => multiplied(LongOp::Smlal, first, second),
        _ => multiplied(LongOp::Umlal, first, second),
    }
}

/// The codes 111110111..1.
#[tactic(auto, using(crate::proofs::ArithmeticLaws::divisions))]
fn divisions(first: u16, second: u16) -> Decoded
    requires { (bits first 7 9 ≡ 503) × (bits first 4 1 ≡ 1) }
    ensures { result ≡ decode_of first second }
{
    let rd = field(second, 8, 4);
    let rn = field(first, 0, 4);
    let rm = field(second, 0, 4);
    let allowed = plain3(rd, rn, rm);
    if field(second, 12, 4) != 15 {
        return undefined();
    }
    if field(second, 4, 4) != 15 {
        return undefined();
    }
    match field(first, 5, 2) {
        0 => wide_if(
            allowed,
            Insn::Divide {
                signed: true,
                rd,
                rn,
                rm,
            },
        ),
        1 => wide_if(
            allowed,
            Insn::Divide {
                signed: false,
                rd,
                rn,
                rm,
            },
        ),
        _ => undefined(),
    }
}
