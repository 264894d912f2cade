//! The codes of 32 bits that process data with a constant: those that begin with 11110 and have 0 in the
//! second halfword. Saturation and bit fields are among them.

ghost use Rattle.std.specs.Prelude.{◌≡◌, ◌+◌, ◌-◌, ◌<◌, pos, neg_ℤ, if◌then◌else◌};
ghost use Rattle.tz_table.specs.Fields.{bits};
ghost use Rattle.tz_table.specs.Limits.{can_set, can_set_from, can_compare, can_add_constant, plain as plain_of, can_saturate as can_saturate_of, can_extract as can_extract_of};
ghost use Rattle.tz_table.specs.Table.{decode_of};
ghost use Rattle.tz_table.specs.Terms.{flags_of, imm12_of, imm5_of, is_one};
ghost use Rattle.tz_table.specs.declared.Decoded.TheVariants.{One, Undefined};
ghost use Rattle.tz_table.specs.declared.Flags.TheVariants as flags;
ghost use Rattle.tz_table.specs.declared.Insn.TheVariants as insns;
ghost use Rattle.tz_table.specs.declared.Width.TheVariants.{Wide};

use crate::classes::{DataClass, data_class};
use crate::fields::{field, flags, undefined, wide_if};
use tz_table::limits::{
    can_add, can_add_constant, can_clear, can_compare, can_extract, can_insert, can_saturate,
    can_set, can_set_from, plain,
};
use tz_table::{DataOp, Decoded, FieldOp, Flags, Insn, Width, imm5, imm12};

/// An operation with a constant.
fn constant(op: DataOp, first: u16, rd: u8, rn: u8, imm12: u16) -> Insn
    ensures { result ≡ insns.DataImm op (flags_of (bits first 4 1)) rd rn imm12 }
{
    Insn::DataImm {
        op,
        flags: flags(field(first, 4, 1)),
        rd,
        rn,
        imm12,
    }
}

/// An operation of plain registers and a constant.
fn of_two(op: DataOp, first: u16, second: u16) -> Decoded
    ensures { result ≡ (if can_set_from (bits second 8 4) (bits first 0 4) (imm12_of first second) then One (insns.DataImm op (flags_of (bits first 4 1)) (bits second 8 4) (bits first 0 4) (imm12_of first second)) Wide else Undefined Wide) }
{
    let rd = field(second, 8, 4);
    let rn = field(first, 0, 4);
    let imm12 = imm12(first, second);
    wide_if(
        can_set_from(rd, rn, imm12),
        constant(op, first, rd, rn, imm12),
    )
}

/// A sum or a difference, which may be of SP.
fn sum(op: DataOp, first: u16, second: u16) -> Decoded
    ensures { result ≡ (if can_add_constant (bits second 8 4) (bits first 0 4) (imm12_of first second) then One (insns.DataImm op (flags_of (bits first 4 1)) (bits second 8 4) (bits first 0 4) (imm12_of first second)) Wide else Undefined Wide) }
{
    let rd = field(second, 8, 4);
    let rn = field(first, 0, 4);
    let imm12 = imm12(first, second);
    wide_if(
        can_add_constant(rd, rn, imm12),
        constant(op, first, rd, rn, imm12),
    )
}

/// A move of a constant.
fn moved(op: DataOp, first: u16, second: u16) -> Decoded
    ensures { result ≡ (if can_set (bits second 8 4) (imm12_of first second) then One (insns.DataImm op (flags_of (bits first 4 1)) (bits second 8 4) 0 (imm12_of first second)) Wide else Undefined Wide) }
{
    let rd = field(second, 8, 4);
    let imm12 = imm12(first, second);
    wide_if(can_set(rd, imm12), constant(op, first, rd, 0, imm12))
}

/// A test of a plain register.
fn tested(op: DataOp, first: u16, second: u16) -> Decoded
    ensures { result ≡ (if can_set (bits first 0 4) (imm12_of first second) then One (insns.DataImm op flags.Always 0 (bits first 0 4) (imm12_of first second)) Wide else Undefined Wide) }
{
    let rn = field(first, 0, 4);
    let imm12 = imm12(first, second);
    let flags = Flags::Always;
    wide_if(
        can_set(rn, imm12),
        Insn::DataImm {
            op,
            flags,
            rd: 0,
            rn,
            imm12,
        },
    )
}

/// A comparison of a register, which may be SP.
fn compared(op: DataOp, first: u16, second: u16) -> Decoded
    ensures { result ≡ (if can_compare (bits first 0 4) (imm12_of first second) then One (insns.DataImm op flags.Always 0 (bits first 0 4) (imm12_of first second)) Wide else Undefined Wide) }
{
    let rn = field(first, 0, 4);
    let imm12 = imm12(first, second);
    let flags = Flags::Always;
    wide_if(
        can_compare(rn, imm12),
        Insn::DataImm {
            op,
            flags,
            rd: 0,
            rn,
            imm12,
        },
    )
}

/// The codes 11110.0 with 0 in the second halfword.
pub fn constants(first: u16, second: u16) -> Decoded
    requires { (bits first 11 5 ≡ 30) × (bits first 9 1 ≡ 0) × (bits second 15 1 ≡ 0) }
    ensures { result ≡ decode_of first second }
{
    match data_class(first, second) {
        DataClass::Plain(op) => of_two(op, first, second),
        DataClass::Sum(op) => sum(op, first, second),
        DataClass::Move => moved(DataOp::Mov, first, second),
        DataClass::MoveNot => moved(DataOp::Mvn, first, second),
        DataClass::Test(op) => tested(op, first, second),
        DataClass::Comparison(op) => compared(op, first, second),
        DataClass::Undefined => undefined(),
    }
}

/// The codes 11110.1 with 0 in the second halfword.
#[tactic(auto, using(crate::proofs::ConstantLaws::plain_constants))]
pub fn plain_constants(first: u16, second: u16) -> Decoded
    requires { (bits first 11 5 ≡ 30) × (bits first 9 1 ≡ 1) × (bits second 15 1 ≡ 0) }
    ensures { result ≡ decode_of first second }
{
    if field(first, 8, 1) == 1 {
        bit_fields(first, second)
    } else {
        match field(first, 4, 4) {
            0 => add_wide(first, second),
            4 => move_wide(first, second),
            10 => subtract_wide(first, second),
            12 => move_wide(first, second),
            _ => undefined(),
        }
    }
}

/// ADDW, and ADR after the instruction.
#[tactic(auto, using(crate::proofs::ConstantLaws::add_wide))]
fn add_wide(first: u16, second: u16) -> Decoded
    requires { (bits first 11 5 ≡ 30) × (bits first 9 1 ≡ 1) × (bits second 15 1 ≡ 0) × (bits first 8 1 ≡ 0) × (bits first 4 4 ≡ 0) }
    ensures { result ≡ decode_of first second }
{
    let rd = field(second, 8, 4);
    let rn = field(first, 0, 4);
    let imm = imm12(first, second);
    if rn == 15 {
        wide_if(
            plain(rd),
            Insn::Adr {
                rd,
                offset: i32::from(imm),
            },
        )
    } else {
        wide_if(
            can_add(rd, rn),
            Insn::AddWide {
                sub: false,
                rd,
                rn,
                imm,
            },
        )
    }
}

/// A distance downwards.
fn below(imm: u16) -> i32
    ensures { result ≡ neg_ℤ (pos imm) }
{
    -i32::from(imm)
}

/// ADR before the instruction.
fn adr_before(first: u16, second: u16) -> Decoded
    ensures { result ≡ (if plain_of (bits second 8 4) then One (insns.Adr (bits second 8 4) (neg_ℤ (pos (imm12_of first second)))) Wide else Undefined Wide) }
{
    let rd = field(second, 8, 4);
    let offset = below(imm12(first, second));
    wide_if(plain(rd), Insn::Adr { rd, offset })
}

/// SUBW, and ADR before the instruction.
#[tactic(auto, using(crate::proofs::ConstantLaws::subtract_wide))]
fn subtract_wide(first: u16, second: u16) -> Decoded
    requires { (bits first 11 5 ≡ 30) × (bits first 9 1 ≡ 1) × (bits second 15 1 ≡ 0) × (bits first 8 1 ≡ 0) × (bits first 4 4 ≡ 10) }
    ensures { result ≡ decode_of first second }
{
    let rd = field(second, 8, 4);
    let rn = field(first, 0, 4);
    let imm = imm12(first, second);
    if rn == 15 {
        adr_before(first, second)
    } else {
        wide_if(
            can_add(rd, rn),
            Insn::AddWide {
                sub: true,
                rd,
                rn,
                imm,
            },
        )
    }
}

/// MOVW and MOVT.
#[tactic(auto, using(crate::proofs::ConstantLaws::move_wide))]
fn move_wide(first: u16, second: u16) -> Decoded
    requires { (bits first 11 5 ≡ 30) × (bits first 9 1 ≡ 1) × (bits second 15 1 ≡ 0) × (bits first 8 1 ≡ 0) × (bits first 4 3 ≡ 4) }
    ensures { result ≡ decode_of first second }
{
    let rd = field(second, 8, 4);
    let top = field(first, 7, 1) == 1;
    let imm = u16::from(field(first, 0, 4)) * 4096 + imm12(first, second);
    wide_if(plain(rd), Insn::MovWide { top, rd, imm })
}

/// The codes 11110.11 with 0 in the second halfword.
#[tactic(auto, using(crate::proofs::ConstantLaws::bit_fields))]
fn bit_fields(first: u16, second: u16) -> Decoded
    requires { (bits first 11 5 ≡ 30) × (bits first 9 1 ≡ 1) × (bits second 15 1 ≡ 0) × (bits first 8 1 ≡ 1) }
    ensures { result ≡ decode_of first second }
{
    if field(first, 10, 1) != 0 {
        return undefined();
    }
    if field(second, 5, 1) != 0 {
        return undefined();
    }
    if field(first, 4, 1) != 0 {
        return undefined();
    }
    match field(first, 5, 3) {
        0 => saturate(true, first, second),
        1 => saturate(true, first, second),
        2 => extract(FieldOp::Sbfx, first, second),
        3 => insert(first, second),
        4 => saturate(false, first, second),
        5 => saturate(false, first, second),
        6 => extract(FieldOp::Ubfx, first, second),
        _ => undefined(),
    }
}

/// A saturation; the signed one counts its bits from 1 on.
fn saturate(signed: bool, first: u16, second: u16) -> Decoded
    ensures { result ≡ (if can_saturate_of (bits second 8 4) (bits first 0 4) (bits first 5 1) (imm5_of second) then One (insns.Saturate signed (bits second 8 4) (bits first 0 4) (if signed then bits second 0 5 + 1 else bits second 0 5) (is_one (bits first 5 1)) (imm5_of second)) Wide else Undefined Wide) }
{
    let rd = field(second, 8, 4);
    let rn = field(first, 0, 4);
    let bit = field(first, 5, 1);
    let asr = bit == 1;
    let amount = imm5(second);
    let number = field(second, 0, 5);
    let bits = if signed { number + 1 } else { number };
    wide_if(
        can_saturate(rd, rn, bit, amount),
        Insn::Saturate {
            signed,
            rd,
            rn,
            bits,
            asr,
            amount,
        },
    )
}

/// SBFX and UBFX.
fn extract(op: FieldOp, first: u16, second: u16) -> Decoded
    ensures { result ≡ (if can_extract_of (bits second 8 4) (bits first 0 4) (imm5_of second) (bits second 0 5) then One (insns.BitField op (bits second 8 4) (bits first 0 4) (imm5_of second) (bits second 0 5 + 1)) Wide else Undefined Wide) }
{
    let rd = field(second, 8, 4);
    let rn = field(first, 0, 4);
    let low = imm5(second);
    let less_one = field(second, 0, 5);
    let width = less_one + 1;
    wide_if(
        can_extract(rd, rn, low, less_one),
        Insn::BitField {
            op,
            rd,
            rn,
            low,
            width,
        },
    )
}

/// The width of a field from its lowest to its highest bit, 0 where it has none.
fn width_between(low: u8, high: u8) -> u8
    requires { high < 32 }
    ensures { result ≡ high + 1 - low }
{
    if low <= high { high + 1 - low } else { 0 }
}

/// BFI and BFC.
#[tactic(auto, using(crate::proofs::ConstantLaws::insert))]
fn insert(first: u16, second: u16) -> Decoded
    requires { (bits first 11 5 ≡ 30) × (bits first 9 1 ≡ 1) × (bits second 15 1 ≡ 0) × (bits first 8 1 ≡ 1) × (bits first 10 1 ≡ 0) × (bits second 5 1 ≡ 0) × (bits first 4 1 ≡ 0) × (bits first 5 3 ≡ 3) }
    ensures { result ≡ decode_of first second }
{
    let rd = field(second, 8, 4);
    let rn = field(first, 0, 4);
    let low = imm5(second);
    let high = field(second, 0, 5);
    let width = width_between(low, high);
    if rn == 15 {
        let op = FieldOp::Bfc;
        wide_if(
            can_clear(rd, low, high),
            Insn::BitField {
                op,
                rd,
                rn: 0,
                low,
                width,
            },
        )
    } else {
        let op = FieldOp::Bfi;
        wide_if(
            can_insert(rd, rn, low, high),
            Insn::BitField {
                op,
                rd,
                rn,
                low,
                width,
            },
        )
    }
}
