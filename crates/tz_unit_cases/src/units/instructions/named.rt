//! The instruction of a field: a code in hexadecimal digits, or the name and the fields of one that no code has.

use crate::units::asked::{Asked, asked_by};
use crate::units::steps::parts_of;
use tz_decode::{Decoded, decode, needs_second};
use tz_model::{DataOp, FieldOp, Flags, Insn, MultiplyOp, Shift};
use tz_testing::{Case, meant};

/// The instruction of a code.
fn coded(case: &mut Case<'_>, code: u32) -> Insn {
    let low = (code % 0x1_0000) as u16;
    let high = (code / 0x1_0000) as u16;
    let (first, second) = if code < 0x1_0000 {
        (low, 0)
    } else {
        (high, low)
    };
    if needs_second(first) != (code >= 0x1_0000) {
        case.refuse();
    }
    match decode(first, second) {
        Decoded::One(insn, _) => insn,
        _ => {
            case.refuse();
            multiply(MultiplyOp::Mul)
        }
    }
}

/// A product of R0 and R1 in R2, with R2 as the addend, that sets the flags.
fn multiply(op: MultiplyOp) -> Insn {
    Insn::Multiply {
        op,
        flags: Flags::Always,
        rd: 2,
        rn: 0,
        rm: 1,
        ra: 2,
    }
}

/// The name of an instruction that no code has: of one whose result goes to a register and that reaches no memory, or
/// of another.
enum Name {
    Multiply(MultiplyOp),
    Result(ResultName),
    LoadMany,
    StoreMany,
    StoreManyDown,
    BranchIf,
    BranchExchange,
}

enum ResultName {
    SignedSaturate,
    UnsignedSaturate,
    Rrx,
    MoveToSp,
    Constant,
    Bfc,
}

static NAMES: [(&str, Name); 14] = [
    ("mul", Name::Multiply(MultiplyOp::Mul)),
    ("mla", Name::Multiply(MultiplyOp::Mla)),
    ("mls", Name::Multiply(MultiplyOp::Mls)),
    ("ldm", Name::LoadMany),
    ("stm_back", Name::StoreMany),
    ("stmdb_back", Name::StoreManyDown),
    ("ssat", Name::Result(ResultName::SignedSaturate)),
    ("usat", Name::Result(ResultName::UnsignedSaturate)),
    ("rrx", Name::Result(ResultName::Rrx)),
    ("movs_sp", Name::Result(ResultName::MoveToSp)),
    ("constant", Name::Result(ResultName::Constant)),
    ("bfc", Name::Result(ResultName::Bfc)),
    ("branch_if", Name::BranchIf),
    ("branch_exchange", Name::BranchExchange),
];

/// A saturation of R0 in R2.
fn saturate(signed: bool, bits: u8) -> Insn {
    Insn::Saturate {
        signed,
        rd: 2,
        rn: 0,
        bits,
        asr: false,
        amount: 0,
    }
}

/// A move of a register by a shift that sets the flags.
fn shifted(rd: u8, rm: u8, shift: Shift, amount: u8) -> Insn {
    Insn::DataReg {
        op: DataOp::Mov,
        flags: Flags::Always,
        rd,
        rn: 15,
        rm,
        shift,
        amount,
    }
}

/// An instruction whose result goes to a register and that reaches no memory: `ssat BITS` and `usat BITS` of R0; `rrx
/// REGISTER PLACES` and `movs_sp REGISTER PLACES`, moves by a shift; `constant NUMBER`, a move of twelve bits that
/// stand for a constant; `bfc BIT WIDTH`. The result goes to R2, and that of `movs_sp` to SP.
fn result(case: &mut Case<'_>, name: &ResultName, asked: &Asked) -> Insn {
    let [first, second, ..] = asked.numbers;
    match (name, asked.count) {
        (ResultName::SignedSaturate, 1) => saturate(true, case.byte_in(first)),
        (ResultName::UnsignedSaturate, 1) => saturate(false, case.byte_in(first)),
        (ResultName::Rrx, 2) => shifted(2, case.byte_in(first), Shift::Rrx, case.byte_in(second)),
        (ResultName::MoveToSp, 2) => {
            shifted(13, case.byte_in(first), Shift::Lsl, case.byte_in(second))
        }
        (ResultName::Constant, 1) => Insn::DataImm {
            op: DataOp::Mov,
            flags: Flags::Always,
            rd: 2,
            rn: 15,
            imm12: case.half_in(first),
        },
        (ResultName::Bfc, 2) => Insn::BitField {
            op: FieldOp::Bfc,
            rd: 2,
            rn: 0,
            low: case.byte_in(first),
            width: case.byte_in(second),
        },
        _ => {
            case.refuse();
            multiply(MultiplyOp::Mul)
        }
    }
}

/// A store of many registers that writes the base back.
fn store_many(case: &mut Case<'_>, asked: &Asked, down: bool) -> Insn {
    let [first, second, ..] = asked.numbers;
    Insn::StoreMany {
        rn: case.byte_in(first),
        list: case.half_in(second),
        down,
        back: true,
    }
}

/// The instruction of a name and its fields: a product; a load or a store of many registers, with the base and the
/// list; a branch by a condition to four bytes behind PC; a branch to a register; or one of the others.
fn named(case: &mut Case<'_>, name: &str, asked: &Asked) -> Insn {
    let [first, second, ..] = asked.numbers;
    match (meant(&NAMES, name), asked.count) {
        (Some(Name::Multiply(op)), 0) => multiply(*op),
        (Some(Name::Result(name)), _) => result(case, name, asked),
        (Some(Name::LoadMany), 2) => Insn::LoadMany {
            rn: case.byte_in(first),
            list: case.half_in(second),
            down: false,
            back: false,
        },
        (Some(Name::StoreMany), 2) => store_many(case, asked, false),
        (Some(Name::StoreManyDown), 2) => store_many(case, asked, true),
        (Some(Name::BranchIf), 1) => Insn::BranchIf {
            cond: case.byte_in(first),
            offset: 4,
        },
        (Some(Name::BranchExchange), 1) => Insn::BranchExchange {
            rm: case.byte_in(first),
            ns: false,
        },
        _ => {
            case.refuse();
            multiply(MultiplyOp::Mul)
        }
    }
}

/// The instruction of a case.
pub fn insn_of(case: &mut Case<'_>) -> Insn {
    let field = case.field(1);
    if field.starts_with("0x") {
        let code = case.number_in(field);
        return coded(case, code);
    }
    let (name, words) = parts_of(field);
    let asked = asked_by(case, words);
    named(case, name, &asked)
}
