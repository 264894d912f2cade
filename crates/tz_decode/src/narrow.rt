//! The codes of 16 bits, by their leading bits.

ghost use Rattle.std.specs.Prelude.{◌≡◌, ◌*◌, ◌<◌, ◌≤◌, true, false, pos};
ghost use Rattle.tz_table.specs.Fields.{bits};
ghost use Rattle.tz_table.specs.Table.{decode_of};
ghost use Rattle.tz_table.specs.declared.Address.TheVariants as addresses;
ghost use Rattle.tz_table.specs.declared.DataOp.TheVariants as ops;
ghost use Rattle.tz_table.specs.declared.Decoded.TheVariants.{One};
ghost use Rattle.tz_table.specs.declared.Flags.TheVariants as flags;
ghost use Rattle.tz_table.specs.declared.Insn.TheVariants as insns;
ghost use Rattle.tz_table.specs.declared.Shift.TheVariants as shifts;
ghost use Rattle.tz_table.specs.declared.Width.TheVariants.{Narrow};

use crate::fields::{field, imm_amount, long_field, narrow_if, signed};
use tz_table::limits::{
    can_add_high, can_begin, can_compare_high, can_exchange, can_store_many, is_listed,
};
use tz_table::{
    Address, DataOp, Decoded, ExtendOp, Flags, Insn, MultiplyOp, ReverseOp, Shift, Size, Width,
    high_register,
};

/// An instruction without limits.
fn always(insn: Insn) -> Decoded
    ensures { result ≡ One insn Narrow }
{
    Decoded::One(insn, Width::Narrow)
}

/// The codes of 16 bits.
#[tactic(auto, using(crate::proofs::NarrowLaws::narrow))]
pub fn narrow(first: u16, second: u16) -> Decoded
    requires { bits first 11 5 < 29 }
    ensures { result ≡ decode_of first second }
{
    match field(first, 12, 4) {
        0 | 1 => shifts_and_sums(first, second),
        2 | 3 => constants(first, second),
        4 => match field(first, 10, 2) {
            0 => registers(first, second),
            1 => high_registers(first, second),
            _ => literal(first, second),
        },
        5 => indexes(first, second),
        11 => miscellaneous(first, second),
        12 => several(first, second),
        13 => conditional(first, second),
        14 => {
            let offset = signed(u32::from(long_field(first, 0, 11)) * 2, 2048);
            always(Insn::Branch { offset })
        }
        _ => offsets(first, second),
    }
}

/// An operation of two low registers that sets the flags.
fn register(op: DataOp, rd: u8, rn: u8, rm: u8) -> Insn
    ensures { result ≡ insns.DataReg op flags.OutsideIt rd rn rm shifts.Lsl 0 }
{
    Insn::DataReg {
        op,
        flags: Flags::OutsideIt,
        rd,
        rn,
        rm,
        shift: Shift::Lsl,
        amount: 0,
    }
}

/// A comparison of two registers.
fn compare(op: DataOp, rn: u8, rm: u8) -> Insn
    ensures { result ≡ insns.DataReg op flags.Always 0 rn rm shifts.Lsl 0 }
{
    Insn::DataReg {
        op,
        flags: Flags::Always,
        rd: 0,
        rn,
        rm,
        shift: Shift::Lsl,
        amount: 0,
    }
}

/// A shift by a register.
fn shift_by(kind: Shift, rd: u8, rm: u8) -> Insn
    ensures { result ≡ insns.ShiftReg kind flags.OutsideIt rd rd rm }
{
    Insn::ShiftReg {
        kind,
        flags: Flags::OutsideIt,
        rd,
        rn: rd,
        rm,
    }
}

/// A move of a shifted low register.
fn shifted(rd: u8, rm: u8, shift: Shift, amount: u8) -> Insn
    ensures { result ≡ insns.DataReg ops.Mov flags.OutsideIt rd 0 rm shift amount }
{
    Insn::DataReg {
        op: DataOp::Mov,
        flags: Flags::OutsideIt,
        rd,
        rn: 0,
        rm,
        shift,
        amount,
    }
}

/// An operation with a constant that sets the flags.
fn constant(op: DataOp, rd: u8, rn: u8, imm12: u16) -> Insn
    ensures { result ≡ insns.DataImm op flags.OutsideIt rd rn imm12 }
{
    Insn::DataImm {
        op,
        flags: Flags::OutsideIt,
        rd,
        rn,
        imm12,
    }
}

/// The codes 000.
#[tactic(auto, using(crate::proofs::NarrowLaws::shifts_and_sums))]
fn shifts_and_sums(first: u16, second: u16) -> Decoded
    requires { bits first 13 3 ≡ 0 }
    ensures { result ≡ decode_of first second }
{
    let rd = field(first, 0, 3);
    let rm = field(first, 3, 3);
    let amount = field(first, 6, 5);
    match field(first, 11, 2) {
        0 => always(shifted(rd, rm, Shift::Lsl, amount)),
        1 => always(shifted(rd, rm, Shift::Lsr, imm_amount(1, amount))),
        2 => always(shifted(rd, rm, Shift::Asr, imm_amount(2, amount))),
        _ => sums(first, second),
    }
}

/// The codes 00011.
#[tactic(auto, using(crate::proofs::NarrowLaws::sums))]
fn sums(first: u16, second: u16) -> Decoded
    requires { bits first 11 5 ≡ 3 }
    ensures { result ≡ decode_of first second }
{
    let rd = field(first, 0, 3);
    let rn = field(first, 3, 3);
    let last = field(first, 6, 3);
    match field(first, 9, 2) {
        0 => always(register(DataOp::Add, rd, rn, last)),
        1 => always(register(DataOp::Sub, rd, rn, last)),
        2 => always(constant(DataOp::Add, rd, rn, u16::from(last))),
        _ => always(constant(DataOp::Sub, rd, rn, u16::from(last))),
    }
}

/// The codes 001.
#[tactic(auto, using(crate::proofs::NarrowLaws::constants))]
fn constants(first: u16, second: u16) -> Decoded
    requires { bits first 13 3 ≡ 1 }
    ensures { result ≡ decode_of first second }
{
    let r = field(first, 8, 3);
    let imm12 = u16::from(field(first, 0, 8));
    match field(first, 11, 2) {
        0 => always(constant(DataOp::Mov, r, 0, imm12)),
        1 => always(Insn::DataImm {
            op: DataOp::Cmp,
            flags: Flags::Always,
            rd: 0,
            rn: r,
            imm12,
        }),
        2 => always(constant(DataOp::Add, r, r, imm12)),
        _ => always(constant(DataOp::Sub, r, r, imm12)),
    }
}

/// The codes 010000.
#[tactic(auto, using(crate::proofs::NarrowLaws::registers))]
fn registers(first: u16, second: u16) -> Decoded
    requires { bits first 10 6 ≡ 16 }
    ensures { result ≡ decode_of first second }
{
    let d = field(first, 0, 3);
    let m = field(first, 3, 3);
    let insn = match field(first, 6, 4) {
        0 => register(DataOp::And, d, d, m),
        1 => register(DataOp::Eor, d, d, m),
        2 => shift_by(Shift::Lsl, d, m),
        3 => shift_by(Shift::Lsr, d, m),
        4 => shift_by(Shift::Asr, d, m),
        5 => register(DataOp::Adc, d, d, m),
        6 => register(DataOp::Sbc, d, d, m),
        7 => shift_by(Shift::Ror, d, m),
        8 => compare(DataOp::Tst, d, m),
        9 => constant(DataOp::Rsb, d, m, 0),
        10 => compare(DataOp::Cmp, d, m),
        11 => compare(DataOp::Cmn, d, m),
        12 => register(DataOp::Orr, d, d, m),
        13 => Insn::Multiply {
            op: MultiplyOp::Mul,
            flags: Flags::OutsideIt,
            rd: d,
            rn: m,
            rm: d,
            ra: 0,
        },
        14 => register(DataOp::Bic, d, d, m),
        _ => register(DataOp::Mvn, d, 0, m),
    };
    always(insn)
}

/// An operation of any two registers that sets no flags.
fn unflagged(op: DataOp, rd: u8, rn: u8, rm: u8) -> Insn
    ensures { result ≡ insns.DataReg op flags.Never rd rn rm shifts.Lsl 0 }
{
    Insn::DataReg {
        op,
        flags: Flags::Never,
        rd,
        rn,
        rm,
        shift: Shift::Lsl,
        amount: 0,
    }
}

/// The codes 010001.
#[tactic(auto, using(crate::proofs::NarrowLaws::high_registers))]
fn high_registers(first: u16, second: u16) -> Decoded
    requires { bits first 10 6 ≡ 17 }
    ensures { result ≡ decode_of first second }
{
    let r = high_register(first);
    let rm = field(first, 3, 4);
    match field(first, 8, 2) {
        0 => narrow_if(can_add_high(r, rm), unflagged(DataOp::Add, r, r, rm)),
        1 => narrow_if(can_compare_high(r, rm), compare(DataOp::Cmp, r, rm)),
        2 => always(unflagged(DataOp::Mov, r, 0, rm)),
        _ => exchanges(first, second),
    }
}

/// The codes 01000111.
#[tactic(auto, using(crate::proofs::NarrowLaws::exchanges))]
fn exchanges(first: u16, second: u16) -> Decoded
    requires { bits first 8 8 ≡ 71 }
    ensures { result ≡ decode_of first second }
{
    let rm = field(first, 3, 4);
    let bit = field(first, 2, 1);
    let ns = bit == 1;
    if field(first, 0, 2) != 0 {
        Decoded::Undefined(Width::Narrow)
    } else if field(first, 7, 1) == 0 {
        narrow_if(can_exchange(rm, bit), Insn::BranchExchange { rm, ns })
    } else {
        narrow_if(can_exchange(rm, bit), Insn::CallExchange { rm, ns })
    }
}

/// A load of a register without a sign.
fn load(size: Size, rt: u8, address: Address) -> Decoded
    ensures { result ≡ One (insns.Load size false rt address false) Narrow }
{
    always(Insn::Load {
        size,
        signed: false,
        rt,
        address,
        user: false,
    })
}

/// A load of a register with its sign.
fn load_signed(size: Size, rt: u8, address: Address) -> Decoded
    ensures { result ≡ One (insns.Load size true rt address false) Narrow }
{
    always(Insn::Load {
        size,
        signed: true,
        rt,
        address,
        user: false,
    })
}

/// A store of a register.
fn store(size: Size, rt: u8, address: Address) -> Decoded
    ensures { result ≡ One (insns.Store size rt address false) Narrow }
{
    always(Insn::Store {
        size,
        rt,
        address,
        user: false,
    })
}

/// The codes 01001.
#[tactic(auto, using(crate::proofs::NarrowLaws::literal))]
fn literal(first: u16, second: u16) -> Decoded
    requires { bits first 11 5 ≡ 9 }
    ensures { result ≡ decode_of first second }
{
    let offset = i32::from(field(first, 0, 8)) * 4;
    load(Size::Word, field(first, 8, 3), Address::Literal { offset })
}

/// The codes 0101.
#[tactic(auto, using(crate::proofs::NarrowLaws::indexes))]
fn indexes(first: u16, second: u16) -> Decoded
    requires { bits first 12 4 ≡ 5 }
    ensures { result ≡ decode_of first second }
{
    let rt = field(first, 0, 3);
    let address = Address::Index {
        rn: field(first, 3, 3),
        rm: field(first, 6, 3),
        amount: 0,
    };
    match field(first, 9, 3) {
        0 => store(Size::Word, rt, address),
        1 => store(Size::Half, rt, address),
        2 => store(Size::Byte, rt, address),
        3 => load_signed(Size::Byte, rt, address),
        4 => load(Size::Word, rt, address),
        5 => load(Size::Half, rt, address),
        6 => load(Size::Byte, rt, address),
        _ => load_signed(Size::Half, rt, address),
    }
}

/// A base and a distance in the unit of a size.
fn above(first: u16, unit: u8) -> Address
    requires { unit < 8 }
    ensures { result ≡ addresses.Offset (bits first 3 3) (pos (bits first 6 5 * unit)) }
{
    Address::Offset {
        rn: field(first, 3, 3),
        offset: i32::from(field(first, 6, 5) * unit),
    }
}

/// The codes 0110 to 1010.
#[tactic(auto, using(crate::proofs::NarrowLaws::offsets))]
fn offsets(first: u16, second: u16) -> Decoded
    requires { (12 ≤ bits first 11 5) × (bits first 11 5 < 22) }
    ensures { result ≡ decode_of first second }
{
    let low = field(first, 0, 3);
    let high = field(first, 8, 3);
    let distance = u16::from(field(first, 0, 8)) * 4;
    let offset = i32::from(distance);
    match field(first, 11, 5) {
        12 => store(Size::Word, low, above(first, 4)),
        13 => load(Size::Word, low, above(first, 4)),
        14 => store(Size::Byte, low, above(first, 1)),
        15 => load(Size::Byte, low, above(first, 1)),
        16 => store(Size::Half, low, above(first, 2)),
        17 => load(Size::Half, low, above(first, 2)),
        18 => store(Size::Word, high, Address::Offset { rn: 13, offset }),
        19 => load(Size::Word, high, Address::Offset { rn: 13, offset }),
        20 => always(Insn::Adr { rd: high, offset }),
        _ => always(Insn::AddWide {
            sub: false,
            rd: high,
            rn: 13,
            imm: distance,
        }),
    }
}

/// The codes 1011.
#[tactic(auto, using(crate::proofs::NarrowLaws::miscellaneous))]
fn miscellaneous(first: u16, second: u16) -> Decoded
    requires { bits first 12 4 ≡ 11 }
    ensures { result ≡ decode_of first second }
{
    let low = u16::from(field(first, 0, 8));
    match field(first, 8, 4) {
        0 => always(Insn::AddWide {
            sub: field(first, 7, 1) == 1,
            rd: 13,
            rn: 13,
            imm: u16::from(field(first, 0, 7)) * 4,
        }),
        1 => compare_and_branch(first, second),
        2 => extensions(first, second),
        3 => compare_and_branch(first, second),
        4 => push(first, second),
        5 => push(first, second),
        6 => change_state(first, second),
        7 => Decoded::Undefined(Width::Narrow),
        8 => Decoded::Undefined(Width::Narrow),
        9 => compare_and_branch(first, second),
        10 => reversals(first, second),
        11 => compare_and_branch(first, second),
        12 => pop(first, second),
        13 => pop(first, second),
        14 => always(Insn::Breakpoint { imm: low }),
        _ => hints(first, second),
    }
}

/// The codes 1011.0.1.
#[tactic(auto, using(crate::proofs::NarrowLaws::compare_and_branch))]
fn compare_and_branch(first: u16, second: u16) -> Decoded
    requires { (bits first 12 4 ≡ 11) × (bits first 10 1 ≡ 0) × (bits first 8 1 ≡ 1) }
    ensures { result ≡ decode_of first second }
{
    let distance = field(first, 9, 1) * 64 + field(first, 3, 5) * 2;
    always(Insn::BranchZero {
        nonzero: field(first, 11, 1) == 1,
        rn: field(first, 0, 3),
        offset: i32::from(distance),
    })
}

/// The codes 10110010.
#[tactic(auto, using(crate::proofs::NarrowLaws::extensions))]
fn extensions(first: u16, second: u16) -> Decoded
    requires { bits first 8 8 ≡ 0xb2 }
    ensures { result ≡ decode_of first second }
{
    let rd = field(first, 0, 3);
    let rm = field(first, 3, 3);
    let op = match field(first, 6, 2) {
        0 => ExtendOp::Sxth,
        1 => ExtendOp::Sxtb,
        2 => ExtendOp::Uxth,
        _ => ExtendOp::Uxtb,
    };
    always(Insn::Extend {
        op,
        rd,
        rm,
        rotate: 0,
    })
}

/// The codes 1011010.
#[tactic(auto, using(crate::proofs::NarrowLaws::push))]
fn push(first: u16, second: u16) -> Decoded
    requires { bits first 9 7 ≡ 90 }
    ensures { result ≡ decode_of first second }
{
    let list = u16::from(field(first, 8, 1)) * 0x4000 + u16::from(field(first, 0, 8));
    narrow_if(
        long_field(first, 0, 9) != 0,
        Insn::StoreMany {
            rn: 13,
            list,
            down: true,
            back: true,
        },
    )
}

/// The codes 1011110.
#[tactic(auto, using(crate::proofs::NarrowLaws::pop))]
fn pop(first: u16, second: u16) -> Decoded
    requires { bits first 9 7 ≡ 94 }
    ensures { result ≡ decode_of first second }
{
    let list = u16::from(field(first, 8, 1)) * 0x8000 + u16::from(field(first, 0, 8));
    narrow_if(
        long_field(first, 0, 9) != 0,
        Insn::LoadMany {
            rn: 13,
            list,
            down: false,
            back: true,
        },
    )
}

/// The codes 10110110.
#[tactic(auto, using(crate::proofs::NarrowLaws::change_state))]
fn change_state(first: u16, second: u16) -> Decoded
    requires { bits first 8 8 ≡ 0xb6 }
    ensures { result ≡ decode_of first second }
{
    if field(first, 5, 3) != 3 {
        Decoded::Undefined(Width::Narrow)
    } else if field(first, 2, 2) != 0 {
        Decoded::Undefined(Width::Narrow)
    } else {
        narrow_if(
            field(first, 0, 2) != 0,
            Insn::ChangeState {
                disable: field(first, 4, 1) == 1,
                i: field(first, 1, 1) == 1,
                f: field(first, 0, 1) == 1,
            },
        )
    }
}

/// The codes 10111010.
#[tactic(auto, using(crate::proofs::NarrowLaws::reversals))]
fn reversals(first: u16, second: u16) -> Decoded
    requires { bits first 8 8 ≡ 0xba }
    ensures { result ≡ decode_of first second }
{
    let rd = field(first, 0, 3);
    let rm = field(first, 3, 3);
    match field(first, 6, 2) {
        0 => always(Insn::Reverse {
            op: ReverseOp::Rev,
            rd,
            rm,
        }),
        1 => always(Insn::Reverse {
            op: ReverseOp::Rev16,
            rd,
            rm,
        }),
        2 => Decoded::Undefined(Width::Narrow),
        _ => always(Insn::Reverse {
            op: ReverseOp::Revsh,
            rd,
            rm,
        }),
    }
}

/// The codes 10111111.
#[tactic(auto, using(crate::proofs::NarrowLaws::hints))]
fn hints(first: u16, second: u16) -> Decoded
    requires { bits first 8 8 ≡ 0xbf }
    ensures { result ≡ decode_of first second }
{
    let mask = field(first, 0, 4);
    let cond = field(first, 4, 4);
    if mask == 0 {
        always(Insn::Hint { op: cond })
    } else {
        narrow_if(can_begin(cond, mask), Insn::IfThen { cond, mask })
    }
}

/// The codes 1100.
#[tactic(auto, using(crate::proofs::NarrowLaws::several))]
fn several(first: u16, second: u16) -> Decoded
    requires { bits first 12 4 ≡ 12 }
    ensures { result ≡ decode_of first second }
{
    let rn = field(first, 8, 3);
    let list = u16::from(field(first, 0, 8));
    if field(first, 11, 1) == 0 {
        narrow_if(
            can_store_many(rn, list),
            Insn::StoreMany {
                rn,
                list,
                down: false,
                back: true,
            },
        )
    } else {
        narrow_if(
            list != 0,
            Insn::LoadMany {
                rn,
                list,
                down: false,
                back: !is_listed(list, rn),
            },
        )
    }
}

/// The codes 1101.
#[tactic(auto, using(crate::proofs::NarrowLaws::conditional))]
fn conditional(first: u16, second: u16) -> Decoded
    requires { bits first 12 4 ≡ 13 }
    ensures { result ≡ decode_of first second }
{
    let low = field(first, 0, 8);
    match field(first, 8, 4) {
        14 => always(Insn::Undefined {
            imm: u16::from(low),
        }),
        15 => always(Insn::Supervisor {
            imm: u16::from(low),
        }),
        cond => always(Insn::BranchIf {
            cond,
            offset: signed(u32::from(low) * 2, 256),
        }),
    }
}
