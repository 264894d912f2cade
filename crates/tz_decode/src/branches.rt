//! The codes of 32 bits that begin with 11110 and have 1 in the second halfword: branches, special
//! registers, hints and barriers.

ghost use Rattle.std.specs.Prelude.{◌≡◌};
ghost use Rattle.tz_table.specs.Fields.{bits};
ghost use Rattle.tz_table.specs.Table.{decode_of};
ghost use Rattle.tz_table.specs.declared.Decoded.TheVariants.{One};
ghost use Rattle.tz_table.specs.declared.Width.TheVariants.{Wide};

use crate::fields::{condition_offset, far_offset, field, long_field, signed, undefined, wide_if};
use tz_table::limits::can_name;
use tz_table::{BarrierOp, Decoded, Insn, Width};

/// An instruction without limits.
fn always(insn: Insn) -> Decoded
    ensures { result ≡ One insn Wide }
{
    Decoded::One(insn, Width::Wide)
}

/// The codes 11110 with 1 in the second halfword.
#[tactic(auto, using(crate::proofs::BranchLaws::branches))]
pub fn branches(first: u16, second: u16) -> Decoded
    requires { (bits first 11 5 ≡ 30) × (bits second 15 1 ≡ 1) }
    ensures { result ≡ decode_of first second }
{
    if field(second, 12, 1) == 0 {
        if field(second, 14, 1) == 0 {
            conditional(first, second)
        } else {
            undefined()
        }
    } else {
        let offset = signed(far_offset(first, second), 0x100_0000);
        if field(second, 14, 1) == 0 {
            always(Insn::Branch { offset })
        } else {
            always(Insn::BranchLink { offset })
        }
    }
}

/// The codes 11110 with 10.0 in the second halfword.
#[tactic(auto, using(crate::proofs::BranchLaws::conditional))]
fn conditional(first: u16, second: u16) -> Decoded
    requires { (bits first 11 5 ≡ 30) × (bits second 14 2 ≡ 2) × (bits second 12 1 ≡ 0) }
    ensures { result ≡ decode_of first second }
{
    let cond = field(first, 6, 4);
    if cond == 14 {
        registers(first, second)
    } else if cond == 15 {
        hints(first, second)
    } else {
        let offset = signed(condition_offset(first, second), 0x10_0000);
        always(Insn::BranchIf { cond, offset })
    }
}

/// The codes 11110.1110 with 10.0 in the second halfword.
#[tactic(auto, using(crate::proofs::BranchLaws::registers))]
fn registers(first: u16, second: u16) -> Decoded
    requires { (bits first 11 5 ≡ 30) × (bits first 6 4 ≡ 14) × (bits second 14 2 ≡ 2) × (bits second 12 1 ≡ 0) }
    ensures { result ≡ decode_of first second }
{
    if long_field(first, 4, 12) == 0xf38 {
        let rn = field(first, 0, 4);
        let sysm = field(second, 0, 8);
        if field(second, 8, 8) != 0x88 {
            undefined()
        } else {
            wide_if(can_name(rn, sysm), Insn::WriteSpecial { rn, sysm })
        }
    } else if long_field(first, 0, 16) == 0xf3af {
        let op = field(second, 0, 8);
        if field(second, 8, 8) != 0x80 {
            undefined()
        } else {
            always(Insn::Hint { op })
        }
    } else if long_field(first, 0, 16) == 0xf3bf {
        barriers(first, second)
    } else {
        undefined()
    }
}

/// The codes 1111001110111111.
#[tactic(auto, using(crate::proofs::BranchLaws::barrier_codes))]
fn barriers(first: u16, second: u16) -> Decoded
    requires { (bits first 0 16 ≡ 0xf3bf) × (bits second 14 2 ≡ 2) × (bits second 12 1 ≡ 0) }
    ensures { result ≡ decode_of first second }
{
    let option = field(second, 0, 4);
    if field(second, 8, 8) != 0x8f {
        return undefined();
    }
    match field(second, 4, 4) {
        2 => clear_exclusive(first, second),
        4 => always(Insn::Barrier {
            op: BarrierOp::Dsb,
            option,
        }),
        5 => always(Insn::Barrier {
            op: BarrierOp::Dmb,
            option,
        }),
        6 => always(Insn::Barrier {
            op: BarrierOp::Isb,
            option,
        }),
        _ => undefined(),
    }
}

/// CLREX.
#[tactic(auto, using(crate::proofs::BranchLaws::clear_exclusive))]
fn clear_exclusive(first: u16, second: u16) -> Decoded
    requires { (bits first 0 16 ≡ 0xf3bf) × (bits second 8 8 ≡ 0x8f) × (bits second 4 4 ≡ 2) }
    ensures { result ≡ decode_of first second }
{
    if field(second, 0, 4) != 15 {
        undefined()
    } else {
        always(Insn::Barrier {
            op: BarrierOp::Clrex,
            option: 15,
        })
    }
}

/// The codes 11110.1111 with 10.0 in the second halfword.
#[tactic(auto, using(crate::proofs::BranchLaws::hints))]
fn hints(first: u16, second: u16) -> Decoded
    requires { (bits first 11 5 ≡ 30) × (bits first 6 4 ≡ 15) × (bits second 14 2 ≡ 2) × (bits second 12 1 ≡ 0) }
    ensures { result ≡ decode_of first second }
{
    if long_field(first, 0, 16) == 0xf3ef {
        let rd = field(second, 8, 4);
        let sysm = field(second, 0, 8);
        if field(second, 12, 4) != 8 {
            undefined()
        } else {
            wide_if(can_name(rd, sysm), Insn::ReadSpecial { rd, sysm })
        }
    } else if long_field(first, 4, 12) == 0xf7f {
        let imm = u16::from(field(first, 0, 4)) * 4096 + long_field(second, 0, 12);
        if field(second, 12, 4) != 10 {
            undefined()
        } else {
            always(Insn::Undefined { imm })
        }
    } else {
        undefined()
    }
}
