//! The numbers of an instruction: its registers, constants and offsets.

ghost use Rattle.std.specs.Prelude.{[], ◌∷◌, ◌≡◌, ◌≤◌, drop, pos};
ghost use Rattle.tz_bits.specs.Values.{values_of};
ghost use Rattle.tz_table.specs.Forms.{form_of};

use crate::kinds::{address_first, address_second, address_third};
use tz_table::Insn;

/// Four numbers of a byte each.
fn bytes(a: u8, b: u8, c: u8, d: u8) -> [i32; 4]
    ensures { result ≡ pos a ∷ pos b ∷ pos c ∷ pos d ∷ [] }
{
    [i32::from(a), i32::from(b), i32::from(c), i32::from(d)]
}

/// The numbers of an instruction, in the order of its fields.
pub fn numbers(insn: &Insn) -> [i32; 4]
    ensures { result ≡ drop 5 (values_of insn.now) }
{
    match *insn {
        Insn::DataImm { rd, rn, imm12, .. } => [i32::from(rd), i32::from(rn), i32::from(imm12), 0],
        Insn::DataReg {
            rd,
            rn,
            rm,
            amount,
            ..
        } => bytes(rd, rn, rm, amount),
        Insn::ShiftReg { rd, rn, rm, .. } => bytes(rd, rn, rm, 0),
        Insn::AddWide { rd, rn, imm, .. } => [i32::from(rd), i32::from(rn), i32::from(imm), 0],
        Insn::Adr { rd, offset } => [i32::from(rd), offset, 0, 0],
        Insn::MovWide { rd, imm, .. } => [i32::from(rd), i32::from(imm), 0, 0],
        Insn::Saturate {
            rd,
            rn,
            bits,
            amount,
            ..
        } => bytes(rd, rn, bits, amount),
        Insn::BitField {
            rd,
            rn,
            low,
            width,
            ..
        } => bytes(rd, rn, low, width),
        Insn::Extend { rd, rm, rotate, .. } => bytes(rd, rm, rotate, 0),
        Insn::Reverse { rd, rm, .. } => bytes(rd, rm, 0, 0),
        Insn::Multiply { rd, rn, rm, ra, .. } => bytes(rd, rn, rm, ra),
        Insn::MultiplyLong { lo, hi, rn, rm, .. } => bytes(lo, hi, rn, rm),
        Insn::Divide { rd, rn, rm, .. } => bytes(rd, rn, rm, 0),
        _ => memory_numbers(insn),
    }
}

/// The numbers of an instruction that doesn't process data alone.
fn memory_numbers(insn: &Insn) -> [i32; 4]
    requires { 58 ≤ form_of insn.now }
    ensures { result ≡ drop 5 (values_of insn.now) }
{
    match *insn {
        Insn::Load { rt, address, .. } | Insn::Store { rt, address, .. } => [
            i32::from(rt),
            address_first(address),
            address_second(address),
            address_third(address),
        ],
        Insn::LoadPair { rt, rt2, address } | Insn::StorePair { rt, rt2, address } => [
            i32::from(rt),
            i32::from(rt2),
            address_first(address),
            address_second(address),
        ],
        Insn::LoadMany { rn, list, .. } => [i32::from(rn), i32::from(list), 0, 0],
        Insn::StoreMany { rn, list, .. } => [i32::from(rn), i32::from(list), 0, 0],
        Insn::Preload => [0; 4],
        Insn::LoadExclusive { rt, rn, offset, .. } => [i32::from(rt), i32::from(rn), offset, 0],
        Insn::StoreExclusive {
            rd,
            rt,
            rn,
            offset,
            ..
        } => [i32::from(rd), i32::from(rt), i32::from(rn), offset],
        Insn::LoadAcquire { rt, rn, .. } => bytes(rt, rn, 0, 0),
        Insn::StoreRelease { rt, rn, .. } => bytes(rt, rn, 0, 0),
        _ => later_numbers(insn),
    }
}

/// The numbers of an instruction that branches or works on the system.
fn later_numbers(insn: &Insn) -> [i32; 4]
    requires { 69 ≤ form_of insn.now }
    ensures { result ≡ drop 5 (values_of insn.now) }
{
    match *insn {
        Insn::Branch { offset } => [offset, 0, 0, 0],
        Insn::BranchIf { cond, offset } => [i32::from(cond), offset, 0, 0],
        Insn::BranchLink { offset } => [offset, 0, 0, 0],
        Insn::BranchZero { rn, offset, .. } => [i32::from(rn), offset, 0, 0],
        Insn::TableBranch { rn, rm, .. } => bytes(rn, rm, 0, 0),
        Insn::BranchExchange { rm, .. } => [i32::from(rm), 0, 0, 0],
        Insn::CallExchange { rm, .. } => [i32::from(rm), 0, 0, 0],
        Insn::IfThen { cond, mask } => bytes(cond, mask, 0, 0),
        Insn::Hint { op } => [i32::from(op), 0, 0, 0],
        Insn::Barrier { option, .. } => [i32::from(option), 0, 0, 0],
        Insn::ReadSpecial { rd, sysm } => bytes(rd, sysm, 0, 0),
        Insn::WriteSpecial { rn, sysm } => bytes(rn, sysm, 0, 0),
        Insn::TestTarget { rd, rn, .. } => bytes(rd, rn, 0, 0),
        Insn::LazyState { rn, .. } => [i32::from(rn), 0, 0, 0],
        Insn::Supervisor { imm } => [i32::from(imm), 0, 0, 0],
        Insn::Breakpoint { imm } => [i32::from(imm), 0, 0, 0],
        Insn::Undefined { imm } => [i32::from(imm), 0, 0, 0],
        _ => [0; 4],
    }
}
