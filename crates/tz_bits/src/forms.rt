//! The form of an instruction: the number of its variant with its operation, and its fields of a named kind
//! or of yes and no.

ghost use Rattle.std.specs.Prelude.{◌≡◌, ◌≤◌, pos, drop, take};
ghost use Rattle.tz_bits.specs.Values.{values_of};
ghost use Rattle.tz_table.specs.Forms.{form_of};

use crate::kinds::{
    address_number, address_third, barrier_form, data_number, extend_form, field_form,
    flags_number, long_form, multiply_form, reverse_form, shift_number, size_number,
};
use tz_table::Insn;

/// The number of the form of an instruction.
pub fn form_number(insn: &Insn) -> i32
    ensures { result ≡ pos (form_of insn.now) }
{
    match *insn {
        Insn::DataImm { op, .. } => i32::from(data_number(op)),
        Insn::DataReg { op, .. } => 16 + i32::from(data_number(op)),
        Insn::ShiftReg { .. } => 32,
        Insn::AddWide { .. } => 33,
        Insn::Adr { .. } => 34,
        Insn::MovWide { .. } => 35,
        Insn::Saturate { .. } => 36,
        Insn::BitField { op, .. } => field_form(op),
        Insn::Extend { op, .. } => extend_form(op),
        Insn::Reverse { op, .. } => reverse_form(op),
        Insn::Multiply { op, .. } => multiply_form(op),
        Insn::MultiplyLong { op, .. } => long_form(op),
        Insn::Divide { .. } => 57,
        Insn::Load { .. } => 58,
        Insn::Store { .. } => 59,
        Insn::LoadPair { .. } => 60,
        Insn::StorePair { .. } => 61,
        Insn::LoadMany { .. } => 62,
        Insn::StoreMany { .. } => 63,
        Insn::Preload => 64,
        Insn::LoadExclusive { .. } => 65,
        Insn::StoreExclusive { .. } => 66,
        Insn::LoadAcquire { .. } => 67,
        Insn::StoreRelease { .. } => 68,
        _ => later_form_number(insn),
    }
}

/// The number of the form of an instruction that branches or works on the system.
fn later_form_number(insn: &Insn) -> i32
    requires { 69 ≤ form_of insn.now }
    ensures { result ≡ pos (form_of insn.now) }
{
    match *insn {
        Insn::Branch { .. } => 69,
        Insn::BranchIf { .. } => 70,
        Insn::BranchLink { .. } => 71,
        Insn::BranchZero { .. } => 72,
        Insn::TableBranch { .. } => 73,
        Insn::BranchExchange { .. } => 74,
        Insn::CallExchange { .. } => 75,
        Insn::IfThen { .. } => 76,
        Insn::Hint { .. } => 77,
        Insn::Barrier { op, .. } => barrier_form(op),
        Insn::ChangeState { .. } => 82,
        Insn::ReadSpecial { .. } => 83,
        Insn::WriteSpecial { .. } => 84,
        Insn::TestTarget { .. } => 85,
        Insn::SecureGateway => 86,
        Insn::LazyState { .. } => 87,
        Insn::Supervisor { .. } => 88,
        Insn::Breakpoint { .. } => 89,
        Insn::Undefined { .. } => 90,
        _ => 0,
    }
}

/// The words of the form of an instruction.
pub fn form_words(insn: &Insn) -> [i32; 4]
    ensures { result ≡ take 4 (drop 1 (values_of insn.now)) }
{
    match *insn {
        Insn::DataImm { flags, .. } => [flags_number(flags), 0, 0, 0],
        Insn::DataReg { flags, shift, .. } => [flags_number(flags), shift_number(shift), 0, 0],
        Insn::ShiftReg { kind, flags, .. } => [shift_number(kind), flags_number(flags), 0, 0],
        Insn::AddWide { sub, .. } => [i32::from(sub), 0, 0, 0],
        Insn::MovWide { top, .. } => [i32::from(top), 0, 0, 0],
        Insn::Saturate { signed, asr, .. } => [i32::from(signed), i32::from(asr), 0, 0],
        Insn::Multiply { flags, .. } => [flags_number(flags), 0, 0, 0],
        Insn::Divide { signed, .. } => [i32::from(signed), 0, 0, 0],
        Insn::Adr { .. }
        | Insn::BitField { .. }
        | Insn::Extend { .. }
        | Insn::Reverse { .. }
        | Insn::MultiplyLong { .. } => [0; 4],
        _ => memory_form_words(insn),
    }
}

/// The words of the form of an instruction that doesn't process data alone.
fn memory_form_words(insn: &Insn) -> [i32; 4]
    requires { 58 ≤ form_of insn.now }
    ensures { result ≡ take 4 (drop 1 (values_of insn.now)) }
{
    match *insn {
        Insn::Load {
            size,
            signed,
            address,
            user,
            ..
        } => [
            size_number(size),
            i32::from(signed),
            address_number(address),
            i32::from(user),
        ],
        Insn::Store {
            size,
            address,
            user,
            ..
        } => [
            size_number(size),
            address_number(address),
            i32::from(user),
            0,
        ],
        Insn::LoadPair { address, .. } => [address_number(address), address_third(address), 0, 0],
        Insn::StorePair { address, .. } => [address_number(address), address_third(address), 0, 0],
        Insn::LoadMany { down, back, .. } => [i32::from(down), i32::from(back), 0, 0],
        Insn::StoreMany { down, back, .. } => [i32::from(down), i32::from(back), 0, 0],
        Insn::LoadExclusive { size, acquire, .. } => [size_number(size), i32::from(acquire), 0, 0],
        Insn::StoreExclusive { size, release, .. } => [size_number(size), i32::from(release), 0, 0],
        Insn::LoadAcquire { size, .. } => [size_number(size), 0, 0, 0],
        Insn::StoreRelease { size, .. } => [size_number(size), 0, 0, 0],
        Insn::Preload => [0; 4],
        _ => later_form_words(insn),
    }
}

/// The words of the form of an instruction that branches or works on the system.
fn later_form_words(insn: &Insn) -> [i32; 4]
    requires { 69 ≤ form_of insn.now }
    ensures { result ≡ take 4 (drop 1 (values_of insn.now)) }
{
    match *insn {
        Insn::BranchZero { nonzero, .. } => [i32::from(nonzero), 0, 0, 0],
        Insn::TableBranch { half, .. } => [i32::from(half), 0, 0, 0],
        Insn::BranchExchange { ns, .. } => [i32::from(ns), 0, 0, 0],
        Insn::CallExchange { ns, .. } => [i32::from(ns), 0, 0, 0],
        Insn::ChangeState { disable, i, f } => [i32::from(disable), i32::from(i), i32::from(f), 0],
        Insn::TestTarget { a, t, .. } => [i32::from(a), i32::from(t), 0, 0],
        Insn::LazyState { load, .. } => [i32::from(load), 0, 0, 0],
        _ => [0; 4],
    }
}
