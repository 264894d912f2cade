//! The names of an instruction's fields, and which of them stands in which place of its numbers.

ghost use Rattle.std.specs.Prelude.{◌∷◌, ◌≡◌, ◌≤◌, slice_get};
ghost use Rattle.tz_bits.specs.Values.{address_names, names_of, pair_names};
ghost use Rattle.tz_bits.specs.declared.names.FieldName.TheVariants as names;
ghost use Rattle.tz_table.specs.Forms.{form_of};

use tz_table::{Address, Insn};

/// A field of an instruction, by its name in `Insn` or in `Address`.
#[derive(Clone, Copy, PartialEq, Eq)]
pub enum FieldName {
    Op,
    Flags,
    Rd,
    Rn,
    Imm12,
    Rm,
    Shift,
    Amount,
    Kind,
    Sub,
    Imm,
    Offset,
    Top,
    Signed,
    Bits,
    Asr,
    Low,
    Width,
    Rotate,
    Ra,
    Lo,
    Hi,
    Size,
    Rt,
    Address,
    User,
    Rt2,
    List,
    Down,
    Back,
    Acquire,
    Release,
    Cond,
    Nonzero,
    Half,
    Ns,
    Mask,
    Option,
    Disable,
    I,
    F,
    Sysm,
    A,
    T,
    Load,
}

/// The name in a place.
fn name_at(fields: &[FieldName], place: usize) -> Option<FieldName>
    ensures { result ≡ slice_get fields.now place }
{
    fields.get(place).copied()
}

/// The name in a place of the numbers of a load or a store.
fn access_name(address: Address, place: usize) -> Option<FieldName>
    ensures { result ≡ slice_get (names.Rt ∷ address_names address) place }
{
    match address {
        Address::Index { .. } => name_at(
            &[
                FieldName::Rt,
                FieldName::Rn,
                FieldName::Rm,
                FieldName::Amount,
            ],
            place,
        ),
        Address::Offset { .. } | Address::Post { .. } | Address::Pre { .. } => {
            name_at(&[FieldName::Rt, FieldName::Rn, FieldName::Offset], place)
        }
        Address::Literal { .. } => name_at(&[FieldName::Rt, FieldName::Offset], place),
    }
}

/// The name in a place of the numbers of a load or a store of two registers.
fn pair_name(address: Address, place: usize) -> Option<FieldName>
    ensures { result ≡ slice_get (names.Rt ∷ names.Rt2 ∷ pair_names address) place }
{
    match address {
        Address::Index { .. } => name_at(
            &[FieldName::Rt, FieldName::Rt2, FieldName::Rn, FieldName::Rm],
            place,
        ),
        Address::Offset { .. } | Address::Post { .. } | Address::Pre { .. } => name_at(
            &[
                FieldName::Rt,
                FieldName::Rt2,
                FieldName::Rn,
                FieldName::Offset,
            ],
            place,
        ),
        Address::Literal { .. } => name_at(
            &[FieldName::Rt, FieldName::Rt2, FieldName::Offset],
            place,
        ),
    }
}

/// The name of the field whose number stands in a place of an instruction's four numbers.
pub fn field_name(insn: &Insn, place: usize) -> Option<FieldName>
    ensures { result ≡ slice_get (names_of insn.now) place }
{
    match *insn {
        Insn::DataImm { .. } => name_at(&[FieldName::Rd, FieldName::Rn, FieldName::Imm12], place),
        Insn::DataReg { .. } => name_at(
            &[
                FieldName::Rd,
                FieldName::Rn,
                FieldName::Rm,
                FieldName::Amount,
            ],
            place,
        ),
        Insn::ShiftReg { .. } => name_at(&[FieldName::Rd, FieldName::Rn, FieldName::Rm], place),
        Insn::AddWide { .. } => name_at(&[FieldName::Rd, FieldName::Rn, FieldName::Imm], place),
        Insn::Adr { .. } => name_at(&[FieldName::Rd, FieldName::Offset], place),
        Insn::MovWide { .. } => name_at(&[FieldName::Rd, FieldName::Imm], place),
        Insn::Saturate { .. } => name_at(
            &[
                FieldName::Rd,
                FieldName::Rn,
                FieldName::Bits,
                FieldName::Amount,
            ],
            place,
        ),
        _ => more_data_name(insn, place),
    }
}

/// The same for an instruction from `BitField` on.
fn more_data_name(insn: &Insn, place: usize) -> Option<FieldName>
    requires { 37 ≤ form_of insn.now }
    ensures { result ≡ slice_get (names_of insn.now) place }
{
    match *insn {
        Insn::BitField { .. } => name_at(
            &[
                FieldName::Rd,
                FieldName::Rn,
                FieldName::Low,
                FieldName::Width,
            ],
            place,
        ),
        Insn::Extend { .. } => name_at(&[FieldName::Rd, FieldName::Rm, FieldName::Rotate], place),
        Insn::Reverse { .. } => name_at(&[FieldName::Rd, FieldName::Rm], place),
        Insn::Multiply { .. } => name_at(
            &[FieldName::Rd, FieldName::Rn, FieldName::Rm, FieldName::Ra],
            place,
        ),
        Insn::MultiplyLong { .. } => name_at(
            &[FieldName::Lo, FieldName::Hi, FieldName::Rn, FieldName::Rm],
            place,
        ),
        Insn::Divide { .. } => name_at(&[FieldName::Rd, FieldName::Rn, FieldName::Rm], place),
        _ => memory_name(insn, place),
    }
}

/// The same for an instruction that doesn't process data alone.
fn memory_name(insn: &Insn, place: usize) -> Option<FieldName>
    requires { 58 ≤ form_of insn.now }
    ensures { result ≡ slice_get (names_of insn.now) place }
{
    match *insn {
        Insn::Load { address, .. } | Insn::Store { address, .. } => access_name(address, place),
        Insn::LoadPair { address, .. } | Insn::StorePair { address, .. } => {
            pair_name(address, place)
        }
        Insn::LoadMany { .. } | Insn::StoreMany { .. } => {
            name_at(&[FieldName::Rn, FieldName::List], place)
        }
        Insn::Preload => None,
        Insn::LoadExclusive { .. } => name_at(
            &[FieldName::Rt, FieldName::Rn, FieldName::Offset],
            place,
        ),
        Insn::StoreExclusive { .. } => name_at(
            &[
                FieldName::Rd,
                FieldName::Rt,
                FieldName::Rn,
                FieldName::Offset,
            ],
            place,
        ),
        Insn::LoadAcquire { .. } | Insn::StoreRelease { .. } => {
            name_at(&[FieldName::Rt, FieldName::Rn], place)
        }
        _ => branch_name(insn, place),
    }
}

/// The same for an instruction that branches or works on the system.
fn branch_name(insn: &Insn, place: usize) -> Option<FieldName>
    requires { 69 ≤ form_of insn.now }
    ensures { result ≡ slice_get (names_of insn.now) place }
{
    match *insn {
        Insn::Branch { .. } | Insn::BranchLink { .. } => name_at(&[FieldName::Offset], place),
        Insn::BranchIf { .. } => name_at(&[FieldName::Cond, FieldName::Offset], place),
        Insn::BranchZero { .. } => name_at(&[FieldName::Rn, FieldName::Offset], place),
        Insn::TableBranch { .. } => name_at(&[FieldName::Rn, FieldName::Rm], place),
        Insn::BranchExchange { .. } | Insn::CallExchange { .. } => {
            name_at(&[FieldName::Rm], place)
        }
        Insn::IfThen { .. } => name_at(&[FieldName::Cond, FieldName::Mask], place),
        Insn::Hint { .. } => name_at(&[FieldName::Op], place),
        Insn::Barrier { .. } => name_at(&[FieldName::Option], place),
        Insn::ReadSpecial { .. } => name_at(&[FieldName::Rd, FieldName::Sysm], place),
        Insn::WriteSpecial { .. } => name_at(&[FieldName::Rn, FieldName::Sysm], place),
        Insn::TestTarget { .. } => name_at(&[FieldName::Rd, FieldName::Rn], place),
        Insn::LazyState { .. } => name_at(&[FieldName::Rn], place),
        Insn::Supervisor { .. } | Insn::Breakpoint { .. } | Insn::Undefined { .. } => {
            name_at(&[FieldName::Imm], place)
        }
        _ => None,
    }
}
