//! The codes of 32 bits that load and store one register: those that begin with 1111100.

ghost use Rattle.std.specs.Prelude.{◌≡◌, ◌≢◌, ◌==◌, ◌&&◌, false, pos, neg_ℤ};
ghost use Rattle.tz_table.specs.Fields.{bits};
ghost use Rattle.tz_table.specs.Table.{decode_of};
ghost use Rattle.tz_table.specs.Terms.{size_of, is_one, plus_or_minus as plus_or_minus_of, indexed as indexed_of};
ghost use Rattle.tz_table.specs.declared.Address.TheVariants as addresses;
ghost use Rattle.tz_table.specs.declared.Insn.TheVariants as insns;

use crate::fields::{
    field, indexed, is_preload, is_signed_word, long_field, plus_or_minus, size, undefined, wide_if,
};
use tz_table::limits::{
    can_load, can_load_back, can_load_index, can_store, can_store_back, can_store_index, plain,
};
use tz_table::{Address, Decoded, Insn, Width};

/// A load of the code's size, sign and register.
fn load(first: u16, second: u16, address: Address, user: bool) -> Insn
    ensures { result ≡ insns.Load (size_of (bits first 5 2)) (is_one (bits first 8 1)) (bits second 12 4) address user }
{
    Insn::Load {
        size: size(field(first, 5, 2)),
        signed: field(first, 8, 1) == 1,
        rt: field(second, 12, 4),
        address,
        user,
    }
}

/// A store of the code's size and register.
fn store(first: u16, second: u16, address: Address, user: bool) -> Insn
    ensures { result ≡ insns.Store (size_of (bits first 5 2)) (bits second 12 4) address user }
{
    Insn::Store {
        size: size(field(first, 5, 2)),
        rt: field(second, 12, 4),
        address,
        user,
    }
}

/// A base plus twelve bits.
fn imm12_address(first: u16, second: u16) -> Address
    ensures { result ≡ addresses.Offset (bits first 0 4) (pos (bits second 0 12)) }
{
    let offset = i32::from(long_field(second, 0, 12));
    Address::Offset {
        rn: field(first, 0, 4),
        offset,
    }
}

/// A base minus eight bits.
fn negative_address(first: u16, second: u16) -> Address
    ensures { result ≡ addresses.Offset (bits first 0 4) (neg_ℤ (pos (bits second 0 8))) }
{
    let offset = -i32::from(field(second, 0, 8));
    Address::Offset {
        rn: field(first, 0, 4),
        offset,
    }
}

/// A base plus eight bits.
fn user_address(first: u16, second: u16) -> Address
    ensures { result ≡ addresses.Offset (bits first 0 4) (pos (bits second 0 8)) }
{
    let offset = i32::from(field(second, 0, 8));
    Address::Offset {
        rn: field(first, 0, 4),
        offset,
    }
}

/// A base that is written back.
fn back_address(first: u16, second: u16) -> Address
    ensures { result ≡ indexed_of (bits second 10 1) 1 (bits first 0 4) (plus_or_minus_of (bits second 9 1) (bits second 0 8)) }
{
    let distance = u16::from(field(second, 0, 8));
    let offset = plus_or_minus(field(second, 9, 1), distance);
    indexed(field(second, 10, 1), 1, field(first, 0, 4), offset)
}

/// A base plus a shifted register.
fn index_address(first: u16, second: u16) -> Address
    ensures { result ≡ addresses.Index (bits first 0 4) (bits second 0 4) (bits second 4 2) }
{
    Address::Index {
        rn: field(first, 0, 4),
        rm: field(second, 0, 4),
        amount: field(second, 4, 2),
    }
}

/// A distance from the instruction.
fn literal_address(first: u16, second: u16) -> Address
    ensures { result ≡ addresses.Literal (plus_or_minus_of (bits first 7 1) (bits second 0 12)) }
{
    let distance = long_field(second, 0, 12);
    Address::Literal {
        offset: plus_or_minus(field(first, 7, 1), distance),
    }
}

/// The codes 1111100.
#[tactic(auto, using(crate::proofs::LoadLaws::transfers))]
pub fn transfers(first: u16, second: u16) -> Decoded
    requires { bits first 9 7 ≡ 124 }
    ensures { result ≡ decode_of first second }
{
    let signed = field(first, 8, 1);
    let number = field(first, 5, 2);
    if number == 3 {
        undefined()
    } else if field(first, 4, 1) == 0 {
        if signed != 0 {
            undefined()
        } else {
            stores(first, second)
        }
    } else if is_signed_word(signed, number) {
        undefined()
    } else if field(first, 0, 4) == 15 {
        literals(first, second)
    } else {
        loads(first, second)
    }
}

/// The stores.
#[tactic(auto, using(crate::proofs::LoadLaws::stores))]
fn stores(first: u16, second: u16) -> Decoded
    requires { (bits first 9 7 ≡ 124) × (bits first 5 2 ≢ 3) × (bits first 4 1 ≡ 0) × (bits first 8 1 ≡ 0) }
    ensures { result ≡ decode_of first second }
{
    let number = field(first, 5, 2);
    let rt = field(second, 12, 4);
    if field(first, 0, 4) == 15 {
        undefined()
    } else if field(first, 7, 1) == 1 {
        let insn = store(first, second, imm12_address(first, second), false);
        wide_if(can_store(number, rt), insn)
    } else if field(second, 11, 1) == 1 {
        short_stores(first, second)
    } else if field(second, 6, 6) != 0 {
        undefined()
    } else {
        let insn = store(first, second, index_address(first, second), false);
        wide_if(can_store_index(number, rt, field(second, 0, 4)), insn)
    }
}

/// The stores at a distance of eight bits.
#[tactic(auto, using(crate::proofs::LoadLaws::short_stores))]
fn short_stores(first: u16, second: u16) -> Decoded
    requires { (bits first 9 7 ≡ 124) × (bits first 5 2 ≢ 3) × (bits first 4 1 ≡ 0) × (bits first 8 1 ≡ 0) × (bits first 0 4 ≢ 15) × (bits first 7 1 ≡ 0) × (bits second 11 1 ≡ 1) }
    ensures { result ≡ decode_of first second }
{
    let number = field(first, 5, 2);
    let rt = field(second, 12, 4);
    let rn = field(first, 0, 4);
    if field(second, 8, 1) == 1 {
        let insn = store(first, second, back_address(first, second), false);
        wide_if(can_store_back(number, rt, rn), insn)
    } else {
        match field(second, 9, 2) {
            2 => {
                let insn = store(first, second, negative_address(first, second), false);
                wide_if(can_store(number, rt), insn)
            }
            3 => {
                let insn = store(first, second, user_address(first, second), true);
                wide_if(plain(rt), insn)
            }
            _ => undefined(),
        }
    }
}

/// The loads, but for those relative to PC.
#[tactic(auto, using(crate::proofs::LoadLaws::loads))]
fn loads(first: u16, second: u16) -> Decoded
    requires { (bits first 9 7 ≡ 124) × (bits first 5 2 ≢ 3) × (bits first 4 1 ≡ 1) × ((bits first 8 1 == 1 && bits first 5 2 == 2) ≡ false) × (bits first 0 4 ≢ 15) }
    ensures { result ≡ decode_of first second }
{
    let number = field(first, 5, 2);
    let rt = field(second, 12, 4);
    if field(first, 7, 1) == 1 {
        if is_preload(number, rt) {
            Decoded::One(Insn::Preload, Width::Wide)
        } else {
            let insn = load(first, second, imm12_address(first, second), false);
            wide_if(can_load(number, rt), insn)
        }
    } else if field(second, 11, 1) == 1 {
        short_loads(first, second)
    } else if field(second, 6, 6) != 0 {
        undefined()
    } else {
        index_loads(first, second)
    }
}

/// The loads from a sum of registers.
#[tactic(auto, using(crate::proofs::LoadLaws::index_loads))]
fn index_loads(first: u16, second: u16) -> Decoded
    requires { (bits first 9 7 ≡ 124) × (bits first 5 2 ≢ 3) × (bits first 4 1 ≡ 1) × ((bits first 8 1 == 1 && bits first 5 2 == 2) ≡ false) × (bits first 0 4 ≢ 15) × (bits first 7 1 ≡ 0) × (bits second 6 6 ≡ 0) }
    ensures { result ≡ decode_of first second }
{
    let number = field(first, 5, 2);
    let rt = field(second, 12, 4);
    let rm = field(second, 0, 4);
    if is_preload(number, rt) {
        index_preload(first, second)
    } else {
        let insn = load(first, second, index_address(first, second), false);
        wide_if(can_load_index(number, rt, rm), insn)
    }
}

/// The preload from a sum of registers.
#[tactic(auto, using(crate::proofs::LoadLaws::index_loads))]
fn index_preload(first: u16, second: u16) -> Decoded
    requires { (bits first 9 7 ≡ 124) × (bits first 4 1 ≡ 1) × (bits first 7 1 ≡ 0) × (bits second 6 6 ≡ 0) × (bits first 5 2 ≡ 0) × (bits second 12 4 ≡ 15) × (bits first 0 4 ≢ 15) }
    ensures { result ≡ decode_of first second }
{
    wide_if(plain(field(second, 0, 4)), Insn::Preload)
}

/// The loads at a distance of eight bits.
#[tactic(auto, using(crate::proofs::LoadLaws::short_loads))]
fn short_loads(first: u16, second: u16) -> Decoded
    requires { (bits first 9 7 ≡ 124) × (bits first 5 2 ≢ 3) × (bits first 4 1 ≡ 1) × ((bits first 8 1 == 1 && bits first 5 2 == 2) ≡ false) × (bits first 0 4 ≢ 15) × (bits first 7 1 ≡ 0) × (bits second 11 1 ≡ 1) }
    ensures { result ≡ decode_of first second }
{
    let number = field(first, 5, 2);
    let rt = field(second, 12, 4);
    let rn = field(first, 0, 4);
    if field(second, 8, 1) == 1 {
        let insn = load(first, second, back_address(first, second), false);
        wide_if(can_load_back(number, rt, rn), insn)
    } else {
        match field(second, 9, 2) {
            2 => negative_loads(first, second),
            3 => {
                let insn = load(first, second, user_address(first, second), true);
                wide_if(plain(rt), insn)
            }
            _ => undefined(),
        }
    }
}

/// The loads downwards from a base.
#[tactic(auto, using(crate::proofs::LoadLaws::negative_loads))]
fn negative_loads(first: u16, second: u16) -> Decoded
    requires { (bits first 9 7 ≡ 124) × (bits first 5 2 ≢ 3) × (bits first 4 1 ≡ 1) × ((bits first 8 1 == 1 && bits first 5 2 == 2) ≡ false) × (bits first 0 4 ≢ 15) × (bits first 7 1 ≡ 0) × (bits second 8 4 ≡ 12) }
    ensures { result ≡ decode_of first second }
{
    let number = field(first, 5, 2);
    let rt = field(second, 12, 4);
    if is_preload(number, rt) {
        Decoded::One(Insn::Preload, Width::Wide)
    } else {
        let insn = load(first, second, negative_address(first, second), false);
        wide_if(can_load(number, rt), insn)
    }
}

/// The loads relative to PC.
#[tactic(auto, using(crate::proofs::LoadLaws::literals))]
fn literals(first: u16, second: u16) -> Decoded
    requires { (bits first 9 7 ≡ 124) × (bits first 5 2 ≢ 3) × (bits first 4 1 ≡ 1) × ((bits first 8 1 == 1 && bits first 5 2 == 2) ≡ false) × (bits first 0 4 ≡ 15) }
    ensures { result ≡ decode_of first second }
{
    let number = field(first, 5, 2);
    let rt = field(second, 12, 4);
    if is_preload(number, rt) {
        Decoded::One(Insn::Preload, Width::Wide)
    } else {
        let insn = load(first, second, literal_address(first, second), false);
        wide_if(can_load(number, rt), insn)
    }
}
