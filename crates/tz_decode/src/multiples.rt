//! The codes of 32 bits that begin with 1110100: several registers, pairs, exclusives, acquire and
//! release, table branches and the Secure gateway.

ghost use Rattle.std.specs.Prelude.{◌≡◌, ◌≢◌, ◌+◌, ◌*◌, ◌<◌, pos, if◌then◌else◌};
ghost use Rattle.tz_table.specs.Fields.{bits};
ghost use Rattle.tz_table.specs.Limits.{plain_base, can_store_exclusive, can_load_pair_literal as can_load_pair_literal_of};
ghost use Rattle.tz_table.specs.Table.{decode_of};
ghost use Rattle.tz_table.specs.Terms.{plus_or_minus as plus_or_minus_of, indexed as indexed_of};
ghost use Rattle.tz_table.specs.declared.Address.TheVariants as addresses;
ghost use Rattle.tz_table.specs.declared.Decoded.TheVariants.{One, Undefined};
ghost use Rattle.tz_table.specs.declared.Insn.TheVariants as insns;
ghost use Rattle.tz_table.specs.declared.Width.TheVariants.{Wide};

use crate::fields::{field, indexed, long_field, plus_or_minus, undefined, wide_if};
use tz_table::limits::{
    can_branch_table, can_load_pair, can_load_pair_literal, can_move_many, can_store_exclusive,
    can_store_pair, plain_base,
};
use tz_table::{Address, Decoded, Insn, Size, Width};

/// The codes 1110100.
#[tactic(auto, using(crate::proofs::MultipleLaws::multiples))]
pub fn multiples(first: u16, second: u16) -> Decoded
    requires { bits first 9 7 ≡ 116 }
    ensures { result ≡ decode_of first second }
{
    if field(first, 6, 1) == 0 {
        match field(first, 7, 2) {
            1 => several(false, first, second),
            2 => several(true, first, second),
            _ => undefined(),
        }
    } else if field(first, 8, 1) + field(first, 5, 1) != 0 {
        if field(first, 4, 1) == 1 {
            load_pair(first, second)
        } else {
            store_pair(first, second)
        }
    } else if field(first, 7, 1) == 0 {
        if field(first, 4, 1) == 0 {
            store_exclusive(first, second)
        } else {
            load_exclusive(first, second)
        }
    } else if field(first, 4, 1) == 0 {
        store_ordered(first, second)
    } else {
        load_ordered(first, second)
    }
}

/// The codes 1110100010, upwards, and 1110100100, downwards.
#[tactic(auto, using(crate::proofs::MultipleLaws::several))]
fn several(down: bool, first: u16, second: u16) -> Decoded
    requires { bits first 6 10 ≡ (if down then 932 else 930) }
    ensures { result ≡ decode_of first second }
{
    let rn = field(first, 0, 4);
    let bit = field(first, 5, 1);
    let allowed = can_move_many(bit, rn, second);
    let (list, back) = (second, bit == 1);
    if field(second, 13, 1) != 0 {
        undefined()
    } else if field(first, 4, 1) == 1 {
        wide_if(
            allowed,
            Insn::LoadMany {
                rn,
                list,
                down,
                back,
            },
        )
    } else if field(second, 15, 1) != 0 {
        undefined()
    } else {
        wide_if(
            allowed,
            Insn::StoreMany {
                rn,
                list,
                down,
                back,
            },
        )
    }
}

/// The distance of a pair from its base.
fn pair_offset(first: u16, second: u16) -> i32
    ensures { result ≡ plus_or_minus_of (bits first 7 1) (bits second 0 8 * 4) }
{
    let distance = u16::from(field(second, 0, 8)) * 4;
    plus_or_minus(field(first, 7, 1), distance)
}

/// The address of a pair.
fn pair_address(first: u16, second: u16) -> Address
    ensures { result ≡ indexed_of (bits first 8 1) (bits first 5 1) (bits first 0 4) (plus_or_minus_of (bits first 7 1) (bits second 0 8 * 4)) }
{
    let (before, back) = (field(first, 8, 1), field(first, 5, 1));
    indexed(before, back, field(first, 0, 4), pair_offset(first, second))
}

/// The codes 1110100..1.1 with an index, loads.
#[tactic(auto, using(crate::proofs::MultipleLaws::load_pair))]
fn load_pair(first: u16, second: u16) -> Decoded
    requires { (bits first 9 7 ≡ 116) × (bits first 6 1 ≡ 1) × (bits first 4 1 ≡ 1) × (bits first 8 1 + bits first 5 1 ≢ 0) }
    ensures { result ≡ decode_of first second }
{
    let rn = field(first, 0, 4);
    let (rt, rt2) = (field(second, 12, 4), field(second, 8, 4));
    let back = field(first, 5, 1);
    if rn != 15 {
        let address = pair_address(first, second);
        wide_if(
            can_load_pair(back, rn, rt, rt2),
            Insn::LoadPair { rt, rt2, address },
        )
    } else if back == 1 {
        gateway(first, second)
    } else {
        literal_pair(first, second)
    }
}

/// A load of two registers relative to PC.
fn pair_from_literal(first: u16, second: u16) -> Decoded
    ensures { result ≡ (if can_load_pair_literal_of (bits second 12 4) (bits second 8 4) then One (insns.LoadPair (bits second 12 4) (bits second 8 4) (addresses.Literal (plus_or_minus_of (bits first 7 1) (bits second 0 8 * 4)))) Wide else Undefined Wide) }
{
    let (rt, rt2) = (field(second, 12, 4), field(second, 8, 4));
    let offset = pair_offset(first, second);
    let address = Address::Literal { offset };
    wide_if(
        can_load_pair_literal(rt, rt2),
        Insn::LoadPair { rt, rt2, address },
    )
}

/// The codes 11101001.1011111.
#[tactic(auto, using(crate::proofs::MultipleLaws::literal_pair))]
fn literal_pair(first: u16, second: u16) -> Decoded
    requires { (bits first 9 7 ≡ 116) × (bits first 6 1 ≡ 1) × (bits first 4 1 ≡ 1) × (bits first 8 1 ≡ 1) × (bits first 5 1 ≡ 0) × (bits first 0 4 ≡ 15) }
    ensures { result ≡ decode_of first second }
{
    pair_from_literal(first, second)
}

/// The codes 1110100..1111111.
#[tactic(auto, using(crate::proofs::MultipleLaws::gateway))]
fn gateway(first: u16, second: u16) -> Decoded
    requires { (bits first 9 7 ≡ 116) × (bits first 6 1 ≡ 1) × (bits first 4 1 ≡ 1) × (bits first 5 1 ≡ 1) × (bits first 0 4 ≡ 15) }
    ensures { result ≡ decode_of first second }
{
    if long_field(first, 0, 16) != 0xe97f {
        undefined()
    } else if long_field(second, 0, 16) != 0xe97f {
        undefined()
    } else {
        Decoded::One(Insn::SecureGateway, Width::Wide)
    }
}

/// The codes 1110100..1.0 with an index, stores.
#[tactic(auto, using(crate::proofs::MultipleLaws::store_pair))]
fn store_pair(first: u16, second: u16) -> Decoded
    requires { (bits first 9 7 ≡ 116) × (bits first 6 1 ≡ 1) × (bits first 4 1 ≡ 0) × (bits first 8 1 + bits first 5 1 ≢ 0) }
    ensures { result ≡ decode_of first second }
{
    let rn = field(first, 0, 4);
    let (rt, rt2) = (field(second, 12, 4), field(second, 8, 4));
    let back = field(first, 5, 1);
    if rn == 15 {
        undefined()
    } else {
        let address = pair_address(first, second);
        wide_if(
            can_store_pair(back, rn, rt, rt2),
            Insn::StorePair { rt, rt2, address },
        )
    }
}

/// The codes 111010000100.
#[tactic(auto, using(crate::proofs::MultipleLaws::store_exclusive))]
fn store_exclusive(first: u16, second: u16) -> Decoded
    requires { bits first 4 12 ≡ 0xe84 }
    ensures { result ≡ decode_of first second }
{
    let rn = field(first, 0, 4);
    let rt = field(second, 12, 4);
    let rd = field(second, 8, 4);
    if rt == 15 {
        test_target(first, second)
    } else {
        wide_if(
            can_store_exclusive(rd, rt, rn),
            Insn::StoreExclusive {
                size: Size::Word,
                release: false,
                rd,
                rt,
                rn,
                offset: i32::from(u16::from(field(second, 0, 8)) * 4),
            },
        )
    }
}

/// The codes 111010000100 with 1111 in the second halfword.
#[tactic(auto, using(crate::proofs::MultipleLaws::test_target))]
fn test_target(first: u16, second: u16) -> Decoded
    requires { (bits first 4 12 ≡ 0xe84) × (bits second 12 4 ≡ 15) }
    ensures { result ≡ decode_of first second }
{
    let rn = field(first, 0, 4);
    let rd = field(second, 8, 4);
    if field(second, 0, 6) != 0 {
        undefined()
    } else {
        let a = field(second, 7, 1) == 1;
        let t = field(second, 6, 1) == 1;
        wide_if(plain_base(rd, rn), Insn::TestTarget { a, t, rd, rn })
    }
}

/// The codes 111010000101.
#[tactic(auto, using(crate::proofs::MultipleLaws::load_exclusive))]
fn load_exclusive(first: u16, second: u16) -> Decoded
    requires { bits first 4 12 ≡ 0xe85 }
    ensures { result ≡ decode_of first second }
{
    let rn = field(first, 0, 4);
    let rt = field(second, 12, 4);
    if field(second, 8, 4) != 15 {
        undefined()
    } else {
        wide_if(
            plain_base(rt, rn),
            Insn::LoadExclusive {
                size: Size::Word,
                acquire: false,
                rt,
                rn,
                offset: i32::from(u16::from(field(second, 0, 8)) * 4),
            },
        )
    }
}

/// A store-exclusive without an offset.
fn stored_exclusive(size: Size, release: bool, first: u16, second: u16) -> Decoded
    ensures { result ≡ (if can_store_exclusive (bits second 0 4) (bits second 12 4) (bits first 0 4) then One (insns.StoreExclusive size release (bits second 0 4) (bits second 12 4) (bits first 0 4) (pos 0)) Wide else Undefined Wide) }
{
    let rn = field(first, 0, 4);
    let rt = field(second, 12, 4);
    let rd = field(second, 0, 4);
    wide_if(
        can_store_exclusive(rd, rt, rn),
        Insn::StoreExclusive {
            size,
            release,
            rd,
            rt,
            rn,
            offset: 0,
        },
    )
}

/// A store-release.
fn stored_release(size: Size, first: u16, second: u16) -> Decoded
    ensures { result ≡ (if plain_base (bits second 12 4) (bits first 0 4) then One (insns.StoreRelease size (bits second 12 4) (bits first 0 4)) Wide else Undefined Wide) }
{
    let rn = field(first, 0, 4);
    let rt = field(second, 12, 4);
    wide_if(plain_base(rt, rn), Insn::StoreRelease { size, rt, rn })
}

/// The codes 111010001100.
#[tactic(auto, using(crate::proofs::MultipleLaws::store_ordered))]
fn store_ordered(first: u16, second: u16) -> Decoded
    requires { bits first 4 12 ≡ 0xe8c }
    ensures { result ≡ decode_of first second }
{
    if field(second, 8, 4) != 15 {
        return undefined();
    }
    match field(second, 4, 4) {
        4 => stored_exclusive(Size::Byte, false, first, second),
        5 => stored_exclusive(Size::Half, false, first, second),
        8 => store_release(first, second),
        9 => store_release(first, second),
        10 => store_release(first, second),
        12 => stored_exclusive(Size::Byte, true, first, second),
        13 => stored_exclusive(Size::Half, true, first, second),
        14 => stored_exclusive(Size::Word, true, first, second),
        _ => undefined(),
    }
}

/// The codes 111010001100 with 10 in the second halfword.
#[tactic(auto, using(crate::proofs::MultipleLaws::store_release))]
fn store_release(first: u16, second: u16) -> Decoded
    requires { (bits first 4 12 ≡ 0xe8c) × (bits second 8 4 ≡ 15) × (bits second 6 2 ≡ 2) × (bits second 4 2 < 3) }
    ensures { result ≡ decode_of first second }
{
    if field(second, 0, 4) != 15 {
        return undefined();
    }
    match field(second, 4, 2) {
        0 => stored_release(Size::Byte, first, second),
        1 => stored_release(Size::Half, first, second),
        _ => stored_release(Size::Word, first, second),
    }
}

/// A load-exclusive without an offset.
fn loaded_exclusive(size: Size, acquire: bool, first: u16, second: u16) -> Decoded
    ensures { result ≡ (if plain_base (bits second 12 4) (bits first 0 4) then One (insns.LoadExclusive size acquire (bits second 12 4) (bits first 0 4) (pos 0)) Wide else Undefined Wide) }
{
    let rn = field(first, 0, 4);
    let rt = field(second, 12, 4);
    wide_if(
        plain_base(rt, rn),
        Insn::LoadExclusive {
            size,
            acquire,
            rt,
            rn,
            offset: 0,
        },
    )
}

/// A load-acquire.
fn loaded_acquire(size: Size, first: u16, second: u16) -> Decoded
    ensures { result ≡ (if plain_base (bits second 12 4) (bits first 0 4) then One (insns.LoadAcquire size (bits second 12 4) (bits first 0 4)) Wide else Undefined Wide) }
{
    let rn = field(first, 0, 4);
    let rt = field(second, 12, 4);
    wide_if(plain_base(rt, rn), Insn::LoadAcquire { size, rt, rn })
}

/// The codes 111010001101.
#[tactic(auto, using(crate::proofs::MultipleLaws::load_ordered))]
fn load_ordered(first: u16, second: u16) -> Decoded
    requires { bits first 4 12 ≡ 0xe8d }
    ensures { result ≡ decode_of first second }
{
    if field(second, 8, 4) != 15 {
        return table_branch(first, second);
    }
    if field(second, 0, 4) != 15 {
        return undefined();
    }
    match field(second, 4, 4) {
        4 => loaded_exclusive(Size::Byte, false, first, second),
        5 => loaded_exclusive(Size::Half, false, first, second),
        8 => loaded_acquire(Size::Byte, first, second),
        9 => loaded_acquire(Size::Half, first, second),
        10 => loaded_acquire(Size::Word, first, second),
        12 => loaded_exclusive(Size::Byte, true, first, second),
        13 => loaded_exclusive(Size::Half, true, first, second),
        14 => loaded_exclusive(Size::Word, true, first, second),
        _ => undefined(),
    }
}

/// The codes 111010001101 with other bits than ones in the second halfword.
#[tactic(auto, using(crate::proofs::MultipleLaws::table_branch))]
fn table_branch(first: u16, second: u16) -> Decoded
    requires { (bits first 4 12 ≡ 0xe8d) × (bits second 8 4 ≢ 15) }
    ensures { result ≡ decode_of first second }
{
    let rn = field(first, 0, 4);
    let rm = field(second, 0, 4);
    if long_field(second, 5, 11) != 0x780 {
        undefined()
    } else {
        let half = field(second, 4, 1) == 1;
        wide_if(can_branch_table(rn, rm), Insn::TableBranch { half, rn, rm })
    }
}
