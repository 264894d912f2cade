//! The limits of the rows of 32 bits from the multiple loads to the shifted registers, by the number of the row.

ghost use Rattle.std.specs.Prelude.{◌≡◌, ◌==◌, ◌&&◌, ◌||◌, ◌<◌, ◌≤◌, false, if◌then◌else◌};
ghost use Rattle.tz_table.specs.Fields.{bits};
ghost use Rattle.tz_table.specs.Limits.{can_add_register as can_add_register_of, can_load_pair as can_load_pair_of, can_store_exclusive as can_store_exclusive_of, can_store_pair as can_store_pair_of, plain3 as plain3_of};
ghost use Rattle.tz_table.specs.Rows.{limits_at};
ghost use Rattle.tz_table.specs.Table.{rows};
ghost use Rattle.tz_table.specs.Terms.{imm5_of};

use crate::limits::{
    can_add_register, can_branch_table, can_load_pair, can_load_pair_literal, can_move,
    can_move_many, can_store_exclusive, can_store_pair, plain_base, plain2, plain3,
};
use crate::parts::{both, field, imm5};

/// The limits of `ldrd rt, rt2, [rn, #4i]`.
pub fn ldrd(first: u16, second: u16) -> bool
    ensures { result ≡ (if (bits first 8 1 == 0 && bits first 5 1 == 0) || (bits first 0 4 == 15) then false else can_load_pair_of (bits first 5 1) (bits first 0 4) (bits second 12 4) (bits second 8 4)) }
{
    if both(field(first, 8, 1) == 0, field(first, 5, 1) == 0) {
        return false;
    }
    if field(first, 0, 4) == 15 {
        return false;
    }
    can_load_pair(
        field(first, 5, 1),
        field(first, 0, 4),
        field(second, 12, 4),
        field(second, 8, 4),
    )
}

/// The limits of `strd rt, rt2, [rn, #4i]`.
pub fn strd(first: u16, second: u16) -> bool
    ensures { result ≡ (if (bits first 8 1 == 0 && bits first 5 1 == 0) || (bits first 0 4 == 15) then false else can_store_pair_of (bits first 5 1) (bits first 0 4) (bits second 12 4) (bits second 8 4)) }
{
    if both(field(first, 8, 1) == 0, field(first, 5, 1) == 0) {
        return false;
    }
    if field(first, 0, 4) == 15 {
        return false;
    }
    can_store_pair(
        field(first, 5, 1),
        field(first, 0, 4),
        field(second, 12, 4),
        field(second, 8, 4),
    )
}

/// The limits of `strex rd, rt, [rn, #4i]`.
pub fn strex(first: u16, second: u16) -> bool
    ensures { result ≡ (if bits second 12 4 == 15 then false else can_store_exclusive_of (bits second 8 4) (bits second 12 4) (bits first 0 4)) }
{
    if field(second, 12, 4) == 15 {
        return false;
    }
    can_store_exclusive(
        field(second, 8, 4),
        field(second, 12, 4),
        field(first, 0, 4),
    )
}

/// The limits of eight rows in the order of the table, from `ldm.w rn, {list}` to `strex rd, rt, [rn, #4i]`.
#[tactic(auto, using(crate::proofs::WideLimits::from_ldm_w_limits))]
pub fn from_ldm_w(number: usize, first: u16, second: u16) -> bool
    requires { (72 ≤ number) × (number < 80) }
    ensures { result ≡ limits_at rows number first second }
{
    match number {
        72 => can_move_many(field(first, 5, 1), field(first, 0, 4), second),
        73 => can_move_many(field(first, 5, 1), field(first, 0, 4), second),
        74 => can_move_many(field(first, 5, 1), field(first, 0, 4), second),
        75 => can_move_many(field(first, 5, 1), field(first, 0, 4), second),
        76 => ldrd(first, second),
        77 => strd(first, second),
        78 => can_load_pair_literal(field(second, 12, 4), field(second, 8, 4)),
        _ => strex(first, second),
    }
}

/// The limits of eight rows in the order of the table, from `tt rd, rn` to `stlexb rd, rt, [rn]`.
#[tactic(auto, using(crate::proofs::WideLimits::from_tt_limits))]
pub fn from_tt(number: usize, first: u16, second: u16) -> bool
    requires { (80 ≤ number) × (number < 88) }
    ensures { result ≡ limits_at rows number first second }
{
    match number {
        80 => plain_base(field(second, 8, 4), field(first, 0, 4)),
        81 => plain_base(field(second, 12, 4), field(first, 0, 4)),
        82 => can_store_exclusive(
            field(second, 0, 4),
            field(second, 12, 4),
            field(first, 0, 4),
        ),
        83 => can_store_exclusive(
            field(second, 0, 4),
            field(second, 12, 4),
            field(first, 0, 4),
        ),
        84 => plain_base(field(second, 12, 4), field(first, 0, 4)),
        85 => plain_base(field(second, 12, 4), field(first, 0, 4)),
        86 => plain_base(field(second, 12, 4), field(first, 0, 4)),
        _ => can_store_exclusive(
            field(second, 0, 4),
            field(second, 12, 4),
            field(first, 0, 4),
        ),
    }
}

/// The limits of eight rows in the order of the table, from `stlexh rd, rt, [rn]` to `ldaexb rt, [rn]`.
#[tactic(auto, using(crate::proofs::WideLimits::from_stlexh_limits))]
pub fn from_stlexh(number: usize, first: u16, second: u16) -> bool
    requires { (88 ≤ number) × (number < 96) }
    ensures { result ≡ limits_at rows number first second }
{
    match number {
        88 => can_store_exclusive(
            field(second, 0, 4),
            field(second, 12, 4),
            field(first, 0, 4),
        ),
        89 => can_store_exclusive(
            field(second, 0, 4),
            field(second, 12, 4),
            field(first, 0, 4),
        ),
        90 => plain_base(field(second, 12, 4), field(first, 0, 4)),
        91 => plain_base(field(second, 12, 4), field(first, 0, 4)),
        92 => plain_base(field(second, 12, 4), field(first, 0, 4)),
        93 => plain_base(field(second, 12, 4), field(first, 0, 4)),
        94 => plain_base(field(second, 12, 4), field(first, 0, 4)),
        _ => plain_base(field(second, 12, 4), field(first, 0, 4)),
    }
}

/// The limits of `and.w rd, rn, rm, shift` and `eor.w rd, rn, rm, shift`.
pub fn and_eor_reg_w(first: u16, second: u16) -> bool
    ensures { result ≡ (if bits second 8 4 == 15 then false else plain3_of (bits second 8 4) (bits first 0 4) (bits second 0 4)) }
{
    if field(second, 8, 4) == 15 {
        return false;
    }
    plain3(field(second, 8, 4), field(first, 0, 4), field(second, 0, 4))
}

/// The limits of `orr.w rd, rn, rm, shift` and `orn.w rd, rn, rm, shift`.
pub fn orr_orn_reg_w(first: u16, second: u16) -> bool
    ensures { result ≡ (if bits first 0 4 == 15 then false else plain3_of (bits second 8 4) (bits first 0 4) (bits second 0 4)) }
{
    if field(first, 0, 4) == 15 {
        return false;
    }
    plain3(field(second, 8, 4), field(first, 0, 4), field(second, 0, 4))
}

/// The limits of eight rows in the order of the table, from `ldaexh rt, [rn]` to `mov.w rd, rm, shift`.
#[tactic(auto, using(crate::proofs::WideLimits::from_ldaexh_limits))]
pub fn from_ldaexh(number: usize, first: u16, second: u16) -> bool
    requires { (96 ≤ number) × (number < 104) }
    ensures { result ≡ limits_at rows number first second }
{
    match number {
        96 => plain_base(field(second, 12, 4), field(first, 0, 4)),
        97 => plain_base(field(second, 12, 4), field(first, 0, 4)),
        98 => can_branch_table(field(first, 0, 4), field(second, 0, 4)),
        99 => and_eor_reg_w(first, second),
        100 => plain2(field(first, 0, 4), field(second, 0, 4)),
        101 => plain3(field(second, 8, 4), field(first, 0, 4), field(second, 0, 4)),
        102 => orr_orn_reg_w(first, second),
        _ => can_move(
            field(first, 4, 1),
            field(second, 8, 4),
            field(second, 0, 4),
            field(second, 4, 2),
            imm5(second),
        ),
    }
}

/// The limits of `add.w rd, rn, rm, shift` and `sub.w rd, rn, rm, shift`.
pub fn add_sub_reg_w(first: u16, second: u16) -> bool
    ensures { result ≡ (if bits second 8 4 == 15 then false else can_add_register_of (bits second 8 4) (bits first 0 4) (bits second 0 4) (bits second 4 2) (imm5_of second)) }
{
    if field(second, 8, 4) == 15 {
        return false;
    }
    can_add_register(
        field(second, 8, 4),
        field(first, 0, 4),
        field(second, 0, 4),
        field(second, 4, 2),
        imm5(second),
    )
}

/// The limits of eight rows in the order of the table, from `orn.w rd, rn, rm, shift` to `sbc.w rd, rn, rm, shift`.
#[tactic(auto, using(crate::proofs::WideLimits::from_orn_reg_w_limits))]
pub fn from_orn_reg_w(number: usize, first: u16, second: u16) -> bool
    requires { (104 ≤ number) × (number < 112) }
    ensures { result ≡ limits_at rows number first second }
{
    match number {
        104 => orr_orn_reg_w(first, second),
        105 => plain2(field(second, 8, 4), field(second, 0, 4)),
        106 => and_eor_reg_w(first, second),
        107 => plain2(field(first, 0, 4), field(second, 0, 4)),
        108 => add_sub_reg_w(first, second),
        109 => plain_base(field(second, 0, 4), field(first, 0, 4)),
        110 => plain3(field(second, 8, 4), field(first, 0, 4), field(second, 0, 4)),
        _ => plain3(field(second, 8, 4), field(first, 0, 4), field(second, 0, 4)),
    }
}
