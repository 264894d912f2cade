//! The limits of the rows of 32 bits that process data with a constant, by the number of the row.

ghost use Rattle.std.specs.Prelude.{◌≡◌, ◌==◌, ◌||◌, ◌<◌, ◌≤◌, false, if◌then◌else◌, true};
ghost use Rattle.tz_table.specs.Fields.{bits};
ghost use Rattle.tz_table.specs.Limits.{can_add as can_add_of, can_add_constant as can_add_constant_of, can_insert as can_insert_of, can_set_from as can_set_from_of};
ghost use Rattle.tz_table.specs.Rows.{limits_at};
ghost use Rattle.tz_table.specs.Table.{rows};
ghost use Rattle.tz_table.specs.Terms.{imm12_of, imm5_of};

use crate::limits::{
    can_add, can_add_constant, can_clear, can_compare, can_extract, can_insert, can_saturate,
    can_set, can_set_from, plain, plain_base, plain3,
};
use crate::memory_limits::add_sub_reg_w;
use crate::parts::{field, imm5, imm12};

/// The limits of `and.w rd, rn, #i` and `eor.w rd, rn, #i`.
pub fn and_eor_imm_w(first: u16, second: u16) -> bool
    ensures { result ≡ (if bits second 8 4 == 15 then false else can_set_from_of (bits second 8 4) (bits first 0 4) (imm12_of first second)) }
{
    if field(second, 8, 4) == 15 {
        return false;
    }
    can_set_from(
        field(second, 8, 4),
        field(first, 0, 4),
        imm12(first, second),
    )
}

/// The limits of `orr.w rd, rn, #i` and `orn.w rd, rn, #i`.
pub fn orr_orn_imm_w(first: u16, second: u16) -> bool
    ensures { result ≡ (if bits first 0 4 == 15 then false else can_set_from_of (bits second 8 4) (bits first 0 4) (imm12_of first second)) }
{
    if field(first, 0, 4) == 15 {
        return false;
    }
    can_set_from(
        field(second, 8, 4),
        field(first, 0, 4),
        imm12(first, second),
    )
}

/// The limits of eight rows in the order of the table, from `sub.w rd, rn, rm, shift` to `mov.w rd, #i`.
#[tactic(auto, using(crate::proofs::WideLimits::from_sub_reg_w_limits))]
pub fn from_sub_reg_w(number: usize, first: u16, second: u16) -> bool
    requires { (112 ≤ number) × (number < 120) }
    ensures { result ≡ limits_at rows number first second }
{
    match number {
        112 => add_sub_reg_w(first, second),
        113 => plain_base(field(second, 0, 4), field(first, 0, 4)),
        114 => plain3(field(second, 8, 4), field(first, 0, 4), field(second, 0, 4)),
        115 => and_eor_imm_w(first, second),
        116 => can_set(field(first, 0, 4), imm12(first, second)),
        117 => can_set_from(
            field(second, 8, 4),
            field(first, 0, 4),
            imm12(first, second),
        ),
        118 => orr_orn_imm_w(first, second),
        _ => can_set(field(second, 8, 4), imm12(first, second)),
    }
}

/// The limits of `add.w rd, rn, #i` and `sub.w rd, rn, #i`.
pub fn add_sub_imm_w(first: u16, second: u16) -> bool
    ensures { result ≡ (if bits second 8 4 == 15 then false else can_add_constant_of (bits second 8 4) (bits first 0 4) (imm12_of first second)) }
{
    if field(second, 8, 4) == 15 {
        return false;
    }
    can_add_constant(
        field(second, 8, 4),
        field(first, 0, 4),
        imm12(first, second),
    )
}

/// The limits of eight rows in the order of the table, from `orn.w rd, rn, #i` to `sbc.w rd, rn, #i`.
#[tactic(auto, using(crate::proofs::WideLimits::from_orn_imm_w_limits))]
pub fn from_orn_imm_w(number: usize, first: u16, second: u16) -> bool
    requires { (120 ≤ number) × (number < 128) }
    ensures { result ≡ limits_at rows number first second }
{
    match number {
        120 => orr_orn_imm_w(first, second),
        121 => can_set(field(second, 8, 4), imm12(first, second)),
        122 => and_eor_imm_w(first, second),
        123 => can_set(field(first, 0, 4), imm12(first, second)),
        124 => add_sub_imm_w(first, second),
        125 => can_compare(field(first, 0, 4), imm12(first, second)),
        126 => can_set_from(
            field(second, 8, 4),
            field(first, 0, 4),
            imm12(first, second),
        ),
        _ => can_set_from(
            field(second, 8, 4),
            field(first, 0, 4),
            imm12(first, second),
        ),
    }
}

/// The limits of `addw rd, rn, #i` and `subw rd, rn, #i`.
pub fn addw_subw(first: u16, second: u16) -> bool
    ensures { result ≡ (if bits first 0 4 == 15 then false else can_add_of (bits second 8 4) (bits first 0 4)) }
{
    if field(first, 0, 4) == 15 {
        return false;
    }
    can_add(field(second, 8, 4), field(first, 0, 4))
}

/// The limits of eight rows in the order of the table, from `sub.w rd, rn, #i` to `movw rd, #j:i`.
#[tactic(auto, using(crate::proofs::WideLimits::from_sub_imm_w_limits))]
pub fn from_sub_imm_w(number: usize, first: u16, second: u16) -> bool
    requires { (128 ≤ number) × (number < 136) }
    ensures { result ≡ limits_at rows number first second }
{
    match number {
        128 => add_sub_imm_w(first, second),
        129 => can_compare(field(first, 0, 4), imm12(first, second)),
        130 => can_set_from(
            field(second, 8, 4),
            field(first, 0, 4),
            imm12(first, second),
        ),
        131 => addw_subw(first, second),
        132 => addw_subw(first, second),
        133 => plain(field(second, 8, 4)),
        134 => plain(field(second, 8, 4)),
        _ => plain(field(second, 8, 4)),
    }
}

/// The limits of `bfi rd, rn, #i, #m - i + 1`.
pub fn bfi(first: u16, second: u16) -> bool
    ensures { result ≡ (if bits first 0 4 == 15 then false else can_insert_of (bits second 8 4) (bits first 0 4) (imm5_of second) (bits second 0 5)) }
{
    if field(first, 0, 4) == 15 {
        return false;
    }
    can_insert(
        field(second, 8, 4),
        field(first, 0, 4),
        imm5(second),
        field(second, 0, 5),
    )
}

/// The limits of `beq.w target ..`.
pub fn bcond_w(first: u16, second: u16) -> bool
    ensures { result ≡ (if bits first 6 4 == 14 || (bits first 6 4 == 15) then false else true) }
{
    if field(first, 6, 4) == 14 {
        return false;
    }
    if field(first, 6, 4) == 15 {
        return false;
    }
    true
}

/// The limits of eight rows in the order of the table, from `ssat rd, #b + 1, rn, shift` to `b.w target`.
#[tactic(auto, using(crate::proofs::WideLimits::from_ssat_limits))]
pub fn from_ssat(number: usize, first: u16, second: u16) -> bool
    requires { (136 ≤ number) × (number < 144) }
    ensures { result ≡ limits_at rows number first second }
{
    match number {
        136 => can_saturate(
            field(second, 8, 4),
            field(first, 0, 4),
            field(first, 5, 1),
            imm5(second),
        ),
        137 => can_saturate(
            field(second, 8, 4),
            field(first, 0, 4),
            field(first, 5, 1),
            imm5(second),
        ),
        138 => can_extract(
            field(second, 8, 4),
            field(first, 0, 4),
            imm5(second),
            field(second, 0, 5),
        ),
        139 => can_extract(
            field(second, 8, 4),
            field(first, 0, 4),
            imm5(second),
            field(second, 0, 5),
        ),
        140 => bfi(first, second),
        141 => can_clear(field(second, 8, 4), imm5(second), field(second, 0, 5)),
        142 => bcond_w(first, second),
        _ => true,
    }
}
