//! The limits of the other rows of 32 bits, by the number of the row.

ghost use Rattle.std.specs.Prelude.{◌≡◌, ◌==◌, ◌&&◌, ◌||◌, ◌<◌, ◌≤◌, false, if◌then◌else◌, true};
ghost use Rattle.tz_table.specs.Fields.{bits};
ghost use Rattle.tz_table.specs.Limits.{can_load as can_load_of, can_load_back as can_load_back_of, can_load_index as can_load_index_of, can_store as can_store_of, can_store_back as can_store_back_of, can_store_index as can_store_index_of, plain as plain_of, plain4 as plain4_of};
ghost use Rattle.tz_table.specs.Rows.{limits_at};
ghost use Rattle.tz_table.specs.Table.{rows};

use crate::limits::{
    can_load, can_load_back, can_load_index, can_multiply_long, can_name, can_store,
    can_store_back, can_store_index, plain, plain2, plain2_same, plain3, plain4,
};
use crate::parts::{both, field};

/// The limits of eight rows in the order of the table, from `bl target` to `isb #x`.
#[tactic(auto, using(crate::proofs::WideLimits::from_bl_limits))]
pub fn from_bl(number: usize, first: u16, second: u16) -> bool
    requires { (144 ≤ number) × (number < 152) }
    ensures { result ≡ limits_at rows number first second }
{
    match number {
        144 => true,
        145 => can_name(field(first, 0, 4), field(second, 0, 8)),
        146 => can_name(field(second, 8, 4), field(second, 0, 8)),
        147 => true,
        148 => true,
        149 => true,
        150 => true,
        _ => true,
    }
}

/// The limits of `ldr.w rt, [rn, #i]` and `ldr.w rt, [rn, #-i]`.
pub fn ldr_offset(first: u16, second: u16) -> bool
    ensures { result ≡ (if bits first 5 2 == 3 || ((bits first 8 1 == 1 && bits first 5 2 == 2) || (bits first 0 4 == 15 || (bits first 5 2 == 0 && bits second 12 4 == 15))) then false else can_load_of (bits first 5 2) (bits second 12 4)) }
{
    if field(first, 5, 2) == 3 {
        return false;
    }
    if both(field(first, 8, 1) == 1, field(first, 5, 2) == 2) {
        return false;
    }
    if field(first, 0, 4) == 15 {
        return false;
    }
    if both(field(first, 5, 2) == 0, field(second, 12, 4) == 15) {
        return false;
    }
    can_load(field(first, 5, 2), field(second, 12, 4))
}

/// The limits of `str.w rt, [rn, #i]` and `str.w rt, [rn, #-i]`.
pub fn str_offset(first: u16, second: u16) -> bool
    ensures { result ≡ (if bits first 5 2 == 3 || (bits first 0 4 == 15) then false else can_store_of (bits first 5 2) (bits second 12 4)) }
{
    if field(first, 5, 2) == 3 {
        return false;
    }
    if field(first, 0, 4) == 15 {
        return false;
    }
    can_store(field(first, 5, 2), field(second, 12, 4))
}

/// The limits of `pld` with an offset.
pub fn pld_offset(first: u16, second: u16) -> bool
    ensures { result ≡ (if bits first 0 4 == 15 then false else true) }
{
    if field(first, 0, 4) == 15 {
        return false;
    }
    true
}

/// The limits of `ldrt rt, [rn, #i]`.
pub fn ldrt(first: u16, second: u16) -> bool
    ensures { result ≡ (if bits first 5 2 == 3 || ((bits first 8 1 == 1 && bits first 5 2 == 2) || (bits first 0 4 == 15)) then false else plain_of (bits second 12 4)) }
{
    if field(first, 5, 2) == 3 {
        return false;
    }
    if both(field(first, 8, 1) == 1, field(first, 5, 2) == 2) {
        return false;
    }
    if field(first, 0, 4) == 15 {
        return false;
    }
    plain(field(second, 12, 4))
}

/// The limits of eight rows in the order of the table, from `udf.w #i` to `ldrt rt, [rn, #i]`.
#[tactic(auto, using(crate::proofs::WideLimits::from_udf_w_limits))]
pub fn from_udf_w(number: usize, first: u16, second: u16) -> bool
    requires { (152 ≤ number) × (number < 160) }
    ensures { result ≡ limits_at rows number first second }
{
    match number {
        152 => true,
        153 => ldr_offset(first, second),
        154 => str_offset(first, second),
        155 => pld_offset(first, second),
        156 => ldr_offset(first, second),
        157 => str_offset(first, second),
        158 => pld_offset(first, second),
        _ => ldrt(first, second),
    }
}

/// The limits of `strt rt, [rn, #i]`.
pub fn strt(first: u16, second: u16) -> bool
    ensures { result ≡ (if bits first 5 2 == 3 || (bits first 0 4 == 15) then false else plain_of (bits second 12 4)) }
{
    if field(first, 5, 2) == 3 {
        return false;
    }
    if field(first, 0, 4) == 15 {
        return false;
    }
    plain(field(second, 12, 4))
}

/// The limits of `ldr rt, [rn, #i]! and ldr rt, [rn], #i`.
pub fn ldr_back(first: u16, second: u16) -> bool
    ensures { result ≡ (if bits first 5 2 == 3 || ((bits first 8 1 == 1 && bits first 5 2 == 2) || (bits first 0 4 == 15)) then false else can_load_back_of (bits first 5 2) (bits second 12 4) (bits first 0 4)) }
{
    if field(first, 5, 2) == 3 {
        return false;
    }
    if both(field(first, 8, 1) == 1, field(first, 5, 2) == 2) {
        return false;
    }
    if field(first, 0, 4) == 15 {
        return false;
    }
    can_load_back(field(first, 5, 2), field(second, 12, 4), field(first, 0, 4))
}

/// The limits of `str rt, [rn, #i]! and str rt, [rn], #i`.
pub fn str_back(first: u16, second: u16) -> bool
    ensures { result ≡ (if bits first 5 2 == 3 || (bits first 0 4 == 15) then false else can_store_back_of (bits first 5 2) (bits second 12 4) (bits first 0 4)) }
{
    if field(first, 5, 2) == 3 {
        return false;
    }
    if field(first, 0, 4) == 15 {
        return false;
    }
    can_store_back(field(first, 5, 2), field(second, 12, 4), field(first, 0, 4))
}

/// The limits of `ldr.w rt, [rn, rm, lsl #i]`.
pub fn ldr_index_w(first: u16, second: u16) -> bool
    ensures { result ≡ (if bits first 5 2 == 3 || ((bits first 8 1 == 1 && bits first 5 2 == 2) || (bits first 0 4 == 15 || (bits first 5 2 == 0 && bits second 12 4 == 15))) then false else can_load_index_of (bits first 5 2) (bits second 12 4) (bits second 0 4)) }
{
    if field(first, 5, 2) == 3 {
        return false;
    }
    if both(field(first, 8, 1) == 1, field(first, 5, 2) == 2) {
        return false;
    }
    if field(first, 0, 4) == 15 {
        return false;
    }
    if both(field(first, 5, 2) == 0, field(second, 12, 4) == 15) {
        return false;
    }
    can_load_index(
        field(first, 5, 2),
        field(second, 12, 4),
        field(second, 0, 4),
    )
}

/// The limits of `str.w rt, [rn, rm, lsl #i]`.
pub fn str_index_w(first: u16, second: u16) -> bool
    ensures { result ≡ (if bits first 5 2 == 3 || (bits first 0 4 == 15) then false else can_store_index_of (bits first 5 2) (bits second 12 4) (bits second 0 4)) }
{
    if field(first, 5, 2) == 3 {
        return false;
    }
    if field(first, 0, 4) == 15 {
        return false;
    }
    can_store_index(
        field(first, 5, 2),
        field(second, 12, 4),
        field(second, 0, 4),
    )
}

/// The limits of `pld`.
pub fn pld_index(first: u16, second: u16) -> bool
    ensures { result ≡ (if bits first 0 4 == 15 then false else plain_of (bits second 0 4)) }
{
    if field(first, 0, 4) == 15 {
        return false;
    }
    plain(field(second, 0, 4))
}

/// The limits of `ldr.w rt, [pc, #i]`.
pub fn ldr_literal_w(first: u16, second: u16) -> bool
    ensures { result ≡ (if bits first 5 2 == 3 || ((bits first 8 1 == 1 && bits first 5 2 == 2) || (bits first 5 2 == 0 && bits second 12 4 == 15)) then false else can_load_of (bits first 5 2) (bits second 12 4)) }
{
    if field(first, 5, 2) == 3 {
        return false;
    }
    if both(field(first, 8, 1) == 1, field(first, 5, 2) == 2) {
        return false;
    }
    if both(field(first, 5, 2) == 0, field(second, 12, 4) == 15) {
        return false;
    }
    can_load(field(first, 5, 2), field(second, 12, 4))
}

/// The limits of eight rows in the order of the table, from `strt rt, [rn, #i]` to `pld`.
#[tactic(auto, using(crate::proofs::WideLimits::from_strt_limits))]
pub fn from_strt(number: usize, first: u16, second: u16) -> bool
    requires { (160 ≤ number) × (number < 168) }
    ensures { result ≡ limits_at rows number first second }
{
    match number {
        160 => strt(first, second),
        161 => ldr_back(first, second),
        162 => str_back(first, second),
        163 => ldr_index_w(first, second),
        164 => str_index_w(first, second),
        165 => pld_index(first, second),
        166 => ldr_literal_w(first, second),
        _ => true,
    }
}

/// The limits of eight rows in the order of the table, from `lsl.w rd, rn, rm` to `rbit rd, rm`.
#[tactic(auto, using(crate::proofs::WideLimits::from_shift_reg_w_limits))]
pub fn from_shift_reg_w(number: usize, first: u16, second: u16) -> bool
    requires { (168 ≤ number) × (number < 176) }
    ensures { result ≡ limits_at rows number first second }
{
    match number {
        168 => plain3(field(second, 8, 4), field(first, 0, 4), field(second, 0, 4)),
        169 => plain2(field(second, 8, 4), field(second, 0, 4)),
        170 => plain2(field(second, 8, 4), field(second, 0, 4)),
        171 => plain2(field(second, 8, 4), field(second, 0, 4)),
        172 => plain2(field(second, 8, 4), field(second, 0, 4)),
        173 => plain2_same(field(second, 8, 4), field(second, 0, 4), field(first, 0, 4)),
        174 => plain2_same(field(second, 8, 4), field(second, 0, 4), field(first, 0, 4)),
        _ => plain2_same(field(second, 8, 4), field(second, 0, 4), field(first, 0, 4)),
    }
}

/// The limits of `mla rd, rn, rm, ra`.
pub fn mla(first: u16, second: u16) -> bool
    ensures { result ≡ (if bits second 12 4 == 15 then false else plain4_of (bits second 8 4) (bits first 0 4) (bits second 0 4) (bits second 12 4)) }
{
    if field(second, 12, 4) == 15 {
        return false;
    }
    plain4(
        field(second, 8, 4),
        field(first, 0, 4),
        field(second, 0, 4),
        field(second, 12, 4),
    )
}

/// The limits of eight rows in the order of the table, from `revsh.w rd, rm` to `smlal rl, rh, rn, rm`.
#[tactic(auto, using(crate::proofs::WideLimits::from_revsh_w_limits))]
pub fn from_revsh_w(number: usize, first: u16, second: u16) -> bool
    requires { (176 ≤ number) × (number < 184) }
    ensures { result ≡ limits_at rows number first second }
{
    match number {
        176 => plain2_same(field(second, 8, 4), field(second, 0, 4), field(first, 0, 4)),
        177 => plain2_same(field(second, 8, 4), field(second, 0, 4), field(first, 0, 4)),
        178 => mla(first, second),
        179 => plain3(field(second, 8, 4), field(first, 0, 4), field(second, 0, 4)),
        180 => plain4(
            field(second, 8, 4),
            field(first, 0, 4),
            field(second, 0, 4),
            field(second, 12, 4),
        ),
        181 => can_multiply_long(
            field(second, 12, 4),
            field(second, 8, 4),
            field(first, 0, 4),
            field(second, 0, 4),
        ),
        182 => can_multiply_long(
            field(second, 12, 4),
            field(second, 8, 4),
            field(first, 0, 4),
            field(second, 0, 4),
        ),
        _ => can_multiply_long(
            field(second, 12, 4),
            field(second, 8, 4),
            field(first, 0, 4),
            field(second, 0, 4),
        ),
    }
}

/// The limits of five rows in the order of the table, from `umlal rl, rh, rn, rm` to `vlstm rn, vlldm rn`.
#[tactic(auto, using(crate::proofs::WideLimits::from_umlal_limits))]
pub fn from_umlal(number: usize, first: u16, second: u16) -> bool
    requires { (184 ≤ number) × (number < 189) }
    ensures { result ≡ limits_at rows number first second }
{
    match number {
        184 => can_multiply_long(
            field(second, 12, 4),
            field(second, 8, 4),
            field(first, 0, 4),
            field(second, 0, 4),
        ),
        185 => plain3(field(second, 8, 4), field(first, 0, 4), field(second, 0, 4)),
        186 => plain3(field(second, 8, 4), field(first, 0, 4), field(second, 0, 4)),
        187 => true,
        _ => field(first, 0, 4) != 15,
    }
}
