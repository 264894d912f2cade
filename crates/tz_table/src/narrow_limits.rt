//! The limits of the rows of 16 bits, by the number of the row.

ghost use Rattle.std.specs.Prelude.{◌≡◌, ◌==◌, ◌||◌, ◌<◌, ◌≤◌, false, if◌then◌else◌, true};
ghost use Rattle.tz_table.specs.Fields.{bits};
ghost use Rattle.tz_table.specs.Limits.{can_begin as can_begin_of};
ghost use Rattle.tz_table.specs.Rows.{limits_at};
ghost use Rattle.tz_table.specs.Table.{rows};

use crate::limits::{can_add_high, can_begin, can_compare_high, can_exchange, can_store_many};
use crate::parts::{field, high_register, long_field};

/// The limits of eight rows in the order of the table, from `lsls rd, rm, #i` to `movs rd, #i`.
#[tactic(auto, using(crate::proofs::RowLimits::from_lsl_imm_limits))]
pub fn from_lsl_imm(number: usize, first: u16, second: u16) -> bool
    requires { (0 ≤ number) × (number < 8) }
    ensures { result ≡ limits_at rows number first second }
{
    match number {
        0 => true,
        1 => true,
        2 => true,
        3 => true,
        4 => true,
        5 => true,
        6 => true,
        _ => true,
    }
}

/// The limits of eight rows in the order of the table, from `cmp rn, #i` to `asrs rd, rd, rm`.
#[tactic(auto, using(crate::proofs::RowLimits::from_cmp_imm8_limits))]
pub fn from_cmp_imm8(number: usize, first: u16, second: u16) -> bool
    requires { (8 ≤ number) × (number < 16) }
    ensures { result ≡ limits_at rows number first second }
{
    match number {
        8 => true,
        9 => true,
        10 => true,
        11 => true,
        12 => true,
        13 => true,
        14 => true,
        _ => true,
    }
}

/// The limits of eight rows in the order of the table, from `adcs rd, rd, rm` to `orrs rd, rd, rm`.
#[tactic(auto, using(crate::proofs::RowLimits::from_adc_low_limits))]
pub fn from_adc_low(number: usize, first: u16, second: u16) -> bool
    requires { (16 ≤ number) × (number < 24) }
    ensures { result ≡ limits_at rows number first second }
{
    match number {
        16 => true,
        17 => true,
        18 => true,
        19 => true,
        20 => true,
        21 => true,
        22 => true,
        _ => true,
    }
}

/// The limits of eight rows in the order of the table, from `muls rd, rn, rd` to `blx rm, blxns rm`.
#[tactic(auto, using(crate::proofs::RowLimits::from_mul_low_limits))]
pub fn from_mul_low(number: usize, first: u16, second: u16) -> bool
    requires { (24 ≤ number) × (number < 32) }
    ensures { result ≡ limits_at rows number first second }
{
    match number {
        24 => true,
        25 => true,
        26 => true,
        27 => can_add_high(high_register(first), field(first, 3, 4)),
        28 => can_compare_high(high_register(first), field(first, 3, 4)),
        29 => true,
        30 => can_exchange(field(first, 3, 4), field(first, 2, 1)),
        _ => can_exchange(field(first, 3, 4), field(first, 2, 1)),
    }
}

/// The limits of eight rows in the order of the table, from `ldr rt, [pc, #4i]` to `ldrb rt, [rn, rm]`.
#[tactic(auto, using(crate::proofs::RowLimits::from_ldr_literal_limits))]
pub fn from_ldr_literal(number: usize, first: u16, second: u16) -> bool
    requires { (32 ≤ number) × (number < 40) }
    ensures { result ≡ limits_at rows number first second }
{
    match number {
        32 => true,
        33 => true,
        34 => true,
        35 => true,
        36 => true,
        37 => true,
        38 => true,
        _ => true,
    }
}

/// The limits of eight rows in the order of the table, from `ldrsh rt, [rn, rm]` to `str rt, [sp, #4i]`.
#[tactic(auto, using(crate::proofs::RowLimits::from_ldrsh_index_limits))]
pub fn from_ldrsh_index(number: usize, first: u16, second: u16) -> bool
    requires { (40 ≤ number) × (number < 48) }
    ensures { result ≡ limits_at rows number first second }
{
    match number {
        40 => true,
        41 => true,
        42 => true,
        43 => true,
        44 => true,
        45 => true,
        46 => true,
        _ => true,
    }
}

/// The limits of eight rows in the order of the table, from `ldr rt, [sp, #4i]` to `uxth rd, rm`.
#[tactic(auto, using(crate::proofs::RowLimits::from_ldr_sp_limits))]
pub fn from_ldr_sp(number: usize, first: u16, second: u16) -> bool
    requires { (48 ≤ number) × (number < 56) }
    ensures { result ≡ limits_at rows number first second }
{
    match number {
        48 => true,
        49 => true,
        50 => true,
        51 => true,
        52 => true,
        53 => true,
        54 => true,
        _ => true,
    }
}

/// The limits of eight rows in the order of the table, from `uxtb rd, rm` to `bkpt #i`.
#[tactic(auto, using(crate::proofs::RowLimits::from_uxtb_limits))]
pub fn from_uxtb(number: usize, first: u16, second: u16) -> bool
    requires { (56 ≤ number) × (number < 64) }
    ensures { result ≡ limits_at rows number first second }
{
    match number {
        56 => true,
        57 => long_field(first, 0, 9) != 0,
        58 => long_field(first, 0, 9) != 0,
        59 => field(first, 0, 2) != 0,
        60 => true,
        61 => true,
        62 => true,
        _ => true,
    }
}

/// The limits of `it c, ite c ..`.
pub fn if_then(first: u16, second: u16) -> bool
    ensures { result ≡ (if bits first 0 4 == 0 then false else can_begin_of (bits first 4 4) (bits first 0 4)) }
{
    if field(first, 0, 4) == 0 {
        return false;
    }
    can_begin(field(first, 4, 4), field(first, 0, 4))
}

/// The limits of `beq target ..`.
pub fn bcond(first: u16, second: u16) -> bool
    ensures { result ≡ (if bits first 8 4 == 14 || (bits first 8 4 == 15) then false else true) }
{
    if field(first, 8, 4) == 14 {
        return false;
    }
    if field(first, 8, 4) == 15 {
        return false;
    }
    true
}

/// The limits of eight rows in the order of the table, from `it c, ite c ..` to `b target`.
#[tactic(auto, using(crate::proofs::RowLimits::from_if_then_limits))]
pub fn from_if_then(number: usize, first: u16, second: u16) -> bool
    requires { (64 ≤ number) × (number < 72) }
    ensures { result ≡ limits_at rows number first second }
{
    match number {
        64 => if_then(first, second),
        65 => true,
        66 => can_store_many(field(first, 8, 3), u16::from(field(first, 0, 8))),
        67 => field(first, 0, 8) != 0,
        68 => bcond(first, second),
        69 => true,
        70 => true,
        _ => true,
    }
}
