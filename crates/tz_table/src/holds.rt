//! Whether a code keeps the limits of a row: the registers and fields that the row refuses, and those that
//! belong to another row with the same bits.

ghost use Rattle.std.specs.Prelude.{◌≡◌, ℕ, ◌<◌, ◌≤◌, false, length, slice_get, Some, true};
ghost use Rattle.tz_table.specs.Rows.{limits_of, same_row};
ghost use Rattle.tz_table.specs.Table.{rows};
ghost use Rattle.tz_table.specs.declared.rows.Row.{Row};

use crate::data_limits::{from_orn_imm_w, from_ssat, from_sub_imm_w, from_sub_reg_w};
use crate::memory_limits::{from_ldaexh, from_ldm_w, from_orn_reg_w, from_stlexh, from_tt};
use crate::narrow_limits::{
    from_adc_low, from_cmp_imm8, from_if_then, from_ldr_literal, from_ldr_sp, from_ldrsh_index,
    from_lsl_imm, from_mul_low, from_uxtb,
};
use crate::other_limits::{
    from_bl, from_revsh_w, from_shift_reg_w, from_strt, from_udf_w, from_umlal,
};
use crate::rows::{ROWS, Row};
use crate::units::Width;

/// Whether two rows are the same.
fn same(a: &Row, b: &Row) -> bool
    ensures { result ≡ same_row a.now b.now }
{
    let width = match a.width {
        Width::Narrow => matches!(b.width, Width::Narrow),
        Width::Wide => matches!(b.width, Width::Wide),
    };
    let first = a.first_mask == b.first_mask && a.first_value == b.first_value;
    let second = a.second_mask == b.second_mask && a.second_value == b.second_value;
    width && first && second && a.form == b.form
}

/// The number of the first of the rows that is this one, or how many there are.
fn number_of(rows: &[Row], row: &Row) -> usize
    ensures within { result ≤ length rows.now }
    ensures before { (k : ℕ) (r : Row) → k < result → slice_get rows.now k ≡ Some r → same_row r row.now ≡ false }
    ensures here { (r : Row) → slice_get rows.now result ≡ Some r → same_row r row.now ≡ true }
{
    for number in 0..rows.len() {
        if same(&rows[number], row) {
            return number;
        }
    }
    rows.len()
}

/// Whether a code that has the fixed bits of the row keeps the row's limits: register numbers, fields
/// that belong to another row, and values that the manual calls UNPREDICTABLE. A row that isn't one of
/// the table has none. The program decodes by branches; tests are the users of this call.
pub fn limits_hold(row: &Row, first: u16, second: u16) -> bool
    ensures { result ≡ limits_of rows row.now first second }
{
    let number = number_of(&ROWS, row);
    match number {
        0..8 => from_lsl_imm(number, first, second),
        8..16 => from_cmp_imm8(number, first, second),
        16..24 => from_adc_low(number, first, second),
        24..32 => from_mul_low(number, first, second),
        32..40 => from_ldr_literal(number, first, second),
        40..48 => from_ldrsh_index(number, first, second),
        48..56 => from_ldr_sp(number, first, second),
        56..64 => from_uxtb(number, first, second),
        64..72 => from_if_then(number, first, second),
        72..80 => from_ldm_w(number, first, second),
        80..88 => from_tt(number, first, second),
        88..96 => from_stlexh(number, first, second),
        96..104 => from_ldaexh(number, first, second),
        104..112 => from_orn_reg_w(number, first, second),
        112..120 => from_sub_reg_w(number, first, second),
        120..128 => from_orn_imm_w(number, first, second),
        128..136 => from_sub_imm_w(number, first, second),
        136..144 => from_ssat(number, first, second),
        144..152 => from_bl(number, first, second),
        152..160 => from_udf_w(number, first, second),
        160..168 => from_strt(number, first, second),
        168..176 => from_shift_reg_w(number, first, second),
        176..184 => from_revsh_w(number, first, second),
        184..189 => from_umlal(number, first, second),
        _ => true,
    }
}
