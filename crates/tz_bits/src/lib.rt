//! The operations on words that decoding, encoding and data processing share: `AddWithCarry`,
//! `Shift_C`, `T32ExpandImm_C`, `SignExtend` and the choice of a bit field (DDI0553, appendix on
//! pseudocode). And an instruction field by field, as nine numbers: `values`.
//!
//! Each operation is proved to be the manual's function over unbounded numbers. Nothing here knows a row
//! of the table, and no operation knows an instruction, a register or a flag.
#![tactic(auto)]

mod by_field;
mod constants;
mod fields;
mod forms;
mod kinds;
mod names;
mod numbers;
mod shifts;
mod sums;

pub use by_field::{values, values_tell_all};
pub use constants::expand_imm_c;
pub use fields::{bit_field, sign_extend};
pub use names::{FieldName, field_name};
pub use shifts::shift_c;
pub use sums::add_with_carry;
