//! The codes of instructions: `encode` gives the code of an instruction at a width, or says why there is
//! none.
//!
//! It follows the instruction table of `tz_table`, by which a code means its instruction again. A row has
//! eight slots, in the order of the values that `tz_bits` gives of an instruction after the variant. A slot
//! says which bits of a code hold the field, how they stand for its value, and which values the row takes
//! beside the fields before it. From slots alone `answer` has the code of an instruction, or the first field
//! that no code has. `shapes` has the slots of each row. That they are the row's is proved row by row: the
//! values of a code are those of its instruction, and the limits of the slots are the row's. Nothing else
//! here knows a row: what a row gives for an instruction comes from `try_row`.
#![tactic(auto)]

mod allowed;
mod coding;
mod encoding;
mod error;
mod limit;
mod numbers;
mod search;
mod shapes;
mod slot;
mod trying;
mod values;
mod words;
mod writing;

pub use coding::Coding;
pub use encoding::{code_of_halves, encode};
pub use error::EncodeError;
pub use limit::Limit;
pub use search::find;
pub use shapes::{SHAPES, slots_at};
pub use slot::{CodeSlot, Half, Part, Parts};
pub use trying::try_row;
pub use tz_bits::FieldName;
pub use writing::answer;
