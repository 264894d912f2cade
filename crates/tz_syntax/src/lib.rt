//! The text of an instruction, as data: a row for each form and width, which one loop prints; and the lines of
//! a text, with the tokens of a line of source: words, numbers and marks.
//!
//! `instruction_text` gives exactly what the definition `text_of` says, and `push_instruction` appends it to
//! a line that is lent. A row names its mnemonic and, piece by piece, which of the nine values of `tz_bits`
//! stands where, so the same row also tells the values of a text. Nothing here knows a code or a state.
//!
//! What the lines of a text are, what a line's tokens are, and which lines aren't lists of tokens, is said by
//! this crate's definitions; `first_line` and `read_tokens` answer exactly that. What tokens mean together isn't
//! known here.
#![tactic(auto)]

mod digits;
mod instructions;
mod lines;
mod names;
mod number;
mod pieces;
mod row;
mod rows;
mod runs;
mod search;
mod spelling;
mod token;

pub use digits::{push_decimal, push_hex_byte, push_hex_half, push_hex_word};
pub use instructions::{instruction_text, push_instruction};
pub use lines::first_line;
pub use names::register_name;
pub use pieces::number_at;
pub use row::{Mark, Piece, TextRow};
pub use rows::text_rows;
pub use runs::without_comment;
pub use spelling::{condition_of, register_of, shift_of, special_of, spells};
pub use token::{Token, read_tokens};
