//! The text of a page, and what it is made of: values behind their names, the names of bits that are set, and numbers.
//!
//! Each call appends to the text and says how much room it needs.

ghost use Rattle.std.specs.Prelude.{◌≡◌, ◌≤◌, ◌+◌, ◌++◌, length, replicate};
ghost use Rattle.std.specs.Fmt.{signed_decimal};
ghost use Rattle.arrayvec.specs.ArrayString.{array_string_len};
ghost use Rattle.tz_show.specs.Rows.{cell, pair_row, row, where_so, widened};

use crate::bits::{BitNames, bits_of, push_bits};
use arrayvec::ArrayString;
use itoa::Buffer;
use tz_syntax::push_hex_word;

/// The sections of a page, or a line of memory. It has room for a line of each place of an exception.
pub type Text = ArrayString<48000>;

/// A decimal with its sign where it is negative.
pub fn push_signed(text: &mut Text, n: i32)
    requires { array_string_len text.old + 11 ≤ 48000 }
    ensures bytes { text.new.bytes ≡ text.old.bytes ++ signed_decimal n }
    ensures len { array_string_len text.new ≤ array_string_len text.old + 11 }
{
    let mut buffer = Buffer::new();
    text.push_str(buffer.format(n));
}

/// A text where something is so.
pub fn push_where(text: &mut Text, so: bool, words: &str)
    requires { array_string_len text.old + length words.now ≤ 48000 }
    ensures bytes { text.new.bytes ≡ text.old.bytes ++ where_so so words.now }
    ensures len { array_string_len text.new ≤ array_string_len text.old + length words.now }
{
    if so {
        text.push_str(words);
    }
}

/// So many spaces.
fn push_spaces(text: &mut Text, count: usize)
    requires { array_string_len text.old + count ≤ 48000 }
    ensures bytes { text.new.bytes ≡ text.old.bytes ++ replicate count 32 }
    ensures len { array_string_len text.new ≡ array_string_len text.old + count }
{
    for _ in 0..count {
        text.push_str(" ");
    }
}

/// A text with spaces behind it, up to a width.
#[tactic(auto, unfolding(crate::specs::Rows::widened))]
pub fn push_wide(text: &mut Text, words: &str, width: usize)
    requires fits { length words.now ≤ width }
    requires room { array_string_len text.old + width ≤ 48000 }
    ensures bytes { text.new.bytes ≡ text.old.bytes ++ widened width words.now }
    ensures len { array_string_len text.new ≡ array_string_len text.old + width }
{
    text.push_str(words);
    push_spaces(text, width - words.len());
}

/// A value behind its name.
#[tactic(auto, unfolding(crate::specs::Rows::cell))]
pub fn push_cell(text: &mut Text, head: &str, value: u32)
    requires { array_string_len text.old + length head.now + 8 ≤ 48000 }
    ensures bytes { text.new.bytes ≡ text.old.bytes ++ cell head.now value }
    ensures len { array_string_len text.new ≡ array_string_len text.old + length head.now + 8 }
{
    text.push_str(head);
    push_hex_word(text, value);
}

/// Two values on a line.
#[tactic(auto, unfolding(crate::specs::Rows::pair_row))]
pub fn push_pair(text: &mut Text, head: &str, value: u32, other: &str, second: u32)
    requires { array_string_len text.old + length head.now + length other.now + 17 ≤ 48000 }
    ensures bytes { text.new.bytes ≡ text.old.bytes ++ pair_row head.now value other.now second }
    ensures len { array_string_len text.new ≡ array_string_len text.old + length head.now + length other.now + 17 }
{
    push_cell(text, head, value);
    push_cell(text, other, second);
    text.push_str("\n");
}

/// A value that ends its line, with the bits that are set.
#[tactic(auto, unfolding(crate::specs::Rows::row))]
pub fn push_row(text: &mut Text, head: &str, value: u32, named: BitNames)
    requires { array_string_len text.old + length head.now + 73 ≤ 48000 }
    ensures bytes { text.new.bytes ≡ text.old.bytes ++ row head.now value named }
    ensures len { array_string_len text.new ≤ array_string_len text.old + length head.now + 73 }
{
    push_cell(text, head, value);
    push_bits(text, value, bits_of(named));
    text.push_str("\n");
}
