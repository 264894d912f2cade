//! Numbers as text: decimal, and hexadecimal digits in lower case with leading zeros.
//!
//! Each call appends to a line and says how much room it needs.

ghost use Rattle.std.specs.Prelude.{◌≡◌, ◌≤◌, ◌<◌, ◌+◌, ◌++◌, decimal};
ghost use Rattle.std.specs.Fmt.{signed_decimal};
ghost use Rattle.arrayvec.specs.ArrayString.{array_string_len};
ghost use Rattle.tz_syntax.specs.Digits.{hex_digit, hex_byte, hex_half, hex_word};

use arrayvec::ArrayString;
use itoa::Buffer;

fn hex_digit(digit: u8) -> char
    requires { digit < 16 }
    ensures value { result ≡ hex_digit digit }
    ensures ascii { result < 128 }
{
    let code = if digit < 10 { 48 + digit } else { 87 + digit };
    code as char
}

/// Two digits.
#[tactic(auto, unfolding(crate::specs::Digits::hex_byte))]
pub fn push_hex_byte<const N: usize>(text: &mut ArrayString<N>, byte: u8)
    requires { array_string_len text.old + 2 ≤ N }
    ensures bytes { text.new.bytes ≡ text.old.bytes ++ hex_byte byte }
    ensures len { array_string_len text.new ≡ array_string_len text.old + 2 }
{
    text.push(hex_digit(byte / 16));
    text.push(hex_digit(byte % 16));
}

/// Four digits.
#[tactic(auto, unfolding(crate::specs::Digits::hex_half))]
pub fn push_hex_half<const N: usize>(text: &mut ArrayString<N>, half: u16)
    requires { array_string_len text.old + 4 ≤ N }
    ensures bytes { text.new.bytes ≡ text.old.bytes ++ hex_half half }
    ensures len { array_string_len text.new ≡ array_string_len text.old + 4 }
{
    push_hex_byte(text, (half / 256) as u8);
    push_hex_byte(text, (half % 256) as u8);
}

/// Eight digits.
#[tactic(auto, unfolding(crate::specs::Digits::hex_word))]
pub fn push_hex_word<const N: usize>(text: &mut ArrayString<N>, word: u32)
    requires { array_string_len text.old + 8 ≤ N }
    ensures bytes { text.new.bytes ≡ text.old.bytes ++ hex_word word }
    ensures len { array_string_len text.new ≡ array_string_len text.old + 8 }
{
    push_hex_half(text, (word / 65536) as u16);
    push_hex_half(text, (word % 65536) as u16);
}

/// A decimal of at most ten digits.
pub fn push_decimal<const N: usize>(text: &mut ArrayString<N>, n: u32)
    requires { array_string_len text.old + 10 ≤ N }
    ensures bytes { text.new.bytes ≡ text.old.bytes ++ decimal n }
    ensures len { array_string_len text.new ≤ array_string_len text.old + 10 }
{
    let mut buffer = Buffer::new();
    text.push_str(buffer.format(n));
}

/// A decimal with its sign where it is negative.
pub fn push_signed<const N: usize>(text: &mut ArrayString<N>, n: i32)
    requires { array_string_len text.old + 11 ≤ N }
    ensures bytes { text.new.bytes ≡ text.old.bytes ++ signed_decimal n }
    ensures len { array_string_len text.new ≤ array_string_len text.old + 11 }
{
    let mut buffer = Buffer::new();
    text.push_str(buffer.format(n));
}
