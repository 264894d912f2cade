//! The number of a line.
//!
//! All its digits but the last are those of the line before, but for one line of ten.

ghost use Rattle.std.specs.Prelude.{◌≡◌, ◌≤◌, ◌+◌, ◌++◌, [], codes, decimal, length, take};
ghost use Rattle.arrayvec.specs.ArrayString.{array_string_len};
ghost use Rattle.tz_text.specs.Number.{tens_text};

use crate::room::Line;
use arrayvec::ArrayString;
use tz_syntax::push_decimal;

/// The digits of a number of tens, of which a piece has the first ones.
#[derive(Clone, Copy)]
pub struct Tens {
    tens: u32,
    piece: [u8; 16],
    len: usize,
    ghost within: { len ≤ 10 },
    ghost tells: { take len piece ≡ tens_text tens },
}

/// Appends the digits of a number of tens; none where it is 0.
fn push_tens(digits: &mut ArrayString<10>, tens: u32)
    requires { digits.old.bytes ≡ [] }
    ensures { digits.new.bytes ≡ tens_text tens }
{
    if tens != 0 {
        push_decimal(digits, tens);
    }
}

impl Tens {
    /// The digits of a number of tens.
    #[inline(never)]
    pub fn of(tens: u32) -> Tens
        ensures { result.tens ≡ tens }
    {
        let mut digits = ArrayString::new();
        push_tens(&mut digits, tens);
        let len = digits.len();
        let mut piece = [0; 16];
        piece[..len].copy_from_slice(digits.as_str().as_bytes());
        Tens { tens, piece, len }
    }

    /// Keeps the digits of a number of tens.
    #[inline(always)]
    fn keep(&mut self, tens: u32)
        ensures { self.new.tens ≡ tens }
    {
        if self.tens != tens {
            *self = Tens::of(tens);
        }
    }
}

/// Appends a number and a space.
#[inline(always)]
pub fn push_number(line: &mut Line, kept: &mut Tens, number: u32)
    requires { length line.old.bytes + 12 ≤ 768 }
    ensures bytes { line.new.bytes ≡ line.old.bytes ++ decimal number ++ codes " " }
    ensures len { length line.new.bytes ≤ length line.old.bytes + 12 }
{
    kept.keep(number / 10);
    line.push_front(&kept.piece, kept.len);
    let last = 48 + (number % 10) as u8;
    line.push_front(&[last, 32], 2);
}
