//! Hexadecimal digits in lower case, two at a time.

ghost use Rattle.std.specs.Prelude.{◌≡◌, ◌≤◌, ◌+◌, ◌/◌, ◌%◌, ◌++◌, length, take};
ghost use Rattle.tz_syntax.specs.Digits.{hex_digit, hex_byte, hex_half, hex_word};

/// The two digits of each byte.
static PAIRS: [u8; 512] =
    *b"000102030405060708090a0b0c0d0e0f101112131415161718191a1b1c1d1e1f202122232425262728292a2b2c2d2e2f303132333435363738393a3b3c3d3e3f404142434445464748494a4b4c4d4e4f505152535455565758595a5b5c5d5e5f606162636465666768696a6b6c6d6e6f707172737475767778797a7b7c7d7e7f808182838485868788898a8b8c8d8e8f909192939495969798999a9b9c9d9e9fa0a1a2a3a4a5a6a7a8a9aaabacadaeafb0b1b2b3b4b5b6b7b8b9babbbcbdbebfc0c1c2c3c4c5c6c7c8c9cacbcccdcecfd0d1d2d3d4d5d6d7d8d9dadbdcdddedfe0e1e2e3e4e5e6e7e8e9eaebecedeeeff0f1f2f3f4f5f6f7f8f9fafbfcfdfeff";

/// The two digits of a byte.
#[inline(always)]
fn digits_of(byte: u8) -> (u8, u8)
    ensures upper { result.0 ≡ hex_digit (byte / 16) }
    ensures lower { result.1 ≡ hex_digit (byte % 16) }
{
    let from = byte as usize * 2;
    (PAIRS[from], PAIRS[from + 1])
}

/// Writes the two digits of a byte.
#[inline(always)]
fn write_byte(cells: &mut [u8], at: usize, byte: u8)
    requires { at + 2 ≤ length cells.old }
    ensures { take (at + 2) cells.new ≡ take at cells.old ++ hex_byte byte }
{
    let (upper, lower) = digits_of(byte);
    cells[at] = upper;
    cells[at + 1] = lower;
}

/// Writes four digits.
#[inline(always)]
fn write_half(cells: &mut [u8], at: usize, half: u16)
    requires { at + 4 ≤ length cells.old }
    ensures { take (at + 4) cells.new ≡ take at cells.old ++ hex_half half }
{
    write_byte(cells, at, (half / 256) as u8);
    write_byte(cells, at + 2, (half % 256) as u8);
}

/// Writes eight digits.
#[inline(always)]
pub fn write_word(cells: &mut [u8], at: usize, word: u32)
    requires { at + 8 ≤ length cells.old }
    ensures { take (at + 8) cells.new ≡ take at cells.old ++ hex_word word }
{
    write_half(cells, at, (word / 65536) as u16);
    write_half(cells, at + 4, (word % 65536) as u16);
}
