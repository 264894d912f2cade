//! Flags and bits of a word.

ghost use Rattle.std.specs.Prelude.{◌≡◌, ◌<◌};
ghost use Rattle.tz_state.specs.Pieces.{is_bit, bit_at};

/// The word in which one bit, below 32, tells a flag.
pub(crate) fn flag(on: bool, bit: u32) -> u32
    requires { bit < 32 }
    ensures { result ≡ bit_at on bit }
{
    if on { 1 << bit } else { 0 }
}

/// Whether a bit of a word, below 32, is 1.
pub(crate) fn is_bit(word: u32, bit: u32) -> bool
    requires { bit < 32 }
    ensures { result ≡ is_bit word bit }
{
    (word >> bit) % 2 == 1
}
