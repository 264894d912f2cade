//! The values of an instruction that numbers, addresses and letters stand for.

ghost use Rattle.std.specs.Prelude.{◌≡◌, ◌<◌, ◌≤◌, ◌*◌, ◌-◌, ◌^◌, IfSome};
ghost use Rattle.tz_asm.specs.Bits.{even_offset, field_of, least_bits, least_from, mask_from, offset_to, sets_bit, whole_of};
ghost use Rattle.tz_syntax.specs.Pieces.{program_counter};
ghost use Rattle.tz_asm.specs.Pieces.{aligned_base};

/// A number with its sign as a value, which has 32 bits.
pub fn field_of(negative: bool, number: u32) -> Option<i32>
    ensures { result ≡ field_of negative number }
{
    if number < 0x8000_0000 {
        let value = number as i32;
        Some(if negative { -value } else { value })
    } else {
        None
    }
}

/// A number that isn't below 0.
pub fn whole_of(negative: bool, number: u32) -> Option<u32>
    ensures { result ≡ whole_of negative number }
{
    if negative && number > 0 {
        None
    } else {
        Some(number)
    }
}

/// The least of 256 to 511 that stands for a constant: a byte at bits 0 and 16.
fn low_copies(constant: u32) -> Option<u16>
    requires { 256 ≤ constant }
    ensures bits { result ≡ least_from constant 256 256 }
    ensures below { IfSome result (λ bits. bits < 4096) }
{
    let byte = constant % 256;
    if constant == byte * 0x1_0001 {
        Some(256 + byte as u16)
    } else {
        None
    }
}

/// The least of 512 to 767 that does: a byte at bits 8 and 24.
fn high_copies(constant: u32) -> Option<u16>
    requires { 256 ≤ constant }
    ensures bits { result ≡ least_from constant 512 256 }
    ensures below { IfSome result (λ bits. bits < 4096) }
{
    let byte = constant / 256 % 256;
    if constant == byte * 0x100_0100 {
        Some(512 + byte as u16)
    } else {
        None
    }
}

/// The least of 768 to 1023 that does: a byte four times.
fn all_copies(constant: u32) -> Option<u16>
    requires { 256 ≤ constant }
    ensures bits { result ≡ least_from constant 768 256 }
    ensures below { IfSome result (λ bits. bits < 4096) }
{
    let byte = constant % 256;
    if constant == byte * 0x101_0101 {
        Some(768 + byte as u16)
    } else {
        None
    }
}

/// The least of the 128 numbers that stand for a byte from 128 on, turned to the right by `turn`, where it is
/// multiplied by `scale`.
fn turned_by(constant: u32, turn: u16, scale: u32) -> Option<u16>
    requires least { 8 ≤ turn }
    requires most { turn < 32 }
    requires scale { scale ≡ 2 ^ (32 - turn) }
    ensures bits { result ≡ least_from constant (128 * turn) 128 }
    ensures below { IfSome result (λ bits. bits < 4096) }
{
    let byte = constant / scale;
    if byte < 128 {
        return None;
    }
    if byte > 255 {
        return None;
    }
    if constant % scale != 0 {
        return None;
    }
    Some(128 * turn + (byte as u16 - 128))
}

/// The least of 1024 to 4095 that stands for a constant.
fn turned(constant: u32) -> Option<u16>
    ensures bits { result ≡ least_from constant 1024 3072 }
    ensures below { IfSome result (λ bits. bits < 4096) }
{
    let mut scale = 0x100_0000;
    for turn in 8..32 {
        if let Some(bits) = turned_by(constant, turn, scale) {
            return Some(bits);
        }
        scale /= 2;
    }
    None
}

/// The least twelve bits that stand for a constant.
pub fn least_bits(constant: u32) -> Option<u16>
    ensures bits { result ≡ least_bits constant }
    ensures below { IfSome result (λ bits. bits < 4096) }
{
    if constant < 256 {
        return Some(constant as u16);
    }
    match low_copies(constant) {
        Some(bits) => Some(bits),
        None => match high_copies(constant) {
            Some(bits) => Some(bits),
            None => match all_copies(constant) {
                Some(bits) => Some(bits),
                None => turned(constant),
            },
        },
    }
}

/// The address that targets of a statement are counted from.
pub fn base_of(place: u32) -> u32
    ensures { result ≡ program_counter place }
{
    place.wrapping_add(4)
}

/// The same, aligned.
pub fn aligned_base_of(place: u32) -> u32
    ensures { result ≡ aligned_base place }
{
    base_of(place) / 4 * 4
}

/// The offset from an address to another one.
pub fn offset_to(base: u32, address: u32) -> i32
    ensures { result ≡ offset_to base address }
{
    address.wrapping_sub(base).cast_signed()
}

/// The same where the address is even, as that of an instruction is.
pub fn even_offset(base: u32, address: u32) -> Option<i32>
    ensures { result ≡ even_offset base address }
{
    if address % 2 == 0 {
        Some(offset_to(base, address))
    } else {
        None
    }
}

/// Whether the bit that a letter behind `it` makes is 1: `t` stands for bit 0 of the condition.
fn sets_bit(condition: u32, letter: u8) -> bool
    ensures { result ≡ sets_bit condition letter }
{
    if letter.to_ascii_lowercase() == b't' {
        condition % 2 == 1
    } else {
        condition % 2 == 0
    }
}

/// The mask that letters behind `it` make with a condition: a bit for each, from bit 3 down, and a 1 behind them.
#[tactic(auto, unfolding(crate::specs::Bits::mask_from))]
pub fn mask_of(condition: u32, letters: &[u8]) -> u32
    ensures mask { result ≡ mask_from condition 8 letters.now }
    ensures below { result ≤ 16 }
{
    let mut mask = 0;
    let mut weight = 8;
    for letter in letters {
        if sets_bit(condition, *letter) {
            mask += weight;
        }
        weight /= 2;
    }
    mask + weight
}
