//! Words that cases of more than one kind have.

use tz_model::{Side, Size};
use tz_testing::Case;

/// The side of a word.
pub fn side_in(case: &mut Case<'_>, word: &str) -> Side {
    match word {
        "s" => Side::Secure,
        "ns" => Side::NonSecure,
        _ => {
            case.refuse();
            Side::Secure
        }
    }
}

/// The side at a place of a step.
pub fn side_at(case: &mut Case<'_>, index: usize) -> Side {
    let word = case.word(index);
    side_in(case, word)
}

/// The size at a place of a step: `b`, `h` or `w`.
pub fn size_at(case: &mut Case<'_>, index: usize) -> Size {
    match case.word(index) {
        "b" => Size::Byte,
        "h" => Size::Half,
        "w" => Size::Word,
        _ => {
            case.refuse();
            Size::Word
        }
    }
}

/// Tells a word of 32 bits.
pub fn tell_number(case: &mut Case<'_>, number: u32) {
    case.tell(" 0x");
    case.tell_hex(number);
}

/// Tells a number that is counted.
pub fn tell_count(case: &mut Case<'_>, count: i32) {
    case.tell(" ");
    case.tell_decimal(i64::from(count));
}

/// Tells an answer.
pub fn tell_flag(case: &mut Case<'_>, flag: bool) {
    case.tell(if flag { " yes" } else { " no" });
}
