//! Codes against GNU binutils, by their numbers, and codes that are no instruction.

use crate::tests::codes::CODES;
use crate::tests::doubles::hold;
use std::test::Fail;
use tz_bits::values;
use tz_decode::{Decoded, decode, needs_second};
use tz_kept::Codes;
use tz_table::Width;

/// The halfword of four digits that a word is.
fn halfword(word: Option<&str>) -> Option<u16> {
    match word {
        Some(digits) => u16::from_str_radix(digits, 16).ok(),
        None => None,
    }
}

/// Both halfwords of a row.
fn code_of(row: &str) -> Option<(u16, u16)> {
    let mut words = row.split_whitespace();
    match (halfword(words.next()), halfword(words.next())) {
        (Some(first), Some(second)) => Some((first, second)),
        _ => None,
    }
}

/// What was decoded is the row's instruction, of this width.
fn is_meant(row: &str, decoded: &Decoded, wide: bool) -> bool {
    let Decoded::One(insn, width) = decoded else {
        return false;
    };
    let mut words = row.split_whitespace();
    let _first = words.next();
    let _second = words.next();
    for value in values(insn) {
        let Some(word) = words.next() else {
            return false;
        };
        if word.parse::<i32>() != Ok(value) {
            return false;
        }
    }
    matches!(width, Width::Wide) == wide
}

/// The code of a row is decoded to the row's instruction, at the width that its first halfword tells.
fn is_read(row: &str) -> bool {
    let Some((first, second)) = code_of(row) else {
        return false;
    };
    is_meant(row, &decode(first, second), needs_second(first))
}

/// A table answers the code of a row with the row's instruction.
fn is_answered(codes: &mut Codes, row: &str) -> bool {
    let Some((first, second)) = code_of(row) else {
        return false;
    };
    is_meant(row, &codes.decode(first, second), needs_second(first))
}

#[test]
fn codes_of_each_row(rt: HostRuntime) {
    let mut count = 0u32;
    for row in CODES.split('\n') {
        hold(&rt, is_read(row), row);
        count = count.wrapping_add(1);
    }
    assert!(rt; count == 218);
}

/// The codes of every row, one after another and then once more: some are still kept, and others take their places.
#[test]
fn codes_asked_again(rt: HostRuntime) -> Result<(), Fail> {
    let mut codes = Codes::new(rt.alloc())?;
    for _ in 0..2u8 {
        for row in CODES.split('\n') {
            hold(&rt, is_answered(&mut codes, row), row);
        }
    }
    Ok(())
}

/// Rows of `CODES` whose codes share a place of a table.
static SHARED: [(&str, &str); 5] = [
    (
        "409f 0000 32 0 2 0 0 7 7 3 0",
        "a1b4 0000 34 0 0 0 0 1 720 0 0",
    ),
    (
        "1745 0000 26 2 2 0 0 5 0 0 29",
        "ea28 54c6 17 0 0 0 0 4 8 6 23",
    ),
    (
        "eb41 7e37 22 0 3 0 0 14 1 7 28",
        "f54b 3467 6 0 0 0 0 4 11 2919 0",
    ),
    (
        "f3ef 8491 83 0 0 0 0 4 145 0 0",
        "fbb9 f8f9 57 0 0 0 0 8 9 9 0",
    ),
    (
        "e8db 8f5f 65 1 0 0 0 8 11 0 0",
        "e8d0 ef9f 67 1 0 0 0 14 0 0 0",
    ),
];

/// Two codes that share a place, in turn and twice each.
#[test]
fn codes_that_share_a_place(rt: HostRuntime) -> Result<(), Fail> {
    let mut codes = Codes::new(rt.alloc())?;
    for &(one, other) in SHARED.iter() {
        for row in [one, other, one, other, other, one, one] {
            hold(&rt, is_answered(&mut codes, row), row);
        }
    }
    Ok(())
}

/// A table answers codes that no row holds as the table of rows refuses them, and 0 from its start.
#[test]
fn refused_codes_asked_again(rt: HostRuntime) -> Result<(), Fail> {
    let mut codes = Codes::new(rt.alloc())?;
    hold(
        &rt,
        is_answered(&mut codes, "0000 0000 26 2 0 0 0 0 0 0 0"),
        "0000",
    );
    for _ in 0..2u8 {
        assert!(rt; matches!(codes.decode(0x4775, 0), Decoded::Undefined(Width::Narrow)));
        assert!(rt; matches!(codes.decode(0xee00, 0), Decoded::NoCoprocessor));
        assert!(rt;
            matches!(
                codes.decode(0xe842, 0xf104),
                Decoded::Undefined(Width::Wide)
            )
        );
    }
    Ok(())
}

#[test]
fn codes_of_no_instruction(rt: HostRuntime) {
    assert!(rt; matches!(decode(0x4775, 0), Decoded::Undefined(Width::Narrow)));
    assert!(rt; matches!(decode(0xee00, 0), Decoded::NoCoprocessor));
    assert!(rt; matches!(decode(0xe842, 0xf104), Decoded::Undefined(Width::Wide)));
    // A load of many registers from PC.
    assert!(rt; matches!(decode(0xe89f, 0x8003), Decoded::Undefined(Width::Wide)));
}
