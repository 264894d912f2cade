//! Codes that LLVM's assembler gives, from slots that are written here by hand, and the first values that
//! have no code.

use tz_encode::{CodeSlot, Coding, Half, Limit, Part, Parts, answer};

/// A field that is 0.
const NOTHING: CodeSlot = CodeSlot {
    coding: Coding::Is(0),
    limit: Limit::Any,
    parts: Parts::Zero,
};

macro_rules! slot {
    ($coding:expr, $limit:expr, $parts:expr $(,)?) => {
        CodeSlot {
            coding: $coding,
            limit: $limit,
            parts: $parts,
        }
    };
}

macro_rules! part {
    ($half:ident, $low:literal, $width:literal, $shift:literal) => {
        Part {
            half: Half::$half,
            low: $low,
            width: $width,
            shift: $shift,
        }
    };
}

/// ADDS rd, rn, #imm3
const ADD: [CodeSlot; 8] = [
    slot!(Coding::Is(2), Limit::Any, Parts::Zero),
    NOTHING,
    NOTHING,
    NOTHING,
    slot!(
        Coding::Natural,
        Limit::Any,
        Parts::One(part!(First, 0, 3, 0))
    ),
    slot!(
        Coding::Natural,
        Limit::Any,
        Parts::One(part!(First, 3, 3, 0))
    ),
    slot!(
        Coding::Natural,
        Limit::Any,
        Parts::One(part!(First, 6, 3, 0))
    ),
    NOTHING,
];

/// BL
const LINK: [CodeSlot; 8] = [
    NOTHING,
    NOTHING,
    NOTHING,
    NOTHING,
    slot!(
        Coding::Far,
        Limit::Any,
        Parts::Five(
            part!(First, 10, 1, 24),
            part!(Second, 13, 1, 23),
            part!(Second, 11, 1, 22),
            part!(First, 0, 10, 12),
            part!(Second, 0, 11, 1)
        ),
    ),
    NOTHING,
    NOTHING,
    NOTHING,
];

/// ADD.W rd, rn, rm, shift #amount
const SUM: [CodeSlot; 8] = [
    NOTHING,
    slot!(Coding::Kind, Limit::Any, Parts::Zero),
    NOTHING,
    NOTHING,
    slot!(
        Coding::Natural,
        Limit::SumResult(2),
        Parts::One(part!(Second, 8, 4, 0))
    ),
    slot!(
        Coding::Natural,
        Limit::SumOperand(5),
        Parts::One(part!(First, 0, 4, 0))
    ),
    slot!(
        Coding::Natural,
        Limit::Plain,
        Parts::One(part!(Second, 0, 4, 0))
    ),
    slot!(
        Coding::Amount,
        Limit::SumAmount(5),
        Parts::Three(
            part!(Second, 4, 2, 5),
            part!(Second, 12, 3, 2),
            part!(Second, 6, 2, 0)
        ),
    ),
];

/// BFI rd, rn, #low, #width
const INSERT: [CodeSlot; 8] = [
    NOTHING,
    NOTHING,
    NOTHING,
    NOTHING,
    slot!(
        Coding::Natural,
        Limit::Plain,
        Parts::One(part!(Second, 8, 4, 0))
    ),
    slot!(
        Coding::Natural,
        Limit::Plain,
        Parts::One(part!(First, 0, 4, 0))
    ),
    slot!(
        Coding::Natural,
        Limit::Any,
        Parts::Two(part!(Second, 12, 3, 2), part!(Second, 6, 2, 0)),
    ),
    slot!(
        Coding::UpTo,
        Limit::NonZero,
        Parts::One(part!(Second, 0, 5, 0))
    ),
];

/// Slots, the number of the instruction, the halfwords without fields, the values, and the code or the number of the
/// first value that has none.
struct Case {
    slots: &'static [CodeSlot; 8],
    tag: u16,
    first: u16,
    second: u16,
    values: [i32; 9],
    wanted: Result<(u16, u16), usize>,
}

macro_rules! cases {
    ($($slots:ident $tag:literal $first:literal $second:literal $values:expr => $wanted:expr,)*) => {
        [$(Case {
            slots: &$slots,
            tag: $tag,
            first: $first,
            second: $second,
            values: $values,
            wanted: $wanted,
        },)*]
    };
}

static CASES: [Case; 22] = cases! {
    ADD 4 0x1c00 0 [4, 2, 0, 0, 0, 0, 0, 1, 0] => Ok((0x1c40, 0)),
    ADD 4 0x1c00 0 [4, 2, 0, 0, 0, 5, 6, 7, 0] => Ok((0x1df5, 0)),
    ADD 4 0x1c00 0 [5, 2, 0, 0, 0, 5, 6, 7, 0] => Err(0),
    ADD 4 0x1c00 0 [4, 1, 0, 0, 0, 5, 6, 7, 0] => Err(1),
    ADD 4 0x1c00 0 [4, 2, 0, 0, 0, 8, 6, 8, 0] => Err(5),
    ADD 4 0x1c00 0 [4, 2, 0, 0, 0, 5, -6, 7, 0] => Err(6),
    ADD 4 0x1c00 0 [4, 2, 0, 0, 0, 5, 6, 8, 0] => Err(7),
    LINK 71 0xf000 0xd000 [71, 0, 0, 0, 0, -4, 0, 0, 0] => Ok((0xf7ff, 0xfffe)),
    LINK 71 0xf000 0xd000 [71, 0, 0, 0, 0, 0x12_3452, 0, 0, 0] => Ok((0xf123, 0xfa29)),
    LINK 71 0xf000 0xd000 [71, 0, 0, 0, 0, 1, 0, 0, 0] => Err(5),
    LINK 71 0xf000 0xd000 [71, 0, 0, 0, 0, 0x100_0000, 0, 0, 0] => Err(5),
    SUM 20 0xeb00 0 [20, 0, 2, 0, 0, 0, 1, 2, 32] => Ok((0xeb01, 0x0022)),
    SUM 20 0xeb00 0 [20, 0, 0, 0, 0, 13, 13, 2, 3] => Ok((0xeb0d, 0x0dc2)),
    SUM 20 0xeb00 0 [20, 0, 5, 0, 0, 0, 1, 2, 32] => Err(2),
    SUM 20 0xeb00 0 [20, 0, 2, 0, 0, 13, 13, 2, 3] => Err(5),
    SUM 20 0xeb00 0 [20, 0, 0, 0, 0, 13, 1, 2, 3] => Err(6),
    SUM 20 0xeb00 0 [20, 0, 0, 0, 0, 13, 13, 2, 4] => Err(8),
    SUM 20 0xeb00 0 [20, 0, 0, 0, 0, 0, 1, 2, 32] => Err(8),
    INSERT 37 0xf360 0 [37, 0, 0, 0, 0, 1, 2, 4, 8] => Ok((0xf362, 0x110b)),
    INSERT 37 0xf360 0 [37, 0, 0, 0, 0, 1, 2, 32, 8] => Err(7),
    INSERT 37 0xf360 0 [37, 0, 0, 0, 0, 1, 2, 4, 29] => Err(8),
    INSERT 37 0xf360 0 [37, 0, 0, 0, 0, 1, 2, 4, 0] => Err(8),
};

#[test]
fn codes_of_slots(rt: HostRuntime) {
    for case in &CASES {
        let found = answer(case.tag, case.first, case.second, case.slots, &case.values);
        assert!(rt; found == case.wanted);
    }
}
