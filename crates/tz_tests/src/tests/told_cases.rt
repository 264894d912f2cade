//! Cases as text: those whose answers differ, and those that cannot be read, are told by their places. So are those with a
//! field or a word too many. A case may stand in several lines, and repeat what it has.

use std::test::Fail;
use tz_testing::{Answers, Case, add_file, told};

/// The sum of two numbers, the second of which is a step of one word.
struct Sums;

impl Answers for Sums {
    fn answer(&self, case: &mut Case<'_>) {
        let first = case.field(0);
        let second = case.field(1);
        case.begin(second);
        let sum = case.number_in(first).wrapping_add(case.number(0));
        case.tell_decimal(i64::from(sum));
    }
}

/// A file of sums.
static SUMS: &str =
    "# sums\n1 | 0x10 => 17\n\n2|2 => 5\n3 => 3\n4 | x => 4\n5 | 6\n7 | 8 | 9 => 15\n10 | 11 12 => 21\n13 | => 13\n14 | 15 | => 29";

/// Another: a case in lines with a comment between them, numbers that are sums, and digits that are repeated.
static MORE: &str =
    "16 |\n  # sixteen\n  17\n  => 33\n18+1 | 0x10+4 => 39\n(2, 0: @) | 1 => 3\n(2, 0:@) | 1 => 21\n";

#[test]
fn cases_that_differ_are_told(rt: HostRuntime) -> Result<(), Fail> {
    let mut cases = String::new(rt.alloc());
    add_file(&mut cases, "sums", SUMS)?;
    add_file(&mut cases, "more", MORE)?;
    let text = told(rt.alloc(), &Sums, cases.as_str())?;
    assert_eq!(rt;
        text.as_str(),
        "sums:4: found 4, not 5\nsums:5: unread\nsums:6: unread\nsums:7: unread\nsums:8: unread\nsums:9: unread\nsums:10: unread\nsums:11: unread\nmore:6: unread\n13 cases, 9 differ\n"
    );
    Ok(())
}
