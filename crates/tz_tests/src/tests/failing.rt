//! The top call with streams and files that fail, and with no words at all.

use crate::tests::doubles::{files, hold};
use std::alloc::{AllocError, Global};
use std::test::Fail;
use tz_cli::top;
use tz_testing::{FailingShelf, FailingSink};

/// The worked images, and an image of two segments that touch, the second one first.
static FILES: [(&str, &str); 3] = [
    (
        "S",
        "10000000 0010003041000010\n10000040 0048044740002000\n",
    ),
    ("N", "00200040 0520fee7\n"),
    ("T", "10008004 7fe900\n10008000 05207fe9\n"),
];

/// The words of a line.
pub fn words_of(alloc: Global, line: &str) -> Result<Vec<String>, AllocError> {
    let mut words = Vec::new(alloc);
    for word in line.split_whitespace() {
        words.push(String::from_str(alloc, word)?)?;
    }
    Ok(words)
}

/// The status of a line whose get and puts of these numbers fail, with what it wrote and told.
fn failing_answer(
    alloc: Global,
    line: &str,
    failing: (u64, u64, u64),
) -> Result<(u8, FailingSink, FailingSink), AllocError> {
    let (get, put, tell) = failing;
    let words = words_of(alloc, line)?;
    let mut out = FailingSink::new(alloc, vec![in alloc; put]?);
    let mut err = FailingSink::new(alloc, vec![in alloc; tell]?);
    let mut shelf = FailingShelf::new(alloc, files(alloc, &FILES)?, vec![in alloc; get]?);
    let status = top(alloc, &words, &mut shelf, &mut out, &mut err);
    Ok((status, out, err))
}

/// A line, which get, which put and which put on standard error fail, the status, what went out before, and the line
/// on standard error.
static ANSWERS: [(&str, (u64, u64, u64), u8, &str, &str); 11] = [
    ("tzrun run @demo S N @none 4", (9, 0, 0), 4, "", ""),
    ("tzrun run @demo S N @none 4", (9, 1, 0), 4, "0 S\n", ""),
    (
        "tzrun run @demo S N @none 4",
        (9, 2, 0),
        4,
        "0 S\n1 S\n",
        "",
    ),
    (
        "tzrun run @demo S N @none 4",
        (9, 3, 0),
        4,
        "0 S\n1 S\n2 N 00200040 2005 movs r0, #5 r0=00000005\n",
        "",
    ),
    (
        "tzrun dis @demo T s",
        (9, 1, 0),
        4,
        "10008000 2005 movs r0, #5\n",
        "",
    ),
    (
        "tzrun run @demo S N @none 4",
        (0, 9, 9),
        3,
        "",
        "cannot read S\n",
    ),
    (
        "tzrun run @demo S N @none 4",
        (1, 9, 9),
        3,
        "",
        "cannot read N\n",
    ),
    ("tzrun pair @demo S S N @none 4", (9, 0, 9), 4, "", ""),
    (
        "tzrun pair @demo S S N @none 4",
        (1, 9, 9),
        3,
        "",
        "cannot read S\n",
    ),
    ("tzrun run", (9, 9, 0), 4, "", ""),
    ("", (9, 9, 9), 2, "", "usage\n"),
];

/// A line can't be written, so those before it stand; a file can't be read; what is told can't be written; and there
/// are no words at all.
#[test]
fn failing_answers(rt: HostRuntime) -> Result<(), Fail> {
    for &(line, failing, status, written, told) in ANSWERS.iter() {
        let (found, out, err) = failing_answer(rt.alloc(), line, failing)?;
        hold(&rt, found == status, line);
        hold(&rt, out.bytes() == written.as_bytes(), line);
        hold(&rt, err.bytes() == told.as_bytes(), line);
    }
    Ok(())
}
