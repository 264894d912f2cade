//! The doubles of the outside at work.

use std::alloc::{AllocError, Global};
use std::process::Abort;
use std::test::Fail;
use tz_model::{Shelf, ShelfError, Sink};
use tz_testing::{FailingShelf, FailingSink, File, MemoryShelf, MemorySink};

/// Files, each by its name and bytes.
pub fn files(alloc: Global, rows: &[(&str, &str)]) -> Result<Vec<File>, AllocError> {
    let mut files = Vec::new(alloc);
    for &(name, bytes) in rows {
        files.push(File {
            name: String::from_str(alloc, name)?,
            bytes: bytes.as_bytes().to_vec(alloc)?,
        })?;
    }
    Ok(files)
}

/// One file, `a`.
static FILE: [(&str, &str); 1] = [("a", "hello")];

/// An answer in a word.
pub fn answer_of(answer: Result<(), ShelfError>) -> &'static str {
    match answer {
        Ok(()) => "all",
        Err(ShelfError::Failed) => "failed",
        Err(ShelfError::Long) => "long",
        Err(ShelfError::Memory) => "memory",
    }
}

/// Fails the test where something doesn't hold, with what it is about. A message is made here alone.
pub fn hold(rt: &impl Abort, holds: bool, about: &str) {
    assert!(rt; holds, "{about}");
}

/// What a shelf answers, and the bytes that it gives.
fn read<S: Shelf>(alloc: Global, shelf: &mut S, name: &str, limit: u8) -> (&'static str, Vec<u8>) {
    let mut bytes = Vec::new(alloc);
    let answer = answer_of(shelf.get(name, usize::from(limit), &mut bytes));
    (answer, bytes)
}

/// What is asked for, the limit, the answer, and the bytes.
type Reading = (&'static str, u8, &'static str, &'static str);

/// Checks what a shelf answers, one call after the other.
fn check_readings<S: Shelf>(rt: &impl Abort, alloc: Global, shelf: &mut S, readings: &[Reading]) {
    for &(name, limit, answer, bytes) in readings {
        let (said, given) = read(alloc, shelf, name, limit);
        hold(
            rt,
            said == answer && given.as_slice() == bytes.as_bytes(),
            name,
        );
    }
}

static READINGS: [Reading; 4] = [
    ("a", 5, "all", "hello"),
    ("a", 4, "long", "hello"),
    ("a", 2, "long", "hel"),
    ("b", 5, "failed", ""),
];

#[test]
fn memory_shelf(rt: HostRuntime) -> Result<(), Fail> {
    let mut shelf = MemoryShelf::new(files(rt.alloc(), &FILE)?);
    check_readings(&rt, rt.alloc(), &mut shelf, &READINGS);
    Ok(())
}

static SECOND_FAILS: [Reading; 4] = [
    ("a", 5, "all", "hello"),
    ("a", 5, "failed", ""),
    ("a", 2, "long", "hel"),
    ("b", 5, "failed", ""),
];

/// The second call fails, and the others are answered.
#[test]
fn failing_shelf(rt: HostRuntime) -> Result<(), Fail> {
    let failing = vec![in rt.alloc(); 1u64]?;
    let mut shelf = FailingShelf::new(rt.alloc(), files(rt.alloc(), &FILE)?, failing);
    check_readings(&rt, rt.alloc(), &mut shelf, &SECOND_FAILS);
    Ok(())
}

/// Texts in turn, whether each goes, and what is written by then.
static PUTS: [(&str, bool, &str); 4] = [
    ("hel", true, "hel"),
    ("lop", false, "hel"),
    ("lo", true, "hello"),
    ("!", false, "hello"),
];

#[test]
fn memory_sink(rt: HostRuntime) -> Result<(), Fail> {
    let mut sink = MemorySink::new(rt.alloc(), 5)?;
    for &(text, goes, written) in PUTS.iter() {
        let went = sink.put(text.as_bytes()).is_ok();
        hold(
            &rt,
            went == goes && sink.bytes() == written.as_bytes(),
            text,
        );
    }
    Ok(())
}

/// Texts in turn, whether each goes, and what is written by then.
static FAILING_PUTS: [(&str, bool, &str); 3] = [
    ("a", true, "a"),
    ("b", false, "a"),
    ("c", true, "ac"),
];

/// The second call fails and writes nothing.
#[test]
fn failing_sink(rt: HostRuntime) -> Result<(), Fail> {
    let mut sink = FailingSink::new(rt.alloc(), vec![in rt.alloc(); 1u64]?);
    for &(text, goes, written) in FAILING_PUTS.iter() {
        let went = sink.put(text.as_bytes()).is_ok();
        hold(
            &rt,
            went == goes && sink.bytes() == written.as_bytes(),
            text,
        );
    }
    Ok(())
}
