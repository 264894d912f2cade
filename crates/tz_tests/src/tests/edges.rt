//! The edge over a reader that signals interrupt, and over a writer that breaks.

use crate::tests::doubles::answer_of;
use std::alloc::{AllocError, Global};
use std::io::{self, ErrorKind, Read, Write};
use std::test::Fail;
use tz_cli::{OutSink, read_to_limit};
use tz_model::Sink;

/// A reader whose first reads are interrupted.
#[derive(Drop)]
struct Interrupted<'a> {
    times: u32,
    rest: &'a [u8],
}

impl Read for Interrupted<'_> {
    fn read(&mut self, buffer: &mut [u8]) -> io::Result<usize> {
        if self.times > 0 {
            self.times -= 1;
            return Err(ErrorKind::Interrupted.into());
        }
        self.rest.read(buffer)
    }
}

/// How many reads of `abcd` are interrupted, the limit, the answer, and the bytes that are gained.
static READS: [(u32, u8, &str, &str); 5] = [
    (0, 4, "all", "abcd"),
    (63, 4, "all", "abcd"),
    (64, 4, "failed", ""),
    (0, 3, "long", "abcd"),
    (0, 2, "long", "abc"),
];

#[test]
fn interrupted_reads(rt: HostRuntime) {
    for &(times, limit, answer, gained) in READS.iter() {
        let mut reader = Interrupted {
            times,
            rest: b"abcd",
        };
        let mut into = Vec::new(rt.alloc());
        let said = answer_of(read_to_limit(&mut reader, usize::from(limit), &mut into));
        assert!(rt; said == answer && into.as_slice() == gained.as_bytes());
    }
}

/// A writer that breaks after some writes, and then takes bytes again.
#[derive(Drop)]
struct Breaking {
    good: u32,
    written: Vec<u8>,
}

impl Write for Breaking {
    fn write(&mut self, bytes: &[u8]) -> io::Result<usize> {
        if self.good == 0 {
            self.good = 9;
            return Err(ErrorKind::WriteZero.into());
        }
        self.good -= 1;
        if self.written.extend_from_slice(bytes).is_err() {
            return Err(ErrorKind::OutOfMemory.into());
        }
        Ok(bytes.len())
    }

    fn flush(&mut self) -> io::Result<()> {
        Ok(())
    }
}

/// Puts words into a sink, and flushes it at the word `!`: a digit for each, 1 where it goes and 2 where it fails.
fn put_all<W: Write + Drop>(sink: &mut OutSink<W>, words: &str) -> u32 {
    let mut digits = 0u32;
    for word in words.split_whitespace() {
        let goes = if word == "!" {
            sink.flush()
        } else {
            sink.put(word.as_bytes()).is_ok()
        };
        digits = digits
            .wrapping_mul(10)
            .wrapping_add(if goes { 1 } else { 2 });
    }
    digits
}

/// What becomes of words that are put into a sink which keeps eight bytes: the digits, and what is written by then.
fn written(alloc: Global, good: u32, words: &str) -> Result<(u32, Vec<u8>), AllocError> {
    let mut writer = Breaking {
        good,
        written: Vec::new(alloc),
    };
    let digits = put_all(
        &mut OutSink::new(&mut writer, Vec::from_elem(alloc, 0, 8)?),
        words,
    );
    Ok((digits, writer.written))
}

/// How many writes go well before one breaks, the words, their digits, and what is written. After a fault nothing more
/// goes out, neither what was kept nor what comes.
static WORDS: [(u32, &str, u32, &str); 6] = [
    (0, "abcd efghij k !", 1222, ""),
    (1, "abcd efghij k !", 1222, "abcd"),
    (9, "abcd", 1, ""),
    (9, "abcd efghi", 11, "abcdefghi"),
    (9, "abcd efghi j", 111, "abcdefghi"),
    (9, "abcd efghi j !", 1111, "abcdefghij"),
];

#[test]
fn kept_and_broken_writes(rt: HostRuntime) -> Result<(), Fail> {
    for &(good, words, want, bytes) in WORDS.iter() {
        let (digits, found) = written(rt.alloc(), good, words)?;
        assert!(rt; digits == want && found.as_slice() == bytes.as_bytes());
    }
    Ok(())
}
