//! What is left to list: bytes of a run, and the segments behind them.

ghost use Rattle.std.specs.Prelude.{◌≡◌, ◌<◌, ◌≤◌, ◌+◌, ◌++◌, [], false, drop, length, IsTrue};
ghost use Rattle.arrayvec.specs.ArrayString.{array_string_len};
ghost use Rattle.tz_model.specs.Image.{are_addressed};
ghost use Rattle.tz_text.specs.Text.{text_left};
ghost use Rattle.tz_text.specs.Rests.{IsAtEnd, LiesBelow, rest_text};

use crate::disassembly::lines::{Line, push_front};
use arrayvec::ArrayVec;
use tz_model::Segment;

/// The bytes of a run from an address on, and the segments that ascend behind them.
///
/// At most four bytes wait: they were read, and their line is still to come. The others lie in the segment
/// that is being read.
#[derive(Drop)]
pub struct Rest<'a> {
    at: u64,
    waiting: ArrayVec<u8, 4>,
    here: &'a [u8],
    segments: &'a [Segment],
}

impl<'a> Rest<'a> {
    /// No bytes, and all segments behind them.
    pub fn new(segments: &'a [Segment]) -> Rest<'a>
        requires { IsTrue (are_addressed segments.now) }
        ensures text { rest_text result ≡ text_left 0 [] segments.now }
        ensures below { LiesBelow result }
    {
        Rest {
            at: 0,
            waiting: ArrayVec::new(),
            here: &[],
            segments,
        }
    }

    /// Goes on to the next segment, where that goes on with the run or no byte waits.
    fn enter(&mut self) -> bool
        requires below { LiesBelow self.old }
        requires here { self.old.here.now ≡ [] }
        ensures text { rest_text self.new ≡ rest_text self.old }
        ensures below { LiesBelow self.new }
        ensures waiting { self.new.waiting.items ≡ self.old.waiting.items }
        ensures fewer { IsTrue result → length self.new.segments.now < length self.old.segments.now }
        ensures end { result ≡ false → IsAtEnd self.new }
    {
        let segments = self.segments;
        let Some((segment, behind)) = segments.split_first() else {
            return false;
        };
        let base = u64::from(segment.base);
        if self.waiting.is_empty() {
            self.at = base;
        } else if self.at + self.waiting.len() as u64 != base {
            return false;
        }
        self.here = &segment.bytes;
        self.segments = behind;
        true
    }

    /// Reads on until four bytes wait, or all that the run still has.
    fn fill(&mut self)
        requires { LiesBelow self.old }
        ensures text { rest_text self.new ≡ rest_text self.old }
        ensures below { LiesBelow self.new }
        ensures full { length self.new.waiting.items < 4 → IsAtEnd self.new }
    {
        'reading: while self.waiting.len() < 4 {
            let here = self.here;
            if let Some((byte, behind)) = here.split_first() {
                self.waiting.push(*byte);
                self.here = behind;
            } else if !self.enter() {
                return;
            }
        }
    }

    /// Takes the first waiting bytes away.
    fn take(&mut self, size: usize)
        requires below { LiesBelow self.old }
        requires enough { size ≤ length self.old.waiting.items }
        ensures at { self.new.at ≡ self.old.at + size }
        ensures waiting { self.new.waiting.items ≡ drop size self.old.waiting.items }
        ensures here { self.new.here.now ≡ self.old.here.now }
        ensures segments { self.new.segments.now ≡ self.old.segments.now }
    {
        for _taken in 0..size {
            self.waiting.remove(0);
        }
        self.at += size as u64;
    }

    /// Writes the next line, or says that there is none.
    pub fn next(&mut self, line: &mut Line) -> bool
        requires empty { line.old.bytes ≡ [] }
        requires below { LiesBelow self.old }
        ensures text { line.new.bytes ++ rest_text self.new ≡ rest_text self.old }
        ensures below { LiesBelow self.new }
        ensures some { IsTrue result → 0 < array_string_len line.new }
        ensures end { result ≡ false → line.new.bytes ++ rest_text self.new ≡ [] }
    {
        self.fill();
        if self.waiting.is_empty() {
            return false;
        }
        let size = push_front(line, self.at as u32, self.waiting.as_slice());
        self.take(size);
        true
    }
}
