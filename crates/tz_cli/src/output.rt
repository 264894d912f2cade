//! Bytes that go out, over a stream of the system.
//!
//! After a fault nothing more is written.

ghost use Rattle.std.specs.Prelude.{◌≡◌, ◌≤◌, false};
ghost use Rattle.tz_model.specs.Outside.{HasCause, Rose};

use std::io::Write;
use tz_model::{Sink, SinkError};

/// Writes two pieces, and tells whether all of both went out.
fn write_both<W: Write>(writer: &mut W, first: &[u8], second: &[u8]) -> bool {
    writer.write_all(first).is_ok() && writer.write_all(second).is_ok()
}

/// Bytes that go to a writer, kept up to a buffer's length before they go out.
#[derive(Drop)]
pub struct OutSink<W: Write + Drop> {
    inner: W,
    buffer: Vec<u8>,
    /// How many bytes at the buffer's front are kept.
    kept: usize,
    broken: bool,
    faults: u64,
}

impl<W: Write + Drop> OutSink<W> {
    /// A sink over a writer, with a buffer to write over; an empty one keeps nothing.
    pub fn new(inner: W, buffer: Vec<u8>) -> Self
        ensures { result.faults ≡ 0 }
    {
        OutSink {
            inner,
            buffer,
            kept: 0,
            broken: false,
            faults: 0,
        }
    }

    /// Counts a fault. What is kept is let go, so that none of it is written after a fault.
    fn fail(&mut self)
        ensures later { self.old.faults ≤ self.new.faults }
        ensures rose { Rose self.old.faults self.new.faults }
    {
        self.kept = 0;
        self.broken = true;
        self.faults = self.faults.saturating_add(1);
    }

    /// Sends what is kept and then a piece, and tells whether all of it went out.
    fn send(&mut self, bytes: &[u8]) -> bool
        ensures { HasCause self.old.faults self.new.faults (result ≡ false) }
    {
        if self.broken {
            self.fail();
            return false;
        }
        let kept = self.kept.min(self.buffer.len());
        if !write_both(&mut self.inner, &self.buffer[..kept], bytes) {
            self.fail();
            return false;
        }
        self.kept = 0;
        true
    }

    /// Keeps a piece, and tells whether there was room for it.
    fn keep(&mut self, bytes: &[u8]) -> bool
        ensures { self.new.faults ≡ self.old.faults }
    {
        let Some(end) = self.kept.checked_add(bytes.len()) else {
            return false;
        };
        match self.buffer.as_mut_slice().get_mut(self.kept..end) {
            Some(place) if !self.broken => {
                place.copy_from_slice(bytes);
                self.kept = end;
                true
            }
            _ => false,
        }
    }

    /// Passes on all that is kept, and tells whether that went well.
    pub fn flush(&mut self) -> bool
        ensures { HasCause self.old.faults self.new.faults (result ≡ false) }
    {
        if !self.send(b"") {
            return false;
        }
        let passed = self.inner.flush().is_ok();
        if !passed {
            self.fail();
        }
        passed
    }
}

impl<W: Write + Drop> Sink for OutSink<W> {
    ghost use Rattle.std.specs.Prelude.{None};

    ghost written = { λ _. None };

    ghost space = { λ _. None };

    ghost faults = { λ s. s.faults };

    #[inline(always)]
    fn put(&mut self, bytes: &[u8]) -> Result<(), SinkError> {
        if self.keep(bytes) || self.send(bytes) {
            Ok(())
        } else {
            Err(SinkError::Failed)
        }
    }
}
