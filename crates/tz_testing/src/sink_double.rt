//! Doubles of the sink, in memory, for tests: one of told space, and one that fails at listed calls.

ghost use Rattle.std.specs.Prelude.{◌≡◌, ◌≤◌, ◌+◌, [], IfOk, vec_len, vec_capacity};

use std::alloc::{AllocError, Global};
use tz_model::{Sink, SinkError};

/// A sink with room for so many bytes. A put fails where it needs more than is left, and nowhere else.
#[derive(Drop)]
pub struct MemorySink {
    bytes: Vec<u8>,
    space: usize,
    faults: u64,
    ghost room: { vec_len bytes + space ≤ vec_capacity bytes },
}

impl MemorySink {
    /// An empty sink with this space, in bytes. Fails for want of memory alone.
    pub fn new(alloc: Global, space: usize) -> Result<Self, AllocError>
        ensures bytes { IfOk result (λ s. s.bytes.items ≡ []) }
        ensures space { IfOk result (λ s. s.space ≡ space) }
        ensures faults { IfOk result (λ s. s.faults ≡ 0) }
    {
        let bytes = Vec::with_capacity(alloc, space)?;
        Ok(MemorySink {
            bytes,
            space,
            faults: 0,
        })
    }

    /// What was written.
    pub fn bytes(&self) -> &[u8]
        ensures { result.now ≡ self.now.bytes.items }
    {
        &self.bytes
    }
}

impl Sink for MemorySink {
    ghost use Rattle.std.specs.Prelude.{Some};

    ghost written = { λ s. Some s.bytes.items };

    ghost space = { λ s. Some s.space };

    ghost faults = { λ s. s.faults };

    fn put(&mut self, bytes: &[u8]) -> Result<(), SinkError> {
        if bytes.len() > self.space {
            self.faults = self.faults.saturating_add(1);
            return Err(SinkError::Failed);
        }
        match self.bytes.extend_from_slice(bytes) {
            Ok(()) => {
                self.space -= bytes.len();
                Ok(())
            }
            Err(_) => {
                self.faults = self.faults.saturating_add(1);
                Err(SinkError::Failed)
            }
        }
    }
}

/// A sink that fails at the listed calls, counted from 0, writes nothing in those, and tells no space. It keeps where
/// each piece ended.
#[derive(Drop)]
pub struct FailingSink {
    bytes: Vec<u8>,
    ends: Vec<usize>,
    failing: Vec<u64>,
    calls: u64,
    faults: u64,
}

impl FailingSink {
    /// An empty sink that fails at these calls.
    pub fn new(alloc: Global, failing: Vec<u64>) -> Self
        ensures bytes { result.bytes.items ≡ [] }
        ensures failing { result.failing.items ≡ failing.items }
        ensures calls { result.calls ≡ 0 }
        ensures faults { result.faults ≡ 0 }
    {
        FailingSink {
            bytes: Vec::new(alloc),
            ends: Vec::new(alloc),
            failing,
            calls: 0,
            faults: 0,
        }
    }

    /// What was written.
    pub fn bytes(&self) -> &[u8]
        ensures { result.now ≡ self.now.bytes.items }
    {
        &self.bytes
    }

    /// How many bytes were written at the end of each piece, in turn.
    pub fn ends(&self) -> &[usize]
        ensures { result.now ≡ self.now.ends.items }
    {
        &self.ends
    }
}

impl Sink for FailingSink {
    ghost use Rattle.std.specs.Prelude.{Some, None};

    ghost written = { λ s. Some s.bytes.items };

    ghost space = { λ _. None };

    ghost faults = { λ s. s.faults };

    fn put(&mut self, bytes: &[u8]) -> Result<(), SinkError> {
        let call = self.calls;
        self.calls = self.calls.saturating_add(1);
        let fails = self.failing.contains(&call);
        let end = self.bytes.len().saturating_add(bytes.len());
        if fails || self.ends.push(end).is_err() || self.bytes.extend_from_slice(bytes).is_err() {
            self.faults = self.faults.saturating_add(1);
            return Err(SinkError::Failed);
        }
        Ok(())
    }
}
