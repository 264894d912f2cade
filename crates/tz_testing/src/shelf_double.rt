//! Doubles of the shelf, in memory, for tests: a sound one, and one that fails at listed calls.

ghost use Rattle.std.specs.Prelude.{◌≡◌, ◌≢◌, ◌<◌, ◌≤◌, ◌+◌, ◌^◌, length, OnOk, OnErr, MatchOption};
ghost use Rattle.std.specs.String.{string_bytes};
ghost use Rattle.tz_model.specs.Outside.{Absent, HasCause, Holds, Got, Cut, Long};
ghost use Rattle.tz_testing.specs.Shelves.{held_in};

use std::alloc::{AllocError, Global};
use tz_model::{Shelf, ShelfError};

/// A file: its name and its bytes.
#[derive(Drop)]
pub struct File {
    pub name: String,
    pub bytes: Vec<u8>,
}

/// A sound shelf: it fails for the names that it doesn't hold, and for no other.
#[derive(Drop)]
pub struct MemoryShelf {
    files: Vec<File>,
    faults: u64,
}

impl MemoryShelf {
    /// A shelf of these files. Of two files of one name it shows the first.
    pub fn new(files: Vec<File>) -> Self
        ensures files { result.files.items ≡ files.items }
        ensures faults { result.faults ≡ 0 }
    {
        MemoryShelf { files, faults: 0 }
    }
}

/// Appends the bytes, and of more than `limit` bytes the first `limit + 1`.
fn give(bytes: &[u8], limit: usize, into: &mut Vec<u8>) -> Result<(), ShelfError>
    requires { limit < 2 ^ 31 }
    ensures ok { OnOk result (Got (Holds bytes.now) limit into.old.items into.new.items) }
    ensures err { OnErr result (Cut (Holds bytes.now) into.old.items into.new.items) }
    ensures long { Long limit result into.old.items into.new.items }
    ensures within { length into.new.items ≤ length into.old.items + (limit + 1) }
    ensures no_fault { result ≢ Err ShelfError.Failed }
{
    if bytes.len() > limit {
        into.extend_from_slice(&bytes[..limit + 1])?;
        return Err(ShelfError::Long);
    }
    into.extend_from_slice(bytes)?;
    Ok(())
}

/// The bytes of the first file of a name.
fn find<'a>(files: &'a [File], name: &str) -> Option<&'a [u8]>
    ensures { MatchOption result (held_in files.now name.now ≡ Absent) (λ bytes. held_in files.now name.now ≡ Holds bytes.now) }
{
    for file in files {
        if file.name.as_str() == name {
            return Some(&file.bytes);
        }
    }
    None
}

/// Appends the file of a name, as a shelf does that holds these files. Where none has the name, a fault is counted.
fn look(
    files: &[File],
    faults: &mut u64,
    name: &str,
    limit: usize,
    into: &mut Vec<u8>,
) -> Result<(), ShelfError>
    requires { limit < 2 ^ 31 }
    ensures ok { OnOk result (Got (held_in files.now name.now) limit into.old.items into.new.items) }
    ensures err { OnErr result (Cut (held_in files.now name.now) into.old.items into.new.items) }
    ensures long { Long limit result into.old.items into.new.items }
    ensures within { length into.new.items ≤ length into.old.items + (limit + 1) }
    ensures cause { HasCause faults.old faults.new (result ≡ Err ShelfError.Failed) }
    ensures sound { result ≡ Err ShelfError.Failed → held_in files.now name.now ≡ Absent }
{
    match find(files, name) {
        Some(bytes) => give(bytes, limit, into),
        None => {
            *faults = faults.saturating_add(1);
            Err(ShelfError::Failed)
        }
    }
}

impl Shelf for MemoryShelf {
    ghost use Rattle.std.specs.Prelude.{true};
    ghost use Rattle.tz_testing.specs.Shelves.{held_in};

    ghost held = { λ s name. held_in s.files.items name };

    ghost sound = { λ _. true };

    ghost faults = { λ s. s.faults };

    fn get(&mut self, name: &str, limit: usize, into: &mut Vec<u8>) -> Result<(), ShelfError> {
        look(&self.files, &mut self.faults, name, limit, into)
    }
}

/// A shelf that fails at the listed calls, counted from 0, and for the names that it doesn't hold. It keeps the names
/// that it was asked for.
#[derive(Drop)]
pub struct FailingShelf {
    files: Vec<File>,
    failing: Vec<u64>,
    calls: u64,
    asked: String,
    faults: u64,
}

impl FailingShelf {
    /// A shelf of these files that fails at these calls.
    pub fn new(alloc: Global, files: Vec<File>, failing: Vec<u64>) -> Self
        ensures files { result.files.items ≡ files.items }
        ensures failing { result.failing.items ≡ failing.items }
        ensures calls { result.calls ≡ 0 }
        ensures faults { result.faults ≡ 0 }
    {
        FailingShelf {
            files,
            failing,
            calls: 0,
            asked: String::new(alloc),
            faults: 0,
        }
    }

    /// The names that it was asked for in turn, each behind a blank.
    pub fn asked(&self) -> &str
        ensures { result.now ≡ string_bytes self.now.asked }
    {
        self.asked.as_str()
    }
}

/// Appends a blank and a name.
fn note(asked: &mut String, name: &str) -> Result<(), AllocError> {
    asked.push_str(" ")?;
    asked.push_str(name)
}

impl Shelf for FailingShelf {
    ghost use Rattle.std.specs.Prelude.{false};
    ghost use Rattle.tz_testing.specs.Shelves.{held_in};

    ghost held = { λ s name. held_in s.files.items name };

    ghost sound = { λ _. false };

    ghost faults = { λ s. s.faults };

    fn get(&mut self, name: &str, limit: usize, into: &mut Vec<u8>) -> Result<(), ShelfError> {
        let call = self.calls;
        self.calls = self.calls.saturating_add(1);
        note(&mut self.asked, name)?;
        if self.failing.contains(&call) {
            self.faults = self.faults.saturating_add(1);
            return Err(ShelfError::Failed);
        }
        look(&self.files, &mut self.faults, name, limit, into)
    }
}
