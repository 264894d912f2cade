//! Files that come in, over the system.
//!
//! No more of a file is read than its limit and one byte.

ghost use Rattle.std.specs.Prelude.{◌≡◌, ◌<◌, ◌≤◌, ◌+◌, ◌^◌, length, IfErr, IfOk, OnOk, OnErr};
ghost use Rattle.tz_model.specs.Outside.{Untold, Got, Cut, Long};

use std::fs;
use std::io::{ErrorKind, Read};
use std::rt::Files;
use tz_model::{Shelf, ShelfError};

/// How often one read is tried that signals interrupt.
const TRIES: u32 = 64;

/// The files of the system.
#[derive(Drop)]
pub struct FileShelf<'a, R: Files> {
    system: &'a R,
    faults: u64,
}

impl<'a, R: Files> FileShelf<'a, R> {
    /// The files that a runtime reaches.
    pub fn new(system: &'a R) -> Self
        ensures { result.faults ≡ 0 }
    {
        FileShelf { system, faults: 0 }
    }
}

/// Reads once; a read that a signal interrupts is tried again.
fn read_piece<F: Read>(reader: &mut F, buffer: &mut [u8]) -> Result<usize, ShelfError>
    ensures ok { IfOk result (λ count. count ≤ length buffer.new) }
    ensures err { IfErr result (λ error. error ≡ ShelfError.Failed) }
{
    for _ in 0..TRIES {
        match reader.read(buffer) {
            Ok(count) => return Ok(count),
            Err(error) => {
                if error.kind() != ErrorKind::Interrupted {
                    return Err(ShelfError::Failed);
                }
            }
        }
    }
    Err(ShelfError::Failed)
}

/// Appends what a reader gives up to its end, at most `limit` bytes, and of more `limit + 1`.
/// `Long` where there are more, `Failed` where a read fails or is interrupted too often, `Memory` where memory is refused;
/// what was read by then is appended. The limit is below 2^31.
pub fn read_to_limit<F: Read>(
    reader: &mut F,
    limit: usize,
    into: &mut Vec<u8>,
) -> Result<(), ShelfError>
    requires { limit < 2 ^ 31 }
    ensures ok { OnOk result (Got Untold limit into.old.items into.new.items) }
    ensures err { OnErr result (Cut Untold into.old.items into.new.items) }
    ensures long { Long limit result into.old.items into.new.items }
    ensures within { length into.new.items ≤ length into.old.items + (limit + 1) }
{
    let mut buffer = [0u8; 16384];
    let mut gained: usize = 0;
    'pieces: while gained <= limit {
        let wanted = (limit + 1 - gained).min(16384);
        let count = match read_piece(reader, &mut buffer[..wanted]) {
            Ok(0) => return Ok(()),
            Ok(count) => count,
            Err(error) => return Err(error),
        };
        if into.extend_from_slice(&buffer[..count]).is_err() {
            return Err(ShelfError::Memory);
        }
        gained += count;
    }
    Err(ShelfError::Long)
}

impl<'a, R: Files> Shelf for FileShelf<'a, R> {
    ghost use Rattle.std.specs.Prelude.{false};
    ghost use Rattle.tz_model.specs.Outside.{Untold};

    ghost held = { λ _ _. Untold };

    ghost sound = { λ _. false };

    ghost faults = { λ s. s.faults };

    fn get(&mut self, name: &str, limit: usize, into: &mut Vec<u8>) -> Result<(), ShelfError> {
        let result = match fs::open(self.system, name) {
            Ok(mut file) => read_to_limit(&mut file, limit, into),
            Err(_) => Err(ShelfError::Failed),
        };
        if let Err(ShelfError::Failed) = result {
            self.faults = self.faults.saturating_add(1);
        }
        result
    }
}
