//! The outside: files that come in by name, and bytes that go out.
//!
//! Both traits say what they hold or take where they tell it, and count their faults. An answer that
//! blames the outside is given only where that count rose.

ghost use Rattle.std.specs.Prelude.{◌≡◌, ◌<◌, ◌≤◌, ◌+◌, ◌^◌, ℕ, List, Option, OnOk, OnErr, Bool, IsTrue, length};
ghost use Rattle.tz_model.specs.Outside.{Held, Absent, HasCause, Got, Cut, Long, Put};

use std::alloc::AllocError;

/// Why a file was not read.
#[derive(Clone, Copy, Debug)]
pub enum ShelfError {
    /// The reading failed, or there is no such file.
    Failed,
    /// The file is longer than the limit.
    Long,
    /// There is no memory for its bytes.
    Memory,
}

impl From<AllocError> for ShelfError {
    ghost use Rattle.std.specs.Prelude.{◌≡◌};
    ghost use Rattle.tz_model.specs.declared.outside.ShelfError.TheVariants.{Memory};

    ghost from_gives = { λ _ e. e ≡ Memory };

    fn from(_error: AllocError) -> Self {
        ShelfError::Memory
    }
}

/// Files by their names.
pub trait Shelf {
    /// The content of a name, of a shelf that tells contents.
    ghost held: { Self → List ℕ → Held };

    /// Whether `Failed` means that no file has the name.
    ghost sound: { Self → Bool };

    /// How often reading has failed.
    ghost faults: { Self → ℕ };

    /// Appends the bytes of a file that has no more than `limit`. With an error it may have appended the first of them, but
    /// never more than `limit` and one.
    fn get(&mut self, name: &str, limit: usize, into: &mut Vec<u8>) -> Result<(), ShelfError>
        requires { limit < 2 ^ 31 }
        ensures ok { OnOk result (Got (held self.old name.now) limit into.old.items into.new.items) }
        ensures err { OnErr result (Cut (held self.old name.now) into.old.items into.new.items) }
        ensures long { Long limit result into.old.items into.new.items }
        ensures within { length into.new.items ≤ length into.old.items + (limit + 1) }
        ensures cause { HasCause (faults self.old) (faults self.new) (result ≡ Err ShelfError.Failed) }
        ensures sound { IsTrue (sound self.old) → result ≡ Err ShelfError.Failed → held self.old name.now ≡ Absent }
        ensures stays { sound self.new ≡ sound self.old }
        ensures held { (any : List ℕ) → held self.new any ≡ held self.old any };
}

/// Why bytes did not go out.
#[derive(Clone, Copy, Debug)]
pub enum SinkError {
    Failed,
}

/// Where bytes go.
pub trait Sink {
    /// All that went out so far, of a sink that tells it.
    ghost written: { Self → Option (List ℕ) };

    /// The number of bytes that it takes for sure, of a sink that tells one.
    ghost space: { Self → Option ℕ };

    /// How often writing has failed.
    ghost faults: { Self → ℕ };

    /// Sends bytes in their order. With an error some of them, from the first on, may have gone out.
    fn put(&mut self, bytes: &[u8]) -> Result<(), SinkError>
        ensures put { Put (written self.old) (written self.new) (space self.old) (space self.new) bytes.now result }
        ensures cause { HasCause (faults self.old) (faults self.new) (result ≡ Err SinkError.Failed) };
}
