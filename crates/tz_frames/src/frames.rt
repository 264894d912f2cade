//! The words that entries and returns reach.

ghost use Rattle.std.specs.Prelude.{◌≡◌, ◌≢◌, ◌≤◌, ◌+◌, ℕ, OnErr};
ghost use Rattle.tz_model.specs.Ports.{stored_answer};
ghost use Rattle.tz_frames.specs.FrameAccess.{FrameAnswering, Vector, SecureLoad, FrameLoad, FrameStore};

use tz_model::{Fault, Side};

/// Stacks and vector tables. It says how what it holds answers an access, so that entries and returns over any
/// frames are their definitions over that answer.
pub trait Frames {
    /// What it holds, as accesses see and change it.
    ghost Held: { Type 0 };

    /// What it holds now.
    ghost held: { Self → Held };

    /// How that answers an access.
    ghost answer: { FrameAnswering Held };

    /// How many stores it still takes.
    ghost room: { Self → ℕ };

    /// Which references it keeps.
    ghost Lent: { Type 0 };

    ghost lent: { Self → Lent };

    /// The vector of an exception of a side: the word at that side's vector table plus 4 times the number.
    /// Fails with the fault of the first check that fails, attribution or the map (DDI0553, `Vector`).
    fn vector(&mut self, number: u16, side: Side) -> Result<u32, Fault>
        ensures answer { answer (held self.old) (Vector number side) ≡ (held self.new, result) }
        ensures kept { held self.new ≡ held self.old }
        ensures room { room self.new ≡ room self.old }
        ensures lent { lent self.new ≡ lent self.old };

    /// Reads a word as Secure data with the privilege of Secure code. Fails as a data access does.
    fn secure_load(&mut self, addr: u32) -> Result<u32, Fault>
        ensures answer { answer (held self.old) (SecureLoad addr) ≡ (held self.new, result) }
        ensures kept { held self.new ≡ held self.old }
        ensures room { room self.new ≡ room self.old }
        ensures lent { lent self.new ≡ lent self.old };

    /// Reads a word of a frame, as data of a side with this privilege. Fails as a data access does.
    fn frame_load(&mut self, addr: u32, side: Side, privileged: bool) -> Result<u32, Fault>
        ensures answer { answer (held self.old) (FrameLoad addr side privileged) ≡ (held self.new, result) }
        ensures kept { held self.new ≡ held self.old }
        ensures room { room self.new ≡ room self.old }
        ensures lent { lent self.new ≡ lent self.old };

    /// Writes a word of a frame. Fails as `frame_load` does, and then changes nothing.
    fn frame_store(
        &mut self,
        addr: u32,
        side: Side,
        privileged: bool,
        value: u32,
    ) -> Result<(), Fault>
        requires { room self.old ≢ 0 }
        ensures answer { answer (held self.old) (FrameStore addr side privileged value) ≡ (held self.new, stored_answer result) }
        ensures fault { OnErr result (held self.new ≡ held self.old) }
        ensures room { room self.old ≤ room self.new + 1 }
        ensures lent { lent self.new ≡ lent self.old };
}
