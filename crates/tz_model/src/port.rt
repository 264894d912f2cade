//! The port through which an instruction reaches memory and the system registers.

ghost use Rattle.std.specs.Prelude.{◌≡◌, ◌≢◌, ◌≤◌, ◌+◌, ℕ, OnErr};
ghost use Rattle.tz_model.specs.Ports.{Answering, Load, Store, cut_to, stored_answer};

use crate::report::Fault;
use tz_table::Size;

/// An access has to be aligned whatever CCR says.
pub const ALWAYS_ALIGNED: bool = true;
/// It has to be aligned where CCR says so.
pub const ALIGNED_BY_CCR: bool = false;
/// It counts as privileged where the running code is.
pub const AS_RUNNING: bool = false;

/// The low bits of a number, so many as a size has.
pub fn cut_to(size: Size, value: u32) -> u32
    ensures { result ≡ cut_to size value }
{
    match size {
        Size::Byte => value % 0x100,
        Size::Half => value % 0x1_0000,
        Size::Word => value,
    }
}

/// Where loads and stores of an instruction go. A port says how what it holds answers an access, so an
/// instruction over any port is its definition over that answer.
pub trait Port {
    /// What it holds, as its accesses see and change it.
    ghost Held: { Type 0 };

    /// What it holds now.
    ghost held: { Self → Held };

    /// How that answers an access.
    ghost answer: { Answering Held };

    /// How many stores it still takes.
    ghost room: { Self → ℕ };

    /// Which references it keeps.
    ghost Lent: { Type 0 };

    ghost lent: { Self → Lent };

    /// Reads a number of this size. `must_align`: it has to be aligned whatever CCR.UNALIGN_TRP says;
    /// `user`: it counts as unprivileged. Fails with the fault of the first check that fails
    /// (DDI0553, `MemA` and `MemU`), and then changes nothing.
    fn load(&mut self, addr: u32, size: Size, must_align: bool, user: bool) -> Result<u32, Fault>
        ensures answer { answer (held self.old) (Load size addr must_align user) ≡ (held self.new, result) }
        ensures fault { OnErr result (held self.new ≡ held self.old) }
        ensures room { room self.new ≡ room self.old }
        ensures lent { lent self.new ≡ lent self.old };

    /// Writes the low bits of a value. Fails as `load` does.
    fn store(
        &mut self,
        addr: u32,
        size: Size,
        value: u32,
        must_align: bool,
        user: bool,
    ) -> Result<(), Fault>
        requires { room self.old ≢ 0 }
        ensures answer { answer (held self.old) (Store size addr value must_align user) ≡ (held self.new, stored_answer result) }
        ensures fault { OnErr result (held self.new ≡ held self.old) }
        ensures room { room self.old ≤ room self.new + 1 }
        ensures lent { lent self.new ≡ lent self.old };
}
