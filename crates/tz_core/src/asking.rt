//! The running code as its accesses and fetches are checked.

ghost use Rattle.std.specs.Prelude.{◌≡◌};
ghost use Rattle.tz_state.specs.State.{traps_unaligned, asker_in, priority_in, is_negative_at};

use crate::running::Machine;
use tz_regs::register_bits::CCR_UNALIGN_TRP;
use tz_state::Asker;

/// CCR.UNALIGN_TRP.
pub(crate) fn traps_unaligned(ccr: u32) -> bool
    ensures { result ≡ traps_unaligned ccr }
{
    ccr / CCR_UNALIGN_TRP % 2 == 1
}

impl Machine {
    /// The running code as it asks for accesses. It is told whether the execution priority is negative.
    pub(crate) fn asker(&self, negative: bool) -> Asker
        requires { negative ≡ is_negative_at (priority_in self.now) }
        ensures { result ≡ asker_in self.now }
    {
        let side = self.core.run.side;
        Asker {
            side,
            privileged: self.core.privileged(side),
            negative,
            aligned: traps_unaligned(self.core.ccr(side)),
        }
    }
}
