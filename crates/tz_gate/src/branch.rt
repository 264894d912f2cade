//! SG and BXNS.

ghost use Rattle.std.specs.Prelude.{◌≡◌};
ghost use Rattle.tz_frames.specs.Gate.{gateway_entered, branched_ns};

use tz_model::Side;
use tz_regs::Core;

/// Runs an SG that Non-secure code reached in callable memory: bit 0 of LR and the IT state are cleared, and Secure
/// code goes on at the next instruction (DDI0553, `SG`).
pub fn secure_gateway(core: &mut Core)
    ensures { core.new ≡ gateway_entered core.old }
{
    core.run.side = Side::Secure;
    core.registers.lr = core.registers.lr / 2 * 2;
    core.registers.pc = core.registers.pc.wrapping_add(4);
    core.registers.it = 0;
}

/// Branches to a target with bit 0 clear, as Non-secure code where that bit was 0 (DDI0553, `BXNS`).
pub fn branch_ns(core: &mut Core, target: u32)
    ensures { core.new ≡ branched_ns core.old target }
{
    if target % 2 == 0 {
        core.run.side = Side::NonSecure;
    }
    core.registers.pc = target / 2 * 2;
    core.registers.t = true;
}
