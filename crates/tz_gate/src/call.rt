//! BLXNS.

ghost use Rattle.std.specs.Prelude.{◌≡◌, ◌≤◌, ◌+◌};
ghost use Rattle.tz_frames.specs.Gate.{call_base, called_ns, calls_ns};

use tz_frames::CALL_FRAME_SIZE;
use tz_model::{ALWAYS_ALIGNED, AS_RUNNING, Fault, Port, Side, Size};
use tz_regs::Core;

/// The value by which Non-secure code returns.
pub(crate) const FNC_RETURN: u32 = 0xFEFF_FFFF;

/// A frame of a call below the Secure stack pointer.
fn call_base(core: &Core) -> u32
    ensures { result ≡ call_base core.now }
{
    core.stacks_s
        .pointer(core.registers.ipsr)
        .wrapping_sub(CALL_FRAME_SIZE)
}

/// Goes on as Non-secure code at a target, with the stack pointer below both words. In Handler mode IPSR shows 1.
fn enter_ns(core: &mut Core, target: u32)
    ensures { core.new ≡ called_ns core.old target }
{
    let base = call_base(core);
    core.stacks_s.set_pointer(core.registers.ipsr, base);
    core.run.side = Side::NonSecure;
    core.registers.lr = FNC_RETURN;
    core.registers.pc = target / 2 * 2;
    core.registers.t = true;
    if core.registers.ipsr != 0 {
        core.registers.ipsr = 1;
    }
}

/// Calls Non-secure code at a target: stores the address of the next instruction, with bit 0 set, and IPSR below the
/// Secure stack pointer, and moves it down by 8 bytes. LR becomes the value by which that code returns, and IPSR
/// shows 1 in Handler mode (DDI0553, `BLXNS`).
///
/// `StackLimit` of the Secure side where the stack pointer would be below its limit, and then nothing is stored; or
/// the fault of the first word that can't be stored. The core stays as it is in both cases.
#[tactic(auto, unfolding(tz_model::specs::Ports::answers))]
pub fn call_ns<P: Port>(core: &mut Core, port: &mut P, target: u32, next: u32) -> Result<(), Fault>
    requires { 2 ≤ P.room port.old }
    ensures called { calls_ns P.answer core.old (P.held port.old) target next ≡ record { core = core.new; held = P.held port.new; outcome = result } }
    ensures room { P.room port.old ≤ P.room port.new + 2 }
    ensures lent { P.lent port.new ≡ P.lent port.old }
{
    let base = call_base(core);
    if base < core.stacks_s.limit(core.registers.ipsr) {
        return Err(Fault::StackLimit(Side::Secure));
    }
    let number = u32::from(core.registers.ipsr);
    match port.store(
        base,
        Size::Word,
        next / 2 * 2 + 1,
        ALWAYS_ALIGNED,
        AS_RUNNING,
    ) {
        Ok(()) => match port.store(
            base.wrapping_add(4),
            Size::Word,
            number,
            ALWAYS_ALIGNED,
            AS_RUNNING,
        ) {
            Ok(()) => {
                enter_ns(core, target);
                Ok(())
            }
            Err(fault) => Err(fault),
        },
        Err(fault) => Err(fault),
    }
}
