//! FNC_RETURN.

ghost use Rattle.std.specs.Prelude.{◌≡◌, ◌<◌, ◌^◌, MatchResult, OnErr, Ok, Err};
ghost use Rattle.tz_frames.specs.Gate.{is_fnc_return, return_base, numbers_agree, came_back, function_returned};

use crate::call::FNC_RETURN;
use tz_frames::{CALL_FRAME_SIZE, Frames};
use tz_model::{Fault, Side};
use tz_regs::Core;

/// FNC_RETURN with bit 0 clear.
const FNC_RETURN_EVEN: u32 = FNC_RETURN / 2 * 2;

/// Whether a branch to this target returns from Non-secure code (DDI0553, FNC_RETURN).
pub fn is_fnc_return(target: u32) -> bool
    ensures { result ≡ is_fnc_return target }
{
    target == FNC_RETURN_EVEN || target == FNC_RETURN
}

/// The stack pointer of the Secure side in use, where the frame of a call stands.
pub fn return_base(core: &Core) -> u32
    ensures { result ≡ return_base core.now }
{
    core.stacks_s.pointer(core.registers.ipsr)
}

/// Whether IPSR is what code that was called with this number sees: 0 for 0, and 1 for all others.
fn numbers_agree(ipsr: u16, number: u16) -> bool
    ensures { result ≡ numbers_agree ipsr number }
{
    if ipsr == 0 {
        number == 0
    } else {
        ipsr == 1 && number != 0
    }
}

/// Goes on as Secure code at the address that was stored, with the number that was hidden.
fn come_back(core: &mut Core, back: u32, number: u16)
    ensures { core.new ≡ came_back core.old back number }
{
    let base = return_base(core).wrapping_add(CALL_FRAME_SIZE);
    core.stacks_s.set_pointer(core.registers.ipsr, base);
    core.run.side = Side::Secure;
    core.registers.pc = back / 2 * 2;
    core.registers.t = back % 2 == 1;
    core.registers.ipsr = number;
    core.registers.it = 0;
}

/// Returns from Non-secure code: reads the address where Secure code goes on, and the number of its exception, at the
/// Secure stack pointer, and moves it up by 8 bytes (DDI0553, `FunctionReturn`).
///
/// The fault of the first word that can't be read. `InvPc` of the running side where the number isn't what IPSR
/// hides: 0 for 0, and any other for 1. The core stays as it is in both cases.
pub fn function_return<P: Frames>(core: &mut Core, port: &mut P) -> Result<(), Fault>
    ensures returned { MatchResult result
        (λ _. function_returned P.answer core.old (P.held port.old) ≡ Ok core.new)
        (λ fault. function_returned P.answer core.old (P.held port.old) ≡ Err fault) }
    ensures fault { OnErr result (core.new ≡ core.old) }
    ensures kept { P.held port.new ≡ P.held port.old }
    ensures room { P.room port.new ≡ P.room port.old }
    ensures lent { P.lent port.new ≡ P.lent port.old }
{
    let base = return_base(core);
    let back = port.secure_load(base)?;
    let second = port.secure_load(base.wrapping_add(4))?;
    let number = (second % 512) as u16;
    if !numbers_agree(core.registers.ipsr, number) {
        return Err(Fault::InvPc(core.run.side));
    }
    come_back(core, back, number);
    Ok(())
}
