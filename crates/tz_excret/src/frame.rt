//! The frames of a return (DDI0553, `PopStack`).

ghost use Rattle.std.specs.Prelude.{◌≡◌, ◌≤◌};
ghost use Rattle.tz_regs.specs.Special.{apsr_from};
ghost use Rattle.tz_frames.specs.Registers.{number_in, general_of, resumed_registers};
ghost use Rattle.tz_frames.specs.Leave.{has_callee, returns_to_process, returns_privileged, return_sp, unstacked, frames_size, sp_above, resumed, modes_agree};

use crate::sides::side_of_bit;
use tz_frames::return_bits::{RETPSR_IT_HIGH, RETPSR_IT_LOW, RETPSR_SPREALIGN, RETPSR_T};
use tz_frames::{
    ADDITIONAL_FRAME_SIZE, BASIC_FRAME_SIZE, BOTH_FRAMES_SIZE, Basic, Callee, Frames, Returning,
    Unstacked,
};
use tz_regs::register_bits::{APSR_C, APSR_N, APSR_Q, APSR_V, APSR_Z};
use tz_regs::{Apsr, Core, Registers};
use tz_stack::{StackFault, pop_additional, pop_basic, set_side_sp};

/// Whether the additional frame was written: Secure code was interrupted, by a Non-secure exception first or last.
pub fn has_callee(returning: &Returning) -> bool
    ensures { result ≡ has_callee returning.now }
{
    returning.secure && (!returning.es || !returning.dcrs)
}

/// Whether the frames are on a process stack.
fn returns_to_process(core: &Core, returning: &Returning) -> bool
    ensures { result ≡ returns_to_process core.now returning.now }
{
    returning.thread && core.stacks(side_of_bit(returning.secure)).spsel
}

/// Whether they are read with privilege.
fn returns_privileged(core: &Core, returning: &Returning) -> bool
    ensures { result ≡ returns_privileged core.now returning.now }
{
    !returning.thread || !core.stacks(side_of_bit(returning.secure)).npriv
}

/// The stack pointer that the frames begin at.
fn return_sp(core: &Core, returning: &Returning) -> u32
    ensures { result ≡ return_sp core.now returning.now }
{
    core.sp(
        side_of_bit(returning.secure),
        returns_to_process(core, returning),
    )
}

/// Reads the frames of a return: the additional one, where there is one, and the basic one above it.
///
/// `Access` with the fault of the first word that can't be read, `Signature` where the additional frame doesn't begin
/// with the integrity signature.
#[tactic(auto, unfolding(tz_frames::specs::Leave::unstacked))]
pub(crate) fn unstack<P: Frames>(
    core: &Core,
    port: &mut P,
    returning: &Returning,
) -> Result<Unstacked, StackFault>
    ensures read { result ≡ unstacked P.answer core.now returning.now (P.held port.old) }
    ensures kept { P.held port.new ≡ P.held port.old }
    ensures room { P.room port.new ≡ P.room port.old }
    ensures lent { P.lent port.new ≡ P.lent port.old }
{
    let side = side_of_bit(returning.secure);
    let privileged = returns_privileged(core, returning);
    let mut sp = return_sp(core, returning);
    let mut callee = None;
    if has_callee(returning) {
        callee = Some(pop_additional(port, sp, privileged)?);
        sp = sp.wrapping_add(ADDITIONAL_FRAME_SIZE);
    }
    let basic = pop_basic(port, sp, side, privileged)?;
    Ok(Unstacked { callee, basic })
}

/// The flags in RETPSR.
fn flags_of(retpsr: u32) -> Apsr
    ensures { result ≡ apsr_from retpsr }
{
    Apsr {
        n: retpsr / APSR_N % 2 == 1,
        z: retpsr / APSR_Z % 2 == 1,
        c: retpsr / APSR_C % 2 == 1,
        v: retpsr / APSR_V % 2 == 1,
        q: retpsr / APSR_Q % 2 == 1,
    }
}

/// R0 to R12 of what was read; R4 to R11 are the old ones where no additional frame was.
fn general_of(old: &[u32; 13], callee: &Option<Callee>, b: &Basic) -> [u32; 13]
    ensures { result ≡ general_of old.now callee.now b.now }
{
    match callee {
        None => [
            b.r0, b.r1, b.r2, b.r3, old[4], old[5], old[6], old[7], old[8], old[9], old[10],
            old[11], b.r12,
        ],
        Some(k) => [
            b.r0, b.r1, b.r2, b.r3, k.r4, k.r5, k.r6, k.r7, k.r8, k.r9, k.r10, k.r11, b.r12,
        ],
    }
}

/// Writes the registers of the code that goes on.
fn resume_registers(registers: &mut Registers, unstacked: &Unstacked)
    ensures { registers.new ≡ resumed_registers registers.old unstacked.now.callee unstacked.now.basic }
{
    let basic = &unstacked.basic;
    let retpsr = basic.retpsr;
    registers.general = general_of(&registers.general, &unstacked.callee, basic);
    registers.lr = basic.lr;
    registers.pc = basic.back / 2 * 2;
    registers.apsr = flags_of(retpsr);
    registers.it = (retpsr / RETPSR_IT_LOW % 4 + 4 * (retpsr / RETPSR_IT_HIGH % 64)) as u8;
    registers.t = retpsr / RETPSR_T % 2 == 1;
    registers.ipsr = (retpsr % 0x200) as u16;
}

/// How many bytes the frames have.
fn frames_size(callee: &Option<Callee>) -> u32
    ensures is { result ≡ frames_size callee.now }
    ensures few { result ≤ 72 }
{
    match callee {
        None => BASIC_FRAME_SIZE,
        Some(_) => BOTH_FRAMES_SIZE,
    }
}

/// The stack pointer above the frames.
fn sp_above(sp: u32, unstacked: &Unstacked) -> u32
    ensures { result ≡ sp_above sp unstacked.now }
{
    sp.wrapping_add(
        frames_size(&unstacked.callee) + 4 * (unstacked.basic.retpsr / RETPSR_SPREALIGN % 2),
    )
}

/// The code that was interrupted goes on.
pub(crate) fn resume(core: &mut Core, returning: &Returning, unstacked: &Unstacked)
    ensures { core.new ≡ resumed returning.now unstacked.now core.old }
{
    let side = side_of_bit(returning.secure);
    let process = returns_to_process(core, returning);
    let above = sp_above(return_sp(core, returning), unstacked);
    set_side_sp(core, side, process, above);
    resume_registers(&mut core.registers, unstacked);
    core.run.side = side;
    core.event = true;
}

/// Whether the mode that a value returns to is that of the number in a frame: Thread mode with 0.
pub(crate) fn modes_agree(returning: &Returning, basic: &Basic) -> bool
    ensures { result ≡ modes_agree returning.now basic.now }
{
    let zero = basic.retpsr % 0x200 == 0;
    if returning.thread { zero } else { !zero }
}
