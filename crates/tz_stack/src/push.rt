//! Frames that are written.

ghost use Rattle.std.specs.Prelude.{◌≡◌, ◌≤◌, ◌+◌, ◌*◌, ◌/◌, ◌%◌, ◌^◌};
ghost use Rattle.std.specs.Result.{result_err};
ghost use Rattle.tz_regs.specs.Banks.{stacks_of};
ghost use Rattle.tz_frames.specs.Registers.{psr_word, retpsr_of};
ghost use Rattle.tz_frames.specs.Stack.{splim_of, with_side_sp, basic_base, pushed_basic, pushed_additional};

use crate::words::store_words;
use tz_frames::return_bits::{RETPSR_IT_HIGH, RETPSR_IT_LOW, RETPSR_SPREALIGN, RETPSR_T};
use tz_frames::{ADDITIONAL_FRAME_SIZE, BASIC_FRAME_SIZE, Frames, StackFault};
use tz_model::Side;
use tz_regs::{Core, Registers};

/// The integrity signature.
pub(crate) const SIGNATURE: u32 = 0xFEFA_125B;

/// PSPLIM of a side with `process`, else its MSPLIM.
pub fn splim_of(core: &Core, side: Side, process: bool) -> u32
    ensures { result ≡ splim_of process (stacks_of side core.now) }
{
    let stacks = core.stacks(side);
    if process {
        stacks.psplim
    } else {
        stacks.msplim
    }
}

/// Writes PSP of a side with `process`, else its MSP, as it is: what bits 1:0 are is the caller's.
pub fn set_side_sp(core: &mut Core, side: Side, process: bool, value: u32)
    ensures { core.new ≡ with_side_sp side process value core.old }
{
    match (side, process) {
        (Side::Secure, true) => core.stacks_s.psp = value,
        (Side::Secure, false) => core.stacks_s.msp = value,
        (Side::NonSecure, true) => core.stacks_ns.psp = value,
        (Side::NonSecure, false) => core.stacks_ns.msp = value,
    }
}

/// Where a basic frame begins below a stack pointer: 32 bytes below it, with bit 2 clear.
pub fn basic_base(sp: u32) -> u32
    ensures { result ≡ basic_base sp }
{
    let low = sp.wrapping_sub(BASIC_FRAME_SIZE);
    low / 8 * 8 + low % 4
}

/// xPSR with bit 2 of a stack pointer in SPREALIGN.
fn retpsr_of(registers: &Registers, sp: u32) -> u32
    ensures { result ≡ retpsr_of registers.now sp }
{
    let it = u32::from(registers.it);
    let t = u32::from(registers.t);
    registers.apsr.word()
        + RETPSR_IT_LOW * (it % 4)
        + RETPSR_T * t
        + RETPSR_IT_HIGH * (it / 4)
        + u32::from(registers.ipsr)
        + RETPSR_SPREALIGN * (sp / 4 % 2)
}

/// Writes a basic frame on the stack of the running code, with its privilege: R0 to R3, R12, LR, the return address
/// `back` and RETPSR, from 32 bytes below its stack pointer up, with bit 2 clear (DDI0553, `PushStack`).
///
/// `Limit` with its side where that would be below the limit of the stack: nothing is written, and the stack pointer
/// becomes the limit. `Access` with the fault of the first word that can't be written: the stack pointer becomes the
/// base of the frame, and the words before stand.
#[tactic(auto, unfolding(tz_frames::specs::Stack::pushed_basic))]
pub fn push_basic<P: Frames>(core: &mut Core, port: &mut P, back: u32) -> Result<(), StackFault>
    requires { 8 ≤ P.room port.old }
    ensures pushed { pushed_basic P.answer core.old (P.held port.old) back ≡ record { core = core.new; held = P.held port.new; fault = result_err result } }
    ensures room { P.room port.old ≤ P.room port.new + 8 }
    ensures lent { P.lent port.new ≡ P.lent port.old }
{
    let side = core.run.side;
    let stacks = core.stacks(side);
    let process = stacks.uses_process(core.registers.ipsr);
    let privileged = stacks.privileged(core.registers.ipsr);
    let sp = core.sp(side, process);
    let base = basic_base(sp);
    let limit = splim_of(core, side, process);
    if base < limit {
        set_side_sp(core, side, process, limit);
        return Err(StackFault::Limit(side));
    }
    let general = &core.registers.general;
    let words = [
        general[0],
        general[1],
        general[2],
        general[3],
        general[12],
        core.registers.lr,
        back,
        retpsr_of(&core.registers, sp),
    ];
    set_side_sp(core, side, process, base);
    match store_words(port, base, side, privileged, &words) {
        Ok(()) => Ok(()),
        Err(fault) => Err(StackFault::Access(fault)),
    }
}

/// Writes an additional frame on the Secure process stack, or the main one, with this privilege: the integrity
/// signature, zero and R4 to R11, from 40 bytes below its stack pointer up (DDI0553, `PushCalleeStack`).
///
/// Fails as `push_basic` does, with the limit of that stack.
#[tactic(auto, unfolding(tz_frames::specs::Stack::pushed_additional))]
pub fn push_additional<P: Frames>(
    core: &mut Core,
    port: &mut P,
    process: bool,
    privileged: bool,
) -> Result<(), StackFault>
    requires { 10 ≤ P.room port.old }
    ensures pushed { pushed_additional P.answer core.old (P.held port.old) process privileged ≡ record { core = core.new; held = P.held port.new; fault = result_err result } }
    ensures room { P.room port.old ≤ P.room port.new + 10 }
    ensures lent { P.lent port.new ≡ P.lent port.old }
{
    let base = core
        .sp(Side::Secure, process)
        .wrapping_sub(ADDITIONAL_FRAME_SIZE);
    let limit = splim_of(core, Side::Secure, process);
    if base < limit {
        set_side_sp(core, Side::Secure, process, limit);
        return Err(StackFault::Limit(Side::Secure));
    }
    let general = &core.registers.general;
    let words = [
        SIGNATURE,
        0,
        general[4],
        general[5],
        general[6],
        general[7],
        general[8],
        general[9],
        general[10],
        general[11],
    ];
    set_side_sp(core, Side::Secure, process, base);
    match store_words(port, base, Side::Secure, privileged, &words) {
        Ok(()) => Ok(()),
        Err(fault) => Err(StackFault::Access(fault)),
    }
}
