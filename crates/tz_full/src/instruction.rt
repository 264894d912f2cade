//! The instruction that ran, the registers that a load of a list fills, and the core from which it returns, by the core
//! before the step.

ghost use Rattle.std.specs.Prelude.{◌≡◌, ◌≤◌, [], ◌∷◌, ◌++◌, if◌then◌else◌};
ghost use Rattle.arrayvec.specs.ArrayVec.{array_vec_len};
ghost use Rattle.tz_model.specs.Codes.{meaning_of};
ghost use Rattle.tz_sem.specs.Local.{reg, local_of, with_local};
ghost use Rattle.tz_sem.specs.LoadStore.{based_past, is_listed, listed, past_words, words_loaded};
ghost use Rattle.tz_full.specs.Instruction.{unskipped, meant, done_by, popped, popped_by};

use arrayvec::ArrayVec;
use tz_branch::is_passed_over;
use tz_decode::{Decoded, decode};
use tz_loadstore::{is_listed, listed, past_words, reg, write_back, write_back_past};
use tz_model::{Code, Insn, StepKind};
use tz_regs::Core;

// ---- the instruction

/// The instruction of a code, where it wasn't skipped.
fn meant(core: &Core, code: &Code) -> Option<Insn>
    ensures { result ≡ meant core.now (meaning_of code.now) }
{
    match decode(code.first, code.second.unwrap_or(0)) {
        Decoded::One(insn, _) => {
            if is_passed_over(&core.registers) {
                None
            } else {
                Some(insn)
            }
        }
        Decoded::NoCoprocessor | Decoded::Undefined(_) => None,
    }
}

/// The instruction that a step did, if any.
pub fn done_by(core: &Core, kind: &StepKind) -> Option<Insn>
    ensures { result ≡ done_by core.now kind.now }
{
    match *kind {
        StepKind::Ran { code, .. } => meant(core, &code),
        StepKind::Locked | StepKind::Idle | StepKind::Taken { .. } => None,
    }
}

/// The registers of a load of a list, the lowest first; PC is the last.
pub fn filled_of(list: u16) -> ArrayVec<u8, 15>
    ensures items { result.items ≡ listed list ++ (if is_listed list 15 then 15 ∷ [] else []) }
    ensures count { array_vec_len result ≡ words_loaded list }
    ensures few { array_vec_len result ≤ 15 }
{
    let named = listed(list);
    let mut registers = ArrayVec::new();
    for index in named.as_slice() {
        registers.push(*index);
    }
    if is_listed(list, 15) {
        registers.push(15);
    }
    registers
}

// ---- the core from which code returns

/// Moves the base of a load of a list past its words, where it is written back.
fn pop_many(core: &mut Core, rn: u8, list: u16, down: bool, back: bool)
    ensures { core.new ≡ with_local core.old (based_past back rn (past_words down (reg (local_of core.old) rn) (words_loaded list)) (local_of core.old)) }
{
    let count = filled_of(list).len() as u32;
    let past = past_words(down, reg(core, rn), count);
    write_back_past(core, back, rn, past);
}

/// Moves the core past the words that an instruction popped.
#[tactic(auto, using(tz_sem::proofs::Local::core_kept))]
fn pop(core: &mut Core, insn: &Insn)
    ensures { core.new ≡ with_local core.old (popped insn.now (local_of core.old)) }
{
    match *insn {
        Insn::Load { address, .. } => write_back(core, &address),
        Insn::LoadMany {
            rn,
            list,
            down,
            back,
        } => pop_many(core, rn, list, down, back),
        _ => {}
    }
}

/// The core from which code returns: past the words that it popped.
pub fn popped_by(core: &Core, insn: &Option<Insn>) -> Core
    ensures { result ≡ popped_by core.now insn.now }
{
    let mut past = *core;
    if let Some(insn) = insn {
        pop(&mut past, insn);
    }
    past
}
