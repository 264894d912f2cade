//! Loads and stores of many registers: words in ascending order, which have to be aligned.

ghost use Rattle.std.specs.Prelude.{◌≡◌, ◌≤◌, ◌+◌, length, replicate, Ok, Err, MatchResult};
ghost use Rattle.arrayvec.specs.ArrayVec.{array_vec_len};
ghost use Rattle.tz_table.specs.declared.instruction.Insn.TheVariants.{LoadMany, StoreMany};
ghost use Rattle.tz_model.specs.Ports.{answers};
ghost use Rattle.tz_sem.specs.Exec.{load_store_over};
ghost use Rattle.tz_sem.specs.Local.{local_of, with_local, finished_in};
ghost use Rattle.tz_sem.specs.LoadStore.{past_words, lowest, word_loads, word_stores, refusal_past, based_past, filled, filled_all, listed, words_loaded};

use crate::addresses::{below_limit, reg};
use crate::lists::{is_listed, listed};
use crate::results::put;
use arrayvec::ArrayVec;
use tz_model::{ALWAYS_ALIGNED, AS_RUNNING, Fault, Outcome, Port, Size};
use tz_regs::Core;

/// A base past so many words, above it, or below it with `down`.
pub fn past_words(down: bool, base: u32, count: u32) -> u32
    requires { count ≤ 15 }
    ensures { result ≡ past_words down base count }
{
    if down {
        base.wrapping_sub(4 * count)
    } else {
        base.wrapping_add(4 * count)
    }
}

/// The lowest address of so many words above a base, or below it with `down`.
pub fn lowest(down: bool, base: u32, count: u32) -> u32
    requires { count ≤ 15 }
    ensures { result ≡ lowest down base count }
{
    if down {
        past_words(true, base, count)
    } else {
        base
    }
}

/// The fault of a base that is written back.
fn refusal_past(core: &Core, back: bool, rn: u8, value: u32) -> Option<Fault>
    ensures { result ≡ refusal_past back rn value (local_of core.now) }
{
    if back {
        below_limit(core, rn, value)
    } else {
        None
    }
}

/// Gives the base its new value where it is written back, as `back` says.
#[tactic(auto, using(tz_sem::proofs::Local::core_kept))]
pub fn write_back_past(core: &mut Core, back: bool, rn: u8, value: u32)
    ensures { core.new ≡ with_local core.old (based_past back rn value (local_of core.old)) }
{
    if back {
        put(core, rn, value);
    }
}

/// Loads words in a row.
fn load_words<P: Port>(port: &mut P, addr: u32, count: u32) -> Result<ArrayVec<u32, 15>, Fault>
    requires { count ≤ 15 }
    ensures executes { MatchResult result
        (λ words. answers P.answer (P.held port.old) (word_loads addr count) ≡ (P.held port.new, Ok words.items))
        (λ fault. answers P.answer (P.held port.old) (word_loads addr count) ≡ (P.held port.new, Err fault)) }
    ensures length { MatchResult result (λ words. array_vec_len words ≡ count) (λ _. Unit) }
    ensures room { P.room port.new ≡ P.room port.old }
    ensures lent { P.lent port.new ≡ P.lent port.old }
{
    let mut words = ArrayVec::new();
    let mut next = addr;
    for _ in 0..count {
        match port.load(next, Size::Word, ALWAYS_ALIGNED, AS_RUNNING) {
            Ok(word) => words.push(word),
            Err(fault) => return Err(fault),
        }
        next = next.wrapping_add(4);
    }
    Ok(words)
}

/// Stores registers in a row. Where one can't be stored, those before it stand.
fn store_words<P: Port>(core: &Core, port: &mut P, addr: u32, registers: &[u8]) -> Result<(), Fault>
    requires { length registers.now ≤ P.room port.old }
    ensures executes { MatchResult result
        (λ _. answers P.answer (P.held port.old) (word_stores (local_of core.now) addr registers.now) ≡ (P.held port.new, Ok (replicate (length registers.now) 0)))
        (λ fault. answers P.answer (P.held port.old) (word_stores (local_of core.now) addr registers.now) ≡ (P.held port.new, Err fault)) }
    ensures room { P.room port.old ≤ P.room port.new + length registers.now }
    ensures lent { P.lent port.new ≡ P.lent port.old }
{
    let mut next = addr;
    for index in registers {
        match port.store(
            next,
            Size::Word,
            reg(core, *index),
            ALWAYS_ALIGNED,
            AS_RUNNING,
        ) {
            Ok(()) => next = next.wrapping_add(4),
            Err(fault) => return Err(fault),
        }
    }
    Ok(())
}

/// Registers get words, each its own.
fn fill(core: &mut Core, registers: &[u8], words: &[u32])
    requires { length registers.now ≤ length words.now }
    ensures { core.new ≡ with_local core.old (filled (local_of core.old) registers.now words.now) }
{
    for (index, register) in registers.iter().enumerate() {
        put(core, *register, words[index]);
    }
}

/// The base gets its new value where it is written back, and then registers get words, each its own.
fn fill_past(core: &mut Core, back: bool, rn: u8, past: u32, registers: &[u8], words: &[u32])
    requires { length registers.now ≤ length words.now }
    ensures { core.new ≡ with_local core.old (filled (based_past back rn past (local_of core.old)) registers.now words.now) }
{
    write_back_past(core, back, rn, past);
    fill(core, registers, words);
}

/// The base and the registers of a list get their values; a load of PC, which has the last word, exchanges.
fn finish_load_many(
    core: &mut Core,
    back: bool,
    rn: u8,
    past: u32,
    list: u16,
    registers: &[u8],
    words: &[u32],
) -> Outcome
    requires registers { registers.now ≡ listed list }
    requires words { words_loaded list ≡ length words.now }
    ensures { finished_in core.old (filled_all list (based_past back rn past (local_of core.old)) words.now) ≡ (core.new, Ok result) }
{
    fill_past(core, back, rn, past, registers, words);
    if is_listed(list, 15) {
        return Outcome::Exchange {
            target: words[registers.len()],
            ns: false,
        };
    }
    Outcome::Next
}

/// A load of many registers. A failing load leaves them all, and the base.
pub(crate) fn load_many<P: Port>(
    core: &mut Core,
    port: &mut P,
    rn: u8,
    list: u16,
    down: bool,
    back: bool,
) -> Result<Outcome, Fault>
    ensures executes { load_store_over P.answer (LoadMany rn list down back) core.old (P.held port.old) ≡ record { core = core.new; held = P.held port.new; outcome = result } }
    ensures room { P.room port.new ≡ P.room port.old }
    ensures lent { P.lent port.new ≡ P.lent port.old }
{
    let registers = listed(list);
    let count = registers.len() as u32 + u32::from(is_listed(list, 15));
    let base = reg(core, rn);
    let past = past_words(down, base, count);
    if let Some(fault) = refusal_past(core, back, rn, past) {
        return Err(fault);
    }
    let words = load_words(port, lowest(down, base, count), count)?;
    Ok(finish_load_many(core, back, rn, past, list, &registers, &words))
}

/// A store of many registers. Where one can't be stored, those before it stand, and the base stays.
pub(crate) fn store_many<P: Port>(
    core: &mut Core,
    port: &mut P,
    rn: u8,
    list: u16,
    down: bool,
    back: bool,
) -> Result<Outcome, Fault>
    requires { 14 ≤ P.room port.old }
    ensures executes { load_store_over P.answer (StoreMany rn list down back) core.old (P.held port.old) ≡ record { core = core.new; held = P.held port.new; outcome = result } }
    ensures room { P.room port.old ≤ P.room port.new + 14 }
    ensures lent { P.lent port.new ≡ P.lent port.old }
{
    let registers = listed(list);
    let count = registers.len() as u32;
    let base = reg(core, rn);
    let past = past_words(down, base, count);
    if let Some(fault) = refusal_past(core, back, rn, past) {
        return Err(fault);
    }
    store_words(core, port, lowest(down, base, count), &registers)?;
    write_back_past(core, back, rn, past);
    Ok(Outcome::Next)
}
