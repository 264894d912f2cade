//! Cases of a bench: a core, its exceptions and a table of words, which are set up, called and looked at word by word.

use crate::calls::{Call, PoppedFrame, called, entered, left, popped, raised};
use crate::shown::tell_status;
use crate::values::{core_value, set_value};
use std::alloc::{AllocError, Global};
use tz_excret::{is_exc_return, takes_first_uncounted};
use tz_frames::Frames;
use tz_gate::is_fnc_return;
use tz_model::{Side, Slot};
use tz_nvic::Exceptions;
use tz_regs::Core;
use tz_testing::{Case, TableEntry, TableFrames, meant, number_of};

/// A core, its exceptions, and words. The vectors of the sides begin at 0x10000000 and 0x00200000.
#[derive(Drop)]
pub struct Bench {
    pub core: Core,
    pub exceptions: Exceptions,
    pub frames: TableFrames,
}

/// The exception that a text names: its number, and `s` or `ns`.
fn slot_of(case: &mut Case<'_>, name: &str) -> Slot {
    let (number, side) = match name.strip_suffix("ns") {
        Some(number) => (number, Side::NonSecure),
        None => (name.strip_suffix("s").unwrap_or(""), Side::Secure),
    };
    let number = case.number_in(number);
    let number = u16::from(case.byte_in(number));
    Slot { number, side }
}

/// What is set of an exception.
enum SlotChange {
    Pend,
    Activate,
    Enable,
}

/// Sets an exception pending, active or enabled. An external interrupt is given to its side before, and enabled with
/// priority 0x20.
fn set_slot(case: &mut Case<'_>, exceptions: &mut Exceptions, change: &SlotChange, name: &str) {
    let slot = slot_of(case, name);
    if 16 <= slot.number && slot.number < exceptions.interrupts() + 16 {
        exceptions.set_target(slot.number, slot.side);
        if exceptions.exists(slot) {
            exceptions.set_enabled(slot, true);
            exceptions.set_priority(slot, 0x20);
        }
    }
    if !exceptions.exists(slot) {
        return case.refuse();
    }
    match change {
        SlotChange::Pend => exceptions.pend(slot),
        SlotChange::Activate => exceptions.activate(slot),
        SlotChange::Enable => exceptions.set_enabled(slot, true),
    }
}

/// Tells whether something is so.
fn tell_truth(case: &mut Case<'_>, truth: bool) {
    case.tell(if truth { " true" } else { " false" });
}

/// Tells whether an exception is pending or active, as a word says.
fn tell_slot(case: &mut Case<'_>, exceptions: &Exceptions, word: &str, name: &str) {
    let slot = slot_of(case, name);
    if !exceptions.exists(slot) {
        return case.refuse();
    }
    let stands = if word == "pending" {
        exceptions.pending(slot)
    } else {
        exceptions.active(slot)
    };
    case.tell_word(word);
    case.tell_word(name);
    tell_truth(case, stands);
}

/// Tells the word of the table at an address, or a value of the core.
fn tell_value(case: &mut Case<'_>, bench: &mut Bench, name: &str) {
    let value = match number_of(name) {
        Some(address) => match bench.frames.secure_load(address) {
            Ok(word) => word,
            Err(_) => return case.refuse(),
        },
        None => core_value(case, &bench.core, name),
    };
    case.tell_value(name, value);
}

/// What a word without a value asks that asks for no single word or value.
enum Look {
    Table,
    Count,
    Status,
    Takes,
}

static LOOKS: [(&str, Look); 4] = [
    ("table", Look::Table),
    ("count", Look::Count),
    ("status", Look::Status),
    ("takes", Look::Takes),
];

/// Tells what a word without a value asks: the words of the table, how many it has, the fault registers, whether the
/// first exception is taken, or a value.
fn tell_look(case: &mut Case<'_>, bench: &mut Bench, name: &str) {
    match meant(&LOOKS, name) {
        Some(Look::Table) => {
            for entry in bench.frames.port.entries.iter() {
                case.tell(" [");
                case.tell_hex(entry.addr);
                case.tell("] ");
                case.tell_hex(entry.value);
            }
        }
        Some(Look::Count) => {
            case.tell(" count ");
            case.tell_decimal(i64::try_from(bench.frames.port.entries.len()).unwrap_or(0));
        }
        Some(Look::Status) => tell_status(case, &bench.core),
        Some(Look::Takes) => {
            case.tell(" takes");
            tell_truth(
                case,
                takes_first_uncounted(&bench.core, &mut bench.exceptions),
            );
        }
        None => tell_value(case, bench, name),
    }
}

/// Adds a word to the table, or sets a value of the core.
fn put(case: &mut Case<'_>, bench: &mut Bench, name: &str, value: u32) {
    match number_of(name) {
        Some(addr) => {
            let entry = TableEntry { addr, value };
            if bench.frames.port.entries.try_push(entry).is_err() {
                case.refuse();
            }
        }
        None => set_value(case, &mut bench.core, name, value),
    }
}

/// What a word with a value asks that sets nothing in the core or the table: with an exception or a text, or with a
/// number.
enum Word {
    Set(SlotChange),
    Stands,
    Enter,
    Leave,
    Raise,
    Number(NumberWord),
}

enum NumberWord {
    Call(Call),
    Pop(PoppedFrame),
    IsFncReturn,
    IsExcReturn,
    Bfhfnmins,
    Fails,
}

static WORDS: [(&str, Word); 20] = [
    ("pend", Word::Set(SlotChange::Pend)),
    ("activate", Word::Set(SlotChange::Activate)),
    ("enable", Word::Set(SlotChange::Enable)),
    ("pending", Word::Stands),
    ("active", Word::Stands),
    ("enter", Word::Enter),
    ("leave", Word::Leave),
    ("raise", Word::Raise),
    ("push", Word::Number(NumberWord::Call(Call::PushBasic))),
    (
        "push_additional",
        Word::Number(NumberWord::Call(Call::PushAdditional)),
    ),
    ("sg", Word::Number(NumberWord::Call(Call::SecureGateway))),
    ("bxns", Word::Number(NumberWord::Call(Call::BranchNs))),
    ("blxns", Word::Number(NumberWord::Call(Call::CallNs))),
    (
        "fnc_return",
        Word::Number(NumberWord::Call(Call::FunctionReturn)),
    ),
    ("pop", Word::Number(NumberWord::Pop(PoppedFrame::Basic))),
    (
        "pop_additional",
        Word::Number(NumberWord::Pop(PoppedFrame::Additional)),
    ),
    ("is_fnc_return", Word::Number(NumberWord::IsFncReturn)),
    ("is_exc_return", Word::Number(NumberWord::IsExcReturn)),
    ("bfhfnmins", Word::Number(NumberWord::Bfhfnmins)),
    ("fails", Word::Number(NumberWord::Fails)),
];

/// Calls with a number, tells whether the number is one by which code returns, or sets BFHFNMINS or the address that
/// fails.
fn act_by(case: &mut Case<'_>, bench: &mut Bench, word: &NumberWord, value: u32) {
    match word {
        NumberWord::Call(call) => called(case, bench, call, value),
        NumberWord::Pop(frame) => popped(case, bench, frame, value),
        NumberWord::IsFncReturn => tell_truth(case, is_fnc_return(value)),
        NumberWord::IsExcReturn => tell_truth(case, is_exc_return(value)),
        NumberWord::Bfhfnmins if value == 1 => bench.exceptions.set_fault_side(true),
        NumberWord::Bfhfnmins => case.refuse(),
        NumberWord::Fails => bench.frames.port.failing = Some(value),
    }
}

/// Does what a word with a value asks.
fn act(case: &mut Case<'_>, bench: &mut Bench, name: &str, value: &str) {
    match meant(&WORDS, name) {
        Some(Word::Set(change)) => set_slot(case, &mut bench.exceptions, change, value),
        Some(Word::Stands) => tell_slot(case, &bench.exceptions, name, value),
        Some(Word::Enter) => entered(case, bench, value),
        Some(Word::Leave) => left(case, bench, value),
        Some(Word::Raise) => raised(case, bench, value),
        Some(Word::Number(word)) => {
            let number = case.number_in(value);
            act_by(case, bench, word, number);
        }
        None => {
            let number = case.number_in(value);
            put(case, bench, name, number);
        }
    }
}

/// Follows words in turn.
fn follow(case: &mut Case<'_>, bench: &mut Bench, words: &str) {
    for word in words.split_whitespace() {
        match word.split_once('=') {
            Some((name, value)) => act(case, bench, name, value),
            None => tell_look(case, bench, word),
        }
    }
}

/// A bench that nothing is set up on.
fn bench_of(alloc: Global) -> Result<Bench, AllocError> {
    Ok(Bench {
        core: Core::new(),
        exceptions: Exceptions::new(alloc, 8)?,
        frames: TableFrames::new(&[], None, 0x1000_0000, 0x0020_0000),
    })
}

/// Tells what the words of a case tell of a bench, which others set up.
pub fn followed(case: &mut Case<'_>, base: &str) {
    let made = bench_of(case.alloc);
    if let Some(mut bench) = case.kept(made) {
        follow(case, &mut bench, base);
        let words = case.field(1);
        follow(case, &mut bench, words);
    }
}
