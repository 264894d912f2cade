//! What the instruction that ran has read, and the system registers that it wrote.
//!
//! Its accesses are those that it makes from the core before the step. Memory is read after it, as no load changes it;
//! of a system register what was read is in the register that got it.

ghost use Rattle.std.specs.Prelude.{◌≡◌, ◌≤◌, ◌+◌, ◌*◌, [], ◌∷◌, ◌++◌, if◌then◌else◌, length, map, option_map};
ghost use Rattle.arrayvec.specs.ArrayString.{array_string_len};
ghost use Rattle.tz_model.specs.Ports.{cut_to};
ghost use Rattle.tz_state.specs.Access.{is_private};
ghost use Rattle.tz_sem.specs.LoadStore.{is_listed, listed, lowest, pair_loads, word_loads, words_loaded};
ghost use Rattle.tz_sem.specs.Local.{local_of, reg};
ghost use Rattle.tz_table.specs.declared.instruction.Insn.TheVariants.{TableBranch};
ghost use Rattle.tz_full.specs.LoadLines.{value_in, word_to_pc, is_resumed, told_of, entry_word, size_text, known_text, held_text, read_text, load_line, loads_text, loads_of, loads_by, store_line, store_lines};

use crate::instruction::filled_of;
use crate::register_names::push_name_at;
use crate::text::Text;
use tz_access::Bus;
use tz_loadstore::{at_offset, lowest, place, reg};
use tz_model::address_map::{PRIVATE_FIRST, PRIVATE_LAST};
use tz_model::{Insn, Size, Store, cut_to};
use tz_regs::{Core, Registers};
use tz_sem::{Account, Cause, Handling};
use tz_syntax::push_hex_word;
use tz_tell::LentState;

// ---- what registers tell of a word that was read

/// The value by which code returned, or tried to.
pub fn value_in(handling: &Option<Handling>) -> Option<u32>
    ensures { result ≡ value_in handling.now }
{
    match handling {
        Some(handling) => handling.value,
        None => None,
    }
}

/// A word that went to PC.
fn word_to_pc(value: Option<u32>, registers: &Registers) -> u32
    ensures { result ≡ word_to_pc value registers.now }
{
    match value {
        Some(value) => value,
        None => registers.pc.wrapping_add(u32::from(registers.t)),
    }
}

/// Whether an exception has returned.
pub fn is_resumed(cause: Cause) -> bool
    ensures { result ≡ is_resumed cause }
{
    matches!(cause, Cause::Resumed)
}

/// What is told of the word that went to a register, by the core after the step.
#[tactic(auto, unfolding(crate::specs::LoadLines::told_of))]
fn told_of(account: &Account, core: &Core, number: u8) -> Option<u32>
    ensures { result ≡ told_of account.now core.now number }
{
    if number == 15 {
        Some(word_to_pc(value_in(&account.ending.handling), &core.registers))
    } else if is_resumed(account.ending.cause) {
        None
    } else {
        Some(reg(core, number))
    }
}

/// The entry of a table, by how far the branch went.
#[tactic(auto, unfolding(crate::specs::LoadLines::entry_word))]
fn entry_word(before: &Core, after: &Core) -> Option<u32>
    ensures { result ≡ entry_word before.now after.now }
{
    let from = before.registers.pc.wrapping_add(4);
    Some(after.registers.pc.wrapping_sub(from) / 2)
}

// ---- a load

fn push_size(text: &mut Text, size: Size)
    requires { array_string_len text.old + 6 ≤ 4096 }
    ensures bytes { text.new.bytes ≡ text.old.bytes ++ size_text size }
    ensures len { array_string_len text.new ≡ array_string_len text.old + 6 }
{
    match size {
        Size::Byte => text.push_str(" byte "),
        Size::Half => text.push_str(" half "),
        Size::Word => text.push_str(" word "),
    }
}

/// A word that may not be known, cut to a size.
fn push_known(text: &mut Text, size: Size, word: Option<u32>)
    requires { array_string_len text.old + 8 ≤ 4096 }
    ensures bytes { text.new.bytes ≡ text.old.bytes ++ known_text (option_map (cut_to size) word) }
    ensures len { array_string_len text.new ≡ array_string_len text.old + 8 }
{
    match word {
        Some(word) => push_hex_word(text, cut_to(size, word)),
        None => text.push_str("--------"),
    }
}

/// The number at an address, where regions hold all its bytes.
#[tactic(auto, unfolding(crate::specs::LoadLines::held_text))]
pub fn push_held(text: &mut Text, bus: &Bus, size: Size, addr: u32)
    requires { array_string_len text.old + 8 ≤ 4096 }
    ensures bytes { text.new.bytes ≡ text.old.bytes ++ held_text bus.now.state size addr }
    ensures len { array_string_len text.new ≡ array_string_len text.old + 8 }
{
    match bus.read(addr, size) {
        Ok(value) => push_hex_word(text, value),
        Err(_) => text.push_str("--------"),
    }
}

/// Whether an address is in the private peripheral space.
fn is_private(addr: u32) -> bool
    ensures { result ≡ is_private addr }
{
    addr >= PRIVATE_FIRST && addr <= PRIVATE_LAST
}

/// What a load read, with the name of a system register.
fn push_read(text: &mut Text, bus: &Bus, size: Size, addr: u32, word: Option<u32>)
    requires { array_string_len text.old + 31 ≤ 4096 }
    ensures bytes { text.new.bytes ≡ text.old.bytes ++ read_text bus.now.state size addr word }
    ensures len { array_string_len text.new ≤ array_string_len text.old + 31 }
{
    if is_private(addr) {
        push_known(text, size, word);
        text.push_str(" ");
        push_name_at(text, bus.board().mover, addr);
    } else {
        push_held(text, bus, size, addr);
    }
}

/// The line of a load.
#[tactic(auto, unfolding(crate::specs::LoadLines::load_line))]
fn push_load(text: &mut Text, bus: &Bus, size: Size, addr: u32, word: Option<u32>)
    requires { array_string_len text.old + 60 ≤ 4096 }
    ensures bytes { text.new.bytes ≡ text.old.bytes ++ load_line bus.now.state size addr word }
    ensures len { array_string_len text.new ≤ array_string_len text.old + 60 }
{
    text.push_str("    load ");
    push_hex_word(text, addr);
    push_size(text, size);
    push_read(text, bus, size, addr, word);
    text.push_str("\n");
}

/// The lines of words in a row, each by the register that it went to.
#[tactic(auto, unfolding(crate::specs::LoadLines::loads_text))]
fn push_words(text: &mut Text, account: &Account, state: &LentState, addr: u32, numbers: &[u8])
    requires { array_string_len text.old + 60 * length numbers.now ≤ 4096 }
    ensures bytes { text.new.bytes ≡ text.old.bytes ++ loads_text state.now.bus (map (told_of account.now state.now.core) numbers.now) (word_loads addr (length numbers.now)) }
    ensures len { array_string_len text.new ≤ array_string_len text.old + 60 * length numbers.now }
{
    let mut next = addr;
    for number in numbers {
        let word = told_of(account, state.core(), *number);
        push_load(text, state.bus(), Size::Word, next, word);
        next = next.wrapping_add(4);
    }
}

/// The lines of two words in a row.
#[tactic(auto, using(crate::proofs::LoadLines::two_loads))]
fn push_pair(
    text: &mut Text,
    account: &Account,
    state: &LentState,
    addr: u32,
    first: u8,
    second: u8,
)
    requires { array_string_len text.old + 120 ≤ 4096 }
    ensures bytes { text.new.bytes ≡ text.old.bytes ++ loads_text state.now.bus (told_of account.now state.now.core first ∷ told_of account.now state.now.core second ∷ []) (pair_loads addr) }
    ensures len { array_string_len text.new ≤ array_string_len text.old + 120 }
{
    let low = told_of(account, state.core(), first);
    push_load(text, state.bus(), Size::Word, addr, low);
    let high = told_of(account, state.core(), second);
    push_load(text, state.bus(), Size::Word, addr.wrapping_add(4), high);
}

/// The line of the load of a register.
fn push_one(text: &mut Text, account: &Account, state: &LentState, size: Size, addr: u32, rt: u8)
    requires { array_string_len text.old + 60 ≤ 4096 }
    ensures bytes { text.new.bytes ≡ text.old.bytes ++ load_line state.now.bus size addr (told_of account.now state.now.core rt) }
    ensures len { array_string_len text.new ≤ array_string_len text.old + 60 }
{
    let word = told_of(account, state.core(), rt);
    push_load(text, state.bus(), size, addr, word);
}

/// The line of a table branch.
#[tactic(auto, using(crate::proofs::LoadLines::one_load))]
fn push_entry(text: &mut Text, account: &Account, state: &LentState, half: bool, rn: u8, rm: u8)
    requires { array_string_len text.old + 60 ≤ 4096 }
    ensures bytes { text.new.bytes ≡ text.old.bytes ++ loads_of account.now state.now (TableBranch half rn rm) }
    ensures len { array_string_len text.new ≤ array_string_len text.old + 60 }
{
    let core = &account.core;
    let word = entry_word(core, state.core());
    let index = reg(core, rm);
    let base = reg(core, rn);
    if half {
        let addr = base.wrapping_add(index.wrapping_mul(2));
        push_load(text, state.bus(), Size::Half, addr, word);
    } else {
        push_load(
            text,
            state.bus(),
            Size::Byte,
            base.wrapping_add(index),
            word,
        );
    }
}

/// The lines of a load of a list.
fn push_many(text: &mut Text, account: &Account, state: &LentState, rn: u8, list: u16, down: bool)
    requires { array_string_len text.old + 900 ≤ 4096 }
    ensures bytes { text.new.bytes ≡ text.old.bytes ++ loads_text state.now.bus (map (told_of account.now state.now.core) (listed list ++ (if is_listed list 15 then 15 ∷ [] else []))) (word_loads (lowest down (reg (local_of account.now.core) rn) (words_loaded list)) (words_loaded list)) }
    ensures len { array_string_len text.new ≤ array_string_len text.old + 900 }
{
    let numbers = filled_of(list);
    let count = numbers.len() as u32;
    let addr = lowest(down, reg(&account.core, rn), count);
    push_words(text, account, state, addr, &numbers);
}

/// The lines of the loads of an instruction.
#[tactic(auto, using(crate::proofs::LoadLines::one_load, crate::proofs::LoadLines::no_loads))]
fn push_loads_of(text: &mut Text, account: &Account, state: &LentState, insn: &Insn)
    requires { array_string_len text.old + 900 ≤ 4096 }
    ensures bytes { text.new.bytes ≡ text.old.bytes ++ loads_of account.now state.now insn.now }
    ensures len { array_string_len text.new ≤ array_string_len text.old + 900 }
{
    let core = &account.core;
    match *insn {
        Insn::Load {
            size,
            rt,
            address,
            ..
        } => push_one(text, account, state, size, place(core, &address), rt),
        Insn::LoadPair { rt, rt2, address } => {
            push_pair(text, account, state, place(core, &address), rt, rt2);
        }
        Insn::LoadMany { rn, list, down, .. } => {
            push_many(text, account, state, rn, list, down);
        }
        Insn::LoadExclusive {
            size,
            rt,
            rn,
            offset,
            ..
        } => push_one(text, account, state, size, at_offset(core, rn, offset), rt),
        Insn::LoadAcquire { size, rt, rn } => {
            push_one(text, account, state, size, reg(core, rn), rt);
        }
        Insn::TableBranch { half, rn, rm } => {
            push_entry(text, account, state, half, rn, rm);
        }
        _ => {}
    }
}

/// The lines of the loads of the instruction that ran.
pub fn push_loads_by(text: &mut Text, account: &Account, state: &LentState, insn: &Option<Insn>)
    requires { array_string_len text.old + 900 ≤ 4096 }
    ensures bytes { text.new.bytes ≡ text.old.bytes ++ loads_by account.now state.now insn.now }
    ensures len { array_string_len text.new ≤ array_string_len text.old + 900 }
{
    if let Some(insn) = insn {
        push_loads_of(text, account, state, insn);
    }
}

// ---- stores

/// The line of a store, where it went to a system register.
#[tactic(auto, unfolding(crate::specs::LoadLines::store_line))]
fn push_store(text: &mut Text, mover: bool, store: &Store)
    requires { array_string_len text.old + 42 ≤ 4096 }
    ensures bytes { text.new.bytes ≡ text.old.bytes ++ store_line mover store.now }
    ensures len { array_string_len text.new ≤ array_string_len text.old + 42 }
{
    if is_private(store.addr) {
        text.push_str("    store ");
        push_hex_word(text, store.addr);
        text.push_str(" ");
        push_name_at(text, mover, store.addr);
        text.push_str("\n");
    }
}

/// The lines of stores to system registers.
#[tactic(auto, unfolding(crate::specs::LoadLines::store_lines))]
pub fn push_stores(text: &mut Text, mover: bool, stores: &[Store])
    requires { array_string_len text.old + 42 * length stores.now ≤ 4096 }
    ensures bytes { text.new.bytes ≡ text.old.bytes ++ store_lines mover stores.now }
    ensures len { array_string_len text.new ≤ array_string_len text.old + 42 * length stores.now }
{
    for store in stores {
        push_store(text, mover, store);
    }
}
