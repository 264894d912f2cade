//! ISER, ICER, ISPR, ICPR, IABR, ITNS, IPR and STIR (DDI0553, chapter D1.2). Non-secure code sees the interrupts
//! that are its own.

ghost use Rattle.std.specs.Prelude.{◌≡◌, ◌<◌, ◌+◌, IsTrue};
ghost use Rattle.tz_state.specs.Slots.{at, first_interrupt_place};
ghost use Rattle.tz_state.specs.Pieces.{bits_below};
ghost use Rattle.tz_state.specs.NvicRegisters.{sees_interrupt, with_seen, shows_bank, bank_bit, bank_put, seen_bit, bank_value, slots_put, bank_written, seen_priority, with_priority, priorities_value, priorities_written, stir_written};

use crate::pieces::{flag, is_bit};
use tz_model::Side;
use tz_nvic::{Exceptions, FIRST_INTERRUPT_PLACE};
use tz_state::{Bank, SlotState};

/// Whether the board has an interrupt, and the view of a side shows it.
fn sees_interrupt(exceptions: &Exceptions, side: Side, number: u32) -> bool
    ensures is { result ≡ sees_interrupt side exceptions.now number }
    ensures few { IsTrue result → number < 240 }
{
    if number < u32::from(exceptions.interrupts()) {
        match side {
            Side::Secure => true,
            Side::NonSecure => exceptions
                .at(FIRST_INTERRUPT_PLACE + number as usize)
                .target
                == Side::NonSecure,
        }
    } else {
        false
    }
}

/// What is kept of an interrupt, which is below 240.
fn state_of(exceptions: &Exceptions, number: u32) -> SlotState
    requires { number < 240 }
    ensures { result ≡ at exceptions.now (first_interrupt_place + number) }
{
    exceptions.at(FIRST_INTERRUPT_PLACE + number as usize)
}

/// Whether the view of a side has an array: ITNS is Secure alone.
fn shows_bank(side: Side, bank: Bank) -> bool
    ensures { result ≡ shows_bank side bank }
{
    match side {
        Side::Secure => true,
        Side::NonSecure => match bank {
            Bank::Enable | Bank::Disable | Bank::Pend | Bank::Unpend | Bank::Active => true,
            Bank::Target => false,
        },
    }
}

/// The bit of an interrupt.
fn bank_bit(bank: Bank, state: SlotState) -> bool
    ensures { result ≡ bank_bit bank state }
{
    match bank {
        Bank::Enable | Bank::Disable => state.enabled,
        Bank::Pend | Bank::Unpend => state.pending,
        Bank::Active => state.active,
        Bank::Target => state.target == Side::NonSecure,
    }
}

/// An interrupt after its bit is written.
fn bank_put(bank: Bank, bit: bool, state: SlotState) -> SlotState
    ensures { result ≡ bank_put bank bit state }
{
    let mut put = state;
    match bank {
        Bank::Enable => put.enabled = bit || state.enabled,
        Bank::Disable => put.enabled = !bit && state.enabled,
        Bank::Pend => put.pending = bit || state.pending,
        Bank::Unpend => put.pending = !bit && state.pending,
        Bank::Active => {}
        Bank::Target => put.target = if bit { Side::NonSecure } else { Side::Secure },
    }
    put
}

fn seen_bit(exceptions: &Exceptions, side: Side, bank: Bank, number: u32) -> bool
    ensures { result ≡ seen_bit side exceptions.now bank number }
{
    sees_interrupt(exceptions, side, number) && bank_bit(bank, state_of(exceptions, number))
}

/// The bits of 32 interrupts from one on.
#[tactic(auto, unfolding(tz_state::specs::Pieces::bits_below))]
fn seen_bits(exceptions: &Exceptions, side: Side, bank: Bank, first: u32) -> u32
    requires { first < 8192 }
    ensures { result ≡ bits_below (λ k. seen_bit side exceptions.now bank (first + k)) 32 }
{
    let mut value = 0;
    for bit in 0..32 {
        value |= flag(seen_bit(exceptions, side, bank, first + bit), bit);
    }
    value
}

/// What a word of an array shows.
pub(crate) fn bank_value(exceptions: &Exceptions, side: Side, bank: Bank, word: u8) -> u32
    ensures { result ≡ bank_value side exceptions.now bank word }
{
    if shows_bank(side, bank) {
        seen_bits(exceptions, side, bank, 32 * u32::from(word))
    } else {
        0
    }
}

/// Writes the bit of an interrupt, where the view shows it.
fn put_bit(exceptions: &mut Exceptions, side: Side, bank: Bank, number: u32, bit: bool)
    ensures { exceptions.new ≡ with_seen side exceptions.old number (bank_put bank bit (at exceptions.old (first_interrupt_place + number))) }
{
    if sees_interrupt(exceptions, side, number) {
        let state = bank_put(bank, bit, state_of(exceptions, number));
        exceptions.put_at(FIRST_INTERRUPT_PLACE + number as usize, state);
    }
}

/// Writes the bits of 32 interrupts from one on.
#[tactic(auto, unfolding(tz_state::specs::NvicRegisters::slots_put))]
fn put_bits(exceptions: &mut Exceptions, side: Side, bank: Bank, first: u32, value: u32)
    requires { first < 8192 }
    ensures { exceptions.new ≡ record exceptions.old { slots = slots_put side bank value first exceptions.old 32 } }
{
    for bit in 0..32 {
        put_bit(exceptions, side, bank, first + bit, is_bit(value, bit));
    }
}

/// Writes a word of an array.
pub(crate) fn write_bank(exceptions: &mut Exceptions, side: Side, bank: Bank, word: u8, value: u32)
    ensures { exceptions.new ≡ bank_written side exceptions.old bank word value }
{
    if shows_bank(side, bank) {
        put_bits(exceptions, side, bank, 32 * u32::from(word), value);
    }
}

/// The byte of an interrupt in IPR.
fn seen_priority(exceptions: &Exceptions, side: Side, number: u32) -> u8
    ensures { result ≡ seen_priority side exceptions.now number }
{
    if sees_interrupt(exceptions, side, number) {
        state_of(exceptions, number).priority
    } else {
        0
    }
}

fn write_priority(exceptions: &mut Exceptions, side: Side, number: u32, byte: u8)
    ensures { exceptions.new ≡ with_priority side exceptions.old number byte }
{
    if sees_interrupt(exceptions, side, number) {
        let state = SlotState {
            priority: byte,
            ..state_of(exceptions, number)
        };
        exceptions.put_at(FIRST_INTERRUPT_PLACE + number as usize, state);
    }
}

/// What a word of IPR shows.
pub(crate) fn priorities_value(exceptions: &Exceptions, side: Side, word: u8) -> u32
    ensures { result ≡ priorities_value side exceptions.now word }
{
    let first = 4 * u32::from(word);
    u32::from_le_bytes([
        seen_priority(exceptions, side, first),
        seen_priority(exceptions, side, first + 1),
        seen_priority(exceptions, side, first + 2),
        seen_priority(exceptions, side, first + 3),
    ])
}

/// Writes a word of IPR.
#[tactic(auto, unfolding(tz_state::specs::NvicRegisters::priorities_written))]
pub(crate) fn write_priorities(exceptions: &mut Exceptions, side: Side, word: u8, value: u32)
    ensures { exceptions.new ≡ priorities_written side exceptions.old word value }
{
    let number = 4 * u32::from(word);
    let [first, second, third, fourth] = value.to_le_bytes();
    write_priority(exceptions, side, number, first);
    write_priority(exceptions, side, number + 1, second);
    write_priority(exceptions, side, number + 2, third);
    write_priority(exceptions, side, number + 3, fourth);
}

/// Writes STIR: pends the interrupt of bits 8:0, where the view of a side shows it.
pub(crate) fn write_stir(exceptions: &mut Exceptions, side: Side, value: u32)
    ensures { exceptions.new ≡ stir_written side exceptions.old value }
{
    let number = value % 512;
    if sees_interrupt(exceptions, side, number) {
        let state = SlotState {
            pending: true,
            ..state_of(exceptions, number)
        };
        exceptions.put_at(FIRST_INTERRUPT_PLACE + number as usize, state);
    }
}
