//! Moves: a word read and written, and an interrupt that pends where a channel stops.

ghost use Rattle.std.specs.Prelude.{◌≡◌, ◌<◌, ◌≤◌, ◌+◌, MatchOption, IsTrue, true, false};
ghost use Rattle.tz_state.specs.Memory.{word_at, with_word};
ghost use Rattle.tz_state.specs.State.{with_memory};
ghost use Rattle.tz_state.specs.Moves.{may_move, after_move, word_moved, memory_moved, irq_of, has_irq, pends_irq, slots_told, channel_of, with_channel, no_moves, with_move, move_told, moved, all_moved};
ghost use Rattle.tz_access.specs.Written.{before_stores, noted_count};
ghost use Rattle.tz_mover.specs.Lent.{moving};

use crate::channel::{after_word, done, failed, goes, irq_of};
use tz_access::{Bus, Written};
use tz_model::{Channel, Channels, Side, Size};
use tz_nvic::{Exceptions, FIRST_INTERRUPT_PLACE};
use tz_state::mover_bits::MOVER_IE;
use tz_state::{Move, Moves};

/// Moves a word, and gives it, where a channel of a side may; else nothing changes.
fn move_word(
    bus: &mut Bus,
    side: Side,
    channel: &Channel,
    written: &mut Option<Written>,
) -> Option<u32>
    requires room { noted_count written.old < 40 }
    ensures moves { MatchOption result
        ((may_move bus.old.state side channel.now ≡ false) × (bus.new.state ≡ bus.old.state))
        (λ word. (may_move bus.old.state side channel.now ≡ true) × (word ≡ word_at bus.old.state.memory channel.now.src) × (bus.new.state ≡ with_memory bus.old.state (with_word bus.old.state.memory channel.now.dst word))) }
    ensures noted { before_stores written.new bus.new.state.memory ≡ before_stores written.old bus.old.state.memory }
    ensures few { noted_count written.new ≤ noted_count written.old + 1 }
{
    if !bus.may_touch(side, Size::Word, channel.src)
        || !bus.may_touch(side, Size::Word, channel.dst)
    {
        return None;
    }
    match bus.read(channel.src, Size::Word) {
        Err(_) => None,
        Ok(word) => match bus.write_noted(channel.dst, Size::Word, word, written) {
            Err(_) => None,
            Ok(()) => Some(word),
        },
    }
}

/// Whether the core has the interrupt that a channel names, and it is of a side.
fn has_irq(exceptions: &Exceptions, side: Side, channel: &Channel) -> bool
    ensures is { result ≡ has_irq side exceptions.now channel.now }
    ensures few { IsTrue result → irq_of channel.now < 240 }
{
    let irq = irq_of(channel);
    if irq < u32::from(exceptions.interrupts()) {
        exceptions.at(FIRST_INTERRUPT_PLACE + irq as usize).target == side
    } else {
        false
    }
}

/// Whether a channel of a side has stopped, asks for its interrupt, and has it.
fn pends_irq(exceptions: &Exceptions, side: Side, channel: &Channel) -> bool
    ensures is { result ≡ pends_irq side exceptions.now channel.now }
    ensures few { IsTrue result → irq_of channel.now < 240 }
{
    if goes(channel) {
        return false;
    }
    if channel.ctrl / MOVER_IE % 2 == 1 {
        has_irq(exceptions, side, channel)
    } else {
        false
    }
}

/// Pends the interrupt of a channel that has stopped, where it asks for it and has it, and tells whether it does.
#[tactic(auto, using(crate::proofs::Telling::told, crate::proofs::Telling::untold))]
fn tell(exceptions: &mut Exceptions, side: Side, channel: &Channel) -> bool
    ensures pends { result ≡ pends_irq side exceptions.old channel.now }
    ensures slots { exceptions.new ≡ record exceptions.old { slots = slots_told side exceptions.old channel.now } }
{
    if !pends_irq(exceptions, side, channel) {
        return false;
    }
    let place = FIRST_INTERRUPT_PLACE + irq_of(channel) as usize;
    let mut state = exceptions.at(place);
    state.pending = true;
    exceptions.put_at(place, state);
    true
}

/// The channel of a side after a move, and the word that it moved, 0 where it moved none.
fn move_on(
    bus: &mut Bus,
    side: Side,
    channel: Channel,
    written: &mut Option<Written>,
) -> (Channel, u32)
    requires room { noted_count written.old < 40 }
    ensures channel { result.0 ≡ after_move bus.old.state side channel }
    ensures word { result.1 ≡ word_moved bus.old.state side channel bus.old.state.memory }
    ensures memory { bus.new.state ≡ with_memory bus.old.state (memory_moved bus.old.state side channel bus.old.state.memory) }
    ensures noted { before_stores written.new bus.new.state.memory ≡ before_stores written.old bus.old.state.memory }
    ensures few { noted_count written.new ≤ noted_count written.old + 1 }
{
    if channel.count == 0 {
        return (done(channel), 0);
    }
    match move_word(bus, side, &channel, written) {
        None => (failed(channel), 0),
        Some(word) => (after_word(channel), word),
    }
}

/// One move of a channel of a side that goes.
fn make_move(
    channel: Channel,
    bus: &mut Bus,
    exceptions: &mut Exceptions,
    side: Side,
    written: &mut Option<Written>,
) -> Move
    requires room { noted_count written.old < 40 }
    ensures told { result ≡ move_told bus.old.state exceptions.old side channel bus.old.state.memory }
    ensures slots { exceptions.new ≡ record exceptions.old { slots = slots_told side exceptions.old (after_move bus.old.state side channel) } }
    ensures memory { bus.new.state ≡ with_memory bus.old.state (memory_moved bus.old.state side channel bus.old.state.memory) }
    ensures noted { before_stores written.new bus.new.state.memory ≡ before_stores written.old bus.old.state.memory }
    ensures few { noted_count written.new ≤ noted_count written.old + 1 }
{
    let (after, word) = move_on(bus, side, channel, written);
    let pends = tell(exceptions, side, &after);
    Move {
        before: channel,
        after,
        word,
        pends,
    }
}

/// The channel of a side.
fn channel_of(channels: &Channels, side: Side) -> Channel
    ensures { result ≡ channel_of side channels.now }
{
    match side {
        Side::Secure => channels.secure,
        Side::NonSecure => channels.nonsecure,
    }
}

/// Puts a channel after its move, and adds that to those that are told.
fn put_move(channels: &mut Channels, told: &mut Moves, side: Side, made: Move)
    ensures channels { channels.new ≡ with_channel side channels.old made.after }
    ensures told { told.new ≡ with_move side told.old made }
{
    match side {
        Side::Secure => {
            channels.secure = made.after;
            told.secure = Some(made);
        }
        Side::NonSecure => {
            channels.nonsecure = made.after;
            told.nonsecure = Some(made);
        }
    }
}

/// One move of a side's channel, where it goes.
fn move_channel(
    channels: &mut Channels,
    bus: &mut Bus,
    exceptions: &mut Exceptions,
    side: Side,
    written: &mut Option<Written>,
    told: &mut Moves,
)
    requires room { noted_count written.old < 40 }
    ensures moves { moved bus.old.state exceptions.old side (moving channels.old exceptions.old bus.old.state told.old) ≡ moving channels.new exceptions.new bus.new.state told.new }
    ensures exceptions { exceptions.new ≡ record exceptions.old { slots = exceptions.new.slots } }
    ensures bus { bus.new.state ≡ with_memory bus.old.state bus.new.state.memory }
    ensures noted { before_stores written.new bus.new.state.memory ≡ before_stores written.old bus.old.state.memory }
    ensures few { noted_count written.new ≤ noted_count written.old + 1 }
{
    let channel = channel_of(channels, side);
    if goes(&channel) {
        let made = make_move(channel, bus, exceptions, side, written);
        put_move(channels, told, side, made);
    }
}

/// The moves at the beginning of a step that starts on a side, of a core that isn't locked, on a board with a mover: one
/// of the Secure channel where the step starts Secure, then one of the Non-secure channel, of each that goes. A channel
/// reads the word at SRC and writes it at DST, as its side may by attribution and the map; where it may not, it stops with
/// ERROR, and with DONE where no word is left. Where it stops with IE 1, its interrupt pends if the core has it and it is of
/// the channel's side. What the words overwrite is noted, where that is wanted. Gives the moves that were made.
#[tactic(auto, unfolding(tz_state::specs::Moves::all_moved))]
pub fn advance(
    channels: &mut Channels,
    bus: &mut Bus,
    exceptions: &mut Exceptions,
    side: Side,
    written: &mut Option<Written>,
) -> Moves
    requires room { noted_count written.old ≤ 38 }
    ensures moves { all_moved bus.old.state exceptions.old side (moving channels.old exceptions.old bus.old.state no_moves) ≡ moving channels.new exceptions.new bus.new.state result }
    ensures exceptions { exceptions.new ≡ record exceptions.old { slots = exceptions.new.slots } }
    ensures bus { bus.new.state ≡ with_memory bus.old.state bus.new.state.memory }
    ensures noted { before_stores written.new bus.new.state.memory ≡ before_stores written.old bus.old.state.memory }
    ensures few { noted_count written.new ≤ noted_count written.old + 2 }
{
    let mut told = Moves {
        secure: None,
        nonsecure: None,
    };
    match side {
        Side::Secure => move_channel(channels, bus, exceptions, Side::Secure, written, &mut told),
        Side::NonSecure => {}
    }
    move_channel(
        channels,
        bus,
        exceptions,
        Side::NonSecure,
        written,
        &mut told,
    );
    told
}
