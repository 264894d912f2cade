//! A state from its words: memory first, then each field, each slot and each register of a channel, whose word has to be
//! one that it can hold.

ghost use Rattle.std.specs.Prelude.{◌≡◌, ◌≤◌, ◌+◌, ◌*◌, Ok, Err, Some, MatchResult, IfOk, true, length, drop, take, slice_get};
ghost use Rattle.tz_model.specs.Board.{are_regions};
ghost use Rattle.tz_state.specs.Memory.{with_bytes};
ghost use Rattle.tz_state.specs.State.{with_memory};
ghost use Rattle.tz_state.specs.Zeros.{zero_memory};
ghost use Rattle.tz_fields.specs.Fields.{fields, slot_places, channel_fields};
ghost use Rattle.tz_fields.specs.StateWords.{field_count, slot_count, channel_count, memory_count, word_count};
ghost use Rattle.tz_fields.specs.ReadWords.{read_fields, read_slots, read_channels, with_regions, blank, read_words, words_of, IsWordsRefusal, IsFresh};

use crate::words::{channel_count, channel_field, field_at, field_count, slot_count, slot_place};
use std::alloc::{AllocError, Global};
use std::marker::Model;
use thiserror::Error;
use tz_access::Bus;
use tz_model::{Board, Region, Segment};
use tz_nvic::Exceptions;
use tz_regs::Core;
use tz_tell::LentState;

/// Why words aren't those of a state.
#[derive(Debug, Drop, Error)]
pub enum WordsError {
    /// The first word that is out of range, by its index.
    #[error("word {0} is out of range")]
    Value(u32),
    #[error("there is no memory for the state")]
    Memory,
}

/// A state that is read from words, in its parts.
#[derive(Drop)]
pub struct ReadState {
    pub(crate) core: Core,
    pub(crate) exceptions: Exceptions,
    pub(crate) bus: Bus,
}

impl Model for ReadState {
    ghost use Rattle.std.specs.FinMap as map;
    ghost use Rattle.std.specs.Ordering.{nat_cmp};
    ghost use Rattle.std.specs.Coded.{codes, coded_ℕ};
    ghost use Rattle.tz_state.specs.State.{State};

    ghost Value = { State };

    ghost coded = { Prim.hlevel (codes, map.code {R = nat_cmp} coded_ℕ coded_ℕ) };

    ghost view = { λ s. record { core = s.core; exceptions = s.exceptions; bus = s.bus.state } };
}

/// The word of an index, with its low byte first.
#[tactic(auto, using(crate::proofs::Reading::word_read))]
fn word_at(bytes: &[u8], index: usize) -> u32
    requires { 4 * index + 4 ≤ length bytes.now }
    ensures { slice_get (words_of bytes.now) index ≡ Some result }
{
    let at = 4 * index;
    u32::from_le_bytes([bytes[at], bytes[at + 1], bytes[at + 2], bytes[at + 3]])
}

/// Puts the bytes of a region, which stand first.
fn put_region(alloc: Global, bus: &mut Bus, region: &Region, bytes: &[u8]) -> Result<(), AllocError>
    requires { region.now.size ≤ length bytes.now }
    ensures { IfOk result (λ _. bus.new.state ≡ with_memory bus.old.state (with_bytes bus.old.state.memory region.now.base (take region.now.size bytes.now))) }
{
    let bytes = Vec::from_slice(alloc, &bytes[..region.size as usize])?;
    let segment = Segment {
        base: region.base,
        bytes,
    };
    bus.put_segment(&segment);
    Ok(())
}

/// Puts words into regions, given as bytes.
fn put_memory(
    alloc: Global,
    bus: &mut Bus,
    regions: &[Region],
    bytes: &[u8],
) -> Result<(), AllocError>
    requires blocks { are_regions regions.now ≡ true }
    requires long { length bytes.now ≡ 4 * memory_count regions.now }
    ensures { IfOk result (λ _. bus.new.state ≡ with_memory bus.old.state (with_regions bus.old.state.memory regions.now (words_of bytes.now))) }
{
    let mut at = 0;
    for region in regions {
        put_region(alloc, bus, region, &bytes[at..])?;
        at += region.size as usize;
    }
    Ok(())
}

impl ReadState {
    /// The state as what tells of it.
    pub(crate) fn lent(&self) -> LentState<'_>
        ensures { result ≡ self.now }
    {
        LentState::new(&self.core, &self.exceptions, &self.bus)
    }

    /// The core, the exceptions, and memory with the units that guard it.
    pub fn into_parts(self) -> (Core, Exceptions, Bus)
        ensures core { result.0 ≡ self.core }
        ensures exceptions { result.1 ≡ self.exceptions }
        ensures bus { result.2.state ≡ self.bus }
    {
        (self.core, self.exceptions, self.bus)
    }

    /// Writes all fields by their words, and tells the index of the first that doesn't hold its word.
    fn read_fields(&mut self, board: &Board, bytes: &[u8]) -> Result<(), u32>
        requires fresh { IsFresh self.old }
        requires long { 4 * field_count board.now ≤ length bytes.now }
        ensures { MatchResult result
            (λ _. read_fields (fields board.now) (words_of bytes.now) 0 self.old ≡ Ok self.new)
            (λ k. read_fields (fields board.now) (words_of bytes.now) 0 self.old ≡ Err k) }
    {
        for index in 0..field_count(board) {
            let word = word_at(bytes, index);
            if !self.put_field(field_at(board, index), word) {
                return Err(index as u32);
            }
        }
        Ok(())
    }

    /// Writes all slots by their words, and tells the index of the first that doesn't hold its word.
    fn read_slots(&mut self, board: &Board, bytes: &[u8]) -> Result<(), u32>
        requires { 4 * (field_count board.now + slot_count board.now) ≤ length bytes.now }
        ensures { MatchResult result
            (λ _. read_slots (slot_places board.now.interrupts) (drop (field_count board.now) (words_of bytes.now)) (field_count board.now) self.old ≡ Ok self.new)
            (λ k. read_slots (slot_places board.now.interrupts) (drop (field_count board.now) (words_of bytes.now)) (field_count board.now) self.old ≡ Err k) }
    {
        let first = field_count(board);
        for index in 0..slot_count(board) {
            let word = word_at(bytes, first + index);
            if !self.put_slot(slot_place(board, index), word) {
                return Err((first + index) as u32);
            }
        }
        Ok(())
    }

    /// Writes all registers of channels by their words, and tells the index of the first that doesn't hold its word.
    fn read_channels(&mut self, board: &Board, bytes: &[u8]) -> Result<(), u32>
        requires { 4 * (field_count board.now + slot_count board.now + channel_count board.now) ≤ length bytes.now }
        ensures { MatchResult result
            (λ _. read_channels (channel_fields board.now.mover) (drop (field_count board.now + slot_count board.now) (words_of bytes.now)) (field_count board.now + slot_count board.now) self.old ≡ Ok self.new)
            (λ k. read_channels (channel_fields board.now.mover) (drop (field_count board.now + slot_count board.now) (words_of bytes.now)) (field_count board.now + slot_count board.now) self.old ≡ Err k) }
    {
        let first = field_count(board) + slot_count(board);
        for index in 0..channel_count(board) {
            let word = word_at(bytes, first + index);
            if !self.put_channel(channel_field(board, index), word) {
                return Err((first + index) as u32);
            }
        }
        Ok(())
    }

    /// A state of a board to read into, with its memory.
    fn blank(alloc: Global, board: &Board, memory: &[u8]) -> Result<ReadState, AllocError>
        requires { length memory.now ≡ 4 * memory_count board.now.regions }
        ensures { IfOk result (λ m. m ≡ blank board.now (with_regions (zero_memory board.now.regions) board.now.regions (words_of memory.now))) }
    {
        let exceptions = Exceptions::new(alloc, board.interrupts)?;
        let mut bus = Bus::new(alloc, board)?;
        put_memory(alloc, &mut bus, &board.regions, memory)?;
        Ok(ReadState {
            core: Core::reset(0, 0, 0, 0, false),
            exceptions,
            bus,
        })
    }

    /// The state of a board that has these words, with the low byte of each first.
    ///
    /// # Errors
    ///
    /// `Value` with the index of the first word that its field can't hold; `Memory` where memory runs out.
    pub fn from_words(alloc: Global, board: &Board, bytes: &[u8]) -> Result<ReadState, WordsError>
        requires { length bytes.now ≡ 4 * word_count board.now }
        ensures { MatchResult result
            (λ m. read_words board.now (words_of bytes.now) ≡ Ok m)
            (λ e. IsWordsRefusal e (read_words board.now (words_of bytes.now))) }
    {
        let memory = 4 * (field_count(board) + slot_count(board) + channel_count(board));
        let Ok(mut state) = ReadState::blank(alloc, board, &bytes[memory..]) else {
            return Err(WordsError::Memory);
        };
        if let Err(index) = state.read_fields(board, bytes) {
            return Err(WordsError::Value(index));
        }
        if let Err(index) = state.read_slots(board, bytes) {
            return Err(WordsError::Value(index));
        }
        if let Err(index) = state.read_channels(board, bytes) {
            return Err(WordsError::Value(index));
        }
        Ok(state)
    }
}
