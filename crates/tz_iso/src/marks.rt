//! What may differ of two machines while Secure code runs, of what Non-secure code may get to see.
//!
//! Blocks of 32 bytes are marked as they may have been written, by the stores that a step made and by the stack
//! pointers that it left. Blocks that follow one another take one range; where there are more ranges than there is room
//! for, all is marked. What the marks are for stands beside them in `compared.rt`.

ghost use Rattle.std.specs.Prelude.{◌≡◌, ◌<◌, ◌==◌, ℕ, IfSome, not, true, false, length, []};
ghost use Rattle.tz_regs.specs.Banks.{stacks_of};
ghost use Rattle.tz_state.specs.Access.{is_private};
ghost use Rattle.tz_state.specs.Memory.{every};
ghost use Rattle.tz_frames.specs.Stack.{both_frames_size};
ghost use Rattle.tz_twin.specs.Writing.{is_within, is_framed, are_beside, are_in_memory, channel_stores};
ghost use Rattle.tz_iso.specs.Marks.{is_among, marks_block, marks_byte, Grows, Notes, NotesMoves};

use arrayvec::ArrayVec;
use tz_access::{is_private, last_of};
use tz_core::{Machine, Stores};
use tz_model::{Channel, Side, Size, Store};
use tz_regs::{Core, Stacks};

/// Blocks of 32 bytes that follow one another, by their numbers.
#[derive(Clone, Copy, Default)]
pub struct Blocks {
    pub first: u32,
    pub last: u32,
}

/// What may differ.
#[derive(Drop)]
pub struct Marks {
    /// Any byte, and the SAU.
    pub all: bool,
    pub exceptions: bool,
    /// The bytes of these blocks.
    pub ranges: ArrayVec<Blocks, 16>,
}

/// Whether a block is among others, or beside them.
fn is_near(range: Blocks, block: u32) -> bool {
    range.first <= block.saturating_add(1) && block <= range.last.saturating_add(1)
}

/// Blocks with one more, and with those between.
fn widened(range: Blocks, block: u32) -> Blocks
    ensures block { is_among result block ≡ true }
    ensures more { (b : ℕ) → is_among result b ≡ false → is_among range b ≡ false }
{
    Blocks {
        first: range.first.min(block),
        last: range.last.max(block),
    }
}

impl Marks {
    /// All may differ.
    pub fn everything() -> Marks
        ensures all { result.all ≡ true }
        ensures exceptions { result.exceptions ≡ true }
    {
        Marks {
            all: true,
            exceptions: true,
            ranges: ArrayVec::new(),
        }
    }

    /// Nothing may differ.
    pub fn clear(&mut self)
        ensures { self.new ≡ record { all = false; exceptions = false; ranges = record { items = [] } } }
    {
        self.all = false;
        self.exceptions = false;
        self.ranges.clear();
    }

    /// The place of a range that a block is near to.
    fn place_near(&self, block: u32) -> Option<usize>
        ensures { IfSome result (λ i. i < length self.now.ranges.items) }
    {
        for i in 0..self.ranges.len() {
            if is_near(self.ranges[i], block) {
                return Some(i);
            }
        }
        None
    }

    /// Marks a block by a range.
    fn widen(&mut self, index: usize, block: u32)
        requires { index < length self.old.ranges.items }
        ensures grows { Grows self.old self.new }
        ensures block { marks_block self.new block ≡ true }
    {
        let range = self.ranges[index];
        self.ranges[index] = widened(range, block);
    }

    /// Marks a block.
    fn mark(&mut self, block: u32)
        ensures grows { Grows self.old self.new }
        ensures block { marks_block self.new block ≡ true }
    {
        match self.place_near(block) {
            Some(index) => self.widen(index, block),
            None => {
                if self.ranges.is_full() {
                    self.all = true;
                } else {
                    self.ranges.push(Blocks {
                        first: block,
                        last: block,
                    });
                }
            }
        }
    }

    /// Marks what a store may have written: its bytes, or all by a system register.
    fn note_store(&mut self, size: Size, addr: u32)
        ensures grows { Grows self.old self.new }
        ensures all { self.new.all ≡ false → is_private addr ≡ false }
        ensures exceptions { self.new.exceptions ≡ false → is_private addr ≡ false }
        ensures bytes { (a : ℕ) → marks_byte self.new a ≡ false → every (λ b. not (b == a)) addr size ≡ true }
    {
        if is_private(addr) {
            self.all = true;
            self.exceptions = true;
            return;
        }
        self.mark(addr / 32);
        let last = last_of(size, addr);
        if last / 32 != addr / 32 {
            self.mark(last / 32);
        }
    }

    /// Marks what these stores may have written.
    #[inline(never)]
    fn note_stores(&mut self, stores: &[Store])
        ensures grows { Grows self.old self.new }
        ensures all { self.new.all ≡ false → are_in_memory stores.now ≡ true }
        ensures exceptions { self.new.exceptions ≡ false → are_in_memory stores.now ≡ true }
        ensures bytes { (a : ℕ) → marks_byte self.new a ≡ false → are_beside stores.now a ≡ true }
    {
        for store in stores {
            self.note_store(store.size, store.addr);
        }
    }

    /// Marks both frames that may stand at a stack pointer.
    fn note_frames_at(&mut self, sp: u32)
        ensures grows { Grows self.old self.new }
        ensures bytes { (a : ℕ) → marks_byte self.new a ≡ false → is_within both_frames_size sp a ≡ false }
    {
        self.mark(sp / 32);
        self.mark(sp.wrapping_add(32) / 32);
        let last = sp.wrapping_add(71) / 32;
        self.mark(last);
        if sp.wrapping_add(64) / 32 != last {
            self.mark(sp.wrapping_add(64) / 32);
        }
    }

    /// Marks the frames that may stand at both stack pointers of a side.
    #[inline(never)]
    fn note_frames(&mut self, stacks: &Stacks)
        ensures grows { Grows self.old self.new }
        ensures bytes { (a : ℕ) → marks_byte self.new a ≡ false → is_framed stacks.now a ≡ false }
    {
        self.note_frames_at(stacks.msp);
        self.note_frames_at(stacks.psp);
    }

    /// Marks what a move of a channel may write, where it goes: a word, and the interrupt that it pends.
    #[tactic(auto, unfolding(tz_twin::specs::Writing::are_beside))]
    fn note_move(&mut self, channel: &Channel)
        ensures grows { Grows self.old self.new }
        ensures exceptions { self.new.exceptions ≡ false → channel_stores channel.now ≡ [] }
        ensures bytes { (a : ℕ) → marks_byte self.new a ≡ false → are_beside (channel_stores channel.now) a ≡ true }
    {
        if channel.ctrl % 2 == 1 {
            self.exceptions = true;
            self.note_store(Size::Word, channel.dst);
        }
    }

    /// Marks what the moves at the beginning of a step may write, if the machine has a mover.
    pub fn note_moves(&mut self, machine: &Machine)
        ensures { NotesMoves machine.now self.old self.new }
    {
        let channels = machine.channels();
        self.note_move(&channels.secure);
        self.note_move(&channels.nonsecure);
    }

    /// Marks what a step may have written that made these stores, and left this core, of code that ran on a side. Most
    /// steps mark nothing, so that is told without a call.
    #[inline(always)]
    #[tactic(auto, using(crate::proofs::Marking::none_in_memory, crate::proofs::Marking::none_beside))]
    pub fn note(&mut self, stores: &Stores, exceptional: bool, core: &Core, side: Side)
        ensures { Notes stores.now.items exceptional (stacks_of side core.now) self.old self.new }
    {
        if exceptional {
            self.exceptions = true;
            self.note_frames(core.stacks(side));
        }
        if !stores.is_empty() {
            self.note_stores(stores.as_slice());
        }
    }
}
