//! The machine at its start.

ghost use Rattle.std.specs.Prelude.{◌≡◌, ◌+◌, true, false, ◌&&◌, IfOk, MatchOption};
ghost use Rattle.tz_table.specs.declared.units.Size.TheVariants.{Word};
ghost use Rattle.tz_model.specs.Words.{wrap};
ghost use Rattle.tz_state.specs.Memory.{every, word_at};
ghost use Rattle.tz_state.specs.Access.{is_mapped};
ghost use Rattle.tz_state.specs.State.{with_memory};
ghost use Rattle.tz_state.specs.Slots.{reset_exceptions};
ghost use Rattle.tz_state.specs.UnitRegisters.{reset_bus};
ghost use Rattle.tz_sem.specs.Boot.{with_segments, start_from, boot};

use crate::running::Machine;
use std::alloc::{AllocError, Global};
use tz_access::Bus;
use tz_kept::Codes;
use tz_model::{Board, Image, Segment, Size};
use tz_nvic::Exceptions;
use tz_regs::Core;

/// Puts the bytes of segments into memory.
#[tactic(auto, unfolding(tz_sem::specs::Boot::with_segments))]
fn put_segments(bus: &mut Bus, segments: &[Segment])
    ensures { bus.new.state ≡ with_memory bus.old.state (with_segments bus.old.state.memory segments.now) }
{
    for segment in segments {
        bus.put_segment(segment);
    }
}

/// Both words at the start of the Secure vector table, where they are in memory.
fn vectors(bus: &Bus, vtor: u32) -> Option<(u32, u32)>
    ensures { MatchOption result ((every (is_mapped bus.now.state.board.regions) vtor Word && every (is_mapped bus.now.state.board.regions) (wrap (vtor + 4)) Word) ≡ false) (λ words. ((every (is_mapped bus.now.state.board.regions) vtor Word && every (is_mapped bus.now.state.board.regions) (wrap (vtor + 4)) Word) ≡ true) × (words ≡ (word_at bus.now.state.memory vtor, word_at bus.now.state.memory (wrap (vtor + 4))))) }
{
    match bus.read(vtor, Size::Word) {
        Ok(sp) => match bus.read(vtor.wrapping_add(4), Size::Word) {
            Ok(start) => Some((sp, start)),
            Err(_) => None,
        },
        Err(_) => None,
    }
}

/// The core that the machine starts with, by the vector table in memory: locked where that isn't there.
fn start_core(bus: &Bus) -> Core
    ensures { start_from bus.now.state.board bus.now.state.memory ≡ record { core = result; exceptions = reset_exceptions bus.now.state.board.interrupts; bus = reset_bus bus.now.state.board bus.now.state.memory } }
{
    let board = bus.board();
    let (sp, start, locked) = match vectors(bus, board.secure_vtor) {
        Some((sp, start)) => (sp, start, false),
        None => (0, 0, true),
    };
    Core::reset(board.secure_vtor, board.nonsecure_vtor, sp, start, locked)
}

impl Machine {
    /// The machine of a board that starts with a Secure and a Non-secure image (DDI0553, `TakeReset`).
    /// Bytes of the images outside the board's regions are left out. Fails for want of memory alone.
    #[tactic(auto, unfolding(tz_sem::specs::Boot::boot))]
    pub fn new(
        alloc: Global,
        board: &Board,
        secure: &Image,
        nonsecure: &Image,
    ) -> Result<Machine, AllocError>
        ensures { IfOk result (λ m. m ≡ boot board.now secure.now nonsecure.now) }
    {
        let exceptions = Exceptions::new(alloc, board.interrupts)?;
        let mut bus = Bus::new(alloc, board)?;
        let kept = Codes::new(alloc)?;
        put_segments(&mut bus, &secure.segments);
        put_segments(&mut bus, &nonsecure.segments);
        Ok(Machine {
            core: start_core(&bus),
            exceptions,
            bus,
            kept,
        })
    }
}
