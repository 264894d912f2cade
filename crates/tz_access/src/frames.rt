//! Frames over the bus: the words of entries and returns, which go through its checks.

ghost use Rattle.std.specs.Prelude.{◌≡◌, ◌+◌, ◌*◌, ◌<◌, ◌≤◌, true, MatchResult, Some, None};
ghost use Rattle.tz_table.specs.declared.units.Size.TheVariants.{Word};
ghost use Rattle.tz_model.specs.Ports.{always_aligned, as_running};
ghost use Rattle.tz_model.specs.Words.{wrap};
ghost use Rattle.tz_regs.specs.Banks.{of_side};
ghost use Rattle.tz_state.specs.Memory.{word_at, with_word};
ghost use Rattle.tz_state.specs.declared.request.Kind.TheVariants.{Read, Write};
ghost use Rattle.tz_state.specs.Access.{verdict, request_by};
ghost use Rattle.tz_state.specs.State.{with_memory};
ghost use Rattle.tz_frames.specs.Machine.{vector_verdict, in_map_alone};
ghost use Rattle.tz_access.specs.Written.{before_stores, noted_count};

use crate::bus::Bus;
use crate::place::Place;
use crate::written::Written;
use tz_frames::Frames;
use tz_model::{ALWAYS_ALIGNED, AS_RUNNING, Fault, Side, Size};
use tz_state::Asker;

/// Frames over the bus: made for one entry or return.
#[derive(Drop)]
pub struct BusFrames<'a> {
    pub bus: &'a mut Bus,
    /// The vector tables.
    pub vtor_s: u32,
    pub vtor_ns: u32,
    /// Secure code is privileged.
    pub secure_privileged: bool,
    /// The execution priority is below 0.
    pub negative: bool,
    /// What their stores overwrite, where that is noted, behind what those before them did.
    pub written: &'a mut Option<Written>,
}

/// The word of a vector table at an address.
fn vector_word(bus: &mut Bus, side: Side, addr: u32, negative: bool) -> Result<u32, Fault>
    ensures answer { MatchResult result
        (λ word. (vector_verdict bus.old.state side addr ≡ None) × (word ≡ word_at bus.old.state.memory addr))
        (λ fault. vector_verdict bus.old.state side addr ≡ Some fault) }
    ensures kept { bus.new.state ≡ bus.old.state }
{
    if !bus.touches(side, Size::Word, addr, negative) {
        return Err(Fault::Violation(addr));
    }
    match bus.read(addr, Size::Word) {
        Ok(word) => Ok(word),
        Err(_) => Err(Fault::Precise(addr)),
    }
}

/// An address in a vector table.
fn vector_at(vtor: u32, number: u16) -> u32
    ensures { result ≡ wrap (vtor + 4 * number) }
{
    vtor.wrapping_add(4 * u32::from(number))
}

/// Whose words a frame has.
fn framer(negative: bool, side: Side, privileged: bool) -> Asker
    ensures { result ≡ record { side = side; privileged = privileged; negative = negative; aligned = true } }
{
    Asker {
        side,
        privileged,
        negative,
        aligned: true,
    }
}

/// The vector table of a side.
fn of_side(side: Side, s: u32, ns: u32) -> u32
    ensures { result ≡ of_side side s ns }
{
    match side {
        Side::Secure => s,
        Side::NonSecure => ns,
    }
}

/// A word of a frame, which no private space has.
fn load_word(bus: &mut Bus, asker: &Asker, addr: u32) -> Result<u32, Fault>
    ensures answer { MatchResult result
        (λ word. (in_map_alone addr (verdict bus.old.state (request_by asker.now Read Word addr always_aligned as_running)) ≡ None) × (word ≡ word_at bus.old.state.memory addr))
        (λ fault. in_map_alone addr (verdict bus.old.state (request_by asker.now Read Word addr always_aligned as_running)) ≡ Some fault) }
    ensures kept { bus.new.state ≡ bus.old.state }
{
    match bus.load(asker, Size::Word, addr, ALWAYS_ALIGNED, AS_RUNNING) {
        Ok(Some(word)) => Ok(word),
        Ok(None) => Err(Fault::Precise(addr)),
        Err(fault) => Err(fault),
    }
}

/// Writes a word of a frame, which no private space has.
fn store_word(
    bus: &mut Bus,
    asker: &Asker,
    addr: u32,
    value: u32,
    written: &mut Option<Written>,
) -> Result<(), Fault>
    requires room { noted_count written.old < 40 }
    ensures answer { MatchResult result
        (λ _. (in_map_alone addr (verdict bus.old.state (request_by asker.now Write Word addr always_aligned as_running)) ≡ None) × (bus.new.state ≡ with_memory bus.old.state (with_word bus.old.state.memory addr value)))
        (λ fault. (in_map_alone addr (verdict bus.old.state (request_by asker.now Write Word addr always_aligned as_running)) ≡ Some fault) × (bus.new.state ≡ bus.old.state)) }
    ensures noted { before_stores written.new bus.new.state.memory ≡ before_stores written.old bus.old.state.memory }
    ensures few { noted_count written.new ≤ noted_count written.old + 1 }
{
    match bus.store(
        asker,
        Size::Word,
        addr,
        value,
        ALWAYS_ALIGNED,
        AS_RUNNING,
        written,
    ) {
        Ok(Place::Memory) => Ok(()),
        Ok(Place::System) => Err(Fault::Precise(addr)),
        Err(fault) => Err(fault),
    }
}

impl Frames for BusFrames<'_> {
    ghost use Rattle.std.specs.Prelude.{ℕ, ◌-◌, Option};
    ghost use Rattle.tz_state.specs.Memory.{Memory};
    ghost use Rattle.tz_frames.specs.Machine.{Framed, framed};

    ghost Held = { Framed };

    ghost held = { λ f. record { bus = f.bus.now.state; vtor_s = f.vtor_s; vtor_ns = f.vtor_ns; secure_privileged = f.secure_privileged; negative = f.negative } };

    ghost answer = { framed };

    ghost room = { λ f. 40 - noted_count f.written.now };

    ghost Lent = { ℕ × ℕ × Option Memory };

    ghost lent = { λ f. (f.bus.ghost_name, f.written.ghost_name, before_stores f.written.now f.bus.now.state.memory) };

    fn vector(&mut self, number: u16, side: Side) -> Result<u32, Fault> {
        let vtor = of_side(side, self.vtor_s, self.vtor_ns);
        vector_word(self.bus, side, vector_at(vtor, number), self.negative)
    }

    fn secure_load(&mut self, addr: u32) -> Result<u32, Fault> {
        let asker = framer(self.negative, Side::Secure, self.secure_privileged);
        load_word(self.bus, &asker, addr)
    }

    fn frame_load(&mut self, addr: u32, side: Side, privileged: bool) -> Result<u32, Fault> {
        let asker = framer(self.negative, side, privileged);
        load_word(self.bus, &asker, addr)
    }

    fn frame_store(
        &mut self,
        addr: u32,
        side: Side,
        privileged: bool,
        value: u32,
    ) -> Result<(), Fault> {
        let asker = framer(self.negative, side, privileged);
        store_word(self.bus, &asker, addr, value, self.written)
    }
}
