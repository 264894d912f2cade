//! Data accesses: alignment, attribution, protection, the map, in this order.

ghost use Rattle.std.specs.Prelude.{◌≡◌, ◌+◌, ◌/◌, ◌<◌, ◌≤◌, MatchResult, None, Some, true, false, if◌then◌else◌};
ghost use Rattle.tz_state.specs.declared.request.Kind.TheVariants.{Read, Write};
ghost use Rattle.tz_state.specs.Memory.{every, value_at, with_value};
ghost use Rattle.tz_state.specs.State.{map_in, with_memory};
ghost use Rattle.tz_state.specs.Access.{is_aligned, is_crooked, may_touch, is_let, is_accessible, is_private, verdict, request_by};
ghost use Rattle.tz_access.specs.Checks.{is_system, last_of, place_verdict};
ghost use Rattle.tz_access.specs.Places.{Holds};
ghost use Rattle.tz_access.specs.Written.{before_stores, noted_count};

use crate::bus::Bus;
use crate::looking::Passes;
use crate::place::Place;
use crate::span::{is_one_block, last_of};
use crate::units::is_private;
use crate::written::Written;
use tz_model::address_map::PRIVATE_FIRST;
use tz_model::{Fault, Side, Size};
use tz_state::{Asker, Kind, Request};

/// Whether an address is a multiple of a size.
pub fn is_aligned(size: Size, addr: u32) -> bool
    ensures { result ≡ is_aligned size addr }
{
    match size {
        Size::Byte => true,
        Size::Half => addr % 2 == 0,
        Size::Word => addr % 4 == 0,
    }
}

/// Whether an access has to be aligned and isn't.
fn is_crooked(size: Size, addr: u32, must_align: bool) -> bool
    ensures { result ≡ is_crooked size addr must_align }
{
    !is_aligned(size, addr) && (must_align || addr >= PRIVATE_FIRST)
}

/// An access of the code that asks.
fn request_by(
    asker: &Asker,
    kind: Kind,
    size: Size,
    addr: u32,
    must_align: bool,
    user: bool,
) -> Request
    ensures { result ≡ request_by asker.now kind size addr must_align user }
{
    Request {
        addr,
        size,
        kind,
        side: asker.side,
        privileged: asker.privileged && !user,
        negative: asker.negative,
        must_align: must_align || asker.aligned,
    }
}

impl Bus {
    /// Whether attribution lets code of a side access each byte.
    #[tactic(auto, unfolding(tz_state::specs::Access::may_touch))]
    #[inline(never)]
    pub fn may_touch(&self, side: Side, size: Size, addr: u32) -> bool
        ensures { result ≡ may_touch (map_in self.now.state) side size addr }
    {
        match side {
            Side::Secure => true,
            Side::NonSecure => {
                let last = last_of(size, addr);
                self.is_open(addr) && (is_one_block(addr, last) || self.is_open(last))
            }
        }
    }

    /// Whether the MPU lets an access have each byte.
    #[tactic(auto, using(crate::proofs::Blocks::every_by_ends), unfolding(tz_state::specs::Access::is_let))]
    #[inline(never)]
    pub(crate) fn is_let(&self, request: &Request) -> bool
        ensures { result ≡ is_let self.now.state request.now }
    {
        let last = last_of(request.size, request.addr);
        self.lets(request, request.addr)
            && (is_one_block(request.addr, last) || self.lets(request, last))
    }

    /// Whether the map takes each byte of an access.
    fn all_taken(&self, kind: Kind, size: Size, addr: u32) -> bool
        ensures { result ≡ every (is_accessible self.now.state.board.regions kind) addr size }
    {
        let last = last_of(size, addr);
        self.is_accessible(kind, addr)
            && (is_one_block(addr, last) || self.is_accessible(kind, last))
    }

    /// All checks of an access but the map's.
    #[tactic(auto, unfolding(tz_state::specs::Access::verdict))]
    #[inline(always)]
    fn guard(&mut self, request: &Request) -> Result<Place, Fault>
        ensures verdict { MatchResult result
            (λ place. (verdict self.old.state request.now ≡ place_verdict place self.old.state request.now) × (is_system place ≡ is_private request.now.addr))
            (λ fault. verdict self.old.state request.now ≡ Some fault) }
        ensures holds { request.now.addr < 0xE0000000 → request.now.addr / 32 ≡ last_of request.now.size request.now.addr / 32 → is_crooked request.now.size request.now.addr request.now.must_align ≡ false → Holds self.new.kept request.now }
        ensures kept { self.new.state ≡ self.old.state }
    {
        let addr = request.addr;
        if is_crooked(request.size, addr, request.must_align) {
            return Err(Fault::Unaligned);
        }
        let Passes { touches, is_let } = self.passes(request);
        if !touches {
            return Err(Fault::Violation(addr));
        }
        if !is_let {
            return Err(Fault::DataAccess(addr, request.side));
        }
        if !is_private(addr) {
            return Ok(Place::Memory);
        }
        if request.privileged {
            return Ok(Place::System);
        }
        Err(Fault::Precise(addr))
    }

    /// All checks of an access (DDI0553, `MemA`, `MemU`), in their order: alignment, attribution, protection,
    /// the map. Ok tells where its bytes are. It reads no byte and changes nothing but what is kept: where the bytes
    /// lie in one block below private space, that is the look-up for this access, unless it is refused as unaligned.
    ///
    /// # Errors
    ///
    /// UNALIGNED, AUVIOL, DACCVIOL or PRECISERR, the first check that fails.
    pub fn check(&mut self, request: &Request) -> Result<Place, Fault>
        ensures holds { request.now.addr < 0xE0000000 → request.now.addr / 32 ≡ last_of request.now.size request.now.addr / 32 → is_crooked request.now.size request.now.addr request.now.must_align ≡ false → Holds self.new.kept request.now }
        ensures verdict { MatchResult result
            (λ place. (verdict self.old.state request.now ≡ None) × (is_system place ≡ is_private request.now.addr))
            (λ fault. verdict self.old.state request.now ≡ Some fault) }
        ensures kept { self.new.state ≡ self.old.state }
    {
        match self.guard(request)? {
            Place::System => Ok(Place::System),
            Place::Memory => {
                if self.all_taken(request.kind, request.size, request.addr) {
                    Ok(Place::Memory)
                } else {
                    Err(Fault::Precise(request.addr))
                }
            }
        }
    }

    /// A load of the code that asks: what memory holds, and none in private space, where the system registers are.
    ///
    /// # Errors
    ///
    /// UNALIGNED, AUVIOL, DACCVIOL or PRECISERR, the first check that fails.
    #[inline(always)]
    pub fn load(
        &mut self,
        asker: &Asker,
        size: Size,
        addr: u32,
        must_align: bool,
        user: bool,
    ) -> Result<Option<u32>, Fault>
        ensures answer { MatchResult result
            (λ found. (verdict self.old.state (request_by asker.now Read size addr must_align user) ≡ None) × (found ≡ (if is_private addr then None else Some (value_at self.old.state.memory size addr))))
            (λ fault. verdict self.old.state (request_by asker.now Read size addr must_align user) ≡ Some fault) }
        ensures kept { self.new.state ≡ self.old.state }
    {
        let request = request_by(asker, Kind::Read, size, addr, must_align, user);
        match self.guard(&request)? {
            Place::System => Ok(None),
            Place::Memory => match self.memory.read(addr, size) {
                Err(_) => Err(Fault::Precise(addr)),
                Ok(value) => Ok(Some(value)),
            },
        }
    }

    /// A store of the low part of a number by the code that asks. In private space, where the system registers
    /// are, nothing is written; nor does anything change on an error. What it overwrites is noted, where that is
    /// wanted.
    ///
    /// # Errors
    ///
    /// UNALIGNED, AUVIOL, DACCVIOL or PRECISERR, the first check that fails.
    #[inline(always)]
    pub fn store(
        &mut self,
        asker: &Asker,
        size: Size,
        addr: u32,
        value: u32,
        must_align: bool,
        user: bool,
        written: &mut Option<Written>,
    ) -> Result<Place, Fault>
        requires room { noted_count written.old < 40 }
        ensures answer { MatchResult result
            (λ place. (verdict self.old.state (request_by asker.now Write size addr must_align user) ≡ None) × (is_system place ≡ is_private addr) × (self.new.state ≡ (if is_private addr then self.old.state else with_memory self.old.state (with_value self.old.state.memory size addr value))))
            (λ fault. (verdict self.old.state (request_by asker.now Write size addr must_align user) ≡ Some fault) × (self.new.state ≡ self.old.state)) }
        ensures noted { before_stores written.new self.new.state.memory ≡ before_stores written.old self.old.state.memory }
        ensures few { noted_count written.new ≤ noted_count written.old + 1 }
        ensures unnoted { is_private addr ≡ true → written.new ≡ written.old }
    {
        let request = request_by(asker, Kind::Write, size, addr, must_align, user);
        match self.guard(&request)? {
            Place::System => Ok(Place::System),
            Place::Memory => match self.write_noted(addr, size, value, written) {
                Err(_) => Err(Fault::Precise(addr)),
                Ok(()) => Ok(Place::Memory),
            },
        }
    }
}
