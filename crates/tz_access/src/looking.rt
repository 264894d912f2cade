//! Look-ups by blocks: what attribution and an MPU say of a byte is asked of them once for its block, and then told
//! from what is kept, as long as no register of theirs is written.

ghost use Rattle.std.specs.Prelude.{◌≡◌, ◌/◌, ◌<◌, ◌≤◌, IfSome, None, false, option_map};
ghost use Rattle.tz_state.specs.Access.{may_touch, is_let};
ghost use Rattle.tz_state.specs.State.{map_in};
ghost use Rattle.tz_access.specs.Kept.{IsKept, told_of};
ghost use Rattle.tz_access.specs.Checks.{last_of};
ghost use Rattle.tz_access.specs.Places.{kept_at, with_look_up, for_data, found_in, IsHeld, Holds};
ghost use Rattle.tz_access.specs.LookUps.{Tells, admits, admits_data, guards_of};

use crate::bus::Bus;
use crate::look_up::{LookUp, Who, key_of, permits, who_of};
use crate::span::{is_one_block, last_of};
use tz_model::address_map::PRIVATE_FIRST;
use tz_model::{Side, Size};
use tz_state::{Attribute, Request};

/// A look-up that is kept: what attribution and the MPU of a side say of a block of 32 bytes, to who asks for it.
#[derive(Clone, Copy)]
pub struct Kept {
    /// The address of each of its bytes, divided by 32.
    pub block: u32,
    /// As code, or as data.
    pub fetch: bool,
    pub side: Side,
    pub privileged: bool,
    /// The execution priority is below 0.
    pub negative: bool,
    pub attribute: Attribute,
    pub read: bool,
    pub write: bool,
    pub execute: bool,
}

/// What attribution and protection say of an access.
#[derive(Clone, Copy)]
pub(crate) struct Passes {
    pub(crate) touches: bool,
    pub(crate) is_let: bool,
}

/// Who asks for bytes as data.
#[inline(always)]
fn for_data(side: Side, privileged: bool, negative: bool) -> Who
    ensures { result ≡ for_data side privileged negative }
{
    Who {
        fetch: false,
        side,
        privileged,
        negative,
    }
}

impl Bus {
    /// The look-up that is kept at a place, of which there are 16: the one of a block as data, or else as code. The
    /// place of a block is that of its number, modulo 16. Nothing is kept of it where nobody asked, where another
    /// look-up came there, or where a register of the SAU or of an MPU has been written since. Tests are its users.
    pub fn kept(&self, index: usize) -> Option<Kept>
        ensures kept { result ≡ option_map (told_of self.now.state) (kept_at self.now.kept index) }
        ensures past { 16 ≤ index → result ≡ None }
        ensures told { IfSome result (λ k. IsKept self.now.state index k) }
    {
        let LookUp {
            block,
            key,
            permitted,
            ..
        } = self.kept.at(index)?;
        let who = who_of(key);
        Some(Kept {
            block,
            fetch: who.fetch,
            side: who.side,
            privileged: who.privileged,
            negative: who.negative,
            attribute: self.sau.attribute(block * 32, who.fetch, who.side),
            read: permitted.read,
            write: permitted.write,
            execute: permitted.execute,
        })
    }

    /// What is kept of the block of a byte, for who asks.
    #[inline(always)]
    pub(crate) fn find(&self, addr: u32, who: Who) -> Option<LookUp>
        ensures told { IfSome result (λ k. Tells (guards_of self.now.state) who addr k) }
        ensures held { IfSome result (λ k. IsHeld self.now.kept who (addr / 32) k) }
        ensures found { result ≡ found_in self.now.kept who (addr / 32) }
    {
        self.kept.find(addr / 32, who)
    }

    /// Keeps what the units say of the block of a byte, of which attribution has been asked.
    pub(crate) fn learn(&mut self, addr: u32, who: Who, admitted: bool) -> LookUp
        requires { admitted ≡ admits (guards_of self.old.state) who addr }
        ensures told { Tells (guards_of self.old.state) who addr result }
        ensures held { IsHeld self.new.kept who (addr / 32) result }
        ensures places { self.new.kept ≡ with_look_up who.fetch self.old.kept result }
        ensures kept { self.new.state ≡ self.old.state }
    {
        self.know_regions();
        let permitted = self
            .mpu(who.side)
            .permitted(addr, who.privileged, who.negative);
        let key = key_of(who);
        let look_up = LookUp {
            block: addr / 32,
            key,
            admitted,
            permitted,
        };
        self.kept.keep(look_up, who.fetch);
        look_up
    }

    /// Whether attribution lets code of a side have a byte as data.
    fn admits_data(&self, side: Side, addr: u32) -> bool
        ensures { result ≡ admits_data side (map_in self.now.state) addr }
    {
        match side {
            Side::Secure => true,
            Side::NonSecure => self.is_open(addr),
        }
    }

    /// What the units say of a byte as data, of whose block nothing is kept. It is a call, so that where something is
    /// kept little is done.
    #[inline(never)]
    fn look_up_anew(&mut self, addr: u32, who: Who) -> LookUp
        requires { who.fetch ≡ false }
        ensures told { Tells (guards_of self.old.state) who addr result }
        ensures held { IsHeld self.new.kept who (addr / 32) result }
        ensures kept { self.new.state ≡ self.old.state }
    {
        let admitted = self.admits_data(who.side, addr);
        self.learn(addr, who, admitted)
    }

    /// What the units say of a byte as data.
    #[inline(always)]
    pub(crate) fn look_up(&mut self, addr: u32, who: Who) -> LookUp
        requires { who.fetch ≡ false }
        ensures told { Tells (guards_of self.old.state) who addr result }
        ensures held { IsHeld self.new.kept who (addr / 32) result }
        ensures kept { self.new.state ≡ self.old.state }
    {
        match self.find(addr, who) {
            Some(found) => found,
            None => self.look_up_anew(addr, who),
        }
    }

    /// What attribution and protection say of an access for which nothing is kept. The access is a copy, so that one
    /// for which something is kept needn't stand in memory.
    fn passes_anew(&self, request: Request) -> Passes
        ensures touches { result.touches ≡ may_touch (map_in self.now.state) request.side request.size request.addr }
        ensures is_let { result.is_let ≡ is_let self.now.state request }
    {
        Passes {
            touches: self.may_touch(request.side, request.size, request.addr),
            is_let: self.is_let(&request),
        }
    }

    /// What attribution and protection say of an access.
    #[tactic(auto, using(crate::proofs::LookUps::touch_in_block, crate::proofs::LookUps::let_in_block))]
    #[inline(always)]
    pub(crate) fn passes(&mut self, request: &Request) -> Passes
        ensures touches { result.touches ≡ may_touch (map_in self.old.state) request.now.side request.now.size request.now.addr }
        ensures is_let { result.is_let ≡ is_let self.old.state request.now }
        ensures holds { request.now.addr < 0xE0000000 → request.now.addr / 32 ≡ last_of request.now.size request.now.addr / 32 → Holds self.new.kept request.now }
        ensures kept { self.new.state ≡ self.old.state }
    {
        let Request {
            addr,
            size,
            kind,
            side,
            privileged,
            negative,
            ..
        } = *request;
        if addr < PRIVATE_FIRST && is_one_block(addr, last_of(size, addr)) {
            self.know_regions();
            let who = Who {
                fetch: false,
                side,
                privileged,
                negative,
            };
            // (each arm tells by itself, since a look-up in which both met would be copied)
            match self.find(addr, who) {
                Some(found) => Passes {
                    touches: found.admitted,
                    is_let: permits(found.permitted, kind),
                },
                None => {
                    let found = self.look_up_anew(addr, who);
                    Passes {
                        touches: found.admitted,
                        is_let: permits(found.permitted, kind),
                    }
                }
            }
        } else {
            self.passes_anew(*request)
        }
    }

    /// Whether attribution lets code of a side access each byte, as `may_touch` tells it.
    #[tactic(auto, using(crate::proofs::LookUps::touch_in_block))]
    pub(crate) fn touches(&mut self, side: Side, size: Size, addr: u32, negative: bool) -> bool
        ensures touches { result ≡ may_touch (map_in self.old.state) side size addr }
        ensures kept { self.new.state ≡ self.old.state }
    {
        if side == Side::NonSecure
            && addr < PRIVATE_FIRST
            && is_one_block(addr, last_of(size, addr))
        {
            self.know_regions();
            let found = self.look_up(addr, for_data(side, true, negative));
            found.admitted
        } else {
            self.may_touch(side, size, addr)
        }
    }
}
