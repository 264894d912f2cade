//! Fetches (DDI0553, `FetchInstr`).

ghost use Rattle.std.specs.Prelude.{◌≡◌, ◌+◌, true, false, Err};
ghost use Rattle.tz_model.specs.Words.{wrap};
ghost use Rattle.tz_state.specs.Attribution.{fetch_attribution};
ghost use Rattle.tz_state.specs.Fetch.{is_own_byte, is_own_fetch, is_runnable, wrong_side, own_fetch, is_entry as is_entry_at, gateway_fetch, is_entry_fault, fetch, narrow, wide};
ghost use Rattle.tz_state.specs.declared.request.Kind.TheVariants as kinds;
ghost use Rattle.tz_state.specs.Protection.{permits};
ghost use Rattle.tz_state.specs.State.{map_in, mpu_of};
ghost use Rattle.tz_access.specs.Checks.{IsByBlocks, is_own};

use crate::bus::Bus;
use crate::look_up::Who;
use crate::span::is_one_block;
use tz_model::address_map::PRIVATE_FIRST;
use tz_model::{Code, Fault, FetchAnswer, Fetched, RegionSide, Side};
use tz_state::Fetcher;

/// Whether memory of this attribution is of a side.
fn is_own(side: Side, attributed: RegionSide) -> bool
    ensures { result ≡ is_own side attributed }
{
    let nonsecure = attributed == RegionSide::NonSecure;
    match side {
        Side::Secure => !nonsecure,
        Side::NonSecure => nonsecure,
    }
}

fn wrong_side(side: Side) -> Fault
    ensures { result ≡ wrong_side side }
{
    match side {
        Side::Secure => Fault::Transition,
        Side::NonSecure => Fault::EntryPoint,
    }
}

/// An instruction of one halfword.
fn narrow(first: u16) -> Fetched
    ensures { result ≡ narrow first }
{
    Fetched {
        code: Code {
            first,
            second: None,
        },
        gateway: false,
    }
}

/// An instruction of two.
fn wide(first: u16, second: u16, gateway: bool) -> Fetched
    ensures { result ≡ wide first second gateway }
{
    Fetched {
        code: Code {
            first,
            second: Some(second),
        },
        gateway,
    }
}

/// Whether a fault of Non-secure code is that its fetch met Secure memory.
fn is_entry_fault(fault: Fault) -> bool
    ensures { result ≡ is_entry_fault (Err fault) }
{
    matches!(fault, Fault::EntryPoint)
}

impl Bus {
    /// Fetches are of a side by blocks.
    fn know_own(&self, side: Side)
        ensures { IsByBlocks (is_own_byte (map_in self.now.state) side) }
    {
        self.know_regions();
        let _side = side;
    }

    /// Whether both bytes of a halfword are of the side that fetches it.
    #[tactic(auto, unfolding(tz_state::specs::Fetch::is_own_fetch))]
    pub fn is_own_fetch(&self, side: Side, addr: u32) -> bool
        ensures { result ≡ is_own_fetch (map_in self.now.state) side addr }
    {
        self.is_own_rest(side, addr, self.sau.fetch_attribution(side, addr))
    }

    /// Whether both bytes of a halfword are of the side that fetches it, by the attribution of its first.
    #[tactic(auto, unfolding(tz_state::specs::Fetch::is_own_fetch))]
    fn is_own_rest(&self, side: Side, addr: u32, attributed: RegionSide) -> bool
        requires { attributed ≡ fetch_attribution (map_in self.now.state) side addr }
        ensures { result ≡ is_own_fetch (map_in self.now.state) side addr }
    {
        is_own(side, attributed) && self.is_own_last(side, addr)
    }

    /// Whether both bytes of a halfword are of the side that fetches it, where its first is.
    #[tactic(auto, unfolding(tz_state::specs::Fetch::is_own_fetch))]
    fn is_own_last(&self, side: Side, addr: u32) -> bool
        requires { is_own_byte (map_in self.now.state) side addr ≡ true }
        ensures { result ≡ is_own_fetch (map_in self.now.state) side addr }
    {
        self.know_own(side);
        let last = addr.wrapping_add(1);
        is_one_block(addr, last) || is_own(side, self.sau.fetch_attribution(side, last))
    }

    /// Whether the second halfword at PC is of the side that fetches it, where the first is.
    #[tactic(auto, using(crate::proofs::Blocks::second_in_block), unfolding(tz_state::specs::Fetch::is_own_fetch))]
    fn is_second_own(&self, side: Side, pc: u32) -> bool
        requires { is_own_fetch (map_in self.now.state) side pc ≡ true }
        ensures { result ≡ is_own_fetch (map_in self.now.state) side (wrap (pc + 2)) }
    {
        self.know_own(side);
        is_one_block(pc, pc.wrapping_add(3)) || self.is_own_fetch(side, pc.wrapping_add(2))
    }

    /// Whether the MPU of a side lets code run at both bytes of a halfword.
    #[tactic(auto, unfolding(tz_state::specs::Fetch::is_runnable))]
    fn is_runnable(&self, side: Side, privileged: bool, negative: bool, addr: u32) -> bool
        ensures { result ≡ is_runnable self.now.state side privileged negative addr }
    {
        let last = addr.wrapping_add(1);
        self.lets_run(side, privileged, negative, addr)
            && (is_one_block(addr, last) || self.lets_run(side, privileged, negative, last))
    }

    /// Whether the MPU of the side that fetches lets code run at both bytes of the halfword at PC, by what it
    /// permits at the first.
    #[tactic(auto, unfolding(tz_state::specs::Fetch::is_runnable))]
    fn is_runnable_rest(&self, fetcher: &Fetcher, pc: u32, permitted: bool) -> bool
        requires { permitted ≡ permits self.now.state.board.profile (mpu_of fetcher.now.side self.now.state) pc kinds.Fetch fetcher.now.privileged fetcher.now.negative }
        ensures { result ≡ is_runnable self.now.state fetcher.now.side fetcher.now.privileged fetcher.now.negative pc }
    {
        let Fetcher {
            side,
            privileged,
            negative,
            ..
        } = *fetcher;
        let last = pc.wrapping_add(1);
        permitted
            && pc < PRIVATE_FIRST
            && (is_one_block(pc, last) || self.lets_run(side, privileged, negative, last))
    }

    /// Whether the MPU lets code run at the second halfword at PC, where it does at the first.
    #[tactic(auto, unfolding(tz_state::specs::Fetch::is_runnable))]
    fn is_second_runnable(&self, side: Side, privileged: bool, negative: bool, pc: u32) -> bool
        requires { is_runnable self.now.state side privileged negative pc ≡ true }
        ensures { result ≡ is_runnable self.now.state side privileged negative (wrap (pc + 2)) }
    {
        is_one_block(pc, pc.wrapping_add(3))
            || self.is_runnable(side, privileged, negative, pc.wrapping_add(2))
    }

    /// Whether Non-secure code may enter at the second halfword at PC, where it may at the first.
    fn is_second_entry(&self, pc: u32) -> bool
        requires { is_entry_at (map_in self.now.state) pc ≡ true }
        ensures { result ≡ is_entry_at (map_in self.now.state) (wrap (pc + 2)) }
    {
        self.know_regions();
        let next = pc.wrapping_add(2);
        is_one_block(pc, next)
            || self.sau.fetch_attribution(Side::NonSecure, next) == RegionSide::Nsc
    }

    /// The instruction at PC, where its first halfword is of the side that fetches it, by what the MPU of that side
    /// permits at PC.
    #[tactic(auto, unfolding(tz_state::specs::Fetch::own_fetch, tz_state::specs::Fetch::half_verdict))]
    #[inline(always)]
    fn own_fetch(&self, fetcher: &Fetcher, pc: u32, permitted: bool) -> Result<Fetched, Fault>
        requires own { is_own_fetch (map_in self.now.state) fetcher.now.side pc ≡ true }
        requires permitted { permitted ≡ permits self.now.state.board.profile (mpu_of fetcher.now.side self.now.state) pc kinds.Fetch fetcher.now.privileged fetcher.now.negative }
        ensures { result ≡ own_fetch self.now.state fetcher.now pc }
    {
        let Fetcher {
            side,
            privileged,
            negative,
            ..
        } = *fetcher;
        if !self.is_runnable_rest(fetcher, pc, permitted) {
            return Err(Fault::Exec(side));
        }
        let (first, second) = match self.memory.read_code(pc) {
            Err(_) => return Err(Fault::ExecBus),
            Ok(code) => code,
        };
        if first < 0xe800 {
            return Ok(narrow(first));
        }
        if !self.is_second_own(side, pc) {
            return Err(wrong_side(side));
        }
        if !self.is_second_runnable(side, privileged, negative, pc) {
            return Err(Fault::Exec(side));
        }
        match second {
            None => Err(Fault::ExecBus),
            Some(second) => Ok(wide(first, second, false)),
        }
    }

    /// SG, where Non-secure code runs into Secure memory at PC: all four bytes have to be callable.
    /// `is_entry` tells it of the first two.
    #[tactic(auto, unfolding(tz_state::specs::Fetch::gateway_fetch))]
    fn gateway_fetch(&self, fetcher: &Fetcher, pc: u32, is_entry: bool) -> Result<Fetched, Fault>
        requires { is_entry ≡ is_entry_at (map_in self.now.state) pc }
        ensures { result ≡ gateway_fetch self.now.state fetcher.now pc }
    {
        let Fetcher {
            secure_privileged: privileged,
            negative,
            ..
        } = *fetcher;
        if !(is_entry && self.is_second_entry(pc)) {
            return Err(Fault::EntryPoint);
        }
        if !(self.is_runnable(Side::Secure, privileged, negative, pc)
            && self.is_second_runnable(Side::Secure, privileged, negative, pc))
        {
            return Err(Fault::Exec(Side::Secure));
        }
        match self.memory.read_code(pc) {
            Ok((0xe97f, Some(0xe97f))) => Ok(wide(0xe97f, 0xe97f, true)),
            Ok((_, Some(_))) => Err(Fault::EntryPoint),
            Ok((_, None)) | Err(_) => Err(Fault::ExecBus),
        }
    }

    /// The answer where the first halfword at PC is of the side that fetches it.
    #[tactic(auto, unfolding(tz_state::specs::Fetch::fetch))]
    #[inline(always)]
    fn answer_own(&self, fetcher: &Fetcher, pc: u32, permitted: bool) -> FetchAnswer
        requires own { is_own_fetch (map_in self.now.state) fetcher.now.side pc ≡ true }
        requires permitted { permitted ≡ permits self.now.state.board.profile (mpu_of fetcher.now.side self.now.state) pc kinds.Fetch fetcher.now.privileged fetcher.now.negative }
        ensures { result ≡ fetch self.now.state fetcher.now pc }
    {
        match self.own_fetch(fetcher, pc, permitted) {
            Ok(fetched) => FetchAnswer {
                touched: fetcher.side == Side::Secure,
                answer: Ok(fetched),
            },
            Err(fault) => FetchAnswer {
                touched: fetcher.side == Side::Secure || is_entry_fault(fault),
                answer: Err(fault),
            },
        }
    }

    /// The answer where the first halfword at PC isn't: SG is all that may stand there, for Non-secure code.
    #[tactic(auto, unfolding(tz_state::specs::Fetch::fetch, tz_state::specs::Fetch::own_fetch, tz_state::specs::Fetch::half_verdict))]
    fn answer_foreign(&self, fetcher: &Fetcher, pc: u32, attributed: RegionSide) -> FetchAnswer
        requires foreign { is_own_fetch (map_in self.now.state) fetcher.now.side pc ≡ false }
        requires attributed { attributed ≡ fetch_attribution (map_in self.now.state) fetcher.now.side pc }
        ensures { result ≡ fetch self.now.state fetcher.now pc }
    {
        FetchAnswer {
            touched: true,
            answer: match fetcher.side {
                Side::Secure => Err(Fault::Transition),
                Side::NonSecure => self.gateway_fetch(fetcher, pc, attributed == RegionSide::Nsc),
            },
        }
    }

    /// The answer where nothing is kept of the block at PC. What the units say of it is kept then, unless it is the
    /// other side's.
    #[tactic(auto, unfolding(tz_state::specs::Fetch::is_own_fetch))]
    #[inline(never)]
    fn fetch_anew(
        &mut self,
        pc: u32,
        side: Side,
        privileged: bool,
        secure_privileged: bool,
        negative: bool,
    ) -> FetchAnswer
        ensures answer { result ≡ fetch self.old.state (record { side = side; privileged = privileged; secure_privileged = secure_privileged; negative = negative }) pc }
        ensures kept { self.new.state ≡ self.old.state }
    {
        let fetcher = Fetcher {
            side,
            privileged,
            secure_privileged,
            negative,
        };
        let attributed = self.sau.fetch_attribution(side, pc);
        if !self.is_own_rest(side, pc, attributed) {
            return self.answer_foreign(&fetcher, pc, attributed);
        }
        let who = Who {
            fetch: true,
            side,
            privileged,
            negative,
        };
        let found = self.learn(pc, who, true);
        self.answer_own(&fetcher, pc, found.permitted.execute)
    }

    /// The instruction at PC, or its fault, and whether the fetch met Secure memory; who fetches is told as to `fetch`. These
    /// are words of their own, since a struct of them would be packed and taken apart again at each step.
    #[inline(always)]
    pub fn fetch_told(
        &mut self,
        pc: u32,
        side: Side,
        privileged: bool,
        secure_privileged: bool,
        negative: bool,
    ) -> FetchAnswer
        ensures answer { result ≡ fetch self.old.state (record { side = side; privileged = privileged; secure_privileged = secure_privileged; negative = negative }) pc }
        ensures kept { self.new.state ≡ self.old.state }
    {
        let who = Who {
            fetch: true,
            side,
            privileged,
            negative,
        };
        if let Some(found) = self.find(pc, who) {
            if found.admitted && self.is_own_last(side, pc) {
                let fetcher = Fetcher {
                    side,
                    privileged,
                    secure_privileged,
                    negative,
                };
                return self.answer_own(&fetcher, pc, found.permitted.execute);
            }
        }
        self.fetch_anew(pc, side, privileged, secure_privileged, negative)
    }

    /// The instruction at PC for code of a side, as tests ask for it. `secure_privileged` says that Secure code would be
    /// privileged, which a gateway asks; `negative` that the execution priority is below 0. It changes
    /// nothing but what is kept of look-ups.
    ///
    /// # Errors
    ///
    /// INVTRAN, INVEP, IACCVIOL or IBUSERR, the first check that fails.
    pub fn fetch(
        &mut self,
        pc: u32,
        side: Side,
        privileged: bool,
        secure_privileged: bool,
        negative: bool,
    ) -> Result<Fetched, Fault>
        ensures answer { result ≡ (fetch self.old.state (record { side = side; privileged = privileged; secure_privileged = secure_privileged; negative = negative }) pc).answer }
        ensures kept { self.new.state ≡ self.old.state }
    {
        self.fetch_told(pc, side, privileged, secure_privileged, negative)
            .answer
    }
}
