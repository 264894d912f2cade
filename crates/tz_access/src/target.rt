//! TT: what the units tell of an address (DDI0553, `TTResp`).

ghost use Rattle.std.specs.Prelude.{◌≡◌, ◌*◌, ◌≤◌};
ghost use Rattle.tz_regs.specs.Special.{number_of};
ghost use Rattle.tz_state.specs.Target.{examined, learns, may, told_at, mregion, common_part, sregion, is_open_to, secure_part, target_word};
ghost use Rattle.tz_state.specs.Attribution.{idau_region};
ghost use Rattle.tz_state.specs.TargetBits.{tt_mregion, tt_mrvalid, tt_sregion, tt_srvalid, tt_iregion, tt_irvalid};

use crate::bus::Bus;
use tz_model::Side;
use tz_state::{Kind, Probe};

// The bits of the word, each as the word that has it alone; a field is told by its lowest bit.
const TT_SREGION: u32 = 1 << 8;

const TT_MRVALID: u32 = 1 << 16;

const TT_SRVALID: u32 = 1 << 17;

const TT_R: u32 = 1 << 18;

const TT_RW: u32 = 1 << 19;

const TT_NSR: u32 = 1 << 20;

const TT_NSRW: u32 = 1 << 21;

const TT_S: u32 = 1 << 22;

const TT_IRVALID: u32 = 1 << 23;

const TT_IREGION: u32 = 1 << 24;

/// What the SAU and the board tell of an address.
#[derive(Clone, Copy)]
struct Attributed {
    sregion: Option<u8>,
    iregion: Option<u8>,
    nonsecure: bool,
}

/// A bit of the word, which tells a flag.
fn flag(bit: u32, on: bool) -> u32
    ensures value { result ≡ bit * number_of on }
    ensures fits { result ≤ bit }
{
    if on { bit } else { 0 }
}

/// MREGION, the lowest field, and MRVALID.
fn mregion_bits(region: Option<u8>) -> u32
    ensures value { result ≡ told_at tt_mregion tt_mrvalid region }
    ensures fits { result ≤ 0x100FF }
{
    match region {
        None => 0,
        Some(number) => u32::from(number) + TT_MRVALID,
    }
}

/// SREGION and SRVALID.
fn sregion_bits(region: Option<u8>) -> u32
    ensures value { result ≡ told_at tt_sregion tt_srvalid region }
    ensures fits { result ≤ 0x2FF00 }
{
    match region {
        None => 0,
        Some(number) => u32::from(number) * TT_SREGION + TT_SRVALID,
    }
}

/// IREGION and IRVALID.
fn iregion_bits(region: Option<u8>) -> u32
    ensures value { result ≡ told_at tt_iregion tt_irvalid region }
    ensures fits { result ≤ 0xFF800000 }
{
    match region {
        None => 0,
        Some(number) => u32::from(number) * TT_IREGION + TT_IRVALID,
    }
}

/// The state whose MPU is asked.
fn examined(side: Side, alternate: bool) -> Side
    ensures { result ≡ examined side alternate }
{
    match side {
        Side::NonSecure => Side::NonSecure,
        Side::Secure => {
            if alternate {
                Side::NonSecure
            } else {
                Side::Secure
            }
        }
    }
}

/// Whether what the MPU tells is told.
fn learns(probe: &Probe) -> bool
    ensures { result ≡ learns probe.now }
{
    probe.privileged || probe.alternate
}

impl Bus {
    /// Whether an access of a kind is permitted.
    fn may(&self, probe: &Probe, kind: Kind) -> bool
        ensures { result ≡ may self.now.state probe.now kind }
    {
        learns(probe)
            && self.permits(
                examined(probe.side, probe.alternate),
                probe.addr,
                kind,
                probe.privileged && !probe.user,
                probe.negative,
            )
    }

    /// The region of the MPU.
    fn mregion(&self, probe: &Probe) -> Option<u8>
        ensures { result ≡ mregion self.now.state probe.now }
    {
        if learns(probe) {
            self.mpu(examined(probe.side, probe.alternate))
                .examine(probe.addr, probe.negative)
        } else {
            None
        }
    }

    /// What every state learns: MREGION, R and RW.
    fn common_part(&self, probe: &Probe) -> u32
        ensures value { result ≡ common_part self.now.state probe.now }
        ensures fits { result ≤ 0xD00FF }
    {
        mregion_bits(self.mregion(probe))
            + flag(TT_R, self.may(probe, Kind::Read))
            + flag(TT_RW, self.may(probe, Kind::Write))
    }

    /// What the SAU and the board tell: SREGION, IREGION, and whether the address is Non-secure.
    #[tactic(auto, unfolding(tz_state::specs::Attribution::attribution))]
    fn attributed(&self, probe: &Probe) -> Attributed
        ensures sregion { result.sregion ≡ sregion self.now.state probe.now }
        ensures iregion { result.iregion ≡ idau_region 0 self.now.state.board.regions probe.now.addr }
        ensures nonsecure { result.nonsecure ≡ is_open_to self.now.state probe.now }
    {
        let attribute = self.sau.attribute(probe.addr, false, probe.side);
        Attributed {
            sregion: attribute.sregion,
            iregion: attribute.iregion,
            nonsecure: attribute.side == Side::NonSecure,
        }
    }

    /// What Secure state learns beside it: SREGION, NSR, NSRW, S and IREGION.
    fn secure_part(&self, probe: &Probe) -> u32
        ensures value { result ≡ secure_part self.now.state probe.now }
        ensures fits { result ≤ 0xFFF2FF00 }
    {
        let told = self.attributed(probe);
        sregion_bits(told.sregion)
            + flag(TT_NSR, self.may(probe, Kind::Read) & told.nonsecure)
            + flag(TT_NSRW, self.may(probe, Kind::Write) & told.nonsecure)
            + flag(TT_S, !told.nonsecure)
            + iregion_bits(told.iregion)
    }

    /// What TT tells code of a side about an address. `privileged` is its privilege in the state whose MPU is
    /// asked, which is the Non-secure one with `alternate`; `user` asks for an access without privilege;
    /// `negative` says that the execution priority is below 0.
    #[tactic(auto, unfolding(tz_state::specs::Target::target_word))]
    pub fn test_target(
        &self,
        addr: u32,
        side: Side,
        privileged: bool,
        negative: bool,
        alternate: bool,
        user: bool,
    ) -> u32
        ensures { result ≡ target_word self.now.state (record { addr = addr; side = side; privileged = privileged; negative = negative; alternate = alternate; user = user }) }
    {
        let probe = Probe {
            addr,
            side,
            privileged,
            negative,
            alternate,
            user,
        };
        let common = self.common_part(&probe);
        match side {
            Side::NonSecure => common,
            Side::Secure => common + self.secure_part(&probe),
        }
    }
}
