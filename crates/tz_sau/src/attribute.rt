//! The attribution of an address (DDI0553, `SecurityCheck`).

ghost use Rattle.std.specs.Prelude.{◌≡◌, ◌≤◌, length};
ghost use Rattle.tz_model.specs.Board.{within, is_callable};
ghost use Rattle.tz_state.specs.Attribution.{more_secure, own_side, side_by_regions, is_exempt, side_told, has_fixed_attribution, attributed, attribution, data_attribution, fetch_attribution, mapped_side, sau_side, sau_region};
ghost use Rattle.tz_state.specs.Regions.{the_only};
ghost use Rattle.tz_sau.specs.Unit.{map_by};

use crate::idau::{IdauWord, idau_word};
use crate::scan::{Holders, find_holders};
use crate::unit::Sau;
use tz_model::address_map::{
    ETM_LAST, FPB_LAST, ITM_FIRST, PRIVATE_FIRST, ROM_TABLE_FIRST, ROM_TABLE_LAST, SCS_FIRST,
    SCS_LAST, SCS_NS_FIRST, SCS_NS_LAST, SECURE_CODE_FIRST, TPIU_FIRST,
};
use tz_model::{RegionSide, Side};
use tz_state::Attribute;
use tz_state::unit_bits::{SAU_CTRL_ALLNS, SAU_RLAR_NSC};

/// What the SAU says of an address.
#[derive(Clone, Copy)]
struct SauWord {
    side: RegionSide,
    /// The number of the one region that holds the address.
    region: Option<u8>,
}

/// Whether an address is from `low` to `high`.
fn within(low: u32, high: u32, addr: u32) -> bool
    ensures { result ≡ within low high addr }
{
    low <= addr && addr <= high
}

/// The more secure of two attributions.
fn more_secure(left: RegionSide, right: RegionSide) -> RegionSide
    ensures { result ≡ more_secure left right }
{
    match left {
        RegionSide::Secure => RegionSide::Secure,
        RegionSide::NonSecure => right,
        RegionSide::Nsc => match right {
            RegionSide::Secure => RegionSide::Secure,
            _ => RegionSide::Nsc,
        },
    }
}

/// The attribution of what has the state of who asks for it.
fn own_side(side: Side) -> RegionSide
    ensures { result ≡ own_side side }
{
    match side {
        Side::Secure => RegionSide::Secure,
        Side::NonSecure => RegionSide::NonSecure,
    }
}

/// Whether data at an address of the private peripheral space has the state of who asks for it.
fn is_exempt(addr: u32) -> bool
    ensures { result ≡ is_exempt addr }
{
    addr >= PRIVATE_FIRST
        && (within(ITM_FIRST, FPB_LAST, addr)
            || within(SCS_FIRST, SCS_LAST, addr)
            || within(SCS_NS_FIRST, SCS_NS_LAST, addr)
            || within(TPIU_FIRST, ETM_LAST, addr)
            || within(ROM_TABLE_FIRST, ROM_TABLE_LAST, addr))
}

/// Callable memory is Secure memory.
fn side_told(side: RegionSide) -> Side
    ensures { result ≡ side_told side }
{
    match side {
        RegionSide::NonSecure => Side::NonSecure,
        _ => Side::Secure,
    }
}

/// Whether neither the SAU nor the board decides the attribution of an address.
fn has_fixed_attribution(fetch: bool, addr: u32) -> bool
    ensures { result ≡ has_fixed_attribution fetch addr }
{
    if fetch {
        addr >= PRIVATE_FIRST
    } else {
        is_exempt(addr)
    }
}

impl Sau {
    ghost use Rattle.tz_state.specs.Attribution.{idau_side, idau_region};

    /// The SAU's word on an address.
    #[tactic(auto, unfolding(tz_state::specs::Attribution::sau_side, tz_state::specs::Attribution::sau_region))]
    fn sau_word(&self, addr: u32) -> SauWord
        ensures side { result.side ≡ sau_side self.now.sau addr }
        ensures region { result.region ≡ sau_region self.now.sau addr }
    {
        if self.ctrl % 2 == 0 {
            return SauWord {
                side: if self.ctrl / SAU_CTRL_ALLNS % 2 == 1 {
                    RegionSide::NonSecure
                } else {
                    RegionSide::Secure
                },
                region: None,
            };
        }
        match find_holders(&self.bounds, addr) {
            Holders::One(number, region) => SauWord {
                side: if region.rlar / SAU_RLAR_NSC % 2 == 1 {
                    RegionSide::Nsc
                } else {
                    RegionSide::NonSecure
                },
                region: Some(number),
            },
            _ => SauWord {
                side: RegionSide::Secure,
                region: None,
            },
        }
    }

    /// The board's word on an address.
    fn idau_word(&self, addr: u32) -> IdauWord
        ensures side { result.side ≡ idau_side self.now.regions addr }
        ensures region { result.region ≡ idau_region 0 self.now.regions addr }
    {
        idau_word(&self.regions[..self.region_count], addr)
    }

    /// The more secure of the SAU's word and the board's. The SAU isn't asked where the board says Secure.
    #[tactic(auto, using(crate::proofs::Secured::secure_stays), unfolding(tz_state::specs::Attribution::mapped_side))]
    fn mapped_side(&self, addr: u32) -> RegionSide
        ensures { result ≡ mapped_side (map_by self.now) addr }
    {
        match self.idau_word(addr).side {
            RegionSide::Secure => RegionSide::Secure,
            side => more_secure(self.sau_word(addr).side, side),
        }
    }

    /// The attribution of an address as data, for code of a side.
    #[tactic(auto, unfolding(tz_state::specs::Attribution::data_attribution))]
    pub fn data_attribution(&self, side: Side, addr: u32) -> RegionSide
        ensures { result ≡ data_attribution (map_by self.now) side addr }
    {
        if is_exempt(addr) {
            own_side(side)
        } else {
            self.mapped_side(addr)
        }
    }

    /// The attribution of an address as code, for code of a side.
    #[tactic(auto, unfolding(tz_state::specs::Attribution::fetch_attribution))]
    pub fn fetch_attribution(&self, side: Side, addr: u32) -> RegionSide
        ensures { result ≡ fetch_attribution (map_by self.now) side addr }
    {
        if addr >= SECURE_CODE_FIRST {
            RegionSide::Secure
        } else if addr >= PRIVATE_FIRST {
            own_side(side)
        } else {
            self.mapped_side(addr)
        }
    }

    /// The whole word on an address, as code or as data, for code of a side.
    #[tactic(auto, unfolding(tz_state::specs::Attribution::attribution, tz_state::specs::Attribution::mapped_side, tz_state::specs::Attribution::data_attribution, tz_state::specs::Attribution::fetch_attribution))]
    pub fn attribute(&self, addr: u32, fetch: bool, side: Side) -> Attribute
        ensures { result ≡ attribution (map_by self.now) fetch side addr }
    {
        let fixed = has_fixed_attribution(fetch, addr);
        let sau = self.sau_word(addr);
        let idau = self.idau_word(addr);
        let attributed = if !fixed {
            more_secure(sau.side, idau.side)
        } else if fetch && addr >= SECURE_CODE_FIRST {
            RegionSide::Secure
        } else {
            own_side(side)
        };
        Attribute {
            side: side_told(attributed),
            callable: attributed == RegionSide::Nsc,
            sregion: if fixed { None } else { sau.region },
            iregion: idau.region,
        }
    }
}
