//! The registers of the SAU and of the MPUs, and what the units tell of an address.

use crate::units::asked::Asked;
use crate::units::faults::{tell_index, tell_region};
use tz_access::Bus;
use tz_state::{Attribute, Kind};
use tz_testing::{Case, side_word};

/// RNR of the SAU; RBAR and RLAR stand behind it.
const SAU_RNR: u32 = 0xe000_edd8;

/// The same of an MPU.
const MPU_RNR: u32 = 0xe000_ed98;

/// Sets RBAR and RLAR of a region by registers that begin with this RNR.
fn set_region(bus: &mut Bus, rnr: u32, asked: &Asked, case: &mut Case<'_>) {
    bus.set_register(rnr, asked.side, asked.numbers[0]);
    bus.set_register(rnr.wrapping_add(4), asked.side, asked.numbers[1]);
    bus.set_register(rnr.wrapping_add(8), asked.side, asked.numbers[2]);
    case.tell("set")
}

/// Tells a side, whether its memory is callable, and the numbers of the regions of the SAU and of the board.
fn tell_word(case: &mut Case<'_>, word: &Attribute) {
    case.tell(side_word(word.side));
    case.tell(if word.callable { " callable " } else { " " });
    tell_index(case, word.sregion, "none");
    case.tell(" ");
    tell_index(case, word.iregion, "none")
}

/// The attribution of an address for a read or a fetch of a side.
fn tell_attribute(bus: &Bus, asked: &Asked, case: &mut Case<'_>) {
    let fetch = asked.kind == Kind::Fetch;
    tell_word(
        case,
        &bus.sau().attribute(asked.numbers[0], fetch, asked.side),
    )
}

/// The look-up that is kept at a place: its block, who asked, its attribution, and what is permitted.
fn tell_kept(bus: &Bus, index: u32, case: &mut Case<'_>) {
    let Some(kept) = bus.kept(index as usize) else {
        return case.tell("none");
    };
    case.tell_hex(kept.block);
    case.tell(if kept.fetch { " code " } else { " data " });
    case.tell(side_word(kept.side));
    case.tell(if kept.privileged {
        " privileged"
    } else {
        " user"
    });
    case.tell(if kept.negative { " negative " } else { " " });
    tell_word(case, &kept.attribute);
    case.tell(if kept.read { " r" } else { " -" });
    case.tell(if kept.write { "w" } else { "-" });
    case.tell(if kept.execute { "x" } else { "-" })
}

/// A step of the SAU and of the MPUs.
pub enum UnitStep {
    Set,
    Get,
    Sau,
    Mpu,
    SauRegion,
    MpuRegion,
    Attribute,
    Kept,
    Target,
}

/// Takes a step: `set REGISTER NUMBER` and `get REGISTER` of a side; `sau REGION RBAR RLAR`, and `mpu` of a side;
/// `sau_region REGION`, and `mpu_region` of a side, RBAR and RLAR of it; `attribute ADDRESS` of a side; `kept PLACE`,
/// the look-up that is kept there; and `target ADDRESS` of a side, the word of TT.
pub fn step(bus: &mut Bus, step: &UnitStep, asked: &Asked, case: &mut Case<'_>) {
    let [first, second, ..] = asked.numbers;
    let side = asked.side;
    match (step, asked.count) {
        (UnitStep::Set, 2) => {
            bus.set_register(first, side, second);
            case.tell("set")
        }
        (UnitStep::Get, 1) => case.tell_hex(bus.register(first, side)),
        (UnitStep::Sau, 3) => set_region(bus, SAU_RNR, asked, case),
        (UnitStep::Mpu, 3) => set_region(bus, MPU_RNR, asked, case),
        (UnitStep::SauRegion, 1) => {
            let region = case.byte_in(first);
            tell_region(case, bus.sau().region(region))
        }
        (UnitStep::MpuRegion, 1) => {
            let region = case.byte_in(first);
            tell_region(case, bus.mpu(side).region(region))
        }
        (UnitStep::Attribute, 1) => tell_attribute(bus, asked, case),
        (UnitStep::Kept, 1) => tell_kept(bus, first, case),
        (UnitStep::Target, 1) => case.tell_hex(bus.test_target(
            first,
            side,
            asked.privileged,
            asked.negative,
            asked.alternate,
            asked.unprivileged,
        )),
        _ => case.refuse(),
    }
}
