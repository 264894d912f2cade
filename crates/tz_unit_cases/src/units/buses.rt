//! Steps on the bus of the built-in board: the profile, steps before the case, and the steps of the case.

ghost use Rattle.std.specs.Prelude.{◌≡◌};
ghost use Rattle.tz_access.specs.Written.{noted_count};

mod accesses;
mod fetches;
mod frames;
mod plain;
mod units;

use crate::units::asked::Asked;
use crate::units::steps::{Steps, take_both};
use accesses::AccessStep;
use fetches::FetchStep;
use frames::FrameStep;
use plain::PlainStep;
use std::alloc::{AllocError, Global};
use tz_access::{Bus, Written};
use tz_board::demo_board;
use tz_model::Profile;
use tz_testing::{Case, meant, profile_in};
use units::UnitStep;

/// The bus of the built-in board with a profile.
fn bus_of(alloc: Global, profile: Profile) -> Result<Bus, AllocError> {
    let mut board = demo_board(alloc)?;
    board.profile = profile;
    Bus::new(alloc, &board)
}

/// A list of what stores overwrite, with none in it. Where memory is refused, that is kept, and there is no list.
fn list_in(case: &mut Case<'_>) -> Option<Written>
    ensures { noted_count result ≡ 0 }
{
    match Written::new(case.alloc) {
        Ok(list) => Some(list),
        Err(error) => {
            let _none: Option<Written> = case.kept(Err(error));
            None
        }
    }
}

/// A step: a plain access or one of the monitor, one of the units, an access with its checks, a fetch, or one of
/// frames.
enum Step {
    Plain(PlainStep),
    Unit(UnitStep),
    Access(AccessStep),
    Fetch(FetchStep),
    Frame(FrameStep),
}

static STEPS: [(&str, Step); 27] = [
    ("write", Step::Plain(PlainStep::Write)),
    ("read", Step::Plain(PlainStep::Read)),
    ("place", Step::Plain(PlainStep::Place)),
    ("put", Step::Plain(PlainStep::Put)),
    ("exclusive", Step::Plain(PlainStep::Exclusive)),
    ("take", Step::Plain(PlainStep::Take)),
    ("clear", Step::Plain(PlainStep::Clear)),
    ("held", Step::Plain(PlainStep::Held)),
    ("set", Step::Unit(UnitStep::Set)),
    ("get", Step::Unit(UnitStep::Get)),
    ("sau", Step::Unit(UnitStep::Sau)),
    ("mpu", Step::Unit(UnitStep::Mpu)),
    ("sau_region", Step::Unit(UnitStep::SauRegion)),
    ("mpu_region", Step::Unit(UnitStep::MpuRegion)),
    ("attribute", Step::Unit(UnitStep::Attribute)),
    ("kept", Step::Unit(UnitStep::Kept)),
    ("target", Step::Unit(UnitStep::Target)),
    ("check", Step::Access(AccessStep::Check)),
    ("store", Step::Access(AccessStep::Store)),
    ("load", Step::Access(AccessStep::Load)),
    ("undo", Step::Access(AccessStep::Undo)),
    ("fetch", Step::Fetch(FetchStep::Fetch)),
    ("told", Step::Fetch(FetchStep::Told)),
    ("vector", Step::Frame(FrameStep::Vector)),
    ("frame_load", Step::Frame(FrameStep::FrameLoad)),
    ("secure_load", Step::Frame(FrameStep::SecureLoad)),
    ("frame_store", Step::Frame(FrameStep::FrameStore)),
];

impl Steps for Bus {
    fn step(&mut self, name: &str, asked: &Asked, case: &mut Case<'_>) {
        match meant(&STEPS, name) {
            Some(Step::Plain(step)) => plain::step(self, step, asked, case),
            Some(Step::Unit(step)) => units::step(self, step, asked, case),
            Some(Step::Access(step)) => accesses::step(self, step, asked, case),
            Some(Step::Fetch(step)) => fetches::step(self, step, asked, case),
            Some(Step::Frame(step)) => frames::step(self, step, asked, case),
            None => case.refuse(),
        }
    }
}

/// Tells what the steps of a case are answered.
pub fn answer(case: &mut Case<'_>) {
    let profile = case.field(1);
    let profile = profile_in(case, profile);
    let made = bus_of(case.alloc, profile);
    if let Some(mut bus) = case.kept(made) {
        take_both(case, &mut bus, 2);
    }
}
