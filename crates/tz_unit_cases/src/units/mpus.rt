//! Steps on an MPU: the profile, the number of its regions, steps before the case, and the steps of the case.

use crate::units::asked::Asked;
use crate::units::faults::{tell_index, tell_region};
use crate::units::steps::{Steps, take_both};
use tz_mpu::Mpu;
use tz_testing::{Case, meant, profile_in};

/// A step on an MPU.
enum Step {
    Write,
    Read,
    Check,
    Examine,
    Region,
}

static STEPS: [(&str, Step); 5] = [
    ("write", Step::Write),
    ("read", Step::Read),
    ("check", Step::Check),
    ("examine", Step::Examine),
    ("region", Step::Region),
];

/// `write REGISTER NUMBER`, `read REGISTER`; `check ADDRESS`, the region that permits an access, or the default map;
/// `examine ADDRESS`, the region that TT tells; `region REGION`, its RBAR and RLAR.
impl Steps for Mpu {
    fn step(&mut self, name: &str, asked: &Asked, case: &mut Case<'_>) {
        let [addr, number, ..] = asked.numbers;
        match (meant(&STEPS, name), asked.count) {
            (Some(Step::Write), 2) => {
                self.write(addr, number);
                case.tell("written")
            }
            (Some(Step::Read), 1) => case.tell_hex(self.read(addr)),
            (Some(Step::Check), 1) => match self.check(
                addr,
                asked.kind,
                asked.privileged,
                asked.negative,
            ) {
                Ok(region) => tell_index(case, region, "default"),
                Err(_) => case.tell("refused"),
            },
            (Some(Step::Examine), 1) => tell_index(
                case,
                self.examine(addr, asked.negative),
                "none",
            ),
            (Some(Step::Region), 1) => {
                let region = case.byte_in(addr);
                tell_region(case, self.region(region))
            }
            _ => case.refuse(),
        }
    }
}

/// Tells what the steps of a case are answered.
pub fn answer(case: &mut Case<'_>) {
    let profile = case.field(1);
    let profile = profile_in(case, profile);
    let regions = case.field(2);
    let regions = case.number_in(regions);
    let regions = case.byte_in(regions);
    if regions > 16 {
        return case.refuse();
    }
    let mut mpu = Mpu::new(regions, profile);
    take_both(case, &mut mpu, 3);
}
