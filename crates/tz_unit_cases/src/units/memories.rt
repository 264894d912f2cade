//! Steps on memory, whose bytes from 0x00 to 0x7F are their own addresses.

ghost use Rattle.std.specs.Prelude.{◌≡◌};

use crate::units::asked::Asked;
use crate::units::faults::{tell_number, tell_truth, tell_write};
use crate::units::steps::{Steps, take_all};
use std::alloc::{AllocError, Global};
use tz_mem::Memory;
use tz_model::{Board, Profile, Region, RegionKind, RegionSide, Segment};
use tz_testing::{Case, meant};

/// A Secure region.
fn region(base: u32, size: u32, kind: RegionKind) -> Region
    ensures { result ≡ record { base = base; size = size; kind = kind; side = RegionSide.Secure } }
{
    Region {
        base,
        size,
        kind,
        side: RegionSide::Secure,
    }
}

/// A board whose first region is `rom` with `ram` right behind it, and that again has `ram` right behind it; then
/// `rom` and `ram` apart from them.
fn board(alloc: Global) -> Result<Board, AllocError> {
    let regions = vec![in alloc;
        region(0x0000, 0x40, RegionKind::Rom),
        region(0x0040, 0x20, RegionKind::Ram),
        region(0x0060, 0x20, RegionKind::Ram),
        region(0x1000, 0x20, RegionKind::Rom),
        region(0x2000, 0x20, RegionKind::Ram),
    ]?;
    Ok(Board {
        secure_vtor: 0,
        nonsecure_vtor: 0,
        interrupts: 8,
        sau_regions: 0,
        mpu_secure: 0,
        mpu_nonsecure: 0,
        profile: Profile::V81,
        mover: false,
        regions,
        sau: Vec::new(alloc),
    })
}

/// Memory whose bytes from 0x00 to 0x7F are their own addresses, in `rom` too.
fn counted(alloc: Global) -> Result<Memory, AllocError> {
    let board = board(alloc)?;
    let mut memory = Memory::new(alloc, &board)?;
    let bytes = (0..0x80u8).collect(alloc)?;
    memory.put_segment(&Segment { base: 0, bytes });
    Ok(memory)
}

/// A step on memory.
enum Step {
    Read,
    Write,
    Place,
}

static STEPS: [(&str, Step); 3] = [
    ("read", Step::Read),
    ("write", Step::Write),
    ("place", Step::Place),
];

/// `read ADDRESS` and `write ADDRESS NUMBER` with a size, and `place ADDRESS BYTE`, which tells whether it is mapped.
impl Steps for Memory {
    fn step(&mut self, name: &str, asked: &Asked, case: &mut Case<'_>) {
        let [addr, number, ..] = asked.numbers;
        match (meant(&STEPS, name), asked.count) {
            (Some(Step::Read), 1) => tell_number(
                case,
                self.read(addr, asked.size).ok(),
                "not mapped",
            ),
            (Some(Step::Write), 2) => tell_write(case, &self.write(addr, asked.size, number)),
            (Some(Step::Place), 2) => {
                let byte = case.byte_in(number);
                tell_truth(case, self.place(addr, byte).is_ok())
            }
            _ => case.refuse(),
        }
    }
}

/// Tells what the steps of a case are answered.
pub fn answer(case: &mut Case<'_>) {
    let made = counted(case.alloc);
    if let Some(mut memory) = case.kept(made) {
        let steps = case.field(1);
        take_all(case, &mut memory, steps);
    }
}
