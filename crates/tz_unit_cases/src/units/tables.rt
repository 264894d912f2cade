//! Steps on the double of frames: its words, the address that fails, the vector tables, and the steps of the case.

ghost use Rattle.std.specs.Prelude.{◌≤◌, length};

use crate::units::asked::Asked;
use crate::units::faults::tell_word;
use crate::units::steps::{Steps, take_all};
use crate::units::words::set_port;
use tz_frames::Frames;
use tz_testing::{Case, TableFrames, meant};

/// A step on the double of frames.
enum Step {
    Vector,
    SecureLoad,
    FrameLoad,
    FrameStore,
}

static STEPS: [(&str, Step); 4] = [
    ("vector", Step::Vector),
    ("secure_load", Step::SecureLoad),
    ("frame_load", Step::FrameLoad),
    ("frame_store", Step::FrameStore),
];

/// `vector NUMBER` of a side, `secure_load ADDRESS`, `frame_load ADDRESS` of a side, and `frame_store ADDRESS NUMBER`
/// of a side, for which there has to be room.
impl Steps for TableFrames {
    fn step(&mut self, name: &str, asked: &Asked, case: &mut Case<'_>) {
        let [addr, value, ..] = asked.numbers;
        let answer = match (meant(&STEPS, name), asked.count) {
            (Some(Step::Vector), 1) => self.vector(case.half_in(addr), asked.side),
            (Some(Step::SecureLoad), 1) => self.secure_load(addr),
            (Some(Step::FrameLoad), 1) => self.frame_load(addr, asked.side, asked.privileged),
            (Some(Step::FrameStore), 2) if self.port.entries.len() < 32 => {
                match self.frame_store(addr, asked.side, asked.privileged, value) {
                    Ok(()) => return case.tell("stored"),
                    Err(fault) => Err(fault),
                }
            }
            _ => return case.refuse(),
        };
        tell_word(case, &answer)
    }
}

/// Tells what the steps of a case are answered.
pub fn answer(case: &mut Case<'_>) {
    let vtor_s = case.field(3);
    let vtor_s = case.number_in(vtor_s);
    let vtor_ns = case.field(4);
    let vtor_ns = case.number_in(vtor_ns);
    let mut frames = TableFrames::new(&[], None, vtor_s, vtor_ns);
    set_port(case, &mut frames.port, 1);
    let steps = case.field(5);
    take_all(case, &mut frames, steps);
}
