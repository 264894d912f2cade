//! Words of frames and vector tables, by the bus.

use crate::units::asked::Asked;
use crate::units::buses::list_in;
use crate::units::faults::tell_word;
use tz_access::{Bus, BusFrames, Written};
use tz_frames::Frames;
use tz_testing::Case;

/// A step of frames and vector tables.
pub enum FrameStep {
    Vector,
    FrameLoad,
    SecureLoad,
    FrameStore,
}

/// How many stores are taken still, of 40.
fn room_after(written: &Option<Written>) -> i64 {
    match written {
        None => 40,
        Some(list) => 40 - list.len().min(40) as i64,
    }
}

/// Takes a step: `vector VTOR_S VTOR_NS NUMBER` of a side; `frame_load ADDRESS` of a side, a word of a frame;
/// `secure_load ADDRESS`, a word that Secure code loads; and `frame_store ADDRESS NUMBER` of a side, and the room after
/// it, of room for 40 stores.
pub fn step(bus: &mut Bus, step: &FrameStep, asked: &Asked, case: &mut Case<'_>) {
    let [first, second, number, ..] = asked.numbers;
    let mut written = list_in(case);
    let mut frames = BusFrames {
        bus,
        vtor_s: first,
        vtor_ns: second,
        secure_privileged: asked.secure_privileged,
        negative: false,
        written: &mut written,
    };
    let answer = match (step, asked.count) {
        (FrameStep::Vector, 3) => frames.vector(case.half_in(number), asked.side),
        (FrameStep::FrameLoad, 1) => frames.frame_load(first, asked.side, asked.privileged),
        (FrameStep::SecureLoad, 1) => frames.secure_load(first),
        (FrameStep::FrameStore, 2) => match frames.frame_store(
            first,
            asked.side,
            asked.privileged,
            second,
        ) {
            Ok(()) => {
                case.tell("stored, room ");
                return case.tell_decimal(room_after(frames.written));
            }
            Err(fault) => Err(fault),
        },
        _ => return case.refuse(),
    };
    tell_word(case, &answer)
}
