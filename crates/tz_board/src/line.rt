//! The lines of a script: `STEP irq N`, `STEP nmi`, a comment, or nothing.

ghost use Rattle.std.specs.Prelude.{◌≡◌, option_map};
ghost use Rattle.tz_board.specs.Scripts.{event_of, line_of, parts_of};
ghost use Rattle.tz_board.specs.ScriptErrors.{event_named, line_read};

use crate::text;

/// The event that a line names.
#[derive(Clone, Copy)]
pub enum NamedEvent {
    Irq(u32),
    Nmi,
}

/// What a line says.
#[derive(Clone, Copy)]
pub enum LineRead {
    /// Nothing: it is empty or a comment.
    Passed,
    /// This event at this step.
    Event(u32, NamedEvent),
    /// Something else.
    Bad,
}

/// The event that the parts after the step name.
#[tactic(auto, unfolding(crate::specs::Scripts::event_of))]
fn read_event(parts: &[u8]) -> Option<NamedEvent>
    ensures { event_of (parts_of parts.now) ≡ option_map event_named result }
{
    let (name, rest) = text::first_part(parts)?;
    match text::first_part(rest) {
        None => {
            if name == b"nmi".as_slice() {
                Some(NamedEvent::Nmi)
            } else {
                None
            }
        }
        Some((number, rest)) => {
            if name == b"irq".as_slice() && text::first_part(rest).is_none() {
                text::number(number).map(NamedEvent::Irq)
            } else {
                None
            }
        }
    }
}

/// Reads a line.
#[tactic(auto, unfolding(crate::specs::Scripts::line_of))]
pub fn read_line(line: &[u8]) -> LineRead
    ensures { line_of (parts_of line.now) ≡ line_read result }
{
    let Some((first, rest)) = text::first_part(line) else {
        return LineRead::Passed;
    };
    if first[0] == b'#' {
        return LineRead::Passed;
    }
    let Some(step) = text::number(first) else {
        return LineRead::Bad;
    };
    match read_event(rest) {
        Some(event) => LineRead::Event(step, event),
        None => LineRead::Bad,
    }
}
