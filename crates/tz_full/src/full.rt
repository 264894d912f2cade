//! What is shown of a step under its line, and how a step goes out: its line, its events, and the rest, as puts of
//! their own.

ghost use Rattle.std.specs.Prelude.{◌≡◌, ◌≤◌, ◌+◌, ◌++◌, [], Err};
ghost use Rattle.arrayvec.specs.ArrayString.{array_string_len};
ghost use Rattle.tz_model.specs.Outside.{HasCause, Put};
ghost use Rattle.tz_model.specs.declared.report.View.TheVariants.{All};
ghost use Rattle.tz_text.specs.Line.{line};
ghost use Rattle.tz_full.specs.BegunLines.{event_line, events_text};
ghost use Rattle.tz_full.specs.Full.{ran_text, handled_text, rest_text, full};

use crate::begun::{push_begun, push_event};
use crate::crossing::push_crossing;
use crate::instruction::done_by;
use crate::loads::{push_loads_by, push_stores};
use crate::taken::push_taken;
use crate::text::Text;
use crate::ways::{push_resumed, push_ways};
use tz_model::{Report, ScriptEvent, Sink, SinkError, View};
use tz_sem::Account;
use tz_tell::LentState;
use tz_text::Lines;

/// The accesses of the instruction, then SG, a call or a return from one.
#[tactic(auto, unfolding(crate::specs::Full::ran_text))]
fn push_ran(text: &mut Text, account: &Account, report: &Report, state: &LentState)
    requires { array_string_len text.old + 1730 ≤ 4096 }
    ensures bytes { text.new.bytes ≡ text.old.bytes ++ ran_text account.now report.now state.now }
    ensures len { array_string_len text.new ≤ array_string_len text.old + 1730 }
{
    let insn = done_by(&account.core, &report.kind);
    push_loads_by(text, account, state, &insn);
    push_stores(text, state.board().mover, report.stores.as_slice());
    push_ways(text, account, report, state);
}

/// What exceptions did, and the crossing to Non-secure code.
#[tactic(auto, unfolding(crate::specs::Full::handled_text))]
fn push_handled(text: &mut Text, account: &Account, report: &Report, state: &LentState)
    requires { array_string_len text.old + 1756 ≤ 4096 }
    ensures bytes { text.new.bytes ≡ text.old.bytes ++ handled_text account.now report.now state.now }
    ensures len { array_string_len text.new ≤ array_string_len text.old + 1756 }
{
    push_taken(text, account, state);
    push_resumed(text, account, report, state);
    push_crossing(text, &report.way, &state.core().registers);
}

/// All lines but those of events.
#[tactic(auto, unfolding(crate::specs::Full::rest_text))]
fn push_rest(text: &mut Text, account: &Account, report: &Report, state: &LentState)
    requires { array_string_len text.old + 3826 ≤ 4096 }
    ensures bytes { text.new.bytes ≡ text.old.bytes ++ rest_text account.now report.now state.now }
    ensures len { array_string_len text.new ≤ array_string_len text.old + 3826 }
{
    push_begun(text, account, report);
    push_ran(text, account, report, state);
    push_handled(text, account, report, state);
}

// ---- what goes out

/// Writes a text, where there is one.
fn put_some<O: Sink>(text: &Text, out: &mut O) -> Result<(), SinkError>
    ensures put { Put (O.written out.old) (O.written out.new) (O.space out.old) (O.space out.new) text.now.bytes result }
    ensures cause { HasCause (O.faults out.old) (O.faults out.new) (result ≡ Err SinkError.Failed) }
{
    if text.is_empty() {
        return Ok(());
    }
    out.put(text.as_str().as_bytes())
}

/// Writes the line of an event as one put.
fn put_event<O: Sink>(text: &mut Text, event: &ScriptEvent, out: &mut O) -> Result<(), SinkError>
    ensures put { Put (O.written out.old) (O.written out.new) (O.space out.old) (O.space out.new) (event_line event.now) result }
    ensures cause { HasCause (O.faults out.old) (O.faults out.new) (result ≡ Err SinkError.Failed) }
{
    text.clear();
    push_event(text, event);
    put_some(text, out)
}

/// Writes the lines of the events that are due, each as one put.
#[tactic(auto, unfolding(crate::specs::BegunLines::events_text))]
fn put_events<O: Sink>(text: &mut Text, due: &[ScriptEvent], out: &mut O) -> Result<(), SinkError>
    ensures put { Put (O.written out.old) (O.written out.new) (O.space out.old) (O.space out.new) (events_text due.now) result }
    ensures cause { HasCause (O.faults out.old) (O.faults out.new) (result ≡ Err SinkError.Failed) }
{
    for event in due {
        if let Err(error) = put_event(text, event, out) {
            return Err(error);
        }
    }
    Ok(())
}

/// Writes all other lines of a step as one put, if there are any.
fn put_rest<O: Sink>(
    text: &mut Text,
    account: &Account,
    report: &Report,
    state: &LentState,
    out: &mut O,
) -> Result<(), SinkError>
    ensures put { Put (O.written out.old) (O.written out.new) (O.space out.old) (O.space out.new) (rest_text account.now report.now state.now) result }
    ensures cause { HasCause (O.faults out.old) (O.faults out.new) (result ≡ Err SinkError.Failed) }
{
    text.clear();
    push_rest(text, account, report, state);
    put_some(text, out)
}

/// Writes the line of a step in view `all` as one put.
fn put_line<O: Sink>(
    lines: &mut Lines,
    report: &Report,
    step: u32,
    out: &mut O,
) -> Result<(), SinkError>
    ensures put { Put (O.written out.old) (O.written out.new) (O.space out.old) (O.space out.new) (line All step report.now) result }
    ensures cause { HasCause (O.faults out.old) (O.faults out.new) (result ≡ Err SinkError.Failed) }
{
    lines.make(report, step, View::All);
    out.put(lines.bytes())
}

/// The texts that the lines of steps are made in.
#[derive(Drop)]
pub struct Texts {
    lines: Lines,
    text: Text,
}

impl Texts {
    /// Texts with nothing in them yet.
    pub fn new() -> Texts
        ensures lines { result.lines ≡ [] }
        ensures text { result.text.bytes ≡ [] }
    {
        Texts {
            lines: Lines::new(),
            text: Text::new(),
        }
    }
}

/// Writes what is shown of a step under its line. Events go out a put each, and the rest as one more.
#[tactic(auto, unfolding(crate::specs::Full::full))]
fn put_under<O: Sink>(
    text: &mut Text,
    account: &Account,
    due: &[ScriptEvent],
    report: &Report,
    state: &LentState,
    out: &mut O,
) -> Result<(), SinkError>
    ensures put { Put (O.written out.old) (O.written out.new) (O.space out.old) (O.space out.new) (full account.now due.now report.now state.now) result }
    ensures cause { HasCause (O.faults out.old) (O.faults out.new) (result ≡ Err SinkError.Failed) }
{
    if let Err(error) = put_events(text, due, out) {
        return Err(error);
    }
    put_rest(text, account, report, state, out)
}

/// Writes a step as view `full` shows it: its line, and under it what the line doesn't say. `step` counts from 0, `due`
/// has the events that were due, and `state` is the one after the step.
///
/// A text that can't be written is the one error: what stands before it went out.
pub fn put_step<O: Sink>(
    texts: &mut Texts,
    step: u32,
    account: &Account,
    due: &[ScriptEvent],
    report: &Report,
    state: &LentState,
    out: &mut O,
) -> Result<(), SinkError>
    ensures put { Put (O.written out.old) (O.written out.new) (O.space out.old) (O.space out.new) (line All step report.now ++ full account.now due.now report.now state.now) result }
    ensures cause { HasCause (O.faults out.old) (O.faults out.new) (result ≡ Err SinkError.Failed) }
{
    if let Err(error) = put_line(&mut texts.lines, report, step, out) {
        return Err(error);
    }
    put_under(&mut texts.text, account, due, report, state, out)
}
