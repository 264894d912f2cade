//! The reader of scripts.

ghost use Rattle.std.specs.Prelude.{◌≡◌, ◌<◌, ◌^◌, IfErr, IfOk, IsTrue, Ok, length};
ghost use Rattle.tz_model.specs.declared.report.ScriptEvent.{ScriptEvent};
ghost use Rattle.tz_board.specs.Scripts.{are_on, exists_on, line_of, parts_of, script_of, with_event, with_line};
ghost use Rattle.tz_board.specs.ScriptErrors.{IsScriptRefusal, event_named, line_read};

use crate::error::ScriptError;
use crate::line::{LineRead, NamedEvent};
use crate::script::Script;
use crate::{line, text};
use std::alloc::Global;
use tz_model::ScriptEvent;

/// The most events of a script.
const MOST_EVENTS: usize = 10_000;

/// The script with the event that a line names.
#[tactic(auto, unfolding(crate::specs::Scripts::with_event))]
fn with_named(
    alloc: Global,
    script: Script,
    interrupts: u16,
    number: u32,
    step: u32,
    named: NamedEvent,
) -> Result<Script, ScriptError>
    ensures ok { IfOk result (λ s. with_event interrupts number script (step, event_named named) ≡ Ok s) }
    ensures err { IfErr result (λ e. IsScriptRefusal e (with_event interrupts number script (step, event_named named))) }
{
    if step < script.last_step() {
        return Err(ScriptError::OutOfOrder(number));
    }
    let event = match named {
        NamedEvent::Nmi => ScriptEvent::Nmi,
        NamedEvent::Irq(interrupt) => {
            if interrupt >= u32::from(interrupts) {
                return Err(ScriptError::NoSuchInterrupt(number));
            }
            ScriptEvent::Irq(interrupt as u16)
        }
    };
    if script.len() >= MOST_EVENTS {
        return Err(ScriptError::TooMany);
    }
    match script.with_event(alloc, step, event) {
        Ok(script) => Ok(script),
        Err(_) => Err(ScriptError::Memory),
    }
}

/// The script with what a line says.
#[tactic(auto, unfolding(crate::specs::Scripts::with_line))]
fn with_line(
    alloc: Global,
    script: Script,
    interrupts: u16,
    number: u32,
    line: &[u8],
) -> Result<Script, ScriptError>
    ensures ok { IfOk result (λ s. with_line interrupts number script (line_of (parts_of line.now)) ≡ Ok s) }
    ensures err { IfErr result (λ e. IsScriptRefusal e (with_line interrupts number script (line_of (parts_of line.now)))) }
{
    match line::read_line(line) {
        LineRead::Passed => Ok(script),
        LineRead::Bad => Err(ScriptError::BadLine(number)),
        LineRead::Event(step, named) => {
            with_named(alloc, script, interrupts, number, step, named)
        }
    }
}

/// The script of all lines.
fn read_lines(alloc: Global, bytes: &[u8], interrupts: u16) -> Result<Script, ScriptError>
    requires { length bytes.now < 2 ^ 32 }
    ensures ok { IfOk result (λ s. script_of bytes.now interrupts ≡ Ok s) }
    ensures err { IfErr result (λ e. IsScriptRefusal e (script_of bytes.now interrupts)) }
{
    let mut script = Script::none(alloc);
    let mut rest = bytes;
    let mut number: u64 = 1;
    while let Some((line, back)) = text::cut(rest, b'\n') {
        match with_line(alloc, script, interrupts, number as u32, text::chomp(line)) {
            Ok(longer) => script = longer,
            Err(error) => return Err(error),
        }
        rest = back;
        number += 1;
    }
    if rest.is_empty() {
        return Ok(script);
    }
    with_line(alloc, script, interrupts, number as u32, rest)
}

/// Reads a script for a board of so many interrupts: its events, or the first reason by line to refuse
/// it. Want of memory may be answered in place of either.
pub fn read_script(alloc: Global, bytes: &[u8], interrupts: u16) -> Result<Script, ScriptError>
    requires { length bytes.now < 2 ^ 32 }
    ensures ok { IfOk result (λ s. script_of bytes.now interrupts ≡ Ok s) }
    ensures err { IfErr result (λ e. IsScriptRefusal e (script_of bytes.now interrupts)) }
    ensures on_board { IfOk result (λ s. IsTrue (are_on interrupts s)) }
{
    read_lines(alloc, bytes, interrupts)
}
