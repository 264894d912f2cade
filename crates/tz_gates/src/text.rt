//! The lines of gates.

ghost use Rattle.std.specs.Prelude.{◌≡◌, ◌≤◌, ◌+◌, ◌++◌, []};
ghost use Rattle.arrayvec.specs.ArrayString.{array_string_len};
ghost use Rattle.tz_model.specs.Outside.{HasCause, Put};
ghost use Rattle.tz_gates.specs.GatesText.{gate_line, gates_text, unlisted_line};

use arrayvec::ArrayString;
use tz_model::{Sink, SinkError};
use tz_syntax::{push_decimal, push_hex_word};

/// A line. The longest has 20 bytes: 8 digits or 9 letters, at most 10 digits, a space and a line feed.
type Line = ArrayString<32>;

/// Appends the line of a gate.
fn push_gate(line: &mut Line, gate: u32, hits: u32)
    requires { line.old.bytes ≡ [] }
    ensures { line.new.bytes ≡ gate_line gate hits }
{
    push_hex_word(line, gate);
    line.push_str(" ");
    push_decimal(line, hits);
    line.push_str("\n");
}

/// Appends the line of the entries elsewhere.
fn push_unlisted(line: &mut Line, unlisted: u32)
    requires { line.old.bytes ≡ [] }
    ensures { line.new.bytes ≡ unlisted_line unlisted }
{
    line.push_str("unlisted ");
    push_decimal(line, unlisted);
    line.push_str("\n");
}

/// Writes a line for each gate with its hits, and one for the entries elsewhere, each as one put.
///
/// A line that can't be written is the one error: the lines before it went out.
pub fn put_gates<O: Sink>(
    gates: &[u32],
    hits: &[u32],
    unlisted: u32,
    out: &mut O,
) -> Result<(), SinkError>
    ensures put { Put (O.written out.old) (O.written out.new) (O.space out.old) (O.space out.new) (gates_text gates.now hits.now unlisted) result }
    ensures cause { HasCause (O.faults out.old) (O.faults out.new) (result ≡ Err SinkError.Failed) }
{
    let mut line = Line::new();
    let count = gates.len().min(hits.len());
    for index in 0..count {
        push_gate(&mut line, gates[index], hits[index]);
        if let Err(error) = out.put(line.as_str().as_bytes()) {
            return Err(error);
        }
        line.clear();
    }
    push_unlisted(&mut line, unlisted);
    out.put(line.as_str().as_bytes())
}
