//! Two runs beside each other, and the line that tells whether they agree.
//!
//! The steps end at the first one at which the runs disagree. The line goes out as one put. It takes no
//! memory, and knows nothing of where bytes go.

ghost use Rattle.std.specs.Prelude.{◌≡◌, ◌<◌, ◌≤◌, ◌+◌, ◌++◌, IfOk, Err, None};
ghost use Rattle.arrayvec.specs.ArrayString.{array_string_len};
ghost use Rattle.tz_model.specs.Outside.{HasCause, Put};
ghost use Rattle.tz_iso.specs.Runs.{difference};
ghost use Rattle.tz_run.specs.Events.{events_of};
ghost use Rattle.tz_cli.specs.PairLine.{is_agreed, pair_line, put_of, what_words};

use arrayvec::ArrayString;
use std::marker::Brand;
use std::sync::ledger::{Blank, Ledger};
use tz_board::Script;
use tz_full::kind_word;
use tz_iso::{Pair, PairStep, What};
use tz_model::{Sink, SinkError};
use tz_ready::Steps;
use tz_run::due_at_step;
use tz_syntax::push_decimal;

/// A line of a pair. The longest has 34 bytes.
type Line = ArrayString<64>;

/// Appends in what two runs differ.
fn push_what<const N: usize>(text: &mut ArrayString<N>, what: What)
    requires { array_string_len text.old + 15 ≤ N }
    ensures bytes { text.new.bytes ≡ text.old.bytes ++ what_words what }
    ensures len { array_string_len text.new ≤ array_string_len text.old + 15 }
{
    match what {
        What::Alone(kind) => {
            text.push_str("alone ");
            text.push_str(kind_word(kind));
        }
        What::Way => text.push_str("way"),
        What::R(number) => {
            text.push_str("r");
            push_decimal(text, number as u32);
        }
        What::Lr => text.push_str("lr"),
        What::Apsr => text.push_str("apsr"),
        What::Pc => text.push_str("pc"),
        What::Bytes => text.push_str("bytes"),
        What::Sp => text.push_str("sp"),
        What::Limit => text.push_str("limit"),
        What::Control => text.push_str("control"),
        What::Mask => text.push_str("mask"),
        What::Sau => text.push_str("sau"),
        What::Mpu => text.push_str("mpu"),
        What::Vtor => text.push_str("vtor"),
        What::Ccr => text.push_str("ccr"),
        What::Fault => text.push_str("fault"),
        What::Exceptions => text.push_str("exceptions"),
        What::Systick => text.push_str("systick"),
        What::Sleep => text.push_str("sleep"),
        What::Mover => text.push_str("mover"),
    }
}

/// Appends the line of two runs of so many steps.
pub fn push_pair_line<const N: usize>(
    text: &mut ArrayString<N>,
    steps: u32,
    found: Option<(u32, What)>,
)
    requires { array_string_len text.old + 34 ≤ N }
    ensures { text.new.bytes ≡ text.old.bytes ++ pair_line steps found }
{
    match found {
        None => {
            text.push_str("agree ");
            push_decimal(text, steps);
        }
        Some((step, what)) => {
            text.push_str("differ ");
            push_decimal(text, step);
            text.push_str(" ");
            push_what(text, what);
        }
    }
    text.push_str("\n");
}

/// Makes steps of both machines until their runs disagree, `steps` at most, and tells where they do.
fn first_difference<L: Ledger>(
    blank: Blank,
    pair: &mut Pair,
    script: &Script,
    steps: u32,
) -> Option<(u32, What)>
    requires name { blank.name ≡ L.name }
    requires parts { blank.parts ≡ L.parts }
    requires some_part { 0 < blank.parts }
    requires fresh { pair.old.steps ≡ 0 }
    requires agreeing { pair.old.found ≡ None }
    ensures { result ≡ difference (events_of script.now) 0 pair.old.first pair.old.second steps }
{
    let mut looks = Steps::<L>::start(blank);
    let mut next = 0;
    for step in 0..steps {
        let due = due_at_step(script, &mut next, step, &mut looks);
        match pair.step(due) {
            PairStep::Kept => {}
            PairStep::Differ { step, what } => return Some((step, what)),
        }
    }
    None
}

/// The first of `steps` steps at which the runs of a pair disagree, and in what.
pub fn find_difference(pair: &mut Pair, script: &Script, steps: u32) -> Option<(u32, What)>
    requires fresh { pair.old.steps ≡ 0 }
    requires agreeing { pair.old.found ≡ None }
    ensures { result ≡ difference (events_of script.now) 0 pair.old.first pair.old.second steps }
{
    first_difference::<Brand>(Blank::new(1), pair, script, steps)
}

/// Runs both machines of a pair side by side for `steps` steps, at each of which its events of the script are
/// due, and writes whether the runs agree: whenever one crosses out of Secure state so does the other, in the
/// same way, with the same registers handed over and the same public state. It tells it, too; the steps end
/// at the first one at which they disagree.
///
/// A line that can't be written is the one error.
pub fn pair_run<O: Sink>(
    pair: &mut Pair,
    script: &Script,
    steps: u32,
    out: &mut O,
) -> Result<bool, SinkError>
    requires fresh { pair.old.steps ≡ 0 }
    requires agreeing { pair.old.found ≡ None }
    ensures put { Put (O.written out.old) (O.written out.new) (O.space out.old) (O.space out.new)
        (pair_line steps (difference (events_of script.now) 0 pair.old.first pair.old.second steps)) (put_of result) }
    ensures agreed { IfOk result (λ agreed. agreed ≡ is_agreed (difference (events_of script.now) 0 pair.old.first pair.old.second steps)) }
    ensures cause { HasCause (O.faults out.old) (O.faults out.new) (result ≡ Err SinkError.Failed) }
{
    let found = find_difference(pair, script, steps);
    let mut text = Line::new();
    push_pair_line(&mut text, steps, found);
    match out.put(text.as_str().as_bytes()) {
        Ok(()) => Ok(found.is_none()),
        Err(error) => Err(error),
    }
}
