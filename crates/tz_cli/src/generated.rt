//! The command `gen`: a job that is made from a number, its runs on the built-in board, and their summary.
//!
//! The run of the first Secure image is counted, and compared with that of the second as `pair` does. It reads no
//! file. Nothing is written before there is memory for all of it.

ghost use Rattle.std.specs.Prelude.{◌≡◌, ◌<◌, ◌≤◌, ◌+◌, ◌++◌, [], IfOk, IfErr, length};
ghost use Rattle.arrayvec.specs.ArrayString.{array_string_len};
ghost use Rattle.tz_model.specs.Outside.{Gains};
ghost use Rattle.tz_cli.specs.PairLine.{pair_line};
ghost use Rattle.tz_cli.specs.Summary.{count_line, counts_text, due_before, summary};
ghost use Rattle.tz_words.specs.Commands.{Gen};
ghost use Rattle.tz_files.specs.LineTold.{IsTold};
ghost use Rattle.tz_cli.specs.Answer.{CommandAnswer, shelved, sunk};

use crate::comparison::{find_difference, push_pair_line};
use crate::run::STEP_LIMIT;
use arrayvec::ArrayString;
use std::alloc::{AllocError, Global};
use std::marker::Brand;
use std::sync::ledger::{Blank, Ledger};
use tz_board::{Script, demo_board};
use tz_core::Machine;
use tz_files::{put_lines, put_status, refuse};
use tz_iso::{Pair, What};
use tz_model::{Shelf, Sink};
use tz_ready::Steps;
use tz_run::{Tally, make_job, make_tally};
use tz_syntax::push_decimal;
use tz_words::GenWords;

/// A summary. The longest has 135 bytes.
type Summary = ArrayString<192>;

/// Appends a word and a number, as a line.
fn push_count(text: &mut Summary, word: &str, number: u32)
    requires { array_string_len text.old + length word.now + 11 ≤ 192 }
    ensures bytes { text.new.bytes ≡ text.old.bytes ++ count_line word.now number }
    ensures len { array_string_len text.new ≤ array_string_len text.old + length word.now + 11 }
{
    text.push_str(word);
    push_decimal(text, number);
    text.push_str("\n");
}

/// The summary of a job's numbers, of what its first run shows, and of where its runs disagree.
fn summary_text(words: &GenWords, events: u32, tally: &Tally, found: Option<(u32, What)>) -> Summary
    ensures { result.bytes ≡ counts_text words.now.seed words.now.steps events tally.now ++ pair_line words.now.steps found }
{
    let mut text = Summary::new();
    push_count(&mut text, "seed ", words.seed);
    push_count(&mut text, "steps ", words.steps);
    push_count(&mut text, "events ", events);
    push_count(&mut text, "secure ", tally.secure);
    push_count(&mut text, "taken ", tally.taken);
    push_count(&mut text, "ran ", tally.ran);
    push_pair_line(&mut text, words.steps, found);
    text
}

/// How many events of a script are due in the first `steps` steps, over a ledger of the looks into it.
fn due_counted<L: Ledger>(blank: Blank, script: &Script, steps: u32) -> u32
    requires name { blank.name ≡ L.name }
    requires parts { blank.parts ≡ L.parts }
    requires some_part { 0 < blank.parts }
    requires few { length script.now ≤ 10000 }
    ensures { result ≡ due_before steps script.now }
{
    let mut looks = Steps::<L>::start(blank);
    let mut place = 0;
    let mut count: usize = 0;
    for step in 0..steps {
        count += script.due_next(&mut place, step, &mut looks).len();
    }
    count as u32
}

/// How many events of a script are due in the first `steps` steps.
fn count_due(script: &Script, steps: u32) -> u32
    requires few { length script.now ≤ 10000 }
    ensures { result ≡ due_before steps script.now }
{
    due_counted::<Brand>(Blank::new(1), script, steps)
}

/// Makes the job and its runs, and writes the summary: 0, whether or not the runs agree, or 4 where it can't be
/// written. Its error is want of memory, before anything is written.
fn gen_made<O: Sink>(alloc: Global, words: &GenWords, out: &mut O) -> Result<u8, AllocError>
    ensures ran { IfOk result (λ status. IsTold status (summary words.now.seed words.now.steps) 0 (O.written out.old) (O.written out.new) (O.space out.old) (O.faults out.old) (O.faults out.new)) }
    ensures quiet { IfErr result (λ _. Gains (O.written out.old) (O.written out.new) []) }
{
    let board = demo_board(alloc)?;
    let job = make_job(alloc, words.seed, words.steps)?;
    let mut machine = Machine::new(alloc, &board, &job.first, &job.nonsecure)?;
    let mut pair = Pair::new(alloc, &board, &job.first, &job.second, &job.nonsecure)?;
    let events = count_due(&job.script, words.steps);
    let tally = make_tally(&mut machine, &job.script, words.steps);
    let found = find_difference(&mut pair, &job.script, words.steps);
    let text = summary_text(words, events, &tally, found);
    Ok(put_status(put_lines(text.as_str().as_bytes(), out)))
}

/// Does what the words of `gen` say, and tells the answer with what it says of the outside.
pub fn gen_answer<H: Shelf, O: Sink, E: Sink>(
    alloc: Global,
    words: &GenWords,
    shelf: &mut H,
    out: &mut O,
    err: &mut E,
) -> u8
    ensures { CommandAnswer (Gen words.now) (shelved H.held H.sound H.faults shelf.old shelf.new)
        (sunk O.written O.space O.faults out.old out.new) (sunk E.written E.space E.faults err.old err.new) result }
{
    if words.steps > STEP_LIMIT {
        return refuse(err, b"limit steps\n", 6);
    }
    match gen_made(alloc, words, out) {
        Ok(status) => status,
        Err(_) => refuse(err, b"no memory\n", 7),
    }
}
