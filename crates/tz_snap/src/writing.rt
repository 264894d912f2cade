//! A state file as it is written: word after word, in puts of at most 128 words.

ghost use Rattle.std.specs.Prelude.{◌≡◌, ◌+◌, ◌≤◌, ◌++◌, slice_get};
ghost use Rattle.std.specs.Int.{w32, to_le_bytes};
ghost use Rattle.arrayvec.specs.ArrayVec.{array_vec_len};
ghost use Rattle.tz_model.specs.Outside.{HasCause, Put};
ghost use Rattle.tz_snap.specs.StateFile.{file_of, file_words, most_steps};
ghost use Rattle.tz_snap.specs.Passing.{Passes};

use crate::head::{file_count, head_count, head_word};
use arrayvec::ArrayVec;
use tz_core::Machine;
use tz_model::{Sink, SinkError};

/// Bytes that wait for the next put.
type Held = ArrayVec<u8, 512>;

/// The word at an index of the file of a machine that has made so many steps.
fn file_word(machine: &Machine, step: u32, index: u32) -> Option<u32>
    ensures { result ≡ slice_get (file_words machine.now step) index }
{
    let board = machine.board();
    let head = head_count(board);
    if index < head {
        head_word(board, step, index)
    } else {
        machine.word(index - head)
    }
}

/// Holds a word behind what is held.
fn hold(held: &mut Held, word: u32)
    requires { array_vec_len held.old + 4 ≤ 512 }
    ensures { held.new.items ≡ held.old.items ++ to_le_bytes w32 word }
{
    let [first, second, third, fourth] = word.to_le_bytes();
    held.push(first);
    held.push(second);
    held.push(third);
    held.push(fourth);
}

/// Holds a word behind what is held, which goes out first where there is no room left.
fn push_word<O: Sink>(held: &mut Held, word: u32, out: &mut O) -> Result<(), SinkError>
    ensures passes { Passes (O.written out.old) (O.written out.new) (O.space out.old) (O.space out.new) held.old.items (to_le_bytes w32 word) held.new.items result }
    ensures cause { HasCause (O.faults out.old) (O.faults out.new) (result ≡ Err SinkError.Failed) }
{
    if held.remaining_capacity() < 4 {
        if let Err(error) = out.put(held.as_slice()) {
            return Err(error);
        }
        held.clear();
    }
    hold(held, word);
    Ok(())
}

/// Writes the state file of a machine that has made `step` steps.
///
/// Bytes that can't be written are the one error, and no more are put then.
pub fn save<O: Sink>(machine: &Machine, step: u32, out: &mut O) -> Result<(), SinkError>
    requires { step ≤ most_steps }
    ensures put { Put (O.written out.old) (O.written out.new) (O.space out.old) (O.space out.new) (file_of machine.now step) result }
    ensures cause { HasCause (O.faults out.old) (O.faults out.new) (result ≡ Err SinkError.Failed) }
{
    let mut held = Held::new();
    for index in 0..file_count(machine.board()) {
        if let Some(word) = file_word(machine, step, index) {
            if let Err(error) = push_word(&mut held, word, out) {
                return Err(error);
            }
        }
    }
    out.put(held.as_slice())
}
