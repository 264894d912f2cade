//! The page of a state: what a person reads of a machine that stands still.
//!
//! `show` writes exactly what the definition `page` says: how the core runs, registers, stacks, masks, faults,
//! exceptions, timers, the channels of a mover, regions, the top of the stack in use, the frame that a handler returns
//! by, and any memory that is asked for. It changes nothing, takes no memory, and knows nothing of where bytes go.
#![tactic(auto)]

ghost use Rattle.std.specs.Prelude.{◌≡◌, ◌≤◌, ◌+◌, ◌++◌};
ghost use Rattle.arrayvec.specs.ArrayString.{array_string_len};
ghost use Rattle.tz_model.specs.Outside.{HasCause, Put};
ghost use Rattle.tz_show.specs.Page.{core_text, rest_text, state_text, page};

mod bits;
mod exceptions;
mod faults;
mod frames;
mod masks;
mod memory;
mod mover;
mod registers;
mod rows;
mod units;

use crate::exceptions::push_exceptions;
use crate::faults::push_faults;
use crate::frames::{push_frame, push_stack};
use crate::masks::push_masks;
use crate::memory::put_ranges;
use crate::mover::push_mover;
use crate::registers::{push_head, push_registers, push_stacks};
use crate::rows::Text;
use crate::units::{push_mpus, push_sau, push_timers};
use tz_access::Bus;
use tz_model::{Sink, SinkError};
use tz_nvic::Exceptions;
use tz_regs::Core;
use tz_tell::LentState;
pub use tz_words::Range;

/// The sections about the core.
#[tactic(auto, unfolding(crate::specs::Page::core_text))]
fn push_core(text: &mut Text, core: &Core, exceptions: &Exceptions, step: u32)
    requires { array_string_len text.old + 2600 ≤ 48000 }
    ensures bytes { text.new.bytes ≡ text.old.bytes ++ core_text core.now exceptions.now step }
    ensures len { array_string_len text.new ≤ array_string_len text.old + 2600 }
{
    push_head(text, exceptions, core, step);
    push_registers(text, core);
    push_stacks(text, core);
    push_masks(text, exceptions, &core.masks);
    push_faults(text, &core.status);
}

/// The sections about what stands around it.
#[tactic(auto, unfolding(crate::specs::Page::rest_text))]
fn push_rest(text: &mut Text, core: &Core, exceptions: &Exceptions, bus: &Bus)
    requires { array_string_len text.old + 38000 ≤ 48000 }
    ensures bytes { text.new.bytes ≡ text.old.bytes ++ rest_text core.now exceptions.now bus.now.state }
    ensures len { array_string_len text.new ≤ array_string_len text.old + 38000 }
{
    push_exceptions(text, &core.status, exceptions);
    push_timers(text, exceptions);
    push_mover(text, bus.board().mover, &core.status);
    push_sau(text, bus);
    push_mpus(text, bus);
    push_stack(text, core, bus);
    push_frame(text, core, bus);
}

/// Writes the sections of a state as one put.
fn put_state<O: Sink>(state: &LentState, step: u32, out: &mut O) -> Result<(), SinkError>
    ensures put { Put (O.written out.old) (O.written out.new) (O.space out.old) (O.space out.new) (state_text state.now step) result }
    ensures cause { HasCause (O.faults out.old) (O.faults out.new) (result ≡ Err SinkError.Failed) }
{
    let mut text = Text::new();
    let core = state.core();
    let exceptions = state.exceptions();
    push_core(&mut text, core, exceptions, step);
    push_rest(&mut text, core, exceptions, state.bus());
    out.put(text.as_str().as_bytes())
}

/// Writes the page of a state after `step` steps, with ranges of memory. The sections go out as one put, and
/// each line of memory as one more.
///
/// An address of a range that is past the last one goes on at 0. What asks for ranges refuses such ones, and empty ones,
/// in their words: a range is `ADDRESS:LENGTH`, where ADDRESS is 1 to 8 hexadecimal digits, with `0x` before them or
/// without, and LENGTH a decimal number or `0x` with hexadecimal digits, from 1 to 65536.
///
/// A text that can't be written is the one error: what stands before it went out.
#[tactic(auto, unfolding(crate::specs::Page::page))]
pub fn show<O: Sink>(
    state: &LentState,
    step: u32,
    ranges: &[Range],
    out: &mut O,
) -> Result<(), SinkError>
    ensures put { Put (O.written out.old) (O.written out.new) (O.space out.old) (O.space out.new) (page state.now step ranges.now) result }
    ensures cause { HasCause (O.faults out.old) (O.faults out.new) (result ≡ Err SinkError.Failed) }
{
    if let Err(error) = put_state(state, step, out) {
        return Err(error);
    }
    put_ranges(state.bus(), ranges, out)
}
