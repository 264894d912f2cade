//! The frames of an entry, as they were written, or why they weren't (DDI0553, `PushStack`, `PushCalleeStack`).

ghost use Rattle.std.specs.Prelude.{◌≡◌, ◌≤◌, ◌+◌, ◌++◌, length};
ghost use Rattle.arrayvec.specs.ArrayString.{array_string_len};
ghost use Rattle.tz_full.specs.EntryFrames.{back_of, interrupted_line, chain_line, limit_name, limit_text, basic_process, basic_written, basic_limit, basic_why, basic_unwritten, basic_faulted, basic_lines, has_additional, additional_process, additional_written, additional_why, additional_unwritten, additional_faulted, additional_uncounted, additional_lines};

use crate::escalation::push_raised;
use crate::faults::push_word_fault;
use crate::frames::{push_additional, push_frame};
use crate::text::{Text, push_mode, push_place, push_side, push_stack};
use tz_excret::{frame_exception, side_of_bit};
use tz_frames::{Entering, FrameFault, Returning, StackFault};
use tz_model::{Fault, Side};
use tz_regs::Core;
use tz_stack::{basic_base, splim_of};
use tz_syntax::push_hex_word;
use tz_tell::LentState;

/// The address at which the code that is interrupted goes on.
fn back_of(fault: Option<Fault>, pc: u32) -> u32
    ensures { result ≡ back_of fault pc }
{
    match fault {
        None => pc,
        Some(Fault::Call) => pc.wrapping_add(2),
        Some(_) => pc,
    }
}

/// What an entry interrupts.
#[tactic(auto, unfolding(crate::specs::EntryFrames::interrupted_line))]
pub fn push_interrupted(text: &mut Text, fault: Option<Fault>, pc: u32, entry: &Entering)
    requires { array_string_len text.old + 36 ≤ 4096 }
    ensures bytes { text.new.bytes ≡ text.old.bytes ++ interrupted_line fault pc entry.now }
    ensures len { array_string_len text.new ≤ array_string_len text.old + 36 }
{
    text.push_str("    interrupted ");
    push_place(
        text,
        back_of(fault, pc),
        side_of_bit(entry.secure),
        entry.thread,
    );
    text.push_str("\n");
}

/// What stands interrupted where an entry follows a return.
#[tactic(auto, unfolding(crate::specs::EntryFrames::chain_line))]
pub fn push_chain(text: &mut Text, entry: &Entering)
    requires { array_string_len text.old + 26 ≤ 4096 }
    ensures bytes { text.new.bytes ≡ text.old.bytes ++ chain_line entry.now }
    ensures len { array_string_len text.new ≤ array_string_len text.old + 26 }
{
    text.push_str("    tail-chain ");
    push_side(text, side_of_bit(entry.secure));
    text.push_str(" ");
    push_mode(text, entry.thread);
    text.push_str("\n");
}

/// The name of the limit of a stack.
fn limit_name(side: Side, process: bool) -> &'static str
    ensures name { result.now ≡ limit_name side process }
    ensures short { length result.now ≤ 9 }
{
    match side {
        Side::Secure => if process { "PSPLIM_S" } else { "MSPLIM_S" },
        Side::NonSecure => if process { "PSPLIM_NS" } else { "MSPLIM_NS" },
    }
}

/// The limit of a stack, with its name.
#[tactic(auto, unfolding(crate::specs::EntryFrames::limit_text))]
fn push_limit(text: &mut Text, core: &Core, side: Side, process: bool)
    requires { array_string_len text.old + 18 ≤ 4096 }
    ensures bytes { text.new.bytes ≡ text.old.bytes ++ limit_text core.now side process }
    ensures len { array_string_len text.new ≤ array_string_len text.old + 18 }
{
    text.push_str(limit_name(side, process));
    text.push_str(" ");
    push_hex_word(text, splim_of(core, side, process));
}

/// Whether the running code uses its PSP.
fn basic_process(core: &Core) -> bool
    ensures { result ≡ basic_process core.now }
{
    core.stacks(core.run.side).uses_process(core.registers.ipsr)
}

/// The basic frame that was written.
#[tactic(auto, unfolding(crate::specs::EntryFrames::basic_written))]
fn push_basic_written(text: &mut Text, core: &Core, state: &LentState)
    requires { array_string_len text.old + 165 ≤ 4096 }
    ensures bytes { text.new.bytes ≡ text.old.bytes ++ basic_written core.now state.now }
    ensures len { array_string_len text.new ≤ array_string_len text.old + 165 }
{
    text.push_str("    ");
    let base = basic_base(core.pointer());
    push_frame(text, state.bus(), core.run.side, basic_process(core), base);
    text.push_str("\n");
}

/// That a basic frame would be below the limit of its stack.
#[tactic(auto, unfolding(crate::specs::EntryFrames::basic_limit))]
fn push_basic_limit(text: &mut Text, core: &Core, of: Side)
    requires { array_string_len text.old + 48 ≤ 4096 }
    ensures bytes { text.new.bytes ≡ text.old.bytes ++ basic_limit core.now of }
    ensures len { array_string_len text.new ≤ array_string_len text.old + 48 }
{
    text.push_str("STKOF ");
    push_side(text, of);
    text.push_str(", ");
    push_hex_word(text, basic_base(core.pointer()));
    text.push_str(" is below ");
    push_limit(text, core, core.run.side, basic_process(core));
}

/// Why the basic frame wasn't written.
#[tactic(auto, unfolding(crate::specs::EntryFrames::basic_why))]
fn push_basic_why(text: &mut Text, core: &Core, fault: StackFault)
    requires { array_string_len text.old + 48 ≤ 4096 }
    ensures bytes { text.new.bytes ≡ text.old.bytes ++ basic_why core.now fault }
    ensures len { array_string_len text.new ≤ array_string_len text.old + 48 }
{
    match fault {
        StackFault::Limit(of) => push_basic_limit(text, core, of),
        StackFault::Access(fault) => push_word_fault(text, true, fault),
        StackFault::Signature => text.push_str("INVIS"),
    }
}

/// That the basic frame wasn't written.
#[tactic(auto, unfolding(crate::specs::EntryFrames::basic_unwritten))]
fn push_basic_unwritten(text: &mut Text, core: &Core, fault: StackFault)
    requires { array_string_len text.old + 72 ≤ 4096 }
    ensures bytes { text.new.bytes ≡ text.old.bytes ++ basic_unwritten core.now fault }
    ensures len { array_string_len text.new ≤ array_string_len text.old + 72 }
{
    text.push_str("    frame not written: ");
    push_basic_why(text, core, fault);
    text.push_str("\n");
}

/// That the basic frame wasn't written, and what its fault became.
#[tactic(auto, unfolding(crate::specs::EntryFrames::basic_faulted))]
fn push_basic_faulted(
    text: &mut Text,
    core: &Core,
    state: &LentState,
    taken: usize,
    fault: StackFault,
)
    requires { array_string_len text.old + 176 ≤ 4096 }
    ensures bytes { text.new.bytes ≡ text.old.bytes ++ basic_faulted core.now state.now taken fault }
    ensures len { array_string_len text.new ≤ array_string_len text.old + 176 }
{
    push_basic_unwritten(text, core, fault);
    let slot = frame_exception(state.exceptions(), core.run.side, fault);
    push_raised(text, state, taken, slot);
}

/// The basic frame of the core before the step, which was interrupted.
pub fn push_basic(
    text: &mut Text,
    core: &Core,
    state: &LentState,
    taken: usize,
    frame: Option<FrameFault>,
)
    requires { array_string_len text.old + 176 ≤ 4096 }
    ensures bytes { text.new.bytes ≡ text.old.bytes ++ basic_lines core.now state.now taken frame }
    ensures len { array_string_len text.new ≤ array_string_len text.old + 176 }
{
    match frame {
        None => push_basic_written(text, core, state),
        Some(faulted) => {
            if faulted.additional {
                push_basic_written(text, core, state);
            } else {
                push_basic_faulted(text, core, state, taken, faulted.fault);
            }
        }
    }
}

/// Whether an entry tried to write the additional frame.
pub fn has_additional(entry: &Entering, chain: bool, returning: &Returning) -> bool
    ensures { result ≡ has_additional entry.now chain returning.now }
{
    entry.needed_additional && (!chain || (returning.es && returning.dcrs))
}

/// Whether the additional frame is on PSP of the Secure side.
pub fn additional_process(core: &Core, entry: &Entering, chain: bool, returning: &Returning) -> bool
    ensures { result ≡ additional_process core.now entry.now chain returning.now }
{
    let process = if chain {
        returning.process
    } else {
        core.stacks_s.spsel
    };
    entry.thread && process
}

/// The additional frame that was written.
#[tactic(auto, unfolding(crate::specs::EntryFrames::additional_written))]
fn push_additional_written(text: &mut Text, state: &LentState, process: bool)
    requires { array_string_len text.old + 165 ≤ 4096 }
    ensures bytes { text.new.bytes ≡ text.old.bytes ++ additional_written state.now process }
    ensures len { array_string_len text.new ≤ array_string_len text.old + 165 }
{
    text.push_str("    ");
    let base = state.core().sp(Side::Secure, process);
    push_additional(text, state.bus(), Side::Secure, process, base);
    text.push_str("\n");
}

/// Why the additional frame wasn't written.
#[tactic(auto, unfolding(crate::specs::EntryFrames::additional_why))]
fn push_additional_why(text: &mut Text, core: &Core, process: bool, fault: StackFault)
    requires { array_string_len text.old + 52 ≤ 4096 }
    ensures bytes { text.new.bytes ≡ text.old.bytes ++ additional_why core.now process fault }
    ensures len { array_string_len text.new ≤ array_string_len text.old + 52 }
{
    match fault {
        StackFault::Limit(of) => {
            text.push_str("STKOF ");
            push_side(text, of);
            text.push_str(", it would begin below ");
            push_limit(text, core, Side::Secure, process);
        }
        StackFault::Access(fault) => push_word_fault(text, true, fault),
        StackFault::Signature => text.push_str("INVIS"),
    }
}

/// That the additional frame wasn't written.
#[tactic(auto, unfolding(crate::specs::EntryFrames::additional_unwritten))]
fn push_additional_unwritten(text: &mut Text, core: &Core, process: bool, fault: StackFault)
    requires { array_string_len text.old + 90 ≤ 4096 }
    ensures bytes { text.new.bytes ≡ text.old.bytes ++ additional_unwritten core.now process fault }
    ensures len { array_string_len text.new ≤ array_string_len text.old + 90 }
{
    text.push_str("    additional frame not written: ");
    push_additional_why(text, core, process, fault);
    text.push_str("\n");
}

/// That the additional frame wasn't written, and what its fault became.
#[tactic(auto, unfolding(crate::specs::EntryFrames::additional_faulted))]
fn push_additional_faulted(
    text: &mut Text,
    state: &LentState,
    process: bool,
    taken: usize,
    fault: StackFault,
)
    requires { array_string_len text.old + 200 ≤ 4096 }
    ensures bytes { text.new.bytes ≡ text.old.bytes ++ additional_faulted state.now process taken fault }
    ensures len { array_string_len text.new ≤ array_string_len text.old + 200 }
{
    push_additional_unwritten(text, state.core(), process, fault);
    let slot = frame_exception(state.exceptions(), Side::Secure, fault);
    push_raised(text, state, taken, slot);
}

/// That an additional frame was tried behind a frame that has faulted.
#[tactic(auto, unfolding(crate::specs::EntryFrames::additional_uncounted))]
fn push_additional_uncounted(text: &mut Text, process: bool, base: u32)
    requires { array_string_len text.old + 80 ≤ 4096 }
    ensures bytes { text.new.bytes ≡ text.old.bytes ++ additional_uncounted process base }
    ensures len { array_string_len text.new ≤ array_string_len text.old + 80 }
{
    text.push_str("    additional frame at ");
    push_stack(text, Side::Secure, process);
    text.push_str(" ");
    push_hex_word(text, base);
    text.push_str(": a fault of it doesn't count\n");
}

/// The additional frame of an entry that tried to write it.
pub fn push_additional_lines(
    text: &mut Text,
    state: &LentState,
    process: bool,
    taken: usize,
    frame: Option<FrameFault>,
)
    requires { array_string_len text.old + 200 ≤ 4096 }
    ensures bytes { text.new.bytes ≡ text.old.bytes ++ additional_lines state.now process taken frame }
    ensures len { array_string_len text.new ≤ array_string_len text.old + 200 }
{
    match frame {
        None => push_additional_written(text, state, process),
        Some(faulted) => {
            if faulted.additional {
                push_additional_faulted(text, state, process, taken, faulted.fault);
            } else {
                push_additional_uncounted(text, process, state.core().sp(Side::Secure, process));
            }
        }
    }
}
