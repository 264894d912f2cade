//! What a step begins with: events of the script that are due, SysTicks that pend, moves, and a sleep that ends.

ghost use Rattle.std.specs.Prelude.{◌≡◌, ◌≤◌, ◌+◌, ◌++◌, length};
ghost use Rattle.arrayvec.specs.ArrayString.{array_string_len};
ghost use Rattle.tz_full.specs.BegunLines.{irq_line, event_line, line_where, is_asleep, is_idle, sleep_ends, begun_text};

use crate::moves::push_moves;
use crate::text::Text;
use tz_model::{Report, ScriptEvent, Sleep, StepKind};
use tz_regs::Running;
use tz_sem::Account;
use tz_syntax::push_decimal;

/// An external interrupt of the script that is due.
#[tactic(auto, unfolding(crate::specs::BegunLines::irq_line))]
fn push_irq(text: &mut Text, n: u16)
    requires { array_string_len text.old + 40 ≤ 4096 }
    ensures bytes { text.new.bytes ≡ text.old.bytes ++ irq_line n }
    ensures len { array_string_len text.new ≤ array_string_len text.old + 40 }
{
    text.push_str("    event irq ");
    push_decimal(text, u32::from(n));
    text.push_str("\n");
}

/// An event of the script that is due.
#[tactic(auto, unfolding(crate::specs::BegunLines::event_line))]
pub fn push_event(text: &mut Text, event: &ScriptEvent)
    requires { array_string_len text.old + 40 ≤ 4096 }
    ensures bytes { text.new.bytes ≡ text.old.bytes ++ event_line event.now }
    ensures len { array_string_len text.new ≤ array_string_len text.old + 40 }
{
    match *event {
        ScriptEvent::Irq(n) => push_irq(text, n),
        ScriptEvent::Nmi => text.push_str("    event nmi\n"),
    }
}

/// A line where something is so.
fn push_line_where(text: &mut Text, so: bool, line: &str)
    requires { array_string_len text.old + length line.now ≤ 4096 }
    ensures bytes { text.new.bytes ≡ text.old.bytes ++ line_where so line.now }
    ensures len { array_string_len text.new ≤ array_string_len text.old + length line.now }
{
    if so {
        text.push_str(line);
    }
}

fn is_asleep(sleep: Sleep) -> bool
    ensures { result ≡ is_asleep sleep }
{
    match sleep {
        Sleep::Awake => false,
        Sleep::Wfi => true,
        Sleep::Wfe => true,
    }
}

fn is_idle(kind: &StepKind) -> bool
    ensures { result ≡ is_idle kind.now }
{
    match kind {
        StepKind::Idle => true,
        _ => false,
    }
}

/// Whether a core that slept before a step didn't sleep on.
fn sleep_ends(run: &Running, kind: &StepKind) -> bool
    ensures { result ≡ sleep_ends run.now kind.now }
{
    is_asleep(run.sleep) && !run.locked && !is_idle(kind)
}

/// SysTicks that pend at the beginning of a step, moves, and a sleep that ends in it.
#[tactic(auto, unfolding(crate::specs::BegunLines::begun_text))]
pub fn push_begun(text: &mut Text, account: &Account, report: &Report)
    requires { array_string_len text.old + 340 ≤ 4096 }
    ensures bytes { text.new.bytes ≡ text.old.bytes ++ begun_text account.now report.now }
    ensures len { array_string_len text.new ≤ array_string_len text.old + 340 }
{
    push_line_where(text, account.ticked_s, "    SysTick S pends\n");
    push_line_where(text, account.ticked_ns, "    SysTick NS pends\n");
    push_moves(text, &account.moves);
    push_line_where(
        text,
        sleep_ends(&account.core.run, &report.kind),
        "    sleep ends\n",
    );
}
