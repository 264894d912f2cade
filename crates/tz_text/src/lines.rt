//! The line of a step: its number, what it was, the registers that differ, and the stores.
//!
//! In the view of Non-secure code a step that looked at Secure state, or ends in it, shows as `S` alone.

ghost use Rattle.std.specs.Prelude.{◌≡◌, ◌≤◌, ◌+◌, ◌*◌, ◌++◌, codes, decimal, length};
ghost use Rattle.tz_syntax.specs.Digits.{hex_word};
ghost use Rattle.tz_text.specs.Line.{changes_text, size_text, stores_text, is_hidden, start_text, report_text, body, line};

use crate::kept::Texts;
use crate::names::push_change_name;
use crate::number::{Tens, push_number};
use crate::room::Line;
use arrayvec::ArrayString;
use std::marker::Model;
use tz_model::{Change, Report, Side, Size, StepKind, Store, View};
use tz_syntax::push_decimal;

/// The registers that differ, each with its new value.
#[inline(always)]
#[tactic(auto, unfolding(crate::specs::Line::changes_text))]
fn push_changes(line: &mut Line, changes: &[Change])
    requires { length line.old.bytes + 14 * length changes.now ≤ 768 }
    ensures bytes { line.new.bytes ≡ line.old.bytes ++ changes_text changes.now }
    ensures len { length line.new.bytes ≤ length line.old.bytes + 14 * length changes.now }
{
    for change in changes {
        push_change_name(line, change.name);
        line.push_word(change.value);
    }
}

/// The end of a store's address, and its size in bytes.
#[inline(always)]
fn push_size(line: &mut Line, size: Size)
    requires { length line.old.bytes + 4 ≤ 768 }
    ensures bytes { line.new.bytes ≡ line.old.bytes ++ size_text size }
    ensures len { length line.new.bytes ≡ length line.old.bytes + 4 }
{
    match size {
        Size::Byte => line.push("].1="),
        Size::Half => line.push("].2="),
        Size::Word => line.push("].4="),
    }
}

/// The stores, each with its address, size and value.
#[inline(always)]
#[tactic(auto, unfolding(crate::specs::Line::stores_text))]
fn push_stores(line: &mut Line, stores: &[Store])
    requires { length line.old.bytes + 22 * length stores.now ≤ 768 }
    ensures bytes { line.new.bytes ≡ line.old.bytes ++ stores_text stores.now }
    ensures len { length line.new.bytes ≤ length line.old.bytes + 22 * length stores.now }
{
    for store in stores {
        line.push(" [");
        line.push_word(store.addr);
        push_size(line, store.size);
        line.push_word(store.value);
    }
}

/// The number of an exception.
fn push_exception(line: &mut Line, number: u16)
    requires { length line.old.bytes + 10 ≤ 768 }
    ensures bytes { line.new.bytes ≡ line.old.bytes ++ decimal number }
    ensures len { length line.new.bytes ≤ length line.old.bytes + 10 }
{
    let mut digits = ArrayString::<10>::new();
    push_decimal(&mut digits, u32::from(number));
    line.push(digits.as_str());
}

/// An exception that was taken, with LR.
#[inline(never)]
fn push_taken(line: &mut Line, number: u16, lr: u32)
    requires { length line.old.bytes + 21 ≤ 768 }
    ensures bytes { line.new.bytes ≡ line.old.bytes ++ codes "X " ++ decimal number ++ codes " " ++ hex_word lr }
    ensures len { length line.new.bytes ≤ length line.old.bytes + 21 }
{
    line.push("X ");
    push_exception(line, number);
    line.push(" ");
    line.push_word(lr);
}

/// What a step was, in full.
#[inline(always)]
fn push_report(line: &mut Line, texts: &mut Texts, report: &Report)
    requires { length line.old.bytes + 692 ≤ 768 }
    ensures bytes { line.new.bytes ≡ line.old.bytes ++ report_text report.now }
    ensures len { length line.new.bytes ≤ length line.old.bytes + 692 }
{
    match report.kind {
        StepKind::Locked => line.push("L"),
        StepKind::Idle => line.push("Z"),
        StepKind::Taken { number, lr } => push_taken(line, number, lr),
        StepKind::Ran { pc, code } => {
            texts.push(line, pc, &code);
            push_changes(line, report.changes.as_slice());
            push_stores(line, report.stores.as_slice());
        }
    }
}

/// Whether Non-secure code sees nothing of a step.
fn is_hidden(report: &Report) -> bool
    ensures { result ≡ is_hidden report.now }
{
    report.touched || report.end == Side::Secure
}

/// The state in which a step starts.
#[inline(always)]
fn push_start(line: &mut Line, start: Side)
    requires { length line.old.bytes + 2 ≤ 768 }
    ensures bytes { line.new.bytes ≡ line.old.bytes ++ start_text start }
    ensures len { length line.new.bytes ≡ length line.old.bytes + 2 }
{
    match start {
        Side::Secure => line.push("s "),
        Side::NonSecure => line.push("n "),
    }
}

/// A line after its number.
#[inline(always)]
fn push_body(line: &mut Line, texts: &mut Texts, report: &Report, view: View)
    requires { length line.old.bytes + 694 ≤ 768 }
    ensures bytes { line.new.bytes ≡ line.old.bytes ++ body view report.now }
    ensures len { length line.new.bytes ≤ length line.old.bytes + 694 }
{
    match view {
        View::Ns => {
            if is_hidden(report) {
                line.push("S");
            } else {
                push_report(line, texts, report);
            }
        }
        View::All => {
            push_start(line, report.start);
            push_report(line, texts, report);
        }
    }
}

/// The lines of a trace, made one after the other. What of one may stand in a later one is kept; it takes no memory, and a
/// line is the same without it.
#[derive(Drop)]
pub struct Lines {
    line: Line,
    tens: Tens,
    texts: Texts,
}

impl Model for Lines {
    ghost use Rattle.std.specs.Prelude.{ℕ, List};

    ghost Value = { List ℕ };

    ghost view = { λ l. l.line.bytes };
}

impl Lines {
    ghost use Rattle.std.specs.Prelude.{[]};

    /// No line was made yet.
    pub fn new() -> Lines
        ensures { result ≡ [] }
    {
        Lines {
            line: Line::new(),
            tens: Tens::of(0),
            texts: Texts::new(),
        }
    }

    /// The bytes of the line that was made last.
    #[inline(always)]
    pub fn bytes(&self) -> &[u8]
        ensures { result.now ≡ self.now }
    {
        self.line.bytes()
    }

    /// Makes the line of a step with its line feed, as a view shows it. `step` counts from 0.
    #[inline(always)]
    #[tactic(auto, unfolding(crate::specs::Line::line))]
    pub fn make(&mut self, report: &Report, step: u32, view: View)
        ensures { self.new ≡ line view step report.now }
    {
        self.line.clear();
        push_number(&mut self.line, &mut self.tens, step);
        push_body(&mut self.line, &mut self.texts, report, view);
        self.line.push("\n");
    }
}

/// The line of a step with its line feed, as a view shows it. `step` counts from 0. A run makes its lines by
/// `Lines::make`; tests are the users of this call.
pub fn line(report: &Report, step: u32, view: View) -> ArrayString<768>
    ensures { result.bytes ≡ line view step report.now }
{
    let mut lines = Lines::new();
    lines.make(report, step, view);
    let mut text = ArrayString::new();
    text.push_str(lines.line.as_str());
    text
}
