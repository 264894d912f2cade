//! The bytes and the exceptions of two machines, of which what isn't marked is the same but for the timers.

ghost use Rattle.std.specs.Prelude.{◌≡◌, ◌<◌, ◌/◌, ℕ, true, false};
ghost use Rattle.tz_state.specs.Difference.{sau_differs, open_byte_differs, open_bytes_differ, exceptions_differ};
ghost use Rattle.tz_twin.specs.Writing.{with_timers_of};
ghost use Rattle.tz_iso.specs.Marks.{is_among, Grows, AreMarked, is_still, begin_alike};

use crate::marks::{Blocks, Marks};
use crate::parts::is_same_timers;
use tz_access::Bus;
use tz_model::Side;
use tz_nvic::Exceptions;

/// How many blocks there are.
const BLOCKS: u32 = 1 << 27;

/// Whether an open byte of some of these blocks differs.
fn differ_among(range: Blocks, b: &Bus, c: &Bus) -> bool
    requires same { b.now.state.board.regions ≡ c.now.state.board.regions }
    requires few { range.last < 134217728 }
    ensures some { result ≡ true → open_bytes_differ b.now.state c.now.state ≡ true }
    ensures none { result ≡ false → (a : ℕ) → is_among range (a / 32) ≡ true → open_byte_differs b.now.state c.now.state a ≡ false }
{
    for block in range.first..range.last + 1 {
        if b.differs_at_block(c, block) {
            return true;
        }
    }
    false
}

/// Whether an open byte differs.
pub fn bytes_differ(marks: &Marks, b: &Bus, c: &Bus) -> bool
    requires same { b.now.state.board.regions ≡ c.now.state.board.regions }
    requires marked { AreMarked marks.now b.now.state c.now.state }
    ensures { result ≡ open_bytes_differ b.now.state c.now.state }
{
    if marks.all {
        return b.differs_in_open_bytes(c);
    }
    for range in marks.ranges.as_slice() {
        if range.last >= BLOCKS {
            return b.differs_in_open_bytes(c);
        }
        if differ_among(*range, b, c) {
            return true;
        }
    }
    false
}

/// Whether the SAUs differ.
pub fn sau_differs(marks: &Marks, b: &Bus, c: &Bus) -> bool
    requires { marks.now.all ≡ false → b.now.state.sau ≡ c.now.state.sau }
    ensures { result ≡ sau_differs b.now.state.sau c.now.state.sau }
{
    marks.all && b.sau().differs(c.sau())
}

/// Whether the exceptions differ in anything but their timers.
pub fn exceptions_differ(marks: &Marks, e: &Exceptions, f: &Exceptions) -> bool
    requires { marks.now.exceptions ≡ false → e.now ≡ with_timers_of e.now f.now }
    ensures { result ≡ exceptions_differ e.now f.now }
{
    marks.exceptions && e.differs(f)
}

/// Whether neither timer counts. It looks at both without a branch between.
fn is_still(e: &Exceptions) -> bool
    ensures { result ≡ is_still e.now }
{
    (e.timer(Side::Secure).csr % 2 != 1) & (e.timer(Side::NonSecure).csr % 2 != 1)
}

/// Marks the exceptions where the timers may pend them apart at the next step: where one counts, and they differ.
pub fn note_timers(marks: &mut Marks, e: &Exceptions, f: &Exceptions)
    ensures grows { Grows marks.old marks.new }
    ensures timers { marks.new.exceptions ≡ false → begin_alike e.now f.now ≡ true }
{
    if !(is_still(e) & is_still(f)) && !is_same_timers(e, f) {
        marks.exceptions = true;
    }
}
