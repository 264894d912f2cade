//! Two steps beside each other: whether they cross out of Secure state alike.

ghost use Rattle.std.specs.Prelude.{◌≡◌};
ghost use Rattle.tz_iso.specs.Marks.{Marked};
ghost use Rattle.tz_iso.specs.Parts.{kind_number, is_same_lr, is_same_way};
ghost use Rattle.tz_iso.specs.What.{crossings_apart, what_by};

use crate::answer::What;
use crate::handed::handed_apart;
use crate::marks::Marks;
use crate::parts::public_apart;
use tz_core::Machine;
use tz_model::{CrossKind, Way};

fn kind_number(kind: CrossKind) -> u8
    ensures { result ≡ kind_number kind }
{
    match kind {
        CrossKind::Return => 0,
        CrossKind::Call => 1,
        CrossKind::ExcReturn => 2,
        CrossKind::Chain => 3,
        CrossKind::Preempt => 4,
        CrossKind::Refused => 5,
    }
}

/// Whether LR is the same where an exception was taken.
fn is_same_lr(a: Option<u32>, b: Option<u32>) -> bool
    ensures { result ≡ is_same_lr a b }
{
    match a {
        None => b.is_none(),
        Some(lr) => match b {
            None => false,
            Some(other) => lr == other,
        },
    }
}

/// Whether two ways are the same.
fn is_same_way(w: &Way, v: &Way) -> bool
    ensures { result ≡ is_same_way w.now v.now }
{
    kind_number(w.kind) == kind_number(v.kind) && w.number == v.number && is_same_lr(w.lr, v.lr)
}

/// What differs first of two crossings.
fn crossings_apart(marks: &Marks, w: &Way, v: &Way, m: &Machine, n: &Machine) -> Option<What>
    requires same { m.now.bus.board.regions ≡ n.now.bus.board.regions }
    requires marked { Marked marks.now m.now n.now }
    ensures { result ≡ crossings_apart w.now v.now m.now n.now }
{
    if !is_same_way(w, v) {
        return Some(What::Way);
    }
    if let Some(what) = handed_apart(w.kind, &m.core().registers, &n.core().registers) {
        return Some(what);
    }
    public_apart(marks, m, n)
}

/// What differs first of two steps, by the ways out of Secure state that they told, and by the machines after them, of
/// which what may differ is marked.
pub fn what_by(
    marks: &Marks,
    way: &Option<Way>,
    other: &Option<Way>,
    m: &Machine,
    n: &Machine,
) -> Option<What>
    requires same { m.now.bus.board.regions ≡ n.now.bus.board.regions }
    requires marked { Marked marks.now m.now n.now }
    ensures { result ≡ what_by way.now other.now m.now n.now }
{
    match way {
        None => match other {
            None => None,
            Some(v) => Some(What::Alone(v.kind)),
        },
        Some(w) => match other {
            None => Some(What::Alone(w.kind)),
            Some(v) => crossings_apart(marks, w, v, m, n),
        },
    }
}
