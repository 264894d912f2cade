//! The registers that Secure code hands over, in two runs.

ghost use Rattle.std.specs.Prelude.{◌≡◌, ◌+◌, ◌≤◌, length};
ghost use Rattle.tz_frames.specs.Registers.{saved_of};
ghost use Rattle.tz_state.specs.Difference.{is_same_flag};
ghost use Rattle.tz_iso.specs.Parts.{is_same_flags, is_same_apsr};
ghost use Rattle.tz_iso.specs.What.{general_apart, all_apart, called_apart, saved_apart, handed_apart};

use crate::answer::What;
use tz_model::CrossKind;
use tz_regs::{Apsr, Registers};

/// Whether both are set, or both are clear.
pub fn is_same_flag(flag: bool, other: bool) -> bool
    ensures { result ≡ is_same_flag flag other }
{
    if flag { other } else { !other }
}

/// Whether the flags are the same.
fn is_same_flags(a: &Apsr, b: &Apsr) -> bool
    ensures { result ≡ is_same_flags a.now b.now }
{
    is_same_flag(a.n, b.n)
        && is_same_flag(a.z, b.z)
        && is_same_flag(a.c, b.c)
        && is_same_flag(a.v, b.v)
        && is_same_flag(a.q, b.q)
}

/// Whether the flags, the IT state and T are the same.
fn is_same_apsr(r: &Registers, q: &Registers) -> bool
    ensures { result ≡ is_same_apsr r.now q.now }
{
    is_same_flags(&r.apsr, &q.apsr) && r.it == q.it && is_same_flag(r.t, q.t)
}

/// The first that isn't the same of R0 to R12, of which these stand from a number on.
#[tactic(auto, unfolding(crate::specs::What::general_apart))]
fn general_apart(from: u8, r: &[u32], q: &[u32]) -> Option<What>
    requires both { length r.now ≡ length q.now }
    requires few { from + length r.now ≤ 13 }
    ensures { result ≡ general_apart from r.now q.now }
{
    for k in 0..r.len() {
        if r[k] != q[k] {
            return Some(What::R(from + k as u8));
        }
    }
    None
}

/// The first register that isn't the same, of all.
fn all_apart(r: &Registers, q: &Registers) -> Option<What>
    ensures { result ≡ all_apart r.now q.now }
{
    if let Some(what) = general_apart(0, &r.general, &q.general) {
        return Some(what);
    }
    if r.lr != q.lr {
        return Some(What::Lr);
    }
    if !is_same_apsr(r, q) {
        return Some(What::Apsr);
    }
    if r.pc != q.pc {
        return Some(What::Pc);
    }
    None
}

/// The first register that isn't the same, of those that a call hands over.
fn called_apart(r: &Registers, q: &Registers) -> Option<What>
    ensures { result ≡ called_apart r.now q.now }
{
    if let Some(what) = general_apart(0, &r.general, &q.general) {
        return Some(what);
    }
    if !is_same_apsr(r, q) {
        return Some(What::Apsr);
    }
    if r.pc != q.pc {
        return Some(What::Pc);
    }
    None
}

/// R4 to R11.
fn saved(general: &[u32; 13]) -> [u32; 8]
    ensures { result ≡ saved_of general.now }
{
    [
        general[4],
        general[5],
        general[6],
        general[7],
        general[8],
        general[9],
        general[10],
        general[11],
    ]
}

/// The first that isn't the same of R4 to R11.
fn saved_apart(r: &Registers, q: &Registers) -> Option<What>
    ensures { result ≡ saved_apart r.now q.now }
{
    let these = saved(&r.general);
    let those = saved(&q.general);
    general_apart(4, &these, &those)
}

/// The first register that isn't the same, of those that a crossing of a kind hands over.
pub fn handed_apart(kind: CrossKind, r: &Registers, q: &Registers) -> Option<What>
    ensures { result ≡ handed_apart kind r.now q.now }
{
    match kind {
        CrossKind::Return => all_apart(r, q),
        CrossKind::Call => called_apart(r, q),
        CrossKind::ExcReturn => all_apart(r, q),
        CrossKind::Chain => saved_apart(r, q),
        CrossKind::Preempt => None,
        CrossKind::Refused => None,
    }
}
