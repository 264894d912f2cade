//! The registers that a step changed, and the stores that it made, as a report has them.

ghost use Rattle.std.specs.Prelude.{◌≡◌, ◌≤◌, ◌<◌, ◌+◌, ◌++◌, ◌≢◌, true, false, [], drop};
ghost use Rattle.arrayvec.specs.ArrayVec.{array_vec_len};
ghost use Rattle.tz_regs.specs.Special.{apsr_word};
ghost use Rattle.tz_sem.specs.Ended.{changed, registers_changed, changes_of};

use arrayvec::ArrayVec;
use tz_model::{Change, Store};
use tz_regs::{Apsr, Core, Registers};

/// The registers that differ after a step.
pub type Changes = ArrayVec<Change, 16>;

/// The stores of an instruction.
pub type Stores = ArrayVec<Store, 16>;

/// Takes all registers out of a list. A step changes one or two mostly, and a call that blanks so few takes more.
#[inline(always)]
pub(crate) fn clear_changes(changes: &mut Changes)
    ensures { array_vec_len changes.new ≡ 0 }
{
    for _ in 0..changes.len() {
        changes.pop();
    }
}

/// Takes all stores out of a list. A step makes one mostly, if any.
#[inline(always)]
pub(crate) fn clear_stores(stores: &mut Stores)
    ensures { array_vec_len stores.new ≡ 0 }
{
    match stores.len() {
        0 => {}
        1 => {
            stores.pop();
        }
        _ => stores.clear(),
    }
}

/// Tells a register where it differs.
fn tell(changes: &mut Changes, name: u8, old: u32, new: u32)
    requires { array_vec_len changes.old < 16 }
    ensures items { changes.new.items ≡ changes.old.items ++ changed name old new }
    ensures len { array_vec_len changes.new ≤ array_vec_len changes.old + 1 }
{
    if old != new {
        changes.push(Change { name, value: new });
    }
}

/// Whether four registers, from one on, are as they were. It compares them without a branch for each.
#[inline(always)]
#[tactic(auto, unfolding(tz_sem::specs::Ended::registers_changed))]
fn four_kept(before: &[u32; 13], after: &[u32; 13], from: usize) -> bool
    requires { from + 4 ≤ 13 }
    ensures { result ≡ true → registers_changed (from + 4) (drop (from + 4) before.now) (drop (from + 4) after.now) ≡ registers_changed from (drop from before.now) (drop from after.now) }
{
    let mut kept = true;
    for k in from..from + 4 {
        kept = kept & (before[k] == after[k]);
    }
    kept
}

/// Tells four registers, from one on, where they differ.
#[inline(always)]
#[tactic(auto, unfolding(tz_sem::specs::Ended::registers_changed))]
fn tell_each(changes: &mut Changes, before: &[u32; 13], after: &[u32; 13], from: u8)
    requires within { from + 4 ≤ 13 }
    requires room { array_vec_len changes.old ≤ from }
    ensures items { changes.new.items ++ registers_changed (from + 4) (drop (from + 4) before.now) (drop (from + 4) after.now) ≡ changes.old.items ++ registers_changed from (drop from before.now) (drop from after.now) }
    ensures len { array_vec_len changes.new ≤ from + 4 }
{
    for k in from..from + 4 {
        let i = usize::from(k);
        tell(changes, k, before[i], after[i]);
    }
}

/// The same. Most instructions change one register of the core, so most fours are passed over.
#[inline(always)]
fn tell_four(changes: &mut Changes, before: &[u32; 13], after: &[u32; 13], from: u8)
    requires within { from + 4 ≤ 13 }
    requires room { array_vec_len changes.old ≤ from }
    ensures items { changes.new.items ++ registers_changed (from + 4) (drop (from + 4) before.now) (drop (from + 4) after.now) ≡ changes.old.items ++ registers_changed from (drop from before.now) (drop from after.now) }
    ensures len { array_vec_len changes.new ≤ from + 4 }
{
    if !four_kept(before, after, usize::from(from)) {
        tell_each(changes, before, after, from);
    }
}

/// Tells R0 to R12 where they differ.
fn tell_general(changes: &mut Changes, before: &[u32; 13], after: &[u32; 13])
    requires { changes.old.items ≡ [] }
    ensures items { changes.new.items ≡ registers_changed 0 before.now after.now }
    ensures len { array_vec_len changes.new ≤ 13 }
{
    tell_four(changes, before, after, 0);
    tell_four(changes, before, after, 4);
    tell_four(changes, before, after, 8);
    tell(changes, 12, before[12], after[12]);
}

/// Whether the flags are all as they were, as most steps leave them. It compares them without a branch for each.
fn flags_kept(before: &Apsr, after: &Apsr) -> bool
    ensures kept { result ≡ true → apsr_word before.now ≡ apsr_word after.now }
    ensures differ { result ≡ false → apsr_word before.now ≢ apsr_word after.now }
{
    (before.n == after.n)
        & (before.z == after.z)
        & (before.c == after.c)
        & (before.v == after.v)
        & (before.q == after.q)
}

/// Tells APSR where it differs. Of flags that were kept no word is made.
fn tell_flags(changes: &mut Changes, before: &Apsr, after: &Apsr)
    requires { array_vec_len changes.old < 16 }
    ensures items { changes.new.items ≡ changes.old.items ++ changed 15 (apsr_word before.now) (apsr_word after.now) }
    ensures len { array_vec_len changes.new ≤ array_vec_len changes.old + 1 }
{
    if !flags_kept(before, after) {
        changes.push(Change {
            name: 15,
            value: after.word(),
        });
    }
}

/// Tells all registers that differ. The side before the step has no part in it.
#[inline(always)]
pub fn tell_changes(changes: &mut Changes, registers: &Registers, sp: u32, core: &Core)
    requires { array_vec_len changes.old ≡ 0 }
    ensures { changes.new.items ≡ changes_of (record { side = core.now.run.side; registers = registers.now; sp = sp }) core.now }
{
    let now = &core.registers;
    tell_general(changes, &registers.general, &now.general);
    tell(changes, 13, sp, core.pointer());
    tell(changes, 14, registers.lr, now.lr);
    tell_flags(changes, &registers.apsr, &now.apsr);
}
