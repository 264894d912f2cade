//! The events of steps that are asked for one after another.

ghost use Rattle.std.specs.Prelude.{◌≡◌, ◌<◌, ◌≤◌, ℕ, []};
ghost use Rattle.tz_board.specs.Scripts.{due_at};

use std::sync::ledger::Ledger;
use tz_board::Script;
use tz_model::ScriptEvent;
use tz_ready::Steps;

/// The events of a step, for steps that are asked for one after another: up to `next` no step has any from this one on.
pub fn due_at_step<'a, L: Ledger>(
    script: &'a Script,
    next: &mut u32,
    step: u32,
    looks: &mut Steps<L>,
) -> &'a [ScriptEvent]
    requires none { (k : ℕ) → step ≤ k → k < next.old → due_at k script.now ≡ [] }
    ensures events { result.now ≡ due_at step script.now }
    ensures none { (k : ℕ) → step < k → k < next.new → due_at k script.now ≡ [] }
{
    if step < *next {
        return &[];
    }
    *next = script.next_due(step, looks);
    script.due(step, looks)
}
