//! Laws about what differs of two runs. Nothing here runs.

ghost use Rattle.std.specs.Prelude.{◌≡◌, ◌<◌, ℕ, Some, None, List};
ghost use Rattle.tz_model.specs.declared.report.ScriptEvent.{ScriptEvent};
ghost use Rattle.tz_state.specs.State.{State};
ghost use Rattle.tz_sem.specs.Run.{Events};
ghost use Rattle.tz_sem.specs.Step.{step};
ghost use Rattle.tz_twin.specs.Seen.{crossing, Agree};
ghost use Rattle.tz_iso.specs.declared.answer.What.{What};
ghost use Rattle.tz_iso.specs.What.{what_of};
ghost use Rattle.tz_iso.specs.Runs.{IsLinked, difference, what_at};

/// Of steps from linked states nothing differs exactly where the crossings out of Secure state are the same.
pub fn crossings_told()
    ensures alike { (s t : State) (due : List ScriptEvent) → IsLinked s t → what_of (step s due) (step t due) ≡ None → crossing (step s due) ≡ crossing (step t due) }
    ensures none { (s t : State) (due : List ScriptEvent) → crossing (step s due) ≡ crossing (step t due) → what_of (step s due) (step t due) ≡ None }
{}

/// Of runs from linked states nothing differs in n steps exactly where they agree for n steps. Where something
/// differs at a step, they agree for those before it, and at that step it is what differs first.
pub fn difference_told()
    ensures agree { (events : Events) (k n : ℕ) (s t : State) → IsLinked s t → difference events k s t n ≡ None → Agree events k s t n }
    ensures none { (events : Events) (k n : ℕ) (s t : State) → IsLinked s t → Agree events k s t n → difference events k s t n ≡ None }
    ensures first { (events : Events) (n j : ℕ) (what : What) (s t : State) → IsLinked s t → difference events 0 s t n ≡ Some (j, what) →
        (j < n) × Agree events 0 s t j × (what_at events s t j ≡ Some what) }
{}
