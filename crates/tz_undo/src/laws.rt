//! Laws about steps that are taken back. Nothing here runs.

ghost use Rattle.std.specs.Prelude.{◌≡◌, ◌≤◌, ◌<◌, ◌-◌, ℕ, List, length, Some, slice_get, take};
ghost use Rattle.tz_sem.specs.Step.{step};
ghost use Rattle.tz_model.specs.declared.report.ScriptEvent.{ScriptEvent};
ghost use Rattle.tz_undo.specs.History.{HistoryValue, all_stepped, all_backed, states_before};

/// As many steps back as were made, up to those that are kept, lead to the state before them.
pub fn steps_go_back()
    ensures { (h : HistoryValue) (dues : List (List ScriptEvent)) → length dues ≤ h.kept → (all_backed (length dues) (all_stepped h dues)).now ≡ h.now }
{}

/// After steps the states that they began in are before, the newest first, as many as are kept, and then those that
/// were before.
pub fn steps_are_kept()
    ensures { (h : HistoryValue) (dues : List (List ScriptEvent)) → length h.before ≤ h.kept → (all_stepped h dues).before ≡ take h.kept (states_before h dues) }
{}
