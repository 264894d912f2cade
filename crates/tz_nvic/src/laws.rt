//! Laws about the choice and about places. Nothing here runs.

ghost use Rattle.std.specs.Prelude.{◌≡◌, ℕ, ◌<◌, Some, None, true, false};
ghost use Rattle.tz_model.specs.declared.report.Slot.{Slot};
ghost use Rattle.tz_state.specs.Slots.{ExceptionsValue, places, exists, is_place, index_of, exception_number, slot_at};
ghost use Rattle.tz_state.specs.Priority.{is_ready, chosen_place};
ghost use Rattle.tz_state.specs.First.{IsFirst, FitGroups, Ascends};

/// The slot that is chosen is ready and comes before all others that are, by group priority, subpriority and
/// place; it is the only one that does; and none is chosen only where none is ready.
pub fn chosen_comes_first()
    ensures first { (e : ExceptionsValue) (i : ℕ) → FitGroups e → chosen_place e ≡ Some i → IsFirst e i }
    ensures only { (e : ExceptionsValue) (i : ℕ) → FitGroups e → IsFirst e i → chosen_place e ≡ Some i }
    ensures none { (e : ExceptionsValue) (i : ℕ) → chosen_place e ≡ None → i < places → is_ready e i ≡ false }
{}

/// A slot that exists has a place, which tells its number; each place tells its slot; and places ascend with the
/// number, of one number the Secure slot before the Non-secure one.
pub fn places_tell_slots()
    ensures there { (e : ExceptionsValue) (slot : Slot) → exists e slot ≡ true → is_place e (index_of slot) ≡ true }
    ensures number { (e : ExceptionsValue) (slot : Slot) → exists e slot ≡ true → exception_number (index_of slot) ≡ slot.number }
    ensures back { (e : ExceptionsValue) (i : ℕ) → is_place e i ≡ true → index_of (slot_at e i) ≡ i }
    ensures ascend { (e : ExceptionsValue) (i j : ℕ) → is_place e j ≡ true → i < j → Ascends e i j }
{}
