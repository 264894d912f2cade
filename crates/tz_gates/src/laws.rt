//! Laws about gates, from the start of the machine on. Nothing here runs.

ghost use Rattle.std.specs.Prelude.{◌≡◌, ℕ};
ghost use Rattle.tz_model.specs.Board.{BoardValue, IsBoard};
ghost use Rattle.tz_model.specs.Image.{ImageValue};
ghost use Rattle.tz_sem.specs.Boot.{boot};
ghost use Rattle.tz_sem.specs.Run.{Events};
ghost use Rattle.tz_gates.specs.Entries.{other_entries};
ghost use Rattle.tz_gates.specs.Gates.{gates_of};
ghost use Rattle.tz_gates.specs.Stays.{FindsGates, KeepsGatesFor, HasEvenPc};

/// As long as a board, CTRL and the regions of the SAU, and the bytes that Non-secure code might call stay as the
/// machine starts with them, a fetch of Non-secure code at a gate meets SG, or the fault of the Secure MPU; and a run
/// enters by SG at gates alone.
pub fn gates_hold()
    ensures found { (b : BoardValue) (secure nonsecure : ImageValue) → IsBoard b → FindsGates (boot b secure nonsecure) (gates_of (boot b secure nonsecure)) }
    ensures exact { (b : BoardValue) (secure nonsecure : ImageValue) (events : Events) (n : ℕ) → IsBoard b → KeepsGatesFor (boot b secure nonsecure) events (boot b secure nonsecure) n →
        other_entries events 0 (boot b secure nonsecure) n (gates_of (boot b secure nonsecure)) ≡ 0 }
    ensures even { (b : BoardValue) (secure nonsecure : ImageValue) → HasEvenPc (boot b secure nonsecure) }
{}
