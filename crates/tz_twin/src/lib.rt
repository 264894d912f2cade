//! What Non-secure code sees of a run, two runs beside each other, and what Non-secure code can't change.
//!
//! The definitions stand in `specs/`; the calls are laws. That two runs which cross out of Secure state
//! alike print the same is proved here, once for all; programs cite it for what they print.
#![tactic(auto)]

ghost use Rattle.std.specs.Prelude.{◌≡◌, ℕ, List};
ghost use Rattle.tz_model.specs.declared.report.ScriptEvent.{ScriptEvent};
ghost use Rattle.tz_model.specs.declared.report.View.TheVariants.{Ns};
ghost use Rattle.tz_model.specs.Board.{BoardValue};
ghost use Rattle.tz_model.specs.Image.{ImageValue};
ghost use Rattle.tz_state.specs.State.{State};
ghost use Rattle.tz_sem.specs.Boot.{boot};
ghost use Rattle.tz_sem.specs.Step.{step};
ghost use Rattle.tz_sem.specs.Run.{Events};
ghost use Rattle.tz_twin.specs.Seen.{Agree};
ghost use Rattle.tz_twin.specs.Trace.{text_from};
ghost use Rattle.tz_twin.specs.Integrity.{LeavesSecure, EntersSecure};
ghost use Rattle.tz_twin.specs.Ways.{TellsWay};
ghost use Rattle.tz_twin.specs.Mover.{MovesAreOpen};
ghost use Rattle.tz_twin.specs.Writing.{MovesTold, WritesTold};

/// Isolation: two runs of a board, a Non-secure image and a script, with any two Secure images, that
/// agree in what crosses out of Secure state print the same for Non-secure code.
pub fn isolation()
    ensures { (b : BoardValue) (secure other nonsecure : ImageValue) (events : Events) (n : ℕ) → Agree events 0 (boot b secure nonsecure) (boot b other nonsecure) n →
        text_from Ns events 0 (boot b secure nonsecure) n ≡ text_from Ns events 0 (boot b other nonsecure) n }
{}

/// Integrity: a step of Non-secure code that doesn't look at Secure state leaves it as it was, but for the count of the
/// Secure timer, for what pends and is active, and for SFSR, SFAR, BFSR, BFAR and HFSR. After one that gets to Secure code
/// without locking SG ran where Non-secure code may call, an exception of the Secure side was taken and is active, it
/// returned by FNC_RETURN to what the Secure stack of the mode holds, with a number that agrees, or it returned by
/// EXC_RETURN to frames with the integrity signature there, and has their registers.
pub fn integrity()
    ensures leaves { (s : State) (events : List ScriptEvent) → LeavesSecure s (step s events) }
    ensures enters { (s : State) (events : List ScriptEvent) → EntersSecure s events (step s events) }
{}

/// A step tells its way out of Secure state exactly where it crosses out: where it looked at Secure state and ends
/// Non-secure.
pub fn ways()
    ensures { (s : State) (events : List ScriptEvent) → TellsWay (step s events) }
{}

/// The Non-secure channel of the mover reads and writes Non-secure bytes alone.
pub fn nonsecure_moves()
    ensures { MovesAreOpen }
{}

/// What a step begins with changes no byte but those of words that channels move, and moves pend nothing where no channel
/// goes. After it a step changes no byte but those of its stores and, where an exception is taken or returns or
/// the machine locks, of frames at the stack pointers of the side that ran; without a store to the system registers it
/// keeps the SAU, and where no exception is taken or returns, all of the exceptions but their timers.
pub fn writing()
    ensures moves { (s : State) → MovesTold s }
    ensures writes { (s : State) (events : List ScriptEvent) → WritesTold s events }
{}
