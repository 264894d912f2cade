//! Exact resumption: Secure code that a Non-secure exception preempts goes on as it was, once a return takes its frames
//! as they were written.
//!
//! The definitions stand in `specs/`; the calls are laws, but for `know_state`, which tells what the types of a state say of
//! its numbers and changes nothing.
#![tactic(auto)]

mod known;

ghost use Rattle.tz_resume.specs.Entries.{EntriesResume};
ghost use Rattle.tz_resume.specs.Number.{NumbersFit};
ghost use Rattle.tz_resume.specs.Resumption.{FramesGiveBack};
ghost use Rattle.tz_resume.specs.Run.{BootsResume, RunsResume};
ghost use Rattle.tz_resume.specs.Steps.{CallsStay, ReturnedSo, StepsResume, TakenSo};

pub use known::know_state;

/// What both frames hold gives back the registers, the stack and its pointer to the code that they were written for.
pub fn frames_give_back()
    ensures { FramesGiveBack }
{}

/// Secure code that an entry interrupts for a Non-secure exception, without a fault of a frame, goes on as it was where
/// a later return takes both frames, whatever was changed but their bytes.
pub fn entries_resume()
    ensures { EntriesResume }
{}

/// So it goes on as it was before the step that was such an entry, after any step that returns to it. Each step that
/// takes an exception is an entry or a return that an exception took over, and each in which code goes on a return. SVC
/// is no such entry: one of Secure code whose frame is written stays in Secure state.
pub fn steps_resume()
    ensures resumes { StepsResume }
    ensures calls { CallsStay }
    ensures taken { TakenSo }
    ensures returned { ReturnedSo }
{}

/// So it does after any two steps of a run, whatever steps are between.
pub fn runs_resume()
    ensures runs { RunsResume }
    ensures boots { BootsResume }
{}

/// The number of the exception fits the 9 bits of a frame after each step, if it did before.
pub fn numbers_fit()
    ensures { NumbersFit }
{}
