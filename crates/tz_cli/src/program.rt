//! The top call: the words, and what their command does.
//!
//! What a command writes, and the status once that is written, is settled by the words and the files:
//! the definition `told` says it, for each command as a task. Each command answers in a module of its
//! own, and joins here by its word.

ghost use Rattle.std.specs.Prelude.{◌≡◌, ◌≢◌, ◌⊎◌, ◌<◌, ◌≤◌, ◌+◌, ◌-◌, ◌++◌, ℕ, List, [], length, map, Ok, Some, None, IsTrue, IfSome, codes};
ghost use Rattle.tz_state.specs.State.{State};
ghost use Rattle.tz_sem.specs.Run.{state_after};
ghost use Rattle.tz_run.specs.FullRun.{full_from};
ghost use Rattle.tz_gates.specs.Gates.{gates_of};
ghost use Rattle.tz_gates.specs.Entries.{entries_at};
ghost use Rattle.tz_gates.specs.GatesText.{gates_text};
ghost use Rattle.tz_gates.specs.Stays.{KeepsGatesFor};
ghost use Rattle.tz_snap.specs.StateFile.{SavedState, file_of};
ghost use Rattle.tz_show.specs.Page.{page};
ghost use Rattle.std.specs.String.{string_bytes};
ghost use Rattle.tz_table.specs.declared.units.Side.TheVariants.{Secure};
ghost use Rattle.tz_model.specs.declared.report.View.TheVariants.{Ns};
ghost use Rattle.tz_model.specs.Image.{ImageValue};
ghost use Rattle.tz_model.specs.Outside.{Rose, Gains};
ghost use Rattle.tz_sem.specs.Boot.{boot};
ghost use Rattle.tz_elf.specs.Images.{image_of};
ghost use Rattle.tz_twin.specs.Seen.{Agree};
ghost use Rattle.tz_twin.specs.Trace.{text_from};
ghost use Rattle.tz_run.specs.Events.{events_of};
ghost use Rattle.tz_words.specs.Run.{RunWords};
ghost use Rattle.tz_iso.specs.declared.answer.What.{What};
ghost use Rattle.tz_words.specs.Pair.{PairWords};
ghost use Rattle.tz_cli.specs.PairLine.{FirstApart, agree_line, differ_line};
ghost use Rattle.tz_words.specs.Commands.{Run, RunFull, Pair, Gates, Snap, Show, ShowSaved, Resume, Back, Gen, command_of};
ghost use Rattle.tz_words.specs.StartWords.{StartWords};
ghost use Rattle.tz_words.specs.ShowWords.{ShowWords, SavedWords};
ghost use Rattle.tz_words.specs.Resume.{ResumeWords};
ghost use Rattle.tz_words.specs.Back.{BackWords};
ghost use Rattle.tz_cli.specs.Summary.{summary};
ghost use Rattle.tz_words.specs.declared.generated.GenWords.{GenWords};
ghost use Rattle.tz_files.specs.Told.{Stop, Stops, Gives};
ghost use Rattle.tz_files.specs.Starts.{Start, SavedStart, state_of, first_state, second_state, begin_told};
ghost use Rattle.tz_cli.specs.Tasks.{Job, Task, IsDone, told, reads_of, job_told, trace_of, end_of, counted_gates, shown_told, resume_told, resumed_text, back_told, PairJob, pair_told};
ghost use Rattle.tz_files.specs.Lines.{stop_line, status_of};
ghost use Rattle.tz_files.specs.LineTold.{GainsFront};
ghost use Rattle.tz_cli.specs.Answer.{Answer, shelved, sunk, CutsLine, Excused, IsRefusedBy, IsStatus, IsText, NamesUnread, line_room};

use crate::asm::asm_files;
use crate::back::back_answer;
use crate::dis::dis_files;
use crate::generated::gen_answer;
use crate::page::page_files;
use crate::pair::pair_files;
use crate::resume::resume_answer;
use crate::run::work_files;
use std::alloc::Global;
use tz_files::refuse;
use tz_model::{Shelf, Sink};
use tz_words::{Command, command_words};

/// Reads the words, has their command done, and gives the program's exit status.
///
/// A task is what a command writes, with its status, as the words and the files that they name settle
/// it; a job is a run with its board, its images and its script. Where the words and the shelf settle
/// it, the answer is settled too, but for faults of the outside and want of memory.
pub fn top<H: Shelf, O: Sink, E: Sink>(
    alloc: Global,
    words: &[String],
    shelf: &mut H,
    out: &mut O,
    err: &mut E,
) -> u8
    // What stops a command before it begins is told, with its status.
    ensures usage { result ≡ 2 → command_of (map string_bytes words.now) ≡ None }
    ensures stops { (stop : Stop) → told (H.held shelf.old) (command_of (map string_bytes words.now)) ≡ Stops stop →
        ((result ≡ status_of stop) × Gains (E.written err.old) (E.written err.new) (stop_line stop))
        ⊎ Excused result (H.faults shelf.old) (H.faults shelf.new) (O.faults out.old) (O.faults out.new) (E.faults err.old) (E.faults err.new) }

    // Each answer comes only where it has its cause.
    ensures unread { result ≡ 3 → NamesUnread (map string_bytes words.now) (H.held shelf.old) (H.sound shelf.old) (H.faults shelf.old) (H.faults shelf.new) (E.written err.old) (E.written err.new) }
    ensures unwritten { result ≡ 4 → Rose (O.faults out.old) (O.faults out.new) ⊎ Rose (E.faults err.old) (E.faults err.new) }
    ensures cut { result ≡ 4 → (E.written err.new ≡ E.written err.old)
        ⊎ CutsLine (map string_bytes words.now) (H.held shelf.old) (H.sound shelf.old) (H.faults shelf.old) (H.faults shelf.new) (E.faults err.old) (E.faults err.new) (E.written err.old) (E.written err.new) }
    ensures refused { (result ≡ 5) ⊎ (result ≡ 6) → IsRefusedBy (told (H.held shelf.old) (command_of (map string_bytes words.now)))
        (reads_of (H.held shelf.old) (command_of (map string_bytes words.now))) result (E.written err.old) (E.written err.new) }
    ensures memory { result ≡ 7 → Gains (E.written err.old) (E.written err.new) (codes "no memory\n") }
    ensures one_of { IsStatus (command_of (map string_bytes words.now)) result }

    // Below 2 stand the statuses of work that is done: the text of the task is written whole, and nothing else.
    ensures done { result < 2 → (task : Task) → told (H.held shelf.old) (command_of (map string_bytes words.now)) ≡ Gives task →
        (result ≡ task.status) × Gains (O.written out.old) (O.written out.new) task.text }
    ensures accepted { result < 2 → (stop : Stop) → told (H.held shelf.old) (command_of (map string_bytes words.now)) ≢ Stops stop }
    ensures silent { result < 2 → E.written err.new ≡ E.written err.old }

    // Else nothing is written, but at a fault of `out` a front of the text.
    ensures quiet { (IsDone (command_of (map string_bytes words.now)) result → ⊥) → result ≢ 4 → O.written out.new ≡ O.written out.old }
    ensures front { (text : List ℕ) → IsText (told (H.held shelf.old) (command_of (map string_bytes words.now))) text → GainsFront (O.written out.old) (O.written out.new) text }

    // A task is done, but for the outside and memory, which don't fail where they tell that they suffice.
    ensures complete { (task : Task) → told (H.held shelf.old) (command_of (map string_bytes words.now)) ≡ Gives task →
        (result ≡ task.status) ⊎ Excused result (H.faults shelf.old) (H.faults shelf.new) (O.faults out.old) (O.faults out.new) (E.faults err.old) (E.faults err.new) }
    ensures sound { IsTrue (H.sound shelf.old) → (task : Task) → told (H.held shelf.old) (command_of (map string_bytes words.now)) ≡ Gives task → result ≢ 3 }
    ensures room { (text : List ℕ) → IsText (told (H.held shelf.old) (command_of (map string_bytes words.now))) text →
        IfSome (O.space out.old) (λ n. length text ≤ n → IfSome (E.space err.old) (λ m. line_room (map string_bytes words.now) ≤ m → result ≢ 4)) }

    // At status 0 of `run` the trace of the job is written whole, and nothing else.
    ensures trace { result ≡ 0 → (r : RunWords) → command_of (map string_bytes words.now) ≡ Some (Run r) → (job : Job) → job_told (H.held shelf.old) r ≡ Gives job →
        Gains (O.written out.old) (O.written out.new) (trace_of job) }

    // In view `full` there stands under each line what is told of its step.
    ensures full { result ≡ 0 → (s : StartWords) → command_of (map string_bytes words.now) ≡ Some (RunFull s) → (start : Start) → begin_told (H.held shelf.old) s ≡ Gives start →
        Gains (O.written out.old) (O.written out.new) (full_from (events_of start.script) 0 (state_of start) s.steps) }

    // Isolation: what Non-secure code is shown is also the trace of every other file that is a Secure
    // image of the board, where both runs cross out of Secure state alike.
    ensures isolation { result ≡ 0 → (r : RunWords) → command_of (map string_bytes words.now) ≡ Some (Run r) → (job : Job) → job_told (H.held shelf.old) r ≡ Gives job → job.words.view ≡ Ns →
        (other : List ℕ) (image : ImageValue) → image_of other job.start.board Secure ≡ Ok image →
        Agree (events_of job.start.script) 0 (state_of job.start) (boot job.start.board image job.start.nonsecure) job.words.steps →
        Gains (O.written out.old) (O.written out.new) (text_from Ns (events_of job.start.script) 0 (boot job.start.board image job.start.nonsecure) job.words.steps) }

    // `pair` decides that premise for two Secure images. At status 0 both runs cross out of Secure state alike
    // for all steps; at status 1 they don't, and the line names the first step at which they don't with what
    // differs first at it.
    ensures agree { result ≡ 0 → (p : PairWords) → command_of (map string_bytes words.now) ≡ Some (Pair p) → (job : PairJob) → pair_told (H.held shelf.old) p ≡ Gives job →
        Agree (events_of job.start.script) 0 (first_state job.start) (second_state job.start) job.words.steps × Gains (O.written out.old) (O.written out.new) (agree_line job.words.steps) }
    ensures differ { result ≡ 1 → (p : PairWords) → command_of (map string_bytes words.now) ≡ Some (Pair p) → (job : PairJob) → pair_told (H.held shelf.old) p ≡ Gives job →
        (k : ℕ) × (what : What) × FirstApart (events_of job.start.script) (first_state job.start) (second_state job.start) job.words.steps k what
        × Gains (O.written out.old) (O.written out.new) (differ_line k what) }

    // At status 0 of `gates` each gate of the machine as it starts is written with the number of steps that enter there,
    // and behind them the number of other entries. That is 0 where the gates stay what they are.
    ensures gates { result ≡ 0 → (s : StartWords) → command_of (map string_bytes words.now) ≡ Some (Gates s) → (start : Start) → begin_told (H.held shelf.old) s ≡ Gives start →
        Gains (O.written out.old) (O.written out.new) (counted_gates (events_of start.script) (state_of start) s.steps (gates_of (state_of start))) }
    ensures unlisted { result ≡ 0 → (s : StartWords) → command_of (map string_bytes words.now) ≡ Some (Gates s) → (start : Start) → begin_told (H.held shelf.old) s ≡ Gives start →
        KeepsGatesFor (state_of start) (events_of start.script) (state_of start) s.steps →
        Gains (O.written out.old) (O.written out.new) (gates_text (gates_of (state_of start)) (map (entries_at (events_of start.script) 0 (state_of start) s.steps) (gates_of (state_of start))) 0) }

    // At status 0 of `snap` the file of the state after all steps is written. At status 0 of `show` it is the page of
    // that state, or of the state of a file, with each range of memory that is asked for.
    ensures snap { result ≡ 0 → (s : StartWords) → command_of (map string_bytes words.now) ≡ Some (Snap s) → (start : Start) → begin_told (H.held shelf.old) s ≡ Gives start →
        Gains (O.written out.old) (O.written out.new) (file_of (end_of start s.steps) s.steps) }
    ensures shown { result ≡ 0 → (s : ShowWords) → command_of (map string_bytes words.now) ≡ Some (Show s) → (start : Start) → begin_told (H.held shelf.old) s.start ≡ Gives start →
        Gains (O.written out.old) (O.written out.new) (page (end_of start s.start.steps) s.start.steps s.ranges) }
    ensures shown_saved { result ≡ 0 → (w : SavedWords) → command_of (map string_bytes words.now) ≡ Some (ShowSaved w) → (saved : SavedState) → shown_told (H.held shelf.old) w ≡ Gives saved →
        Gains (O.written out.old) (O.written out.new) (page saved.state saved.step w.ranges) }

    // At status 0 of `resume` the lines are written that follow the state of a file: those behind the first ones of every
    // run with that script which comes to this state in so many steps.
    ensures resumed { result ≡ 0 → (w : ResumeWords) → command_of (map string_bytes words.now) ≡ Some (Resume w) → (start : SavedStart) → resume_told (H.held shelf.old) w ≡ Gives start →
        Gains (O.written out.old) (O.written out.new) (resumed_text w start) }
    ensures continued { result ≡ 0 → (w : ResumeWords) → command_of (map string_bytes words.now) ≡ Some (Resume w) → (start : SavedStart) → resume_told (H.held shelf.old) w ≡ Gives start →
        (s : State) (rest : List ℕ) → state_after (events_of start.script) 0 s start.step ≡ start.state →
        text_from w.view (events_of start.script) 0 s (start.step + w.steps) ≡ text_from w.view (events_of start.script) 0 s start.step ++ rest →
        Gains (O.written out.old) (O.written out.new) rest }

    // At status 0 of `back` the lines of the last steps are written, from the state before them: those behind the first
    // ones of the trace that `run` writes.
    ensures undone { result ≡ 0 → (w : BackWords) → command_of (map string_bytes words.now) ≡ Some (Back w) → (start : Start) → back_told (H.held shelf.old) w ≡ Gives start →
        Gains (O.written out.old) (O.written out.new) (text_from w.view (events_of start.script) (w.start.steps - w.back) (end_of start (w.start.steps - w.back)) w.back) }
    ensures remade { result ≡ 0 → (w : BackWords) → command_of (map string_bytes words.now) ≡ Some (Back w) → (start : Start) → back_told (H.held shelf.old) w ≡ Gives start →
        (rest : List ℕ) → text_from w.view (events_of start.script) 0 (state_of start) w.start.steps ≡ text_from w.view (events_of start.script) 0 (state_of start) (w.start.steps - w.back) ++ rest →
        Gains (O.written out.old) (O.written out.new) rest }

    // At status 0 of `gen` the summary of the job of its number is written, whether or not the job's runs agree.
    ensures generated { result ≡ 0 → (w : GenWords) → command_of (map string_bytes words.now) ≡ Some (Gen w) →
        Gains (O.written out.old) (O.written out.new) (summary w.seed w.steps) }
{
    answer(alloc, words, shelf, out, err)
}

/// Does what the words say, and tells the answer with what it says of the outside.
fn answer<H: Shelf, O: Sink, E: Sink>(
    alloc: Global,
    words: &[String],
    shelf: &mut H,
    out: &mut O,
    err: &mut E,
) -> u8
    ensures { Answer (record {
      command = command_of (map string_bytes words.now);
      room = line_room (map string_bytes words.now);
      shelf = shelved H.held H.sound H.faults shelf.old shelf.new;
      out = sunk O.written O.space O.faults out.old out.new;
      err = sunk E.written E.space E.faults err.old err.new;
    }) result }
{
    let command = match command_words(alloc, words) {
        Ok(Some(command)) => command,
        Ok(None) => return refuse(err, b"usage\n", 2),
        Err(_) => return refuse(err, b"no memory\n", 7),
    };
    match command {
        Command::Start(words, work) => work_files(alloc, &words, &work, shelf, out, err),
        Command::Pair(words) => pair_files(alloc, &words, shelf, out, err),
        Command::Asm(words) => asm_files(alloc, &words, shelf, out, err),
        Command::Dis(words) => dis_files(alloc, &words, shelf, out, err),
        Command::ShowSaved(words) => page_files(alloc, &words, shelf, out, err),
        Command::Resume(words) => resume_answer(alloc, &words, shelf, out, err),
        Command::Back(words) => back_answer(alloc, &words, shelf, out, err),
        Command::Gen(words) => gen_answer(alloc, &words, shelf, out, err),
    }
}
