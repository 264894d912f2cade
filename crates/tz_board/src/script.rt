//! Scripts: the events that are set pending, and when.
//!
//! There is one entry for each step at which something happens, sorted by the step, so the way to the
//! events of a step is found by halving. What a script means doesn't depend on that: it is seen as the list
//! of its events with their steps, in the order of the file.

ghost use Rattle.std.specs.Prelude.{◌≡◌, ℕ, true, ◌<◌, ◌≤◌, ◌+◌, ◌++◌, [], ◌∷◌, IfOk, IsTrue, ◌≢◌, MatchOption, slice_index, length};
ghost use Rattle.tz_board.specs.Scripts.{IsScript, due_at, last_step, most_events};
ghost use Rattle.tz_board.specs.Script.{IsKept, Opens, all_timed, ascend, steps_of};

use std::alloc::{AllocError, Global};
use std::marker::Model;
use std::sync::ledger::Ledger;
use tz_model::ScriptEvent;
use tz_ready::Steps;

/// A step that has events.
#[derive(Drop)]
struct Moment {
    step: u32,
    events: Vec<ScriptEvent>,
}

/// What is set pending at which step. From one event to the next the step stays or grows, and there is
/// room for 10,000 events.
#[derive(Drop)]
pub struct Script {
    moments: Vec<Moment>,
    /// How many events the moments have together.
    count: usize,
}

impl Model for Script {
    ghost use Rattle.std.specs.Prelude.{List};
    ghost use Rattle.tz_board.specs.Scripts.{Timed};

    ghost Value = { List Timed };

    ghost use Rattle.std.specs.Prelude.{◌≡◌, length};
    ghost use Rattle.tz_board.specs.Script.{IsKept, all_timed};

    ghost view = { λ s. all_timed s.moments.items };

    ghost invariant = { λ s. IsKept s.moments.items × (s.count ≡ length (all_timed s.moments.items)) };
}

/// Where a step stands among the moments.
fn find<L: Ledger>(moments: &[Moment], step: u32, steps: &mut Steps<L>) -> Option<usize>
    requires ascending { IsTrue (ascend (steps_of moments.now)) }
    requires few { length moments.now ≤ 10000 }
    ensures at { MatchOption result ((k : ℕ) → k < length moments.now → slice_index (steps_of moments.now) k ≢ step) (λ i. (i < length moments.now) × (slice_index (steps_of moments.now) i ≡ step)) }
    ensures looks { (steps.old ≤ steps.new) × (steps.new ≤ steps.old + 14) }
{
    let mut low = 0;
    let mut high = moments.len();
    while low < high {
        let middle = low + (high - low) / 2;
        steps.look();
        let here = moments[middle].step;
        if here == step {
            return Some(middle);
        }
        if here < step {
            low = middle + 1;
        } else {
            high = middle;
        }
    }
    None
}

/// How many of the moments come up to a step: the place of the first one after it.
fn count_up_to<L: Ledger>(moments: &[Moment], step: u32, steps: &mut Steps<L>) -> usize
    requires ascending { IsTrue (ascend (steps_of moments.now)) }
    requires few { length moments.now ≤ 10000 }
    ensures within { result ≤ length moments.now }
    ensures before { (k : ℕ) → k < result → slice_index (steps_of moments.now) k ≤ step }
    ensures after { (k : ℕ) → result ≤ k → k < length moments.now → step < slice_index (steps_of moments.now) k }
    ensures looks { (steps.old ≤ steps.new) × (steps.new ≤ steps.old + 14) }
{
    let mut low = 0;
    let mut high = moments.len();
    while low < high {
        let middle = low + (high - low) / 2;
        steps.look();
        if moments[middle].step <= step {
            low = middle + 1;
        } else {
            high = middle;
        }
    }
    low
}

/// Whether a step is above the moment before a place, and so above all before it.
fn is_past<L: Ledger>(moments: &[Moment], place: usize, step: u32, steps: &mut Steps<L>) -> bool
    requires ascending { IsTrue (ascend (steps_of moments.now)) }
    requires within { place ≤ length moments.now }
    ensures below { result ≡ true → (k : ℕ) → k < place → slice_index (steps_of moments.now) k < step }
    ensures looks { (steps.old ≤ steps.new) × (steps.new ≤ steps.old + 1) }
{
    if place == 0 {
        return true;
    }
    steps.look();
    moments[place - 1].step < step
}

/// Whether a step is above the moment before a place and below the one there, where there are such moments: then no
/// moment is of that step.
fn is_between<L: Ledger>(moments: &[Moment], place: usize, step: u32, steps: &mut Steps<L>) -> bool
    requires ascending { IsTrue (ascend (steps_of moments.now)) }
    ensures none { result ≡ true → (k : ℕ) → k < length moments.now → slice_index (steps_of moments.now) k ≢ step }
    ensures looks { (steps.old ≤ steps.new) × (steps.new ≤ steps.old + 2) }
{
    if place > moments.len() {
        return false;
    }
    if !is_past(moments, place, step, steps) {
        return false;
    }
    if place == moments.len() {
        return true;
    }
    steps.look();
    step < moments[place].step
}

/// A moment without events.
fn new_moment(alloc: Global, step: u32) -> Moment
    ensures step { result.step ≡ step }
    ensures events { result.events.items ≡ [] }
{
    Moment {
        step,
        events: Vec::new(alloc),
    }
}

/// The moment of a step, off the end of the moments where it stands there, else without events.
fn open_moment(alloc: Global, moments: &mut Vec<Moment>, step: u32) -> Result<Moment, AllocError>
    requires kept { IsKept moments.old.items }
    requires order { last_step 0 (all_timed moments.old.items) ≤ step }
    ensures { IfOk result (Opens moments.old.items moments.new.items step) }
{
    match moments.pop() {
        None => Ok(new_moment(alloc, step)),
        Some(last) => {
            if last.step == step {
                return Ok(last);
            }
            moments.push(last)?;
            Ok(new_moment(alloc, step))
        }
    }
}

impl Script {
    /// The script without events.
    pub(crate) fn none(alloc: Global) -> Script
        ensures { result ≡ [] }
    {
        Script {
            moments: Vec::new(alloc),
            count: 0,
        }
    }

    /// The script of these events. Fails for want of memory alone.
    pub fn of(alloc: Global, events: &[(u32, ScriptEvent)]) -> Result<Script, AllocError>
        requires { IsScript events.now }
        ensures { IfOk result (λ s. s ≡ events.now) }
    {
        let mut script = Script::none(alloc);
        for (step, event) in events {
            script = script.with_event(alloc, *step, *event)?;
        }
        Ok(script)
    }

    /// How many events it has.
    pub(crate) fn len(&self) -> usize
        ensures { result ≡ length self.now }
    {
        self.count
    }

    /// The step of its last event, 0 where it has none.
    pub(crate) fn last_step(&self) -> u32
        ensures { result ≡ last_step 0 self.now }
    {
        match self.moments.last() {
            Some(last) => last.step,
            None => 0,
        }
    }

    /// The script with one more event at its end.
    pub(crate) fn with_event(
        self,
        alloc: Global,
        step: u32,
        event: ScriptEvent,
    ) -> Result<Script, AllocError>
        requires room { length self < most_events }
        requires order { last_step 0 self ≤ step }
        ensures { IfOk result (λ s. s ≡ self ++ (step, event) ∷ []) }
    {
        let Script { mut moments, count } = self;
        let mut last = open_moment(alloc, &mut moments, step)?;
        last.events.push(event)?;
        moments.push(last)?;
        Ok(Script {
            moments,
            count: count + 1,
        })
    }

    /// The events of a step, in their order. At most 14 steps are looked at.
    pub fn due<L: Ledger>(&self, step: u32, steps: &mut Steps<L>) -> &[ScriptEvent]
        ensures events { result.now ≡ due_at step self.now }
        ensures looks { (steps.old ≤ steps.new) × (steps.new ≤ steps.old + 14) }
    {
        match find(&self.moments, step, steps) {
            Some(index) => &self.moments[index].events,
            None => &[],
        }
    }

    /// The first step after a step that has events, or the greatest number where none before that has. At most 15 steps are
    /// looked at.
    pub fn next_due<L: Ledger>(&self, step: u32, steps: &mut Steps<L>) -> u32
        ensures between { (k : ℕ) → step < k → k < result → due_at k self.now ≡ [] }
        ensures due { result < 4294967295 → (step < result) × (due_at result self.now ≢ []) }
        ensures looks { (steps.old ≤ steps.new) × (steps.new ≤ steps.old + 15) }
    {
        let place = count_up_to(&self.moments, step, steps);
        if place == self.moments.len() {
            return u32::MAX;
        }
        steps.look();
        self.moments[place].step
    }

    /// The events of a step, as `due` gives them, for steps that are asked for one after another: `place` says where among
    /// the moments to look first, whatever it is, and is then behind the moment that was found. At most 16 steps are looked at.
    pub fn due_next<L: Ledger>(
        &self,
        place: &mut usize,
        step: u32,
        steps: &mut Steps<L>,
    ) -> &[ScriptEvent]
        ensures events { result.now ≡ due_at step self.now }
        ensures looks { (steps.old ≤ steps.new) × (steps.new ≤ steps.old + 16) }
    {
        if is_between(&self.moments, *place, step, steps) {
            return &[];
        }
        match find(&self.moments, step, steps) {
            Some(index) => {
                *place = index + 1;
                &self.moments[index].events
            }
            None => &[],
        }
    }
}
