//! The entries of a run, counted by gates.

ghost use Rattle.std.specs.Prelude.{◌≡◌, ℕ, ◌<◌, ◌+◌, ◌==◌, length, map, replicate, slice_index, if◌then◌else◌};
ghost use Rattle.std.specs.List.Sorted.{IsStrictlyIncreasing};
ghost use Rattle.tz_state.specs.State.{State};
ghost use Rattle.tz_sem.specs.Run.{state_after};
ghost use Rattle.tz_run.specs.Events.{events_of};
ghost use Rattle.tz_gates.specs.Entries.{is_sg, sg_place, entry_of, is_among, entries_at, other_entries};
ghost use Rattle.tz_gates.specs.Gates.{gates_of};
ghost use Rattle.tz_gates.specs.Stays.{KeepsGatesFor, HasEvenPc};

use crate::scan::know_regions;
use std::marker::Brand;
use std::sync::ledger::{Blank, Ledger};
use tz_board::Script;
use tz_core::Machine;
use tz_model::{Code, Report, Side, StepKind};
use tz_ready::Steps;

/// Whether a code is that of SG.
fn is_sg(code: &Code) -> bool
    ensures { result ≡ is_sg code.now }
{
    code.first == 0xe97f && code.second == Some(0xe97f)
}

/// Where SG ran.
fn sg_place(kind: &StepKind) -> Option<u32>
    ensures { result ≡ sg_place kind.now }
{
    match kind {
        StepKind::Ran { pc, code } if is_sg(code) => Some(*pc),
        _ => None,
    }
}

/// Where a step enters: one that starts Non-secure, runs SG and ends Secure.
fn entry_of(report: &Report) -> Option<u32>
    ensures { result ≡ entry_of report.now }
{
    if report.start == Side::NonSecure && report.end == Side::Secure {
        sg_place(&report.kind)
    } else {
        None
    }
}

/// Counts an entry: at its gate, or among those elsewhere, whose number it gives.
fn note_entry(gates: &[u32], hits: &mut [u32], others: u32, entry: u32) -> u32
    requires ascending { IsStrictlyIncreasing gates.now }
    requires long { length hits.old ≡ length gates.now }
    requires room { (k : ℕ) → k < length hits.old → slice_index hits.old k < 4294967295 }
    requires others_room { others < 4294967295 }
    ensures hits { (k : ℕ) → k < length gates.now → slice_index hits.new k ≡ slice_index hits.old k + (if entry == slice_index gates.now k then 1 else 0) }
    ensures others { result ≡ (if is_among gates.now entry then others else others + 1) }
{
    match gates.binary_search(&entry) {
        Ok(index) => {
            hits[index] += 1;
            others
        }
        Err(_) => others + 1,
    }
}

/// Makes `steps` steps, at each of which its events of the script are due, counts in `hits` how many of them
/// enter at each gate, and tells how many enter elsewhere.
///
/// None does where the gates are all gates of a state, and the board, CTRL and the regions of the SAU, and the
/// bytes that Non-secure code might call stay as in that state. Bit 0 of PC has to be clear, which it is where the
/// machine starts.
pub fn count(
    machine: &mut Machine,
    gates: &[u32],
    hits: &mut [u32],
    script: &Script,
    steps: u32,
) -> u32
    requires ascending { IsStrictlyIncreasing gates.now }
    requires zeros { hits.old ≡ replicate (length gates.now) 0 }
    ensures state { machine.new ≡ state_after (events_of script.now) 0 machine.old steps }
    ensures hits { hits.new ≡ map (entries_at (events_of script.now) 0 machine.old steps) gates.now }
    ensures others { result ≡ other_entries (events_of script.now) 0 machine.old steps gates.now }
    ensures exact { (s : State) → gates.now ≡ gates_of s → KeepsGatesFor s (events_of script.now) machine.old steps → HasEvenPc machine.old → result ≡ 0 }
{
    count_counted::<Brand>(Blank::new(1), machine, gates, hits, script, steps)
}

/// The count, over a ledger of the looks into the script. One report serves all steps.
fn count_counted<L: Ledger>(
    blank: Blank,
    machine: &mut Machine,
    gates: &[u32],
    hits: &mut [u32],
    script: &Script,
    steps: u32,
) -> u32
    requires name { blank.name ≡ L.name }
    requires parts { blank.parts ≡ L.parts }
    requires some_part { 0 < blank.parts }
    requires ascending { IsStrictlyIncreasing gates.now }
    requires zeros { hits.old ≡ replicate (length gates.now) 0 }
    ensures state { machine.new ≡ state_after (events_of script.now) 0 machine.old steps }
    ensures hits { hits.new ≡ map (entries_at (events_of script.now) 0 machine.old steps) gates.now }
    ensures others { result ≡ other_entries (events_of script.now) 0 machine.old steps gates.now }
    ensures exact { (s : State) → gates.now ≡ gates_of s → KeepsGatesFor s (events_of script.now) machine.old steps → HasEvenPc machine.old → result ≡ 0 }
{
    know_regions(machine);
    let mut looks = Steps::<L>::start(blank);
    let mut report = Report::new();
    let mut others = 0;
    for step in 0..steps {
        let due = script.due(step, &mut looks);
        machine.step_into(due, &mut report);
        if let Some(entry) = entry_of(&report) {
            others = note_entry(gates, hits, others, entry);
        }
    }
    others
}
