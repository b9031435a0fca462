//! The phases that are called in a round, a set for each cabinet, and what changes from one round to the next.

ghost use Rattle.std.specs.Prelude.{ℕ, ◌≡◌, ◌+◌, ◌-◌, ◌^◌, ◌<◌, ◌≤◌, ◌++◌, ◌==◌, false, if◌then◌else◌, min, List, length, get_or, OnOk};
ghost use Rattle.sig_types.specs.declared.phase_set.PhaseSet.{PhaseSet as PhaseRow};
ghost use Rattle.sig_types.specs.PhaseSet.{has};
ghost use Rattle.detector_bank.specs.declared.bank.Detector.{Detector as DetectorRow};
ghost use Rattle.detector_bank.specs.declared.bank.Pulse.{Pulse as PulseRow};
ghost use Rattle.detector_bank.specs.Bank.{called};
ghost use Rattle.detector_bank.specs.Lists.{change, all_phases_changes, round_changes};
ghost use Rattle.detector_bank.specs.Watching.{AreCalled};

use crate::bank::{Call, Detector};
use sig_types::{NoMemory, PhaseSet};

/// No phase of the 64 cabinets.
pub(crate) fn none_called() -> [PhaseSet; 64]
    ensures { (c p : ℕ) (s : PhaseRow) → c < 64 → has (get_or result c s) p ≡ false }
{
    let none = PhaseSet::empty();
    [none; 64]
}

/// How many detectors call each phase of each cabinet, and the sets of those phases that some detector calls.
#[derive(Drop)]
pub struct Calling {
    /// Sixteen for each cabinet.
    pub counts: [usize; 1024],
    pub sets: [PhaseSet; 64],
}

/// A set of phases, with this one or without it.
fn with_or_without(set: PhaseSet, phase: u8, within: bool) -> PhaseSet
    requires some { 1 ≤ phase }
    requires most { phase ≤ 16 }
    ensures { (p : ℕ) → p < 16 → has result (p + 1) ≡ (if p + 1 == phase then within else has set (p + 1)) }
{
    let only = PhaseSet::empty().with(phase);
    if within {
        set.union(only)
    } else {
        set.minus(only)
    }
}

/// A count of detectors, of which one more or one less calls.
fn count_after(count: usize, more: bool) -> usize
    ensures { result ≡ (if more then min (count + 1) (2 ^ 64 - 1) else count - 1) }
{
    if more {
        count.saturating_add(1)
    } else {
        count.saturating_sub(1)
    }
}

impl Calling {
    ghost use Rattle.std.specs.Prelude.{slice_set};
    ghost use Rattle.detector_bank.specs.declared.detector_state.DetectorState.{DetectorState as DetectorStateRow};
    ghost use Rattle.detector_bank.specs.Watching.{Tallies};

    /// No detector calls.
    pub fn new() -> Calling
        ensures { (ds : List DetectorRow) (detector_states : List DetectorStateRow) → ((k : ℕ) (p : DetectorStateRow) → k < length detector_states → (get_or detector_states k p).calls ≡ false) → Tallies result ds detector_states }
    {
        Calling {
            counts: [0; 1024],
            sets: none_called(),
        }
    }

    /// A detector calls or calls no more, and was calling or not before.
    pub fn turn(&mut self, detector: &Detector, before: bool, now: bool)
        requires some { 1 ≤ detector.now.cabinet }
        requires few { detector.now.cabinet ≤ 64 }
        requires least { 1 ≤ detector.now.phase }
        requires most { detector.now.phase ≤ 16 }
        ensures { (ds : List DetectorRow) (detector_states : List DetectorStateRow) (k : ℕ) (p q : DetectorStateRow) (d : DetectorRow) → k < length ds → length ds ≡ length detector_states → length ds < 2 ^ 63
            → detector.now ≡ get_or ds k d → (get_or detector_states k p).calls ≡ before → q.calls ≡ now → Tallies self.old ds detector_states → Tallies self.new ds (slice_set detector_states k q) }
    {
        if before == now {
            return;
        }
        let cabinet = (detector.cabinet - 1) as usize;
        let place = cabinet * 16 + (detector.phase - 1) as usize;
        let count = count_after(self.counts[place], now);
        self.counts[place] = count;
        self.sets[cabinet] = with_or_without(self.sets[cabinet], detector.phase, count > 0);
    }
}

/// The change of a phase, where there is one.
fn push_change(
    calls: &mut Vec<Call>,
    round: u32,
    cabinet: u32,
    phase: u8,
    now: bool,
    before: bool,
) -> Result<(), NoMemory>
    ensures { OnOk result (calls.new.items ≡ calls.old.items ++ change round cabinet phase now before) }
{
    if now == before {
        return Ok(());
    }
    let call = Call {
        round,
        cabinet,
        phase,
        on: now,
    };
    match calls.push(call) {
        Ok(()) => Ok(()),
        Err(_) => Err(NoMemory),
    }
}

/// The changes of the phases of a cabinet.
fn push_phases(
    calls: &mut Vec<Call>,
    round: u32,
    cabinet: u32,
    now: PhaseSet,
    before: PhaseSet,
) -> Result<(), NoMemory>
    ensures { OnOk result ((ds : List DetectorRow) (ps : List PulseRow) (j : ℕ) → round ≡ j + 1
        → ((p : ℕ) → 1 ≤ p → p ≤ 16 → has now p ≡ called ds ps cabinet p (j + 1)) → ((p : ℕ) → 1 ≤ p → p ≤ 16 → has before p ≡ called ds ps cabinet p j)
        → calls.new.items ≡ calls.old.items ++ all_phases_changes ds ps j cabinet) }
{
    if now == before {
        return Ok(());
    }
    for done in 0..16u8 {
        let phase = done + 1;
        push_change(
            calls,
            round,
            cabinet,
            phase,
            now.has(phase),
            before.has(phase),
        )?;
    }
    Ok(())
}

/// The changes of the phases of all cabinets.
pub(crate) fn push_changes(
    calls: &mut Vec<Call>,
    round: u32,
    now: &[PhaseSet; 64],
    before: &[PhaseSet; 64],
) -> Result<(), NoMemory>
    ensures { OnOk result ((ds : List DetectorRow) (ps : List PulseRow) (j : ℕ) → round ≡ j + 1 → AreCalled now.now ds ps (j + 1) → AreCalled before.now ds ps j
        → calls.new.items ≡ calls.old.items ++ round_changes ds ps j) }
{
    for done in 0..64usize {
        push_phases(calls, round, done as u32 + 1, now[done], before[done])?;
    }
    Ok(())
}
