//! A walk over the rounds of a bank: in each round only those detectors are looked at that have a pulse in it or may call otherwise.

ghost use Rattle.std.specs.Prelude.{ℕ, ◌≡◌, ◌+◌, ◌<◌, ◌≤◌, ◌++◌, false, List, length, get_or, slice_set, IfOk, OnOk};
ghost use Rattle.detector_bank.specs.declared.bank.Pulse.{Pulse as PulseRow};
ghost use Rattle.detector_bank.specs.declared.bank.Detector.{Detector as DetectorRow};
ghost use Rattle.detector_bank.specs.declared.detector_state.DetectorState.{DetectorState as DetectorStateRow};
ghost use Rattle.detector_bank.specs.Lists.{EachStands, edge_of, round_edges};
ghost use Rattle.detector_bank.specs.Watching.{Sorts, Posted, Tallies, WalkFits, WalkStands, Looks};

use crate::bank::{Detector, Edge, Pulse};
use crate::changes::Calling;
use crate::detector_state::DetectorState;
use crate::order::push_edge;
use crate::pulses::sorted_pulses;
use sig_types::NoMemory;
use std::alloc::Global;

/// The sorted pulses, what is kept of each detector, and for each the next round in which it is examined.
#[derive(Drop)]
pub struct Walk {
    pub sorted: Vec<Pulse>,
    pub detector_states: Vec<DetectorState>,
    pub dues: Vec<u32>,
}

/// What is kept of each detector before the first round.
fn detector_states_of(
    alloc: Global,
    bank: &Vec<Detector>,
    sorted: &[Pulse],
) -> Result<Vec<DetectorState>, NoMemory>
    ensures count { IfOk result (λ detector_states. length detector_states.items ≡ length bank.now.items) }
    ensures fresh { IfOk result (λ detector_states. (ps : List PulseRow) (k : ℕ) (p : DetectorStateRow) (d : DetectorRow) → Sorts sorted.now ps → k < length bank.now.items
        → Posted (get_or detector_states.items k p) 0 sorted.now (get_or bank.now.items k d) ps 0) }
    ensures none { IfOk result (λ detector_states. (k : ℕ) (p : DetectorStateRow) → k < length detector_states.items → (get_or detector_states.items k p).calls ≡ false) }
{
    let Ok(mut detector_states) = Vec::with_capacity(alloc, bank.len()) else {
        return Err(NoMemory);
    };
    for k in 0..bank.len() {
        let detector_state = DetectorState::new(&bank[k], sorted);
        match detector_states.push(detector_state) {
            Ok(()) => {}
            Err(_) => return Err(NoMemory),
        }
    }
    Ok(detector_states)
}

/// The walk before the first round.
pub fn start(alloc: Global, bank: &Vec<Detector>, pulses: &Vec<Pulse>) -> Result<Walk, NoMemory>
    requires few { length pulses.now.items ≤ 1000000 }
    ensures fits { IfOk result (λ walk. WalkFits walk bank.now.items) }
    ensures stands { IfOk result (λ walk. WalkStands walk bank.now.items pulses.now.items 0) }
    ensures none { IfOk result (λ walk. (k : ℕ) (p : DetectorStateRow) → k < length walk.detector_states.items → (get_or walk.detector_states.items k p).calls ≡ false) }
{
    let sorted = sorted_pulses(alloc, pulses.as_slice())?;
    let detector_states = detector_states_of(alloc, bank, sorted.as_slice())?;
    match vec![in alloc; 0u32; bank.len()] {
        Ok(dues) => Ok(Walk {
            sorted,
            detector_states,
            dues,
        }),
        Err(_) => Err(NoMemory),
    }
}

/// Looks at a detector in a round that must be examined.
fn look(walk: &mut Walk, detector: &Detector, k: usize, round: u32)
    requires detector_states { k < length walk.old.detector_states.items }
    requires dues { k < length walk.old.dues.items }
    requires few { length walk.old.sorted.items ≤ 1000000 }
    ensures looks { Looks walk.old walk.new detector.now k round }
    ensures set { (p : DetectorStateRow) → walk.new.detector_states.items ≡ slice_set walk.old.detector_states.items k (get_or walk.new.detector_states.items k p) }
{
    walk.dues[k] = walk.detector_states[k].step(detector, round, walk.sorted.as_slice());
}

/// A detector of a bank that calls, in a round.
fn call_at(walk: &mut Walk, calling: &mut Calling, detector: &Detector, k: usize, round: u32)
    requires some { 1 ≤ detector.now.cabinet }
    requires few { detector.now.cabinet ≤ 64 }
    requires least { 1 ≤ detector.now.phase }
    requires most { detector.now.phase ≤ 16 }
    requires detector_states { k < length walk.old.detector_states.items }
    requires dues { k < length walk.old.dues.items }
    requires short { length walk.old.sorted.items ≤ 1000000 }
    ensures looks { Looks walk.old walk.new detector.now k round }
    ensures tallies { (ds : List DetectorRow) (d : DetectorRow) → k < length ds → length ds ≡ length walk.old.detector_states.items → detector.now ≡ get_or ds k d
        → Tallies calling.old ds walk.old.detector_states.items → Tallies calling.new ds walk.new.detector_states.items }
{
    if walk.dues[k] > round {
        return;
    }
    let before = walk.detector_states[k].calls;
    look(walk, detector, k, round);
    calling.turn(detector, before, walk.detector_states[k].calls);
}

/// One round more of a bank that calls.
pub(crate) fn call_round(walk: &mut Walk, calling: &mut Calling, bank: &Vec<Detector>, round: u32)
    requires stands { EachStands bank.now.items }
    requires fits { WalkFits walk.old bank.now.items }
    ensures fits { WalkFits walk.new bank.now.items }
    ensures stands { (ps : List PulseRow) (j : ℕ) → round ≡ j + 1 → WalkStands walk.old bank.now.items ps j → WalkStands walk.new bank.now.items ps (j + 1) }
    ensures tallies { Tallies calling.old bank.now.items walk.old.detector_states.items → Tallies calling.new bank.now.items walk.new.detector_states.items }
{
    for k in 0..bank.len() {
        call_at(walk, calling, &bank[k], k, round);
    }
}

/// The edges of a detector in a round.
fn edge_at(
    walk: &mut Walk,
    edges: &mut Vec<Edge>,
    detector: &Detector,
    k: usize,
    round: u32,
) -> Result<(), NoMemory>
    requires detector_states { k < length walk.old.detector_states.items }
    requires dues { k < length walk.old.dues.items }
    requires short { length walk.old.sorted.items ≤ 1000000 }
    ensures looks { OnOk result (Looks walk.old walk.new detector.now k round) }
    ensures edges { OnOk result ((ps : List PulseRow) (j : ℕ) (p : DetectorStateRow) → round ≡ j + 1 → Sorts walk.old.sorted.items ps
        → Posted (get_or walk.old.detector_states.items k p) (get_or walk.old.dues.items k 0) walk.old.sorted.items detector.now ps j
        → edges.new.items ≡ edges.old.items ++ edge_of ps round detector.now) }
{
    if walk.dues[k] > round {
        return Ok(());
    }
    look(walk, detector, k, round);
    push_edge(edges, detector, &walk.detector_states[k].watch, round)
}

/// One round more of a bank, with the edges of its detectors.
pub(crate) fn edge_round(
    walk: &mut Walk,
    edges: &mut Vec<Edge>,
    bank: &Vec<Detector>,
    round: u32,
) -> Result<(), NoMemory>
    requires fits { WalkFits walk.old bank.now.items }
    ensures fits { OnOk result (WalkFits walk.new bank.now.items) }
    ensures stands { OnOk result ((ps : List PulseRow) (j : ℕ) → round ≡ j + 1 → WalkStands walk.old bank.now.items ps j → WalkStands walk.new bank.now.items ps (j + 1)) }
    ensures edges { OnOk result ((ps : List PulseRow) (j : ℕ) → round ≡ j + 1 → WalkStands walk.old bank.now.items ps j → edges.new.items ≡ edges.old.items ++ round_edges ps round bank.now.items) }
{
    for k in 0..bank.len() {
        edge_at(walk, edges, &bank[k], k, round)?;
    }
    Ok(())
}
