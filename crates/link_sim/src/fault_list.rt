//! The faults of a scenario, sorted once by the frames that they meet, so that the fault of a frame is found by halving.

ghost use Rattle.std.specs.Prelude.{ℕ, ◌≡◌, ◌≤◌, ◌<◌, List, length, get_or, true, false, IfOk};
ghost use Rattle.scenario_data.specs.declared.scenario.Fault.{Fault};
ghost use Rattle.std.specs.List.Sorted.{IsSorted};
ghost use Rattle.std.specs.Ordering.{is_lt};
ghost use Rattle.link_sim.specs.Faults.{meets, fault_of};
ghost use Rattle.link_sim.specs.Order.{by_place, fault_at, rank_of, SameFaults};

use crate::Line;
use scenario_data::{Direction, Fault};
use sig_types::{NoMemory, pass_of};
use std::alloc::Global;

/// The faults of a scenario by round, cabinet, stream, direction and place; of those that meet one frame the first stays first.
#[derive(Drop)]
pub struct FaultList {
    sorted: Vec<Fault>,
    ghost in_order: { IsSorted by_place sorted.items },
}

/// The rank of a direction in the order of the faults.
fn rank_of(direction: Direction) -> u32
    ensures { result ≡ rank_of direction }
{
    match direction {
        Direction::Down => 0,
        Direction::Up => 1,
    }
}

/// Whether a fault meets the frame at a place, counted from 0, of what goes over a line in a round.
fn meets(line: Line, round: u32, place: u64, fault: &Fault) -> bool
    ensures { result ≡ meets line round place fault.now }
{
    fault.round == round
        && fault.cabinet == line.cab
        && fault.stream == line.way
        && fault.way == line.direction
        && u64::from(fault.index) == place
}

/// Whether the frame that a fault meets is before the one at a place of what goes over a line in a round.
fn precedes(fault: &Fault, line: Line, round: u32, place: u64) -> bool
    ensures { result ≡ is_lt (by_place fault.now (fault_at line round place)) }
{
    let met = (
        fault.round,
        fault.cabinet,
        pass_of(fault.stream),
        rank_of(fault.way),
        u64::from(fault.index),
    );
    let frame = (
        round,
        line.cab,
        pass_of(line.way),
        rank_of(line.direction),
        place,
    );
    met.cmp(&frame).is_lt()
}

/// The place of the first of sorted faults that isn't before a frame.
fn first_not_before(sorted: &[Fault], line: Line, round: u32, place: u64) -> usize
    requires in_order { IsSorted by_place sorted.now }
    ensures within { result ≤ length sorted.now }
    ensures before { (k : ℕ) → (d : Fault) → k < result → is_lt (by_place (get_or sorted.now k d) (fault_at line round place)) ≡ true }
    ensures behind { (k : ℕ) → (d : Fault) → result ≤ k → k < length sorted.now → is_lt (by_place (get_or sorted.now k d) (fault_at line round place)) ≡ false }
{
    sorted.partition_point(
        |fault: &Fault| -> bool
            ensures { result ≡ is_lt (by_place fault.now (fault_at line round place)) }
        { precedes(fault, line, round, place) },
    )
}

/// The fault of a frame among sorted faults.
fn find_fault(sorted: &[Fault], line: Line, round: u32, place: u64) -> Option<Fault>
    requires in_order { IsSorted by_place sorted.now }
    ensures { result ≡ fault_of sorted.now line round place }
{
    let at = first_not_before(sorted, line, round, place);
    if at == sorted.len() {
        return None;
    }
    let fault = sorted[at];
    if meets(line, round, place, &fault) {
        Some(fault)
    } else {
        None
    }
}

impl FaultList {
    ghost use Rattle.link_sim.specs.Kept.{faults_in};

    /// The faults in their order.
    pub fn new(alloc: Global, faults: &[Fault]) -> Result<FaultList, NoMemory>
        ensures { IfOk result (λ kept. SameFaults (faults_in kept) faults.now) }
    {
        let Ok(mut sorted) = Vec::from_slice(alloc, faults) else {
            return Err(NoMemory);
        };
        match sorted.sort_by_key(|f| (
            f.round,
            f.cabinet,
            pass_of(f.stream),
            rank_of(f.way),
            f.index,
        )) {
            Ok(()) => Ok(FaultList { sorted }),
            Err(_) => Err(NoMemory),
        }
    }

    /// The fault of a frame: the first that meets it.
    pub fn met(&self, line: Line, round: u32, place: u64) -> Option<Fault>
        ensures { result ≡ fault_of (faults_in self.now) line round place }
    {
        find_fault(&self.sorted, line, round, place)
    }
}
