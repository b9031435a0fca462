//! Windows as arcs of the cycle, and what is left of them all from a time on, in ticks.

ghost use Rattle.std.specs.Prelude.{◌≡◌, ◌≤◌, ◌<◌, ◌%◌, ◌+◌, ◌-◌, ℕ, Bool, List, IfOk, length, map, sum, true};
ghost use Rattle.sig_tables.specs.Slots.{cycle_time};
ghost use Rattle.band_report.specs.Street.{Member, Passage, passed_after, passages_from, ring_driven, all_have_cycle};
ghost use Rattle.band_report.specs.Arcs.{signal_of, arc_of, into, left_of_all, start_of, first_past};

use crate::signals::Signal;
use sig_types::NoMemory;
use std::alloc::Global;

/// The window of a cabinet: its number in the scenario, how far into the window a vehicle of time 0 passes, round the cycle,
/// and how long the window is.
#[derive(Clone, Copy)]
pub struct Arc {
    pub number: u32,
    pub lead: u32,
    pub green: u32,
}

/// A time of the cycle that many ticks later, round the cycle.
pub(crate) fn turned(time: u32, ticks: u32, cycle: u32) -> u32
    requires some { 0 < cycle }
    ensures is { result ≡ (time + ticks) % cycle }
    ensures within { result < cycle }
{
    ((u64::from(time) + u64::from(ticks)) % u64::from(cycle)) as u32
}

/// What these legs come to, round the cycle.
fn round_cycle(legs: &[u32], cycle: u32) -> u32
    requires some { 0 < cycle }
    ensures { result ≡ sum legs.now % cycle }
{
    let mut total = 0;
    for leg in legs {
        total = turned(total, *leg, cycle);
    }
    total
}

/// How long after the first cabinet that it passes a vehicle passes the one at this place, round the cycle.
fn passed_after(inbound: bool, travel: &Vec<u32>, place: usize, cycle: u32) -> u32
    requires some { 0 < cycle }
    requires within { place ≤ length travel.now.items }
    ensures { result ≡ passed_after inbound travel.now.items place % cycle }
{
    if inbound {
        round_cycle(&travel[place..], cycle)
    } else {
        round_cycle(&travel[..place], cycle)
    }
}

/// How far into its window a cabinet is passed by a vehicle of time 0, round the cycle.
fn lead_of(signal: &Signal, after: u32, cycle: u32) -> u32
    requires some { 0 < cycle }
    ensures { result ≡ (after + signal.now.shift + (cycle - signal.now.offset % cycle)) % cycle }
{
    let behind = cycle - signal.offset % cycle;
    ((u64::from(after) + u64::from(signal.shift) + u64::from(behind)) % u64::from(cycle)) as u32
}

/// The window of a cabinet that is passed this long after the first one, modulo the cycle.
fn arc_at(signal: &Signal, after: u32, cycle: u32) -> Arc
    requires some { 0 < cycle }
    ensures { (n : ℕ) (inbound : Bool) (c : Passage) → signal.now ≡ signal_of n inbound (record { number = c.number; tables = c.tables })
        → cycle_time c.tables n ≡ cycle → after ≡ c.after % cycle → result ≡ arc_of n (ring_driven inbound) c }
{
    Arc {
        number: signal.number,
        lead: lead_of(signal, after, cycle),
        green: signal.green,
    }
}

/// The windows of cabinets as they are passed, where there is one cycle along them.
pub(crate) fn arcs(
    alloc: Global,
    signals: &Vec<Signal>,
    travel: &Vec<u32>,
    inbound: bool,
    cycle: u32,
) -> Result<Vec<Arc>, NoMemory>
    requires some { 0 < cycle }
    requires legs { length signals.now.items ≡ length travel.now.items + 1 }
    ensures { IfOk result (λ found. (n : ℕ) (ms : List Member) → signals.now.items ≡ map (signal_of n inbound) ms → all_have_cycle n cycle ms ≡ true
        → found.items ≡ map (arc_of n (ring_driven inbound)) (passages_from inbound travel.now.items 0 ms)) }
{
    let mut found = Vec::new(alloc);
    for place in 0..signals.len() {
        let after = passed_after(inbound, travel, place, cycle);
        match found.push(arc_at(&signals[place], after, cycle)) {
            Ok(()) => {}
            Err(_) => return Err(NoMemory),
        }
    }
    Ok(found)
}

/// How far into a window a time is, round the cycle.
fn into(arc: &Arc, time: u32, cycle: u32) -> u32
    requires some { 0 < cycle }
    ensures { result ≡ into cycle arc.now time }
{
    turned(time, arc.lead, cycle)
}

/// What is left of all windows together from a time on: the least that is left of one.
pub(crate) fn left_of_all(arcs: &Vec<Arc>, time: u32, cycle: u32) -> u32
    requires some { 0 < cycle }
    ensures { result ≡ left_of_all cycle arcs.now.items time }
{
    let mut least = cycle;
    for place in 0..arcs.len() {
        let arc = &arcs[place];
        least = least.min(arc.green.saturating_sub(into(arc, time, cycle)));
    }
    least
}

/// The time at which a window begins.
pub(crate) fn start_of(arc: &Arc, cycle: u32) -> u32
    requires some { 0 < cycle }
    requires lead { arc.now.lead < cycle }
    ensures { result ≡ start_of cycle arc.now }
{
    (cycle - arc.lead) % cycle
}

/// The number of the first cabinet whose window a time is past; 0 where there is none.
pub(crate) fn first_past(arcs: &Vec<Arc>, time: u32, cycle: u32) -> u32
    requires some { 0 < cycle }
    ensures { result ≡ first_past cycle arcs.now.items time }
{
    for place in 0..arcs.len() {
        let arc = &arcs[place];
        if into(arc, time, cycle) >= arc.green {
            return arc.number;
        }
    }
    0
}
