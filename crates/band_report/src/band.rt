//! The widest band: from the start of one window on, where the most is left of all windows.

ghost use Rattle.std.specs.Prelude.{◌≡◌, ◌≤◌, ◌<◌, IfOk, length, None};
ghost use Rattle.scenario_data.specs.Content.{scenario_content};
ghost use Rattle.band_report.specs.Street.{misfit_of, passages, ring_driven, cycle_of};
ghost use Rattle.band_report.specs.Bands.{IsReport};
ghost use Rattle.band_report.specs.Arcs.{FitCycle, BestOf, Leaves, better};

use crate::arcs::{Arc, arcs, first_past, left_of_all, start_of, turned};
use crate::signals::signals;
use scenario_data::Scenario;
use sig_types::NoMemory;
use std::alloc::Global;

/// A band: when it starts, in ticks of the cycle as the first cabinet passed counts them, and how many ticks wide it
/// is; and the numbers of the first cabinets of the scenario that block it before its start and after its end.
#[derive(Clone, Copy, PartialEq, Eq)]
pub struct Band {
    pub start: u32,
    pub width: u32,
    pub before: u32,
    pub after: u32,
}

/// A time from which this much is left of all windows.
#[derive(Clone, Copy)]
pub struct Span {
    pub start: u32,
    pub width: u32,
}

/// The better of two: the wider, and of two as wide the earlier.
fn better(best: Span, found: Span) -> Span
    ensures { result ≡ better best found }
{
    if best.width < found.width || best.width == found.width && found.start < best.start {
        found
    } else {
        best
    }
}

/// Where the most is left of all windows, of time 0 and the starts of all windows: the earliest of these.
fn best_of(arcs: &Vec<Arc>, cycle: u32) -> Span
    requires fit { FitCycle cycle arcs.now.items }
    ensures { BestOf cycle arcs.now.items (length arcs.now.items) result.start result.width }
{
    let mut best = Span {
        start: 0,
        width: left_of_all(arcs, 0, cycle),
    };
    for place in 0..arcs.len() {
        let start = start_of(&arcs[place], cycle);
        let width = left_of_all(arcs, start, cycle);
        best = better(best, Span { start, width });
    }
    best
}

/// The widest band of these windows, none where no time is in all of them.
fn band_of(arcs: &Vec<Arc>, cycle: u32) -> Option<Band>
    requires fit { FitCycle cycle arcs.now.items }
    ensures { Leaves cycle arcs.now.items result }
{
    let best = best_of(arcs, cycle);
    if best.width == 0 {
        return None;
    }
    Some(Band {
        start: best.start,
        width: best.width,
        before: first_past(arcs, turned(best.start, cycle - 1, cycle), cycle),
        after: first_past(arcs, turned(best.start, best.width, cycle), cycle),
    })
}

/// The widest band in a pattern along a section, with the travel times from each of its cabinets to the next, in ticks:
/// outbound for the coordinated phases of ring 1, inbound for those of ring 2. None exactly if no time is open, that
/// is, where no vehicle finds every cabinet in its window.
pub fn greatest(
    alloc: Global,
    s: &Scenario,
    section: u8,
    pattern: u8,
    travel: &Vec<u32>,
    inbound: bool,
) -> Result<Option<Band>, NoMemory>
    requires few { length s.now.cabinets.items ≤ 64 }
    requires fits { misfit_of (scenario_content s.now).cabinets section pattern (length travel.now.items) ≡ None }
    ensures { IfOk result (IsReport pattern (ring_driven inbound) (passages (scenario_content s.now).cabinets section travel.now.items inbound) (cycle_of (scenario_content s.now).cabinets section pattern)) }
{
    let signals = match signals(alloc, s, section, pattern, inbound) {
        Ok(signals) => signals,
        Err(fail) => return Err(fail),
    };
    let cycle = signals[0].cycle;
    match arcs(alloc, &signals, travel, inbound, cycle) {
        Ok(arcs) => Ok(band_of(&arcs, cycle)),
        Err(fail) => Err(fail),
    }
}
