//! The slots of a pattern, one after another in the order of each ring, in ticks from the start of its sequence; and how long
//! its phases clear and are served.

ghost use Rattle.std.specs.Prelude.{◌≡◌, ◌<◌, ◌≤◌, if◌then◌else◌, length};
ghost use Rattle.sig_tables.specs.Tables.{clearance};
ghost use Rattle.sig_tables.specs.Sums.{sum_of, before};
ghost use Rattle.sig_tables.specs.Slots.{split_time, slot_start, slot_end, least_service};
ghost use Rattle.sig_tables.specs.Laying.{time_of, EachIs};
ghost use Rattle.pattern_plan.specs.LayoutStands.{RingLayoutStands, enabled_end};

use crate::ring_layout::RingLayout;
use sig_tables::{SplitEntry, Tables, time_of};

/// The least time that serves each phase, in ticks. Phase p is at place p - 1.
pub fn services(tables: &Tables) -> [u32; 16]
    ensures { EachIs result (least_service tables.now) }
{
    let mut times = [0; 16];
    for phase in 1..17u8 {
        times[phase as usize - 1] = tables.least_service(phase);
    }
    times
}

/// How long each phase takes from the end of its green until another phase of its ring may begin.
pub fn clearances(tables: &Tables) -> [u32; 16]
    ensures { EachIs result (clearance tables.now) }
{
    let mut times = [0; 16];
    for phase in 1..17u8 {
        times[phase as usize - 1] = tables.clearance(phase);
    }
    times
}

/// How long the slot of each phase is in a pattern.
pub fn splits(tables: &Tables, pattern: u8) -> [u32; 16]
    ensures each { EachIs result (split_time tables.now pattern) }
    ensures sixteen { length result ≡ 16 }
{
    let entries = tables.entries(pattern);
    let mut times = [0; 16];
    for phase in 1..17u8 {
        times[phase as usize - 1] = time_of(entries, phase);
    }
    times
}

/// Where the slot of a phase starts, after those of the octets before it in an order.
fn start_in(entries: &[SplitEntry], order: &[u8], phase: u8) -> u32
    requires few { length order.now ≤ 16 }
    ensures start { result ≡ sum_of (time_of entries.now) (before phase order.now) }
    ensures most { result ≤ 40800 }
{
    let mut start = 0;
    for octet in order {
        if *octet == phase {
            return start;
        }
        start += time_of(entries, *octet);
    }
    start
}

/// Where the slot of a phase starts in a pattern; 0 is looked for in the ring of phase 1.
pub fn start_of(tables: &Tables, pattern: u8, phase: u8) -> u32
    requires within { phase ≤ 16 }
    ensures start { result ≡ slot_start tables.now pattern phase }
    ensures most { result ≤ 40800 }
{
    let order = tables.pattern_order(pattern, tables.phase(phase.max(1)).ring);
    start_in(tables.entries(pattern), order, phase)
}

/// Where the slot of a phase, 1 to 16, ends in a pattern, if it is enabled; else 0.
fn end_if(enabled: bool, tables: &Tables, pattern: u8, phase: u8) -> u32
    requires above { 0 < phase }
    requires within { phase ≤ 16 }
    ensures { result ≡ (if enabled then slot_end tables.now pattern phase else 0) }
{
    if enabled {
        start_of(tables, pattern, phase) + time_of(tables.entries(pattern), phase)
    } else {
        0
    }
}

/// Where the slot of each enabled phase ends in a pattern; 0 for the others.
pub fn ends(ring_layout: &RingLayout, pattern: u8) -> [u32; 16]
    requires stands { RingLayoutStands ring_layout.now }
    ensures { EachIs result (enabled_end ring_layout.now.tables.now pattern) }
{
    let mut ends = [0; 16];
    for phase in 1..17u8 {
        ends[phase as usize - 1] = end_if(
            ring_layout.enabled.has(phase),
            ring_layout.tables,
            pattern,
            phase,
        );
    }
    ends
}
