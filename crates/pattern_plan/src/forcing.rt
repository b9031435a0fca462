//! Force points and permissive ends, in ticks from local zero.

ghost use Rattle.std.specs.Prelude.{◌≡◌, ◌<◌, ◌≤◌, ◌+◌, ◌-◌, ◌*◌, ◌%◌, ◌&&◌, not, min, if◌then◌else◌, length, ℕ};
ghost use Rattle.sig_tables.specs.Tables.{is_enabled};
ghost use Rattle.sig_tables.specs.Slots.{is_coordinated, is_omitted, least_service, zero_point, force_point, permissive_end};
ghost use Rattle.sig_tables.specs.Layout.{Has};
ghost use Rattle.sig_tables.specs.Laying.{EachIs};
ghost use Rattle.pattern_plan.specs.LayoutStands.{RingLayoutStands};

use crate::laying::{clearances, ends};
use crate::ring_layout::RingLayout;
use crate::side::Side;
use sig_tables::Tables;
use sig_types::PhaseSet;

/// How long a cycle is, and the moment of its sequence that is local zero, in ticks.
#[derive(Clone, Copy)]
pub struct Cycle {
    pub time: u32,
    pub zero: u32,
}

/// What is left of a moment in a cycle: all of it where the cycle has no length.
fn within(moment: u64, cycle: u32) -> u32
    requires few { cycle ≤ 2550 }
    requires low { cycle ≡ 0 → moment < 4294967296 }
    ensures { result ≡ moment % cycle }
{
    if cycle == 0 {
        moment as u32
    } else {
        (moment % u64::from(cycle)) as u32
    }
}

/// The force point of an enabled phase whose slot ends at `end` and whose clearance is `clear`: the last moment that
/// leaves room for its clearance in its slot, and for that of its side before the side ends, modulo the cycle. It is 0
/// if the phase isn't enabled. Enough whole cycles are added before subtracting that no difference is below 0.
fn force_if(enabled: bool, cycle: Cycle, end: u32, clear: u32, side: &Side) -> u32
    requires few { cycle.time ≤ 2550 }
    ensures { result ≡ (if enabled then (min (end + cycle.time * (side.now.clearance + cycle.zero) - clear)
        (side.now.end + cycle.time * (side.now.clearance + cycle.zero) - side.now.clearance) - cycle.zero) % cycle.time else 0) }
{
    if !enabled {
        return 0;
    }
    let zero = u64::from(cycle.zero);
    let shared = u64::from(side.clearance);
    let whole = u64::from(cycle.time) * (shared + zero);
    let slot = (u64::from(end) + whole).saturating_sub(u64::from(clear));
    let last = slot.min((u64::from(side.end) + whole).saturating_sub(shared));
    within(last.saturating_sub(zero), cycle.time)
}

/// The force point of each phase in a pattern whose local zero is given; 0 where it is not enabled.
pub fn forces(ring_layout: &RingLayout, pattern: u8, zero: u32) -> [u32; 16]
    requires stands { RingLayoutStands ring_layout.now }
    requires zero { zero ≡ zero_point ring_layout.now.tables.now pattern }
    ensures each { EachIs result (force_point ring_layout.now.tables.now pattern) }
    ensures sixteen { length result ≡ 16 }
{
    let time = 10 * u32::from(ring_layout.tables.pattern(pattern).cycle);
    let cycle = Cycle { time, zero };
    let ends = ends(ring_layout, pattern);
    let clears = clearances(ring_layout.tables);
    let mut side = Side::none();
    let mut forces = [0; 16];
    for phase in 1..17u8 {
        let place = phase as usize - 1;
        side = side.of(ring_layout.sides[place], &ends, &clears);
        let enabled = ring_layout.enabled.has(phase);
        forces[place] = force_if(enabled, cycle, ends[place], clears[place], &side);
    }
    forces
}

/// The last moment at which a phase, 1 to 16, may still begin to be served by its force point, if it is timed; else 0.
fn permissive_if(timed: bool, tables: &Tables, force: u32, phase: u8) -> u32
    requires above { 0 < phase }
    requires within { phase ≤ 16 }
    ensures { result ≡ (if timed then force - least_service tables.now phase else 0) }
{
    if timed {
        force.saturating_sub(tables.least_service(phase))
    } else {
        0
    }
}

/// The permissive end of each phase that a pattern times: enabled, and neither coordinated nor omitted; 0 for the others.
pub fn permissives(tables: &Tables, pattern: u8, timed: PhaseSet, force: &[u32; 16]) -> [u32; 16]
    requires timed { Has timed (λ p. is_enabled tables.now p && not (is_coordinated tables.now pattern p) && not (is_omitted tables.now pattern p)) }
    requires force { EachIs force.now (force_point tables.now pattern) }
    ensures each { EachIs result (permissive_end tables.now pattern) }
    ensures sixteen { length result ≡ 16 }
{
    let mut ends = [0; 16];
    for phase in 1..17u8 {
        let place = phase as usize - 1;
        ends[place] = permissive_if(timed.has(phase), tables, force[place], phase);
    }
    ends
}
