//! The plan of a pattern.

ghost use Rattle.std.specs.Prelude.{◌≡◌, ◌≤◌, ◌&&◌, ◌-◌, ◌*◌, ◌==◌, not, get_or, if◌then◌else◌, ℕ, ◌∷◌, []};
ghost use Rattle.sig_tables.specs.Tables.{is_enabled};
ghost use Rattle.sig_tables.specs.Slots.{is_coordinated, is_omitted, coordinated_phase, zero_point, force_point, window};
ghost use Rattle.sig_tables.specs.Splits.{coordinated_phases};
ghost use Rattle.sig_tables.specs.Plan.{plan_of};
ghost use Rattle.sig_tables.specs.Layout.{Has};
ghost use Rattle.sig_tables.specs.Laying.{EachIs};
ghost use Rattle.pattern_plan.specs.LayoutStands.{RingLayoutStands};

use crate::forcing::{forces, permissives};
use crate::holding::{coordinated, coordinated_in, omitted};
use crate::laying::{splits, start_of};
use crate::ring_layout::{RingLayout, sides_of};
use sig_tables::{Plan, Tables, enabled_phases};
use sig_types::PhaseSet;

/// The coordinated phase of each ring, or 0.
fn held_phases(tables: &Tables, coordinated: PhaseSet, pattern: u8) -> [u8; 2]
    requires coordinated { Has coordinated (is_coordinated tables.now pattern) }
    ensures { result ≡ coordinated_phases tables.now pattern }
{
    [
        coordinated_in(tables, coordinated, 1),
        coordinated_in(tables, coordinated, 2),
    ]
}

/// The moment of the sequence that is local zero: the later start of the coordinated slots.
fn zero_of(tables: &Tables, pattern: u8, held: [u8; 2]) -> u32
    requires held { held ≡ coordinated_phases tables.now pattern }
    ensures { result ≡ zero_point tables.now pattern }
{
    start_of(tables, pattern, held[0]).max(start_of(tables, pattern, held[1]))
}

/// What represents a phase among the numbers of sixteen; 0 for phase 0.
fn at(numbers: &[u32; 16], phase: u8) -> u32
    requires within { phase ≤ 16 }
    ensures { result ≡ (if phase == 0 then 0 else get_or numbers.now (phase - 1) 0) }
{
    if phase == 0 {
        0
    } else {
        numbers[phase as usize - 1]
    }
}

/// The window: the smaller force point of the coordinated phases.
fn window_of(tables: &Tables, pattern: u8, held: [u8; 2], force: &[u32; 16]) -> u32
    requires held { held ≡ coordinated_phases tables.now pattern }
    requires force { EachIs force.now (force_point tables.now pattern) }
    ensures { result ≡ window tables.now pattern }
{
    at(force, held[0]).min(at(force, held[1]))
}

/// Seconds in ticks.
fn ticks(seconds: u8) -> u32
    ensures { result ≡ 10 * seconds }
{
    10 * u32::from(seconds)
}

/// How long after local zero the moment is that the offset counts from: the window where it refers to the end of green.
fn shift_of(tables: &Tables, window: u32) -> u32
    ensures { result ≡ (if tables.now.unit.reference == 2 then window else 0) }
{
    if tables.unit().reference == 2 {
        window
    } else {
        0
    }
}

/// The phases that a pattern times: enabled, and neither coordinated nor omitted.
fn timed_phases(tables: &Tables, enabled: PhaseSet, coordinated: PhaseSet, pattern: u8) -> PhaseSet
    requires enabled { Has enabled (is_enabled tables.now) }
    requires coordinated { Has coordinated (is_coordinated tables.now pattern) }
    ensures { Has result (λ p. is_enabled tables.now p && not (is_coordinated tables.now pattern p) && not (is_omitted tables.now pattern p)) }
{
    enabled.minus(coordinated).minus(omitted(tables, pattern))
}

/// The plan of a pattern of any tables. One that there isn't is read as a pattern whose columns are all 0, and pattern 0 as 1.
pub fn plan(t: &Tables, pattern: u8) -> Plan
    ensures { result ≡ plan_of t.now pattern }
{
    let enabled = enabled_phases(t);
    let sides = sides_of(t, enabled);
    let ring_layout = RingLayout {
        tables: t,
        enabled,
        sides: &sides,
    };
    plan_on(&ring_layout, pattern)
}

/// The same, where the ring layout of the tables is known already.
pub fn plan_on(ring_layout: &RingLayout, pattern: u8) -> Plan
    requires stands { RingLayoutStands ring_layout.now }
    ensures { result ≡ plan_of ring_layout.now.tables.now pattern }
{
    let tables = ring_layout.tables;
    let row = tables.pattern(pattern);
    let coordinated = coordinated(tables, ring_layout.enabled, pattern);
    let held = held_phases(tables, coordinated, pattern);
    let force = forces(ring_layout, pattern, zero_of(tables, pattern, held));
    let timed = timed_phases(tables, ring_layout.enabled, coordinated, pattern);
    let window = window_of(tables, pattern, held, &force);
    Plan {
        cycle: ticks(row.cycle),
        offset: ticks(row.offset),
        sequence: row.sequence,
        coordinated: held,
        force,
        permissive: permissives(tables, pattern, timed, &force),
        window,
        float: splits(tables, pattern),
        floating: tables.unit().force_mode == 2,
        shift: shift_of(tables, window),
    }
}
