//! The gate of a pattern: what its plan lets pass at a counter. All times in ticks.

ghost use Rattle.std.specs.Prelude.{◌≡◌, ◌<◌, ◌≤◌, ◌+◌, ◌-◌, ◌&&◌, not, nat_le, get_or, ℕ, Some, if◌then◌else◌, false};
ghost use Rattle.sig_types.specs.PhaseSet.{has};
ghost use Rattle.sig_tables.specs.declared.tables.Tables.{Tables};
ghost use Rattle.sig_tables.specs.Tables.{clearance};
ghost use Rattle.sig_tables.specs.Slots.{least_service};
ghost use Rattle.sig_tables.specs.Coordinating.{fits, has_room, is_forced_off, extension_of, is_released, is_floating, has_floated};
ghost use Rattle.sig_tables.specs.Plan.{plan_of};
ghost use Rattle.sig_tables.specs.Layout.{Has};

use crate::members::{in_time, reached};
use sig_tables::Plan;
use sig_types::PhaseSet;

/// Whether a phase, 1 to 16, that is not coordinated can be served where it begins `k` ticks after this counter: the
/// window has been reached, and its minimum service ends by its force point.
pub fn fits(plan: &Plan, counter: u32, k: u32, service: u32, phase: u8) -> bool
    requires above { 0 < phase }
    requires within { phase ≤ 16 }
    ensures exact { result ≡ (nat_le plan.now.window counter && nat_le (counter + k + service) (get_or plan.now.force (phase - 1) 0)) }
    ensures fits { (t : Tables) → (n : ℕ) → plan.now ≡ plan_of t n → service ≡ least_service t phase
        → result ≡ fits t n counter k phase }
{
    let end = u64::from(counter) + u64::from(k) + u64::from(service);
    plan.window <= counter && end <= u64::from(plan.force[phase as usize - 1])
}

/// Whether the plan lets a coordinated phase, 1 to 16, end: its force point has been reached, and `held` ticks more, by which
/// an active priority request holds it; 0 where none is active.
pub fn released(plan: &Plan, counter: u32, held: u32, phase: u8) -> bool
    requires above { 0 < phase }
    requires within { phase ≤ 16 }
    ensures exact { result ≡ nat_le (get_or plan.now.force (phase - 1) 0 + held) counter }
    ensures released { (t : Tables) → (n active : ℕ) → plan.now ≡ plan_of t n → held ≡ extension_of t active
        → result ≡ is_released t n counter active phase }
{
    u64::from(plan.force[phase as usize - 1]) + u64::from(held) <= u64::from(counter)
}

/// Whether force-offs float and a phase, 1 to 16, has filled its split: with the ticks for which it has been green, and its
/// clearance, `clear`.
pub fn filled(plan: &Plan, green: u32, clear: u32, phase: u8) -> bool
    requires above { 0 < phase }
    requires within { phase ≤ 16 }
    ensures exact { result ≡ (plan.now.floating && nat_le (get_or plan.now.float (phase - 1) 0) (green + clear)) }
    ensures filled { (t : Tables) → (n : ℕ) → plan.now ≡ plan_of t n → clear ≡ clearance t phase
        → result ≡ (if is_floating t then has_floated t n phase green else false) }
{
    plan.floating
        && u64::from(plan.float[phase as usize - 1]) <= u64::from(green) + u64::from(clear)
}

/// A plan with what else is asked of a pattern at a tick, for all phases.
#[derive(Clone, Copy)]
pub struct Gate<'a> {
    pub plan: &'a Plan,
    /// The phases that the pattern coordinates.
    pub coordinated: PhaseSet,
    /// The minimum service of each phase; phase p is at place p - 1.
    pub services: &'a [u32; 16],
}

impl Gate<'_> {
    ghost use Rattle.coord_gate.specs.GateStands.{GateStands};

    /// Those of the phases that the pattern does not coordinate.
    fn others(&self, among: PhaseSet) -> PhaseSet
        ensures { Has result (λ p. has among p && not (has self.now.coordinated p)) }
    {
        among.minus(self.coordinated)
    }

    /// Those of the phases that have room: the coordinated ones, and from the window on those whose minimum service
    /// ends by their force points where they begin `k` ticks after this counter.
    pub fn with_room(&self, counter: u32, k: u32, among: PhaseSet) -> PhaseSet
        ensures { (t : Tables) → (n : ℕ) → GateStands self.now t n → Has result (λ p. has among p && has_room (Some n) t counter k p) }
    {
        let held = among.meet(self.coordinated);
        if counter < self.plan.window {
            return held;
        }
        let moment = u64::from(counter) + u64::from(k);
        held.union(in_time(&self.plan.force, self.services, moment, self.others(among)))
    }

    /// Those of the phases that the pattern forces off: not coordinated, and with their force points reached.
    pub fn forced(&self, counter: u32, among: PhaseSet) -> PhaseSet
        ensures { (t : Tables) → (n : ℕ) → GateStands self.now t n → Has result (λ p. has among p && is_forced_off (Some n) t counter p) }
    {
        reached(&self.plan.force, counter, self.others(among))
    }

    /// Those of the phases that the pattern releases: with their force points reached, and `held` ticks more, by which an
    /// active priority request holds them.
    pub fn released(&self, counter: u32, held: u32, among: PhaseSet) -> PhaseSet
        ensures { (t : Tables) → (n active : ℕ) → GateStands self.now t n → held ≡ extension_of t active
            → Has result (λ p. has among p && is_released t n counter active p) }
    {
        if counter < held {
            return PhaseSet::empty();
        }
        reached(&self.plan.force, counter - held, among)
    }
}
