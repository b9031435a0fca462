//! For how many ticks more the rings stay as they are, from how long what is on in them stays: what is done waits as long as
//! no phase is wanted that would take its place.

ghost use Rattle.std.specs.Prelude.{◌≡◌, ◌<◌, ◌≤◌, ◌==◌, ◌&&◌, ℕ, true, false, min, max, get_or, if◌then◌else◌};

use crate::context::TickContext;
use crate::modes::is_coord;
use sig_types::PhaseSet;

/// For how many ticks more a ring stays as it is in which this phase is on, or nothing, 0: as long as it stays, or as
/// none here is wanted and none could be left to.
fn ring_left(on: u8, stays: u32, none: u32, wait: u32) -> u32
    ensures { result ≡ (if on == 0 then none else max stays (min none wait)) }
{
    if on == 0 {
        none
    } else {
        stays.max(none.min(wait))
    }
}

/// The phase that is on in ring 1, and where nothing is, in ring 2.
fn present_phase(on: [u8; 2]) -> u8
    ensures { result ≡ (if get_or on 0 0 == 0 then get_or on 1 0 else get_or on 0 0) }
{
    if on[0] == 0 { on[1] } else { on[0] }
}

impl TickContext {
    ghost use Rattle.sig_types.specs.Phases.{is_phase};
    ghost use Rattle.sig_types.specs.PhaseSet.{has, phases_of};
    ghost use Rattle.sig_tables.specs.Modes.{bound};
    ghost use Rattle.sig_tables.specs.Sides.{are_of_one_side};
    ghost use Rattle.sig_tables.specs.Past.{Past};
    ghost use Rattle.sig_tables.specs.Layout.{Has};
    ghost use Rattle.sig_tables.specs.Seen.{demand_with};
    ghost use Rattle.tick_context.specs.Binds.{ActivePatternIs, IsBound};
    ghost use Rattle.tick_context.specs.Context.{ContextStands};
    ghost use Rattle.tick_context.specs.Lasting.{HasNoRoom, StaysOn, RingLasts, present_on};

    /// For how many ticks more there is no room for a phase, 1 to 16, in the pattern that is kept.
    fn full_left(&self, phase: u8) -> u32
        requires above { 0 < phase }
        requires within { phase ≤ 16 }
        ensures left { (past : Past) (n k : ℕ) → ContextStands self.now past → ActivePatternIs self.now.active_pattern past.tables n → 0 < k → k ≤ result
            → HasNoRoom (Some n) k past phase }
    {
        let pattern = &self.active_pattern;
        let place = phase as usize - 1;
        let least = u64::from(self.frame.counter) + 1 + u64::from(pattern.services[place]);
        if pattern.options.coordinated.has(phase) {
            0
        } else if u64::from(pattern.plan.force[place]) < least {
            u32::MAX
        } else {
            pattern
                .plan
                .window
                .saturating_sub(1)
                .saturating_sub(self.frame.counter)
        }
    }

    /// For how many ticks more there is no room for any of these phases.
    fn all_full_left(&self, phases: PhaseSet) -> u32
        ensures left { (past : Past) (k q : ℕ) → ContextStands self.now past → IsBound self.now.active_pattern past.tables self.now.frame.mode → 0 < k
            → k ≤ result → is_phase q ≡ true → has phases q ≡ true → HasNoRoom (bound self.now.frame.mode) k past q }
    {
        if phases.is_empty() {
            return u32::MAX;
        }
        if !is_coord(self.frame.mode) {
            return 0;
        }
        let mut rest = phases;
        let mut left = u32::MAX;
        for _ in 0u32..17 {
            if rest.is_empty() {
                return left;
            }
            let phase = rest.least();
            rest = rest.without(phase);
            left = left.min(self.full_left(phase));
        }
        0
    }

    /// The phases of the present side, where something is on.
    fn present_side(&self) -> PhaseSet
        ensures { (past : Past) → ContextStands self.now past → Has result (are_of_one_side past.tables (present_on past)) }
    {
        let phase = present_phase(self.frame.on);
        if phase != 0 && phase <= 16 {
            self.layout.sides[phase as usize - 1]
        } else {
            PhaseSet::empty()
        }
    }

    /// For how many ticks more both rings stay as they are, if what is on in them stays for this number of ticks, and
    /// these phases have demand.
    pub fn rings_left(&self, demand: PhaseSet, first: u32, second: u32) -> u32
        ensures left { (past : Past) (k : ℕ) → ContextStands self.now past → IsBound self.now.active_pattern past.tables self.now.frame.mode
            → phases_of demand ≡ demand_with (bound self.now.frame.mode) past
            → (k ≤ first → StaysOn (bound self.now.frame.mode) k past 1) → (k ≤ second → StaysOn (bound self.now.frame.mode) k past 2) → 0 < k → k ≤ result
            → RingLasts (bound self.now.frame.mode) k past 1 × RingLasts (bound self.now.frame.mode) k past 2 }
    {
        let side = self.present_side();
        let others = demand.minus(side);
        let beyond = self.all_full_left(others);
        let here = demand.meet(side);
        let near = here.meet(self.layout.rings[0]);
        let far = here.meet(self.layout.rings[1]);
        let one = self.all_full_left(near);
        let two = self.all_full_left(far);
        let left = ring_left(self.frame.on[0], first, one, beyond.max(second));
        left.min(ring_left(self.frame.on[1], second, two, beyond.max(first)))
    }
}
