//! For how many ticks a phase continues with what it shows: until the first of its intervals is over, or a point of the
//! plan comes at which it may end. An answer that is too small makes a stride shorter, and no frame another.

ghost use Rattle.std.specs.Prelude.{◌≡◌, ◌<◌, ◌≤◌, ◌&&◌, ◌⊎◌, ℕ, true, not, Option, None, Some};

use crate::{Engine, Memory};
use sig_types::{Colour, PhaseSet};
use tick_context::{TickInputs, is_coord};

impl<M: Memory> Engine<M> {
    ghost use Rattle.sig_types.specs.Phases.{is_phase, is_in};
    ghost use Rattle.sig_types.specs.Colour.{colour_of, signal_of, on_in};
    ghost use Rattle.sig_tables.specs.Past.{Past};
    ghost use Rattle.sig_tables.specs.Tables.{is_enabled};
    ghost use Rattle.sig_tables.specs.Calls.{is_green};
    ghost use Rattle.sig_tables.specs.Modes.{bound};
    ghost use Rattle.sig_tables.specs.Seen.{frame_seen, quiet_with};
    ghost use Rattle.call_store.specs.Signals.{SignalLasts};
    ghost use Rattle.tick_context.specs.Binds.{ActivePatternIs, IsBound};
    ghost use Rattle.tick_context.specs.Lasting.{Looks, ColourLasts, StaysUnserved, HasNoGap, HasNoMaximum, HasNoReason, StaysUnforced, PhaseLasts, StaysOn, RingLasts, opposed_with};
    ghost use Rattle.engine.specs.EngineStands.{EngineKeeps, tick_count};

    /// For how many ticks more a Green phase, 1 to 16, is not served. While it shows Walk or Flash it is not.
    fn unserved_left(&self, phase: u8) -> u32
        requires above { 0 < phase }
        requires within { phase ≤ 16 }
        requires few { tick_count M.frames self.now < 4294967295 }
        ensures left { (past : Past) (k : ℕ) → EngineKeeps M.remembers self.now past → is_green (frame_seen past) phase ≡ true → 0 < k → k ≤ result
            → StaysUnserved k past phase }
    {
        if self.signalling.has(phase) {
            u32::MAX
        } else {
            self.memory.least_left(phase)
        }
    }

    /// For how many ticks more a Green phase, 1 to 16, that is active or is not, has no gap.
    fn gap_left(&self, phase: u8, active: bool) -> u32
        requires above { 0 < phase }
        requires within { phase ≤ 16 }
        ensures left { (past : Past) (o : Option ℕ) (k : ℕ) → EngineKeeps M.remembers self.now past → active ≡ not (is_in (quiet_with o past) phase) → 0 < k → k ≤ result
            → HasNoGap o k past phase }
    {
        if active {
            u32::MAX
        } else {
            self.memory.gap_left(&self.context, phase)
        }
    }

    /// For how many ticks more a Green phase, 1 to 16, has no reason to end, if the pattern that is kept binds.
    fn bound_left(&self, phase: u8, active: bool) -> u32
        requires above { 0 < phase }
        requires within { phase ≤ 16 }
        ensures left { (past : Past) (n k : ℕ) → EngineKeeps M.remembers self.now past → ActivePatternIs self.now.context.active_pattern past.tables n
            → active ≡ not (is_in (quiet_with (Some n) past) phase) → 0 < k → k ≤ result → HasNoReason (Some n) k past phase }
    {
        if self.context.active_pattern.options.coordinated.has(phase) {
            self.context.force_left(phase)
        } else if self.context.active_pattern.plan.floating {
            0
        } else {
            self.gap_left(phase, active)
        }
    }

    /// For how many ticks more a Green phase, 1 to 16, has no reason to end, if no pattern binds.
    fn unbound_left(&self, phase: u8, active: bool, opposed: bool) -> u32
        requires above { 0 < phase }
        requires within { phase ≤ 16 }
        ensures left { (past : Past) (k : ℕ) → EngineKeeps M.remembers self.now past → active ≡ not (is_in (quiet_with None past) phase)
            → opposed ≡ is_in (opposed_with None past) phase → 0 < k → k ≤ result → HasNoReason None k past phase }
    {
        let gap = self.gap_left(phase, active);
        gap.min(self.memory.maximum_left(&self.context, phase, opposed))
    }

    /// For how many ticks more a Green phase, 1 to 16, has no reason to end, in the mode of the last frame.
    fn reason_left(&self, phase: u8, active: bool, opposed: bool) -> u32
        requires above { 0 < phase }
        requires within { phase ≤ 16 }
        ensures left { (past : Past) (k : ℕ) → EngineKeeps M.remembers self.now past → IsBound self.now.context.active_pattern past.tables self.now.context.frame.mode
            → active ≡ not (is_in (quiet_with (bound self.now.context.frame.mode) past) phase)
            → opposed ≡ is_in (opposed_with (bound self.now.context.frame.mode) past) phase → 0 < k → k ≤ result
            → HasNoReason (bound self.now.context.frame.mode) k past phase }
    {
        if is_coord(self.context.frame.mode) {
            self.bound_left(phase, active)
        } else {
            self.unbound_left(phase, active, opposed)
        }
    }

    /// For how many ticks more an enabled Green phase, 1 to 16, stays: it is not served, or it has no reason to end.
    fn stay_left(&self, tick_inputs: &TickInputs, phase: u8) -> u32
        requires above { 0 < phase }
        requires within { phase ≤ 16 }
        requires few { tick_count M.frames self.now < 4294967295 }
        ensures left { (past : Past) (k : ℕ) → EngineKeeps M.remembers self.now past → IsBound self.now.context.active_pattern past.tables self.now.context.frame.mode
            → Looks (bound self.now.context.frame.mode) tick_inputs.now past → is_green (frame_seen past) phase ≡ true → 0 < k → k ≤ result
            → StaysUnserved k past phase ⊎ HasNoReason (bound self.now.context.frame.mode) k past phase }
    {
        let unserved = self.unserved_left(phase);
        let active = tick_inputs.active.has(phase);
        let opposed = tick_inputs.opposed.has(phase);
        unserved.max(self.reason_left(phase, active, opposed))
    }

    /// For how many ticks more what is on in a ring, or 0, is not done; none where nothing is on.
    fn on_left(&self, tick_inputs: &TickInputs, phase: u8) -> u32
        requires few { tick_count M.frames self.now < 4294967295 }
        ensures left { (past : Past) (r k : ℕ) → EngineKeeps M.remembers self.now past → IsBound self.now.context.active_pattern past.tables self.now.context.frame.mode
            → Looks (bound self.now.context.frame.mode) tick_inputs.now past → on_in (frame_seen past) r ≡ phase → 0 < k → k ≤ result
            → StaysOn (bound self.now.context.frame.mode) k past r }
    {
        if phase == 0 {
            0
        } else if phase > 16 {
            0
        } else if !self.shown.green.has(phase) {
            u32::MAX
        } else {
            self.stay_left(tick_inputs, phase)
        }
    }

    /// For how many ticks more both rings stay as they are: nothing ends in them, and nothing begins.
    pub(crate) fn rings_left(&self, tick_inputs: &TickInputs) -> u32
        requires few { tick_count M.frames self.now < 4294967295 }
        ensures left { (past : Past) (k : ℕ) → EngineKeeps M.remembers self.now past → IsBound self.now.context.active_pattern past.tables self.now.context.frame.mode
            → Looks (bound self.now.context.frame.mode) tick_inputs.now past → 0 < k → k ≤ result
            → RingLasts (bound self.now.context.frame.mode) k past 1 × RingLasts (bound self.now.context.frame.mode) k past 2 }
    {
        let demand = tick_inputs.demand;
        if demand.is_empty() {
            return self.context.rings_left(demand, 0, 0);
        }
        let first = self.on_left(tick_inputs, self.context.frame.on[0]);
        let second = self.on_left(tick_inputs, self.context.frame.on[1]);
        self.context.rings_left(demand, first, second)
    }

    /// For how many ticks more a phase, 1 to 16, is not forced off where it is Green.
    fn green_left(&self, phase: u8) -> u32
        requires above { 0 < phase }
        requires within { phase ≤ 16 }
        ensures unforced { (past : Past) (k : ℕ) → EngineKeeps M.remembers self.now past → IsBound self.now.context.active_pattern past.tables self.now.context.frame.mode
            → (is_enabled past.tables phase && is_green (frame_seen past) phase) ≡ true → 0 < k → k ≤ result
            → StaysUnforced (bound self.now.context.frame.mode) k past phase }
    {
        if !self.shown.green.has(phase) {
            return u32::MAX;
        }
        self.context.unforced_left(phase)
    }

    /// For how many ticks more a phase, 1 to 16, continues with what it shows.
    fn phase_left(&self, phase: u8) -> u32
        requires above { 0 < phase }
        requires within { phase ≤ 16 }
        requires few { tick_count M.frames self.now < 4294967295 }
        ensures left { (past : Past) (k : ℕ) → EngineKeeps M.remembers self.now past → IsBound self.now.context.active_pattern past.tables self.now.context.frame.mode
            → 0 < k → k ≤ result → PhaseLasts (bound self.now.context.frame.mode) k past phase }
    {
        let colour = self.memory.colour_left(&self.context, phase);
        let signal = self.memory.signal_left(&self.context, phase);
        colour.min(signal).min(self.green_left(phase))
    }

    /// The same of what may be no phase: that continues for ever.
    fn place_left(&self, phase: u8) -> u32
        requires few { tick_count M.frames self.now < 4294967295 }
        ensures left { (past : Past) (k : ℕ) → EngineKeeps M.remembers self.now past → IsBound self.now.context.active_pattern past.tables self.now.context.frame.mode
            → 0 < k → k ≤ result → is_phase phase ≡ true
            → PhaseLasts (bound self.now.context.frame.mode) k past phase }
    {
        if phase == 0 {
            u32::MAX
        } else if phase > 16 {
            u32::MAX
        } else {
            self.phase_left(phase)
        }
    }

    /// For how many ticks more all phases continue with what they show. Only those that are on in a ring are looked at:
    /// where another is on, or shows Walk or Flash, this says none.
    pub(crate) fn phases_left(&self) -> u32
        requires few { tick_count M.frames self.now < 4294967295 }
        ensures left { (past : Past) (k p : ℕ) → EngineKeeps M.remembers self.now past → IsBound self.now.context.active_pattern past.tables self.now.context.frame.mode
            → 0 < k → k ≤ result → is_phase p ≡ true
            → PhaseLasts (bound self.now.context.frame.mode) k past p }
    {
        let [first, second] = self.context.frame.on;
        let lit = self.shown.green.union(self.shown.clearing);
        let busy = lit.union(self.signalling);
        if busy
            .minus(PhaseSet::of(first))
            .minus(PhaseSet::of(second))
            .is_empty()
        {
            let one = self.place_left(first);
            one.min(self.place_left(second))
        } else {
            0
        }
    }
}
