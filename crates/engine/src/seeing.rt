//! What a tick sees: activity, demand, what opposes a Green, and what the colours do by themselves.

ghost use Rattle.std.specs.Prelude.{◌≡◌, ◌<◌, ◌≤◌, ◌&&◌, ◌==◌, ◌||◌, ℕ, true, not, List, None};

use crate::{Engine, Memory};
use sig_types::{Colour, Ped, PhaseSet};
use tick_context::{TickInputs, TickState};

impl<M: Memory> Engine<M> {
    ghost use Rattle.sig_types.specs.declared.frame.Colour.TheVariants.{Green, Yellow, Clear, Red};
    ghost use Rattle.sig_types.specs.declared.frame.Mode.{Mode};
    ghost use Rattle.sig_types.specs.Phases.{is_phase, is_in};
    ghost use Rattle.sig_types.specs.PhaseSet.{phases_of};
    ghost use Rattle.sig_types.specs.Colour.{same_colour, colour_of, signal_of};
    ghost use Rattle.sig_tables.specs.Tables.{is_enabled};
    ghost use Rattle.sig_tables.specs.declared.tables.Tables.{Tables};
    ghost use Rattle.sig_tables.specs.Past.{Past};
    ghost use Rattle.sig_tables.specs.Looking.{runs_on};
    ghost use Rattle.sig_tables.specs.Lesser.{signal_runs_within};
    ghost use Rattle.sig_tables.specs.Calls.{is_green, opposed_of};
    ghost use Rattle.sig_tables.specs.Layout.{Has};
    ghost use Rattle.sig_tables.specs.View.{ended_of, is_served, is_startable};
    ghost use Rattle.sig_types.specs.declared.frame.Mode.TheVariants.{Free};
    ghost use Rattle.sig_tables.specs.Seen.{frame_seen, mode_seen, demand_with, view_seen};
    ghost use Rattle.call_store.specs.Signals.{lesser_of};
    ghost use Rattle.engine.specs.Runs.{Runs};
    ghost use Rattle.tick_context.specs.Sees.{Sees};
    ghost use Rattle.engine.specs.EngineStands.{EngineKeeps, tick_count};

    /// What this tick sees of the phases.
    pub(crate) fn tick_inputs(&self, tick_state: &TickState) -> TickInputs
        ensures sees { (past : Past) → Runs M.remembers self.now tick_state.now past → Sees result past }
    {
        let options = self.context.options(tick_state);
        let active = self.context.calls.active(&self.context.layout, options);
        let demand = self
            .context
            .calls
            .demand(&self.context.layout, self.shown.red, options);
        let opposed = self.opposed(demand);
        TickInputs {
            demand,
            active,
            opposed,
        }
    }

    /// The phases with demand at a tick of a cabinet that runs free.
    pub(crate) fn free_demand(&self) -> PhaseSet
        ensures demand { (past : Past) → EngineKeeps M.remembers self.now past → phases_of result ≡ demand_with None past }
    {
        self.context
            .calls
            .demand(&self.context.layout, self.shown.red, None)
    }

    /// What a tick of a cabinet that runs free sees of the phases, of which these have demand.
    pub(crate) fn free_tick_inputs(&self, demand: PhaseSet) -> TickInputs
        ensures sees { (past : Past) → EngineKeeps M.remembers self.now past → mode_seen past ≡ Free → phases_of demand ≡ demand_with None past
            → Sees result past }
    {
        TickInputs {
            demand,
            active: self.context.calls.active(&self.context.layout, None),
            opposed: self.opposed(demand),
        }
    }

    /// The Green phases to which an incompatible phase of these with demand is there.
    pub(crate) fn opposed(&self, demand: PhaseSet) -> PhaseSet
        ensures opposed { (past : Past) (phases : List ℕ) → EngineKeeps M.remembers self.now past → phases_of demand ≡ phases
            → Has result (is_in (opposed_of past.tables (frame_seen past) phases)) }
    {
        let mut opposed = PhaseSet::empty();
        let mut rest = self.shown.green;
        for _ in 0u32..16 {
            let p = rest.first();
            if p == 0 {
                return opposed;
            }
            rest = rest.minus(PhaseSet::empty().with(p));
            let both = self.context.layout.incompatible[p as usize - 1].meet(demand);
            opposed = opposed.with_if(p, !both.is_empty());
        }
        opposed
    }

    /// Whether the clearance of a phase, 1 to 16, ends at this tick.
    pub(crate) fn ends_clearance(&self, phase: u8) -> bool
        requires above { 0 < phase }
        requires within { phase ≤ 16 }
        requires few { tick_count M.frames self.now < 4294967295 }
        ensures ends { (past : Past) → EngineKeeps M.remembers self.now past → result ≡ is_in (ended_of past.tables past.moments) phase }
    {
        if self.context.frame.veh[phase as usize - 1] == Colour::Red {
            false
        } else {
            self.memory.runs_on(&self.context, phase) == Colour::Red
        }
    }

    /// Whether a ring is open at this tick, of which this phase was on in the last frame (0: none).
    pub(crate) fn is_open(&self, on: u8) -> bool
        requires few { tick_count M.frames self.now < 4294967295 }
        ensures opening { (past : Past) → EngineKeeps M.remembers self.now past → result ≡ (on == 0 || is_in (ended_of past.tables past.moments) on) }
    {
        if on == 0 {
            true
        } else if on > 16 {
            false
        } else {
            self.ends_clearance(on)
        }
    }

    /// The phases that may begin at this tick.
    pub(crate) fn startable(&self) -> PhaseSet
        requires few { tick_count M.frames self.now < 4294967295 }
        ensures startable { (past : Past) → EngineKeeps M.remembers self.now past → Has result (is_startable (view_seen past)) }
    {
        let mut startable = PhaseSet::empty();
        let mut rest = self.context.layout.enabled.meet(self.shown.red);
        for _ in 0u32..16 {
            let p = rest.first();
            if p == 0 {
                return startable;
            }
            rest = rest.minus(PhaseSet::empty().with(p));
            startable = startable.with_if(p, self.memory.is_startable(&self.context, p));
        }
        startable
    }
}
