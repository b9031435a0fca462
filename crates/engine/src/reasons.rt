//! Why a green ends: gap, maximum, force-off or release, and the least that a preempt leaves it (FHWA Signal Timing Manual:
//! gap-out, max-out, force-off, yield point).

ghost use Rattle.std.specs.Prelude.{◌≡◌, ◌<◌, ◌≤◌, ◌==◌, ℕ, true, not, None, Some};

use crate::{Engine, Memory};
use coord_gate::{filled, released};
use preempt_stages::lesser_green;
use sig_types::{Ped, PhaseSet};
use tick_context::{TickInputs, TickState, is_asked, is_coord};

impl<M: Memory> Engine<M> {
    ghost use Rattle.sig_tables.specs.Coordinating.{extension_of};
    ghost use Rattle.sig_types.specs.Phases.{is_in};
    ghost use Rattle.sig_types.specs.declared.frame.Mode.TheVariants.{Coord};
    ghost use Rattle.sig_tables.specs.Tables.{is_enabled, clearance};
    ghost use Rattle.sig_tables.specs.Past.{Past};
    ghost use Rattle.sig_tables.specs.Calls.{is_green};
    ghost use Rattle.sig_tables.specs.Modes.{bound};
    ghost use Rattle.sig_tables.specs.Goals.{is_cleared};
    ghost use Rattle.sig_tables.specs.Layout.{Has};
    ghost use Rattle.sig_tables.specs.View.{has_gap, has_maximum, is_reasoned, is_done};
    ghost use Rattle.sig_tables.specs.Seen.{frame_seen, mode_seen, quiet_seen, opposed_seen, view_seen};
    ghost use Rattle.prio_queue.specs.Places.{some_number};
    ghost use Rattle.ring_barrier.specs.Shows.{is_leaving};
    ghost use Rattle.engine.specs.Runs.{Runs};
    ghost use Rattle.tick_context.specs.Sees.{Sees};
    ghost use Rattle.engine.specs.EngineStands.{EngineKeeps, tick_count};

    /// Whether there is a reason to end an enabled Green phase, 1 to 16, where no pattern binds: gap or maximum.
    pub(crate) fn free_reason(&self, phase: u8, active: bool, opposed: bool) -> bool
        requires above { 0 < phase }
        requires within { phase ≤ 16 }
        ensures reason { (past : Past) → EngineKeeps M.remembers self.now past → is_enabled past.tables phase ≡ true
            → active ≡ not (is_in (quiet_seen past) phase) → opposed ≡ is_in (opposed_seen past) phase
            → result ≡ is_reasoned None (view_seen past) phase }
    {
        if active {
            self.memory.has_maximum(&self.context, phase, opposed)
        } else if self.memory.has_gap(&self.context, phase) {
            true
        } else {
            self.memory.has_maximum(&self.context, phase, opposed)
        }
    }

    /// By how many ticks an active priority request holds a coordinated phase.
    fn extension(&self, active: Option<u8>) -> u32
        ensures extension { (past : Past) (n : ℕ) → EngineKeeps M.remembers self.now past → active ≡ some_number n → result ≡ extension_of past.tables n }
    {
        match active {
            Some(_) => u32::from(self.context.tables.unit().extension),
            None => 0,
        }
    }

    /// Whether there is a reason to end an enabled Green phase, 1 to 16, where a pattern binds: its release, where the
    /// pattern holds it, else an active priority request, a gap, or its split filled where force-offs float.
    fn bound_reason(&self, tick_state: &TickState, phase: u8, active: bool) -> bool
        requires above { 0 < phase }
        requires within { phase ≤ 16 }
        requires few { tick_count M.frames self.now < 4294967295 }
        ensures reason { (past : Past) (n : ℕ) → Runs M.remembers self.now tick_state.now past → mode_seen past ≡ Coord n
            → is_enabled past.tables phase ≡ true → is_green (frame_seen past) phase ≡ true
            → active ≡ not (is_in (quiet_seen past) phase) → result ≡ is_reasoned (Some n) (view_seen past) phase }
    {
        let plan = &self.context.active_pattern.plan;
        if self.context.active_pattern.options.coordinated.has(phase) {
            released(
                plan,
                tick_state.counter,
                self.extension(tick_state.active),
                phase,
            )
        } else if is_asked(tick_state.active) {
            true
        } else if self.gaps(phase, active) {
            true
        } else {
            self.memory.has_filled(&self.context, tick_state, phase)
        }
    }

    /// Whether an enabled Green phase, 1 to 16, has a gap, which is active at this tick or is not.
    fn gaps(&self, phase: u8, active: bool) -> bool
        requires above { 0 < phase }
        requires within { phase ≤ 16 }
        ensures gap { (past : Past) → EngineKeeps M.remembers self.now past → is_enabled past.tables phase ≡ true
            → active ≡ not (is_in (quiet_seen past) phase) → result ≡ has_gap (view_seen past) phase }
    {
        if active {
            false
        } else {
            self.memory.has_gap(&self.context, phase)
        }
    }

    /// Whether there is a reason to end an enabled Green phase, 1 to 16.
    fn has_reason(&self, tick_state: &TickState, phase: u8, active: bool, opposed: bool) -> bool
        requires above { 0 < phase }
        requires within { phase ≤ 16 }
        requires few { tick_count M.frames self.now < 4294967295 }
        ensures reason { (past : Past) → Runs M.remembers self.now tick_state.now past → is_enabled past.tables phase ≡ true
            → is_green (frame_seen past) phase ≡ true → active ≡ not (is_in (quiet_seen past) phase)
            → opposed ≡ is_in (opposed_seen past) phase
            → result ≡ is_reasoned (bound (mode_seen past)) (view_seen past) phase }
    {
        if is_coord(tick_state.mode) {
            self.bound_reason(tick_state, phase, active)
        } else {
            self.free_reason(phase, active, opposed)
        }
    }

    /// Whether an enabled Green phase, 1 to 16, is done: it is served, and there is a reason to end it.
    fn is_done(&self, tick_state: &TickState, phase: u8, active: bool, opposed: bool) -> bool
        requires above { 0 < phase }
        requires within { phase ≤ 16 }
        requires few { tick_count M.frames self.now < 4294967295 }
        ensures done { (past : Past) → Runs M.remembers self.now tick_state.now past → is_enabled past.tables phase ≡ true
            → is_green (frame_seen past) phase ≡ true → active ≡ not (is_in (quiet_seen past) phase)
            → opposed ≡ is_in (opposed_seen past) phase → result ≡ is_done (view_seen past) phase }
    {
        if self.has_reason(tick_state, phase, active, opposed) {
            self.memory.is_served(&self.context, phase)
        } else {
            false
        }
    }

    /// The Green phases that are done.
    pub(crate) fn done(&self, tick_state: &TickState, tick_inputs: &TickInputs) -> PhaseSet
        requires few { tick_count M.frames self.now < 4294967295 }
        ensures done { (past : Past) → Runs M.remembers self.now tick_state.now past → Sees tick_inputs.now past → Has result (is_done (view_seen past)) }
    {
        let mut done = PhaseSet::empty();
        let mut rest = self.context.layout.enabled.meet(self.shown.green);
        for _ in 0u32..16 {
            let p = rest.first();
            if p == 0 {
                return done;
            }
            rest = rest.minus(PhaseSet::empty().with(p));
            done = done.with_if(
                p,
                self.is_done(
                    tick_state,
                    p,
                    tick_inputs.active.has(p),
                    tick_inputs.opposed.has(p),
                ),
            );
        }
        done
    }

    /// The Green phases that are cleared, so that they may end on the way to a goal.
    pub(crate) fn cleared(&self, tick_state: &TickState) -> PhaseSet
        requires few { tick_count M.frames self.now < 4294967295 }
        ensures cleared { (past : Past) → Runs M.remembers self.now tick_state.now past → Has result (is_leaving (view_seen past)) }
    {
        let mut cleared = PhaseSet::empty();
        let mut rest = self.shown.green;
        for _ in 0u32..16 {
            let p = rest.first();
            if p == 0 {
                return cleared;
            }
            rest = rest.minus(PhaseSet::empty().with(p));
            cleared = cleared.with_if(p, self.memory.is_cleared(&self.context, tick_state, p));
        }
        cleared
    }
}
