//! Whether the phases of a cabinet that runs free stay as they are at a tick. Only those that are on in a ring are looked at.

ghost use Rattle.std.specs.Prelude.{◌≡◌, ◌<◌, ◌≤◌, ◌&&◌, [], ℕ, None, true, false, not, IsTrue};

use crate::{Engine, Memory};
use sig_types::PhaseSet;
use tick_context::TickInputs;

impl<M: Memory> Engine<M> {
    ghost use Rattle.sig_types.specs.declared.frame.Mode.TheVariants.{Free};
    ghost use Rattle.sig_types.specs.Phases.{is_phase, is_in};
    ghost use Rattle.sig_types.specs.Colour.{signal_of};
    ghost use Rattle.sig_tables.specs.Past.{Past};
    ghost use Rattle.sig_tables.specs.Tables.{is_enabled};
    ghost use Rattle.sig_tables.specs.Calls.{is_green};
    ghost use Rattle.sig_tables.specs.View.{is_done, is_open};
    ghost use Rattle.sig_tables.specs.Moves.{ring_moves};
    ghost use Rattle.sig_tables.specs.Seen.{frame_seen, mode_seen, quiet_seen, opposed_seen, view_seen};
    ghost use Rattle.tick_context.specs.Shows.{is_signalling};
    ghost use Rattle.tick_context.specs.Walks.{signal_seen};
    ghost use Rattle.tick_context.specs.Sees.{Sees};
    ghost use Rattle.engine.specs.EngineStands.{EngineKeeps, tick_count};

    /// Whether a phase on which no walk begins keeps its signal. A number that isn't a phase does.
    fn walks_on(&self, phase: u8) -> bool
        requires few { tick_count M.frames self.now < 4294967295 }
        ensures stays { (past : Past) → EngineKeeps M.remembers self.now past → mode_seen past ≡ Free → IsTrue result → is_phase phase ≡ true
            → signal_seen past phase ≡ signal_of (frame_seen past) phase }
    {
        if phase == 0 {
            true
        } else if phase > 16 {
            true
        } else {
            self.memory.signal_on(&self.context, phase, None)
                == self.context.frame.ped[phase as usize - 1]
        }
    }

    /// Whether every phase that shows Walk or Flash continues with it. Where one does that is on in no ring, this says
    /// no.
    pub(crate) fn all_walk_on(&self) -> bool
        requires few { tick_count M.frames self.now < 4294967295 }
        ensures stays { (past : Past) (p : ℕ) → EngineKeeps M.remembers self.now past → mode_seen past ≡ Free → IsTrue result → is_phase p ≡ true
            → is_signalling (frame_seen past) p ≡ true → signal_seen past p ≡ signal_of (frame_seen past) p }
    {
        if self.signalling.is_empty() {
            return true;
        }
        let [first, second] = self.context.frame.on;
        if self
            .signalling
            .minus(PhaseSet::of(first))
            .minus(PhaseSet::of(second))
            .is_empty()
        {
            self.walks_on(first) && self.walks_on(second)
        } else {
            false
        }
    }

    /// Whether an enabled Green phase, 1 to 16, is done: it is served, and there is a reason to end it.
    fn is_free_done(&self, phase: u8, active: bool, opposed: bool) -> bool
        requires above { 0 < phase }
        requires within { phase ≤ 16 }
        requires few { tick_count M.frames self.now < 4294967295 }
        ensures done { (past : Past) → EngineKeeps M.remembers self.now past → mode_seen past ≡ Free → is_enabled past.tables phase ≡ true
            → is_green (frame_seen past) phase ≡ true → active ≡ not (is_in (quiet_seen past) phase)
            → opposed ≡ is_in (opposed_seen past) phase → result ≡ is_done (view_seen past) phase }
    {
        if self.free_reason(phase, active, opposed) {
            self.memory.is_served(&self.context, phase)
        } else {
            false
        }
    }

    /// Whether a phase is not done. A number that isn't a phase is not.
    fn stays(&self, tick_inputs: &TickInputs, phase: u8) -> bool
        requires few { tick_count M.frames self.now < 4294967295 }
        ensures stays { (past : Past) → EngineKeeps M.remembers self.now past → Sees tick_inputs.now past → mode_seen past ≡ Free → IsTrue result → is_phase phase ≡ true
            → is_done (view_seen past) phase ≡ false }
    {
        if phase == 0 {
            true
        } else if phase > 16 {
            true
        } else if self
            .context
            .layout
            .enabled
            .meet(self.shown.green)
            .has(phase)
        {
            let active = tick_inputs.active.has(phase);
            let opposed = tick_inputs.opposed.has(phase);
            !self.is_free_done(phase, active, opposed)
        } else {
            true
        }
    }

    /// Whether no phase has demand, or none is done, so that both rings stay as they are where neither is open. Where a phase
    /// is Green that is on in no ring, this says no.
    pub(crate) fn all_stay(&self, tick_inputs: &TickInputs) -> bool
        requires few { tick_count M.frames self.now < 4294967295 }
        ensures stay { (past : Past) → EngineKeeps M.remembers self.now past → Sees tick_inputs.now past → mode_seen past ≡ Free → IsTrue result
            → is_open (view_seen past) 1 ≡ false → is_open (view_seen past) 2 ≡ false
            → ring_moves (view_seen past) ≡ record { ends = []; begins = [] } }
    {
        if tick_inputs.demand.is_empty() {
            return true;
        }
        let [first, second] = self.context.frame.on;
        let green = self.shown.green;
        if green
            .minus(PhaseSet::of(first))
            .minus(PhaseSet::of(second))
            .is_empty()
        {
            self.stays(tick_inputs, first) && self.stays(tick_inputs, second)
        } else {
            false
        }
    }
}
