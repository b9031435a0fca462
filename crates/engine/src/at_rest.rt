//! Ticks of free operation that give the last frame again: those at rest, where nothing is asked for and nothing runs out;
//! plain ones, where what is on stays as it is and no more is looked at; and those at which no phase ends, begins or walks.
//! Only what counts is stepped.

ghost use Rattle.std.specs.Prelude.{◌≡◌, ◌<◌, ◌+◌, ◌&&◌, [], ℕ, Bool, true, false, None, IsTrue, not};

use crate::{Engine, Memory};
use sig_types::{Frame, Mode, PhaseSet};
use tick_context::{TickInputs, TickState, are_both_on, is_defined, is_free, shows_sixteen};

/// The command that asks for flash.
const FLASH_COMMAND: u8 = 255;

impl<M: Memory> Engine<M> {
    ghost use Rattle.sig_types.specs.declared.frame.Colour.TheVariants.{Green};
    ghost use Rattle.sig_types.specs.declared.frame.Mode.TheVariants.{Free};
    ghost use Rattle.sig_types.specs.Phases.{is_phase, is_in};
    ghost use Rattle.sig_types.specs.Colour.{same_colour, colour_of};
    ghost use Rattle.sig_tables.specs.Past.{Past};
    ghost use Rattle.sig_tables.specs.Command.{command_now};
    ghost use Rattle.sig_tables.specs.Clock.{clock_now};
    ghost use Rattle.sig_tables.specs.Calls.{is_green};
    ghost use Rattle.sig_tables.specs.Layout.{Has};
    ghost use Rattle.sig_types.specs.PhaseSet.{has, phases_of};
    ghost use Rattle.sig_tables.specs.Walking.{has_walk};
    ghost use Rattle.sig_tables.specs.Decide.{with_moment, next_moment};
    ghost use Rattle.sig_tables.specs.Seen.{frame_seen, mode_seen, pedestrian_seen, demand_with, quiet_seen, opposed_seen};
    ghost use Rattle.preempt_stages.specs.Inputs.{preempts_seen};
    ghost use Rattle.tick_context.specs.Shows.{is_clearing, is_signalling};
    ghost use Rattle.tick_context.specs.Rests.{IsCurrent, Repeats};
    ghost use Rattle.engine.specs.Runs.{Runs};
    ghost use Rattle.tick_context.specs.Sees.{Sees};
    ghost use Rattle.engine.specs.EngineStands.{EngineKeeps, tick_count, install_count};

    /// Whether a cabinet in free operation stays in it: no preempt input is on, and the commanded pattern is neither a
    /// defined one nor flash.
    pub(crate) fn stays_free(&self, command: u8) -> bool
        ensures was { (past : Past) → EngineKeeps M.remembers self.now past → IsTrue result → (frame_seen past).mode ≡ Free }
        ensures free { (past : Past) → EngineKeeps M.remembers self.now past → command ≡ command_now past → IsTrue result → mode_seen past ≡ Free }
        ensures beside { (past : Past) → EngineKeeps M.remembers self.now past → IsTrue result → preempts_seen past ≡ [] }
    {
        if !is_free(self.context.frame.mode) {
            false
        } else if !self.memory.is_beside() {
            false
        } else if command == FLASH_COMMAND {
            false
        } else {
            !is_defined(&self.context.tables, command)
        }
    }

    /// Whether no walk begins on a phase that stays Green: of those that show steady don't walk and are not opposed none is
    /// called to.
    pub(crate) fn is_uncalled(&self, opposed: PhaseSet) -> bool
        ensures walks { (past : Past) (against : ℕ → Bool) (p : ℕ) → EngineKeeps M.remembers self.now past → Has opposed against → IsTrue result → is_phase p ≡ true
            → ((has_walk past.tables p && is_in (pedestrian_seen past) p)
            && ((same_colour (colour_of (frame_seen past) p) Green && not (is_signalling (frame_seen past) p))
            && not (against p))) ≡ false }
    {
        let steady = self.shown.green.minus(self.signalling);
        self.context.is_uncalled(steady.minus(opposed))
    }

    /// Whether nothing runs out: no phase is in Yellow or red clearance, and none shows Walk or Flash.
    pub(crate) fn is_settled(&self) -> bool
        ensures colours { (past : Past) (p : ℕ) → EngineKeeps M.remembers self.now past → IsTrue result → is_phase p ≡ true
            → is_clearing (frame_seen past).veh p ≡ false }
        ensures signals { (past : Past) (p : ℕ) → EngineKeeps M.remembers self.now past → IsTrue result → is_phase p ≡ true
            → is_signalling (frame_seen past) p ≡ false }
    {
        if self.shown.clearing.is_empty() {
            self.signalling.is_empty()
        } else {
            false
        }
    }

    /// Whether the last frame has what a frame of Free has by the tables in force: their version, what is on by their rings,
    /// and no counter and no target.
    pub(crate) fn is_current(&self) -> bool
        ensures { (past : Past) → EngineKeeps M.remembers self.now past → IsTrue result → IsCurrent past }
    {
        if self.context.frame.counter != 0 {
            false
        } else if self.context.frame.target != 0 {
            false
        } else {
            self.context.is_laid_out(self.shown.red)
        }
    }

    /// Whether this tick, of a cabinet that runs free and continues to, with these phases that have demand, is one at
    /// rest.
    pub(crate) fn is_at_rest(&self, demand: PhaseSet) -> bool
        ensures repeats { (past : Past) → EngineKeeps M.remembers self.now past → (frame_seen past).mode ≡ Free → mode_seen past ≡ Free
            → phases_of demand ≡ demand_with None past → IsTrue result → Repeats past }
        ensures demand { IsTrue result → phases_of demand ≡ [] }
    {
        shows_sixteen(self.context.frame);
        if !demand.is_empty() {
            false
        } else if !self.is_settled() {
            false
        } else if !self.is_uncalled(PhaseSet::empty()) {
            false
        } else if !self.is_current() {
            false
        } else {
            are_both_on(self.context.frame.on)
        }
    }

    /// A tick at rest, with this pattern in command.
    pub(crate) fn rest(&mut self, command: u8) -> Frame
        requires few { tick_count M.frames self.old < 4294967295 }
        ensures again { result ≡ self.old.context.frame }
        ensures keeps { (past : Past) → EngineKeeps M.remembers self.old past → preempts_seen past ≡ [] → command ≡ command_now past → demand_with None past ≡ []
            → Repeats past → EngineKeeps M.remembers self.new (with_moment past (next_moment past)) }
        ensures ticks { tick_count M.frames self.new ≡ tick_count M.frames self.old + 1 }
        ensures installs { install_count self.new ≡ install_count self.old }
    {
        let context = &self.context;
        let clock = context.unit_commands.clock_now();
        let active = context.calls.active(&context.layout, None);
        self.repeat(command, clock, active, PhaseSet::empty())
    }

    /// Whether this tick, of a cabinet that runs free and continues to, is plain: what clears or walks continues with
    /// it, no walk begins, and no Green phase is done, or none has demand.
    pub(crate) fn is_plain(&self, tick_inputs: &TickInputs) -> bool
        requires few { tick_count M.frames self.now < 4294967295 }
        ensures repeats { (past : Past) → EngineKeeps M.remembers self.now past → Sees tick_inputs.now past → (frame_seen past).mode ≡ Free → mode_seen past ≡ Free
            → IsTrue result → Repeats past }
    {
        shows_sixteen(self.context.frame);
        if !self.clears_on() {
            false
        } else if !self.is_uncalled(tick_inputs.opposed) {
            false
        } else if !self.all_walk_on() {
            false
        } else if !self.all_stay(tick_inputs) {
            false
        } else if !self.is_current() {
            false
        } else {
            are_both_on(self.context.frame.on)
        }
    }

    /// Whether this tick gives the last frame again, of a cabinet that runs free and continues to.
    pub(crate) fn repeats(&self, tick_state: &TickState, tick_inputs: &TickInputs) -> bool
        requires few { tick_count M.frames self.now < 4294967295 }
        ensures repeats { (past : Past) → Runs M.remembers self.now tick_state.now past → Sees tick_inputs.now past → (frame_seen past).mode ≡ Free
            → mode_seen past ≡ Free → IsTrue result → Repeats past }
    {
        let moves = self.moves(tick_state, tick_inputs);
        if !self.is_still(&self.context.frame.veh, moves) {
            return false;
        }
        let walks = self.walks(tick_state, tick_inputs, moves, Mode::Free);
        if !self.is_steady(tick_state, &self.context.frame.ped, walks) {
            false
        } else if !self.is_current() {
            false
        } else {
            are_both_on(self.context.frame.on)
        }
    }

    /// A tick that gives the last frame again, with this pattern in command, at this time, with these phases active and these
    /// opposed.
    pub(crate) fn repeat(
        &mut self,
        command: u8,
        clock: u32,
        active: PhaseSet,
        opposed: PhaseSet,
    ) -> Frame
        requires few { tick_count M.frames self.old < 4294967295 }
        requires of_day { clock < 864000 }
        ensures again { result ≡ self.old.context.frame }
        ensures keeps { (past : Past) → EngineKeeps M.remembers self.old past → preempts_seen past ≡ [] → command ≡ command_now past → clock ≡ clock_now past
            → ((p : ℕ) → is_phase p ≡ true → is_in (quiet_seen past) p ≡ (is_green (frame_seen past) p && not (has active p)))
            → Has opposed (is_in (opposed_seen past)) → Repeats past → EngineKeeps M.remembers self.new (with_moment past (next_moment past)) }
        ensures ticks { tick_count M.frames self.new ≡ tick_count M.frames self.old + 1 }
        ensures installs { install_count self.new ≡ install_count self.old }
    {
        self.memory.again(&self.context, active, opposed);
        self.context.calls.step(self.shown.green, self.walking);
        self.context.requests.step(None);
        self.context.unit_commands.step(command, clock);
        self.context.frame
    }
}
