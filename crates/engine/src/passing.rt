//! Ticks that are skipped at once, in free operation and while coordinated: each shows what the last frame shows, and
//! nothing changes except what counts: the number of the tick, the clock, the age of the command, the counter of the
//! cycle and its target.

ghost use Rattle.std.specs.Prelude.{◌≡◌, ◌≢◌, ◌==◌, get_or, if◌then◌else◌, ◌<◌, ◌≤◌, ◌+◌, [], ℕ, suc, true, false, IsTrue, None};

use crate::{Engine, Memory};
use sig_types::{Mode, PhaseSet};
use tick_context::{TickInputs, is_defined, shows_sixteen};

/// Whether something is on in a ring.
fn is_any_on(on: [u8; 2]) -> bool
    ensures any { IsTrue result → (if get_or on 0 0 == 0 then get_or on 1 0 else get_or on 0 0) ≢ 0 }
{
    if on[0] == 0 { on[1] != 0 } else { true }
}

impl<M: Memory> Engine<M> {
    ghost use Rattle.sig_types.specs.Phases.{is_in};
    ghost use Rattle.sig_tables.specs.Modes.{bound};
    ghost use Rattle.sig_tables.specs.Past.{Past, History};
    ghost use Rattle.sig_tables.specs.Decide.{past_at, ticked};
    ghost use Rattle.sig_tables.specs.Layout.{Has};
    ghost use Rattle.preempt_stages.specs.Inputs.{preempts_seen};
    ghost use Rattle.prio_queue.specs.Idle.{IsIdle};
    ghost use Rattle.tick_context.specs.Binds.{ActivePatternIs, IsBound};
    ghost use Rattle.tick_context.specs.Lasting.{IsFresh, Looks, StaysFree, StaysInStep, ModeLasts, Lasts, opposed_with};
    ghost use Rattle.tick_context.specs.Strides.{is_told, ticks_more};
    ghost use Rattle.engine.specs.Passed.{GoesEvenly};
    ghost use Rattle.engine.specs.EngineStands.{EngineKeeps, EngineStands, tick_count, install_count};

    /// What is seen of the phases, where the mode continues.
    fn tick_inputs_kept(&self) -> TickInputs
        ensures looks { (past : Past) → EngineKeeps M.remembers self.now past → IsBound self.now.context.active_pattern past.tables self.now.context.frame.mode
            → Looks (bound self.now.context.frame.mode) result past }
    {
        let options = self.context.options_kept();
        let active = self.context.calls.active(&self.context.layout, options);
        let demand = self
            .context
            .calls
            .demand(&self.context.layout, self.shown.red, options);
        TickInputs {
            demand,
            active,
            opposed: self.opposed(demand),
        }
    }

    /// Whether free operation continues, and no walk begins, where these phases are opposed.
    fn stays_at_free(&self, opposed: PhaseSet) -> bool
        ensures free { (past : Past) → EngineKeeps M.remembers self.now past → IsFresh past → Has opposed (is_in (opposed_with None past)) → IsTrue result
            → StaysFree past }
        ensures zero { IsTrue result → self.now.context.frame.counter ≡ 0 }
    {
        if self.context.is_left_free() {
            self.is_uncalled(opposed)
        } else {
            false
        }
    }

    /// For how many ticks more the cabinet stays coordinated in this pattern, which is the one that is kept, and the
    /// counter advances as time does.
    fn step_left(&self, pattern: u8) -> u32
        ensures left { (past : Past) (k : ℕ) → EngineKeeps M.remembers self.now past → ActivePatternIs self.now.context.active_pattern past.tables pattern → IsFresh past
            → GoesEvenly self.now k → 0 < k → k ≤ result → StaysInStep pattern k past }
        ensures room { 0 < result → self.now.context.frame.counter + result ≤ 4294967295 }
    {
        if self.context.unit_commands.command() != pattern {
            0
        } else if !is_defined(&self.context.tables, pattern) {
            0
        } else if !self
            .context
            .requests
            .is_over(self.context.unit_commands.ticks())
        {
            0
        } else {
            self.context.counter_left()
        }
    }

    /// For how many ticks more the mode continues, where these phases are opposed.
    fn mode_left(&self, opposed: PhaseSet) -> u32
        ensures left { (past : Past) (k : ℕ) → EngineKeeps M.remembers self.now past → IsBound self.now.context.active_pattern past.tables self.now.context.frame.mode → IsFresh past
            → GoesEvenly self.now k → Has opposed (is_in (opposed_with (bound self.now.context.frame.mode) past)) → 0 < k → k ≤ result
            → ModeLasts self.now.context.frame.mode k past }
        ensures room { 0 < result → self.now.context.frame.counter + result ≤ 4294967295 }
    {
        match self.context.frame.mode {
            Mode::Free => {
                if self.stays_at_free(opposed) {
                    u32::MAX
                } else {
                    0
                }
            }
            Mode::Coord(pattern) => self.step_left(pattern),
            _ => 0,
        }
    }

    /// For how many ticks more the mode and all phases continue, where this is seen of them.
    fn all_left(&self, tick_inputs: &TickInputs) -> u32
        requires few { tick_count M.frames self.now < 4294967295 }
        ensures lasts { (past : Past) (k : ℕ) → EngineKeeps M.remembers self.now past → IsBound self.now.context.active_pattern past.tables self.now.context.frame.mode → IsFresh past
            → GoesEvenly self.now k → preempts_seen past ≡ [] → Looks (bound self.now.context.frame.mode) tick_inputs.now past → 0 < k → k ≤ result
            → Lasts self.now.context.frame.mode k past }
        ensures room { 0 < result → self.now.context.frame.counter + result ≤ 4294967295 }
    {
        shows_sixteen(self.context.frame);
        if !is_any_on(self.context.frame.on) {
            0
        } else if !self.context.is_laid_out(self.shown.red) {
            0
        } else {
            let mode = self.mode_left(tick_inputs.opposed);
            if mode == 0 {
                return 0;
            }
            let shown = mode.min(self.phases_left());
            shown.min(self.rings_left(tick_inputs))
        }
    }

    /// Whether the mode of the last frame is one that can continue, no preempt input is on and no request is active:
    /// otherwise no tick is skipped.
    fn can_pass(&self) -> bool
        ensures bound { (past : Past) → EngineKeeps M.remembers self.now past → IsTrue result → IsBound self.now.context.active_pattern past.tables self.now.context.frame.mode }
        ensures beside { (past : Past) → EngineKeeps M.remembers self.now past → IsTrue result → preempts_seen past ≡ [] }
        ensures idle { IsTrue result → IsIdle self.now.context.requests }
    {
        if !self.memory.is_beside() {
            false
        } else if !self.context.requests.is_idle() {
            false
        } else {
            self.context.is_bound()
        }
    }

    /// For how many of at most N ticks the cabinet shows what it shows and sees this, if no event has come since the
    /// last frame. The answer may be lower than the real number.
    fn lasting(&self, tick_inputs: &TickInputs, most: u32) -> u32
        requires few { tick_count M.frames self.now < 4294967295 }
        ensures within { result ≤ most }
        ensures even { 0 < result → GoesEvenly self.now result }
        ensures lasts { (past : Past) → EngineKeeps M.remembers self.now past → IsBound self.now.context.active_pattern past.tables self.now.context.frame.mode → IsFresh past
            → preempts_seen past ≡ [] → Looks (bound self.now.context.frame.mode) tick_inputs.now past → 0 < result
            → Lasts self.now.context.frame.mode result past }
        ensures room { 0 < result → self.now.context.frame.counter + result ≤ 4294967295 }
    {
        let left = self.all_left(tick_inputs);
        self.context
            .unit_commands
            .even(&self.context.tables, most.min(left))
    }

    /// Skips N ticks that see this.
    fn pass(&mut self, tick_inputs: &TickInputs, ticks: u32)
        requires some { 0 < ticks }
        requires few { tick_count M.frames self.old + ticks ≤ 4294967295 }
        requires even { GoesEvenly self.old ticks }
        requires idle { IsIdle self.old.context.requests }
        requires ready { M.ready self.old.memory self.old.context tick_inputs.now }
        requires room { self.old.context.frame.counter + ticks ≤ 4294967295 }
        ensures stands { (h : History) → EngineStands M.remembers self.old h → IsBound self.old.context.active_pattern (past_at h).tables self.old.context.frame.mode
            → Looks (bound self.old.context.frame.mode) tick_inputs.now (past_at h) → Lasts self.old.context.frame.mode ticks (past_at h)
            → EngineStands M.remembers self.new (ticks_more ticks h) }
        ensures ticks { tick_count M.frames self.new ≡ tick_count M.frames self.old + ticks }
        ensures installs { install_count self.new ≡ install_count self.old }
    {
        let counter = self.context.frame.counter + ticks;
        self.memory.pass(&self.context, tick_inputs, ticks);
        self.context.pass(ticks, counter);
    }

    /// Skips ticks, at most N, and returns how many, if no event has come since the last tick. It may stop before the
    /// first whose frame has a line.
    pub(crate) fn pass_on(&mut self, most: u32) -> u32
        requires few { tick_count M.frames self.old + most ≤ 4294967295 }
        ensures within { result ≤ most }
        ensures stands { (h : History) → EngineStands M.remembers self.old (ticked h) → EngineStands M.remembers self.new (ticks_more result (ticked h)) }
        ensures plain { (h : History) (k : ℕ) → EngineStands M.remembers self.old (ticked h) → k < result → is_told (ticked h) (suc k) ≡ false }
        ensures ticks { tick_count M.frames self.new ≡ tick_count M.frames self.old + result }
        ensures installs { install_count self.new ≡ install_count self.old }
    {
        if most == 0 {
            return 0;
        }
        if !self.can_pass() {
            return 0;
        }
        let tick_inputs = self.tick_inputs_kept();
        if !self.memory.is_ready(&self.context, &tick_inputs) {
            return 0;
        }
        let ticks = self.lasting(&tick_inputs, most);
        if ticks == 0 {
            return 0;
        }
        self.pass(&tick_inputs, ticks);
        ticks
    }
}
