//! A tick as a whole, once the pattern in command is known. Most of what a tick is about is plain where the cabinet
//! runs free and continues to, and is then not looked for.

ghost use Rattle.std.specs.Prelude.{◌≡◌, ◌<◌, ◌+◌, []};

use crate::{Engine, Memory};
use flash_mode::RingTurn;
use sig_types::{Frame, Mode, PhaseSet};
use tick_context::{TickInputs, TickState};

/// What a tick is about in a cabinet that runs free and continues to, with this pattern in command, at this time.
fn free_tick_state(command: u8, clock: u32) -> TickState
    ensures tick_state { (past : Past) → (frame_seen past).mode ≡ Free → mode_seen past ≡ Free → command ≡ command_now past → clock ≡ clock_now past
        → TickStateIs result past }
    ensures clock { result.clock ≡ clock }
{
    TickState {
        command,
        clock,
        mode: Mode::Free,
        goal: PhaseSet::empty(),
        ring_turn: RingTurn::Rings,
        lesser: None,
        counter: 0,
        target: 0,
        active: None,
    }
}

ghost use Rattle.sig_types.specs.declared.frame.Mode.TheVariants.{Free};
ghost use Rattle.sig_tables.specs.Past.{Past};
ghost use Rattle.sig_tables.specs.Command.{command_now};
ghost use Rattle.sig_tables.specs.Clock.{clock_now};
ghost use Rattle.sig_tables.specs.Seen.{frame_seen, mode_seen};
ghost use Rattle.tick_context.specs.TickState.{TickStateIs};

impl<M: Memory> Engine<M> {
    ghost use Rattle.sig_types.specs.declared.frame.Mode.TheVariants.{Free};
    ghost use Rattle.sig_tables.specs.Past.{Past};
    ghost use Rattle.sig_tables.specs.Command.{command_now};
    ghost use Rattle.sig_tables.specs.Decide.{with_moment, next_moment};
    ghost use Rattle.sig_tables.specs.Seen.{frame_seen, mode_seen};
    ghost use Rattle.preempt_stages.specs.Inputs.{preempts_seen};
    ghost use Rattle.engine.specs.Runs.{Runs};
    ghost use Rattle.tick_context.specs.Sees.{Sees};
    ghost use Rattle.engine.specs.EngineStands.{EngineKeeps, tick_count, install_count};

    /// The frame of a tick that is about this and sees this.
    fn go_on(&mut self, tick_state: &TickState, tick_inputs: &TickInputs) -> Frame
        requires few { tick_count M.frames self.old < 4294967295 }
        requires of_day { tick_state.now.clock < 864000 }
        ensures given { (past : Past) → Runs M.remembers self.old tick_state.now past → Sees tick_inputs.now past → result ≡ (next_moment past).frame }
        ensures keeps { (past : Past) → Runs M.remembers self.old tick_state.now past → Sees tick_inputs.now past → EngineKeeps M.remembers self.new (with_moment past (next_moment past)) }
        ensures ticks { tick_count M.frames self.new ≡ tick_count M.frames self.old + 1 }
        ensures installs { install_count self.new ≡ install_count self.old }
    {
        let next = self.next_frame(tick_state, tick_inputs);
        self.keep(&next, tick_state, tick_inputs);
        next.frame
    }

    /// The frame of a tick of a cabinet that runs free and continues to, with this pattern in command.
    pub(crate) fn tick_free(&mut self, command: u8) -> Frame
        requires few { tick_count M.frames self.old < 4294967295 }
        ensures given { (past : Past) → EngineKeeps M.remembers self.old past → (frame_seen past).mode ≡ Free → mode_seen past ≡ Free
            → command ≡ command_now past → result ≡ (next_moment past).frame }
        ensures keeps { (past : Past) → EngineKeeps M.remembers self.old past → (frame_seen past).mode ≡ Free → mode_seen past ≡ Free → preempts_seen past ≡ []
            → command ≡ command_now past → EngineKeeps M.remembers self.new (with_moment past (next_moment past)) }
        ensures ticks { tick_count M.frames self.new ≡ tick_count M.frames self.old + 1 }
        ensures installs { install_count self.new ≡ install_count self.old }
    {
        let demand = self.free_demand();
        if self.is_at_rest(demand) {
            return self.rest(command);
        }
        let tick_inputs = self.free_tick_inputs(demand);
        let clock = self.context.unit_commands.clock_now();
        if self.is_plain(&tick_inputs) {
            return self.repeat(command, clock, tick_inputs.active, tick_inputs.opposed);
        }
        let tick_state = free_tick_state(command, clock);
        if self.repeats(&tick_state, &tick_inputs) {
            return self.repeat(command, clock, tick_inputs.active, tick_inputs.opposed);
        }
        self.go_on(&tick_state, &tick_inputs)
    }

    /// The frame of a tick in any mode, with this pattern in command.
    pub(crate) fn tick_in_any(&mut self, command: u8) -> Frame
        requires few { tick_count M.frames self.old < 4294967295 }
        ensures given { (past : Past) → EngineKeeps M.remembers self.old past → command ≡ command_now past → result ≡ (next_moment past).frame }
        ensures keeps { (past : Past) → EngineKeeps M.remembers self.old past → command ≡ command_now past
            → EngineKeeps M.remembers self.new (with_moment past (next_moment past)) }
        ensures ticks { tick_count M.frames self.new ≡ tick_count M.frames self.old + 1 }
        ensures installs { install_count self.new ≡ install_count self.old }
    {
        let mode = self.mode(command);
        self.follow(mode);
        let tick_state = self.context.tick_state(mode, command, self.memory.count());
        let tick_inputs = self.tick_inputs(&tick_state);
        self.go_on(&tick_state, &tick_inputs)
    }
}
