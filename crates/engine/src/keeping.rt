//! What an engine keeps of a frame.

ghost use Rattle.std.specs.Prelude.{◌≡◌, ◌<◌, ◌+◌};

use crate::colouring::Next;
use crate::{Engine, Memory, Same};
use call_store::signalling;
use sig_types::{Ped, PhaseSet};
use tick_context::{TickInputs, TickState};

impl<M: Memory> Engine<M> {
    ghost use Rattle.sig_tables.specs.Past.{Past};
    ghost use Rattle.sig_tables.specs.Decide.{with_moment, next_moment};
    ghost use Rattle.sig_tables.specs.Layout.{Has};
    ghost use Rattle.call_store.specs.CallsStand.{is_walking};
    ghost use Rattle.tick_context.specs.Shows.{is_signalling};
    ghost use Rattle.engine.specs.Comes.{Comes};
    ghost use Rattle.engine.specs.Runs.{Runs};
    ghost use Rattle.tick_context.specs.Sees.{Sees};
    ghost use Rattle.engine.specs.EngineStands.{EngineKeeps, tick_count, install_count};

    /// The phases that show Walk; the set that is kept, where every phase keeps its signal.
    fn walking_in(&self, next: &Next) -> PhaseSet
        ensures walking { (past : Past) → EngineKeeps M.remembers self.now past → Comes next.now past → Has result (is_walking next.now.frame) }
    {
        if next.keeps_signals {
            self.walking
        } else {
            signalling(&next.frame.ped, Ped::Walk)
        }
    }

    /// The phases that show Walk, which are these, or Flash; the set that is kept, where every phase keeps its signal.
    fn signalling_in(&self, next: &Next, walking: PhaseSet) -> PhaseSet
        ensures signalling { (past : Past) → EngineKeeps M.remembers self.now past → Comes next.now past → Has walking (is_walking next.now.frame)
            → Has result (is_signalling next.now.frame) }
    {
        if next.keeps_signals {
            self.signalling
        } else {
            walking.union(signalling(&next.frame.ped, Ped::Flash))
        }
    }

    /// Keeps the frame of this tick.
    pub(crate) fn keep(&mut self, next: &Next, tick_state: &TickState, tick_inputs: &TickInputs)
        requires few { tick_count M.frames self.old < 4294967295 }
        requires of_day { tick_state.now.clock < 864000 }
        ensures keeps { (past : Past) → Runs M.remembers self.old tick_state.now past → Sees tick_inputs.now past → Comes next.now past
            → EngineKeeps M.remembers self.new (with_moment past (next_moment past)) }
        ensures ticks { tick_count M.frames self.new ≡ tick_count M.frames self.old + 1 }
        ensures installs { install_count self.new ≡ install_count self.old }
    {
        let frame = &next.frame;
        let walking = self.walking_in(next);
        let signalling = self.signalling_in(next, walking);
        let same = Same {
            colours: next.keeps_colours,
            signals: next.keeps_signals,
        };
        self.memory
            .keep(&self.context, tick_state, tick_inputs, frame, same);
        self.context.calls.step(next.shown.green, walking);
        self.context.requests.step(tick_state.active);
        self.context
            .unit_commands
            .step(tick_state.command, tick_state.clock);
        self.shown = next.shown;
        self.walking = walking;
        self.signalling = signalling;
        self.context.frame = *frame;
    }
}
