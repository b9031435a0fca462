//! What the rings do at a tick: by the rules of actuated control, within the room that a pattern leaves, or on the way to a
//! goal.

ghost use Rattle.std.specs.Prelude.{◌≡◌, ◌<◌};
ghost use Rattle.sig_types.specs.PhaseSet.{phases_of};
ghost use Rattle.sig_tables.specs.Moves.{ring_moves};
ghost use Rattle.ring_barrier.specs.Shows.{Opens};
ghost use Rattle.tick_context.specs.Moves.{AreMoves};

use crate::{Engine, Memory};
use flash_mode::RingTurn;
use ring_barrier::{Changes, RingView, changes_toward, is_idle};
use sig_types::PhaseSet;
use tick_context::{RingState, TickInputs, TickState, is_resting, no_changes};

impl<M: Memory> Engine<M> {
    ghost use Rattle.sig_tables.specs.Past.{Past};
    ghost use Rattle.sig_tables.specs.Moves.{goal_moves};
    ghost use Rattle.sig_tables.specs.TickState.{Rings};
    ghost use Rattle.sig_tables.specs.Seen.{ring_turn_seen, view_seen, moves_seen};
    ghost use Rattle.engine.specs.Runs.{Runs};
    ghost use Rattle.tick_context.specs.Sees.{Sees};
    ghost use Rattle.engine.specs.EngineStands.{EngineKeeps, tick_count};

    /// Whether each ring is open at this tick.
    fn opening(&self) -> [bool; 2]
        requires few { tick_count M.frames self.now < 4294967295 }
        ensures opening { (past : Past) → EngineKeeps M.remembers self.now past → Opens result (view_seen past) }
    {
        let [first, second] = self.context.frame.on;
        if self.shown.clearing.is_empty() {
            [first == 0, second == 0]
        } else {
            [self.is_open(first), self.is_open(second)]
        }
    }

    /// What both rings do at this tick by the rules of actuated control. Where no ring is open and no phase has demand, is
    /// done or is forced off, they need not look.
    fn ring_changes(&self, tick_state: &TickState, tick_inputs: &TickInputs) -> Changes
        requires few { tick_count M.frames self.now < 4294967295 }
        ensures changes { (past : Past) → Runs M.remembers self.now tick_state.now past → Sees tick_inputs.now past → ring_turn_seen past ≡ Rings
            → AreMoves result (ring_moves (view_seen past)) }
    {
        let opening = self.opening();
        let forced = self.context.forced(tick_state, self.shown.green);
        if is_resting(opening, tick_inputs.demand, forced) {
            return no_changes();
        }
        let done = self.done(tick_state, tick_inputs);
        if is_idle(opening, done, forced) {
            return no_changes();
        }
        let rings = RingState {
            opening,
            startable: self.startable(),
            last: self.memory.last_on(),
            latest: self.memory.latest_on(),
            done,
            forced,
        };
        self.context
            .ring_changes(tick_state, tick_inputs.demand, &rings)
    }

    /// What both rings do at this tick on the way to a goal.
    fn goal_changes(&self, tick_state: &TickState, goal: PhaseSet) -> Changes
        requires few { tick_count M.frames self.now < 4294967295 }
        ensures changes { (past : Past) → Runs M.remembers self.now tick_state.now past → AreMoves result (goal_moves (view_seen past) (phases_of goal)) }
    {
        let on = self.context.frame.on;
        let opening = self.opening();
        let rings = RingView {
            layout: &self.context.layout,
            on,
            opening,
            startable: self.startable(),
        };
        changes_toward(&rings, goal, self.cleared(tick_state))
    }

    /// The phases that end and those that begin at this tick.
    pub(crate) fn moves(&self, tick_state: &TickState, tick_inputs: &TickInputs) -> Changes
        requires few { tick_count M.frames self.now < 4294967295 }
        ensures moves { (past : Past) → Runs M.remembers self.now tick_state.now past → Sees tick_inputs.now past → AreMoves result (moves_seen past) }
    {
        match tick_state.ring_turn {
            RingTurn::Rest => no_changes(),
            RingTurn::StartUp => Changes {
                ends: PhaseSet::empty(),
                begins: self.context.layout.starts_up,
            },
            RingTurn::Rings => self.ring_changes(tick_state, tick_inputs),
            RingTurn::Goal(goal) => self.goal_changes(tick_state, goal),
        }
    }
}
