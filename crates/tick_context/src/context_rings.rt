//! What both rings do at a tick by the rules of actuated control, from what an engine sees of them.

ghost use Rattle.std.specs.Prelude.{◌≡◌, ◌≤◌, ℕ};
ghost use Rattle.sig_types.specs.PhaseSet.{phases_of};

use crate::context::TickContext;
use crate::modes::is_coord;
use crate::tick_state::TickState;
use ring_barrier::{Changes, RingView, View, changes};
use sig_tables::Layout;
use sig_types::PhaseSet;

/// What an engine sees of both rings at a tick.
#[derive(Clone, Copy)]
pub struct RingState {
    /// Whether each ring is open: nothing is on in it, or the clearance of what is on ends at this tick.
    pub opening: [bool; 2],
    /// The phases that may begin: enabled, red, and their red revert is over.
    pub startable: PhaseSet,
    /// The phase that was last on in each ring since Start, or 0; and one of the latest frame since Start that had one on.
    pub last: [u8; 2],
    pub latest: u8,
    /// The green phases that are done, and those that are forced off.
    pub done: PhaseSet,
    pub forced: PhaseSet,
}

/// The phases that the rings look at: now, once the clearance of a ring is over, and once that of both is.
#[derive(Clone, Copy)]
pub struct Wanted {
    pub now: PhaseSet,
    pub after: [PhaseSet; 2],
    pub across: PhaseSet,
}

impl TickContext {
    ghost use Rattle.sig_tables.specs.Past.{Past};
    ghost use Rattle.sig_tables.specs.Modes.{sequence_in};
    ghost use Rattle.sig_tables.specs.TickState.{Rings};
    ghost use Rattle.sig_tables.specs.Layout.{LaidOut, Ordered};
    ghost use Rattle.sig_tables.specs.Moves.{ring_moves};
    ghost use Rattle.sig_tables.specs.Seen.{mode_seen, demand_seen, ring_turn_seen, view_seen};
    ghost use Rattle.tick_context.specs.Moves.{AreMoves};
    ghost use Rattle.tick_context.specs.Rings.{RingStateIs, Wants};
    ghost use Rattle.tick_context.specs.Runs.{ContextRuns};

    /// The layout of the tables in force, with the phases in the order of the sequence of the pattern that binds, and of the
    /// first one where none does.
    fn ordered_layout(&self, tick_state: &TickState) -> &Layout
        ensures laid { (past : Past) → ContextRuns self.now tick_state.now past → LaidOut result.now past.tables }
        ensures ordered { (past : Past) → ContextRuns self.now tick_state.now past → ring_turn_seen past ≡ Rings
            → Ordered result.now past.tables (sequence_in past.tables (mode_seen past)) }
    {
        if is_coord(tick_state.mode) {
            &self.active_pattern.layout
        } else {
            &self.layout
        }
    }

    /// What the rings want, of these phases with demand.
    fn wanted(&self, tick_state: &TickState, demand: PhaseSet) -> Wanted
        ensures wants { (past : Past) → ContextRuns self.now tick_state.now past → phases_of demand ≡ demand_seen past
            → Wants result (view_seen past) }
    {
        let first = self.clearance_of(self.frame.on[0]);
        let second = self.clearance_of(self.frame.on[1]);
        Wanted {
            now: self.with_room(tick_state, 0, demand),
            after: [
                self.with_room(tick_state, first, demand),
                self.with_room(tick_state, second, demand),
            ],
            across: self.with_room(tick_state, first.max(second), demand),
        }
    }

    /// What both rings do at this tick by the rules of actuated control, with these phases that have demand.
    pub fn ring_changes(
        &self,
        tick_state: &TickState,
        demand: PhaseSet,
        rings: &RingState,
    ) -> Changes
        ensures changes { (past : Past) → ContextRuns self.now tick_state.now past → phases_of demand ≡ demand_seen past
            → ring_turn_seen past ≡ Rings → RingStateIs rings.now (view_seen past) → AreMoves result (ring_moves (view_seen past)) }
    {
        let wanted = self.wanted(tick_state, demand);
        let wanted_after = wanted.after;
        let on = self.frame.on;
        let opening = rings.opening;
        let last = rings.last;
        changes(&View {
            rings: RingView {
                layout: self.ordered_layout(tick_state),
                on,
                opening,
                startable: rings.startable,
            },
            last,
            latest: rings.latest,
            wanted: wanted.now,
            wanted_after,
            wanted_across: wanted.across,
            joining: self.joining(tick_state, rings.startable),
            done: rings.done,
            forced: rings.forced,
        })
    }
}
