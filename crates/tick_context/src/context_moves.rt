//! What the pattern that binds says of the phases at a tick: what its split asks, which have room, and which it forces off.

ghost use Rattle.std.specs.Prelude.{◌≡◌, ◌≤◌, ◌&&◌, ℕ};

use crate::context::TickContext;
use crate::modes::is_coord;
use crate::tick_state::TickState;
use pattern_plan::SplitOptions;
use sig_types::PhaseSet;

impl TickContext {
    ghost use Rattle.sig_types.specs.PhaseSet.{has};
    ghost use Rattle.sig_tables.specs.Past.{Past};
    ghost use Rattle.sig_tables.specs.Modes.{bound};
    ghost use Rattle.sig_tables.specs.Splits.{omits};
    ghost use Rattle.sig_tables.specs.Coordinating.{has_room};
    ghost use Rattle.sig_tables.specs.TickState.{tick_state_of};
    ghost use Rattle.sig_tables.specs.Layout.{Has};
    ghost use Rattle.sig_tables.specs.Calls.{is_green};
    ghost use Rattle.sig_tables.specs.View.{is_forced, is_startable, clearance_of};
    ghost use Rattle.sig_tables.specs.Moves.{can_join};
    ghost use Rattle.sig_tables.specs.Seen.{frame_seen, mode_seen, view_seen};
    ghost use Rattle.pattern_plan.specs.Options.{AreActivePattern};
    ghost use Rattle.tick_context.specs.Context.{ContextStands};
    ghost use Rattle.tick_context.specs.Runs.{ContextRuns};

    /// What the split of the pattern that binds asks; none where no pattern does.
    pub fn options(&self, tick_state: &TickState) -> Option<&SplitOptions>
        ensures options { (past : Past) → ContextRuns self.now tick_state.now past → AreActivePattern result (bound (mode_seen past)) past.tables }
    {
        if is_coord(tick_state.mode) {
            Some(&self.active_pattern.options)
        } else {
            None
        }
    }

    /// Those of the phases that have room where they begin after N ticks: all of them where no pattern binds.
    pub fn with_room(&self, tick_state: &TickState, after: u32, among: PhaseSet) -> PhaseSet
        ensures room { (past : Past) → ContextRuns self.now tick_state.now past
            → Has result (λ p. has among p && has_room (bound (mode_seen past)) past.tables (tick_state_of past).counter after p) }
    {
        if is_coord(tick_state.mode) {
            self.active_pattern
                .with_room(tick_state.counter, after, among)
        } else {
            among
        }
    }

    /// The phases that the pattern which binds never serves; none where no pattern does.
    fn omitted(&self, tick_state: &TickState) -> PhaseSet
        ensures omitted { (past : Past) → ContextRuns self.now tick_state.now past → Has result (omits (bound (mode_seen past)) past.tables) }
    {
        if is_coord(tick_state.mode) {
            self.active_pattern.options.omitted
        } else {
            PhaseSet::empty()
        }
    }

    /// Those of the green phases that the pattern which binds forces off; none where no pattern does.
    pub fn forced(&self, tick_state: &TickState, green: PhaseSet) -> PhaseSet
        ensures forced { (past : Past) → ContextRuns self.now tick_state.now past → Has green (is_green (frame_seen past))
            → Has result (is_forced (view_seen past)) }
    {
        if is_coord(tick_state.mode) {
            let green = self.layout.enabled.meet(green);
            self.active_pattern.forced(tick_state.counter, green)
        } else {
            PhaseSet::empty()
        }
    }

    /// The phases that may join the other ring without a call, of these that may begin.
    pub fn joining(&self, tick_state: &TickState, startable: PhaseSet) -> PhaseSet
        ensures joining { (past : Past) → ContextRuns self.now tick_state.now past → Has startable (is_startable (view_seen past))
            → Has result (can_join (view_seen past)) }
    {
        let able = self.layout.dual_entry.meet(startable);
        self.with_room(tick_state, 0, able)
            .minus(self.omitted(tick_state))
    }

    /// How long what is on in a ring clears, 0 where nothing is, in ticks.
    pub fn clearance_of(&self, on: u8) -> u32
        ensures clearance { (past : Past) → ContextStands self.now past → on ≤ 16 → result ≡ clearance_of past.tables on }
    {
        if on == 0 {
            0
        } else if on > 16 {
            0
        } else {
            self.tables.clearance(on)
        }
    }
}
