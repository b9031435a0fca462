//! The frame of a tick, from its colours and signals, whichever engine gives these.

ghost use Rattle.std.specs.Prelude.{◌≡◌, ◌<◌, ◌≤◌, ℕ, List, map};

use crate::context::TickContext;
use crate::modes::{is_coord, is_coord_of};
use crate::tick_state::TickState;
use flash_mode::reached;
use pattern_plan::SplitOptions;
use sig_types::{Colour, Frame, Mode, Ped, PhaseSet};

impl TickContext {
    ghost use Rattle.sig_types.specs.declared.frame.Colour.{Colour};
    ghost use Rattle.sig_types.specs.declared.frame.Colour.TheVariants.{Red};
    ghost use Rattle.sig_types.specs.Phases.{all_phases};
    ghost use Rattle.sig_types.specs.Colour.{same_colour, colour_in};
    ghost use Rattle.sig_tables.specs.Past.{Past};
    ghost use Rattle.sig_tables.specs.Choosing.{mode_reached};
    ghost use Rattle.sig_tables.specs.TickState.{tick_state_of};
    ghost use Rattle.sig_tables.specs.Walking.{is_local_zero};
    ghost use Rattle.sig_tables.specs.Ticking.{signal_after, frame_of};
    ghost use Rattle.sig_tables.specs.Decide.{on_of};
    ghost use Rattle.sig_tables.specs.Layout.{Has};
    ghost use Rattle.sig_tables.specs.Seen.{frame_seen, mode_seen, tick_inputs_seen};
    ghost use Rattle.call_store.specs.Walks.{SaysInCoord};
    ghost use Rattle.tick_context.specs.Binds.{IsBound};
    ghost use Rattle.tick_context.specs.Walks.{crossing_seen};
    ghost use Rattle.tick_context.specs.Context.{ContextStands};
    ghost use Rattle.tick_context.specs.Runs.{ContextRuns};

    /// The mode of this tick's frame, with these colours.
    pub fn mode_reached(&self, tick_state: &TickState, veh: &[Colour; 16]) -> Mode
        ensures reached { (past : Past) → ContextRuns self.now tick_state.now past → result ≡ mode_reached (mode_seen past) past.tables veh.now }
    {
        reached(tick_state.mode, self.active_pattern.plan.coordinated, veh)
    }

    /// What the split asks of the pattern whose coordination a frame of this mode is in, which may be its pickup.
    pub fn options_reached(&self, mode: Mode) -> Option<&SplitOptions>
        ensures options { (past : Past) (veh : List Colour) → IsBound self.now.active_pattern past.tables (mode_seen past)
            → mode ≡ mode_reached (mode_seen past) past.tables veh → SaysInCoord result mode past.tables }
    {
        if is_coord(mode) {
            Some(&self.active_pattern.options)
        } else {
            None
        }
    }

    /// Whether a frame of this mode, whose colours this tick gives, is a local zero.
    pub fn is_zero(&self, tick_state: &TickState, mode: Mode) -> bool
        ensures zero { (past : Past) → ContextRuns self.now tick_state.now past
            → result ≡ is_local_zero mode (tick_state_of past).counter (frame_seen past) }
    {
        match mode {
            Mode::Coord(pattern) => {
                if tick_state.counter != 0 {
                    false
                } else if self.frame.counter != 0 {
                    true
                } else {
                    !is_coord_of(self.frame.mode, pattern)
                }
            }
            _ => false,
        }
    }

    /// The phase of a ring, 1 or 2, that is on where these are in red, or 0.
    pub fn on_in_ring(&self, red: PhaseSet, ring: u8) -> u8
        requires above { 0 < ring }
        requires within { ring ≤ 2 }
        ensures on { (past : Past) (veh : List Colour) → ContextStands self.now past → Has red (λ p. same_colour (colour_in veh p) Red)
            → result ≡ on_of past.tables veh ring }
    {
        self.layout.rings[ring as usize - 1].minus(red).first()
    }

    /// The frame of this tick, from its mode, its colours, the phases in red among them, and its signals.
    pub fn frame_after(
        &self,
        tick_state: &TickState,
        mode: Mode,
        veh: [Colour; 16],
        red: PhaseSet,
        ped: [Ped; 16],
    ) -> Frame
        ensures frame { (past : Past) → ContextRuns self.now tick_state.now past → Has red (λ p. same_colour (colour_in veh p) Red)
            → ped ≡ map (signal_after (tick_state_of past) past (crossing_seen past mode) veh mode) all_phases
            → result ≡ frame_of (tick_state_of past) past (tick_inputs_seen past) veh mode }
        ensures veh { result.veh ≡ veh }
        ensures ped { result.ped ≡ ped }
    {
        Frame {
            veh,
            ped,
            on: [self.on_in_ring(red, 1), self.on_in_ring(red, 2)],
            mode,
            counter: tick_state.counter,
            target: tick_state.target,
            version: self.version,
        }
    }
}
