//! The colours and the frame of a tick, from what the rings do.

ghost use Rattle.std.specs.Prelude.{◌≡◌, ◌<◌, ◌≤◌, ℕ, IsTrue, true};

use crate::by_colour::ByColour;
use crate::{Engine, Memory};
use ring_barrier::Changes;
use sig_types::{Colour, Frame, PhaseSet};
use tick_context::{TickInputs, TickState};

/// The frame of a tick, the phases by its colours, and whether every phase keeps the colour and the signal that it had.
#[derive(Clone, Copy)]
pub(crate) struct Next {
    pub frame: Frame,
    pub shown: ByColour,
    pub keeps_colours: bool,
    pub keeps_signals: bool,
}

impl<M: Memory> Engine<M> {
    ghost use Rattle.sig_types.specs.Phases.{is_phase};
    ghost use Rattle.sig_tables.specs.Looking.{runs_on};
    ghost use Rattle.sig_types.specs.Colour.{colour_of};
    ghost use Rattle.sig_tables.specs.Past.{Past};
    ghost use Rattle.sig_tables.specs.Moves.{Moves};
    ghost use Rattle.sig_tables.specs.Decide.{colour_after, colours_of, next_moment};
    ghost use Rattle.sig_tables.specs.Seen.{frame_seen};
    ghost use Rattle.engine.specs.Shows.{ShowsColours};
    ghost use Rattle.tick_context.specs.Shows.{is_clearing};
    ghost use Rattle.engine.specs.Runs.{Runs};
    ghost use Rattle.tick_context.specs.Sees.{Sees};
    ghost use Rattle.engine.specs.Comes.{Comes};
    ghost use Rattle.engine.specs.EngineStands.{EngineKeeps, tick_count};
    ghost use Rattle.tick_context.specs.Moves.{AreMoves};

    /// The colour of a phase, 1 to 16, after these moves.
    fn colour_after(&self, moves: Changes, phase: u8) -> Colour
        requires above { 0 < phase }
        requires within { phase ≤ 16 }
        requires few { tick_count M.frames self.now < 4294967295 }
        ensures after { (past : Past) (w : Moves) → EngineKeeps M.remembers self.now past → AreMoves moves w
            → result ≡ colour_after w phase past.tables past.moments (colour_of (frame_seen past) phase) }
    {
        match self.context.frame.veh[phase as usize - 1] {
            Colour::Green => {
                if moves.ends.has(phase) {
                    Colour::Yellow
                } else {
                    Colour::Green
                }
            }
            Colour::Red => {
                if moves.begins.has(phase) {
                    Colour::Green
                } else {
                    Colour::Red
                }
            }
            Colour::Yellow => self.memory.runs_on(&self.context, phase),
            Colour::Clear => self.memory.runs_on(&self.context, phase),
        }
    }

    /// Whether every phase keeps the colour that it has in these of the last frame: none ends or begins, and those in Yellow
    /// or red clearance stay in it.
    pub(crate) fn is_still(&self, veh: &[Colour; 16], moves: Changes) -> bool
        requires few { tick_count M.frames self.now < 4294967295 }
        ensures still { (past : Past) (w : Moves) → EngineKeeps M.remembers self.now past → AreMoves moves w → veh.now ≡ (frame_seen past).veh
            → IsTrue result → veh.now ≡ colours_of past w }
    {
        if moves.ends.is_empty() && moves.begins.is_empty() {
            self.clears_on()
        } else {
            false
        }
    }

    /// Whether every phase in Yellow or red clearance stays in it. Only those that are on in a ring are looked at: where
    /// another clears, this says no.
    pub(crate) fn clears_on(&self) -> bool
        requires few { tick_count M.frames self.now < 4294967295 }
        ensures stays { (past : Past) (p : ℕ) → EngineKeeps M.remembers self.now past → IsTrue result → is_phase p ≡ true
            → is_clearing (frame_seen past).veh p ≡ true
            → runs_on p past.tables past.moments (colour_of (frame_seen past) p) ≡ colour_of (frame_seen past) p }
    {
        let clearing = self.shown.clearing;
        if clearing.is_empty() {
            return true;
        }
        let [first, second] = self.context.frame.on;
        if clearing
            .minus(PhaseSet::of(first))
            .minus(PhaseSet::of(second))
            .is_empty()
        {
            self.keeps_colour(first) && self.keeps_colour(second)
        } else {
            false
        }
    }

    /// Whether a phase that neither ends nor begins keeps its colour. A number that isn't a phase does.
    fn keeps_colour(&self, phase: u8) -> bool
        requires few { tick_count M.frames self.now < 4294967295 }
        ensures stays { (past : Past) → EngineKeeps M.remembers self.now past → IsTrue result → is_phase phase ≡ true
            → runs_on phase past.tables past.moments (colour_of (frame_seen past) phase) ≡ colour_of (frame_seen past) phase }
    {
        if phase == 0 {
            true
        } else if phase > 16 {
            true
        } else {
            self.memory.runs_on(&self.context, phase) == self.context.frame.veh[phase as usize - 1]
        }
    }

    /// The colours after these moves: those of the last frame, where every phase keeps its own.
    fn colours(&self, moves: Changes, kept: bool) -> [Colour; 16]
        requires few { tick_count M.frames self.now < 4294967295 }
        ensures colours { (past : Past) (w : Moves) → EngineKeeps M.remembers self.now past → AreMoves moves w
            → (IsTrue kept → self.now.context.frame.veh ≡ colours_of past w) → result ≡ colours_of past w }
        ensures kept { IsTrue kept → result ≡ self.now.context.frame.veh }
    {
        if kept {
            return self.context.frame.veh;
        }
        let mut veh = [Colour::Red; 16];
        for p in 0..16 {
            veh[p] = self.colour_after(moves, p as u8 + 1);
        }
        veh
    }

    /// The phases by these colours; the sets that are kept, where the colours are those of the last frame.
    fn shown_in(&self, veh: &[Colour; 16], kept: bool) -> ByColour
        ensures shown { (past : Past) → EngineKeeps M.remembers self.now past → (IsTrue kept → veh.now ≡ self.now.context.frame.veh) → ShowsColours result veh.now }
    {
        if kept { self.shown } else { ByColour::of(veh) }
    }

    /// The frame of this tick, and what it keeps of the last one.
    pub(crate) fn next_frame(&self, tick_state: &TickState, tick_inputs: &TickInputs) -> Next
        requires few { tick_count M.frames self.now < 4294967295 }
        ensures given { (past : Past) → Runs M.remembers self.now tick_state.now past → Sees tick_inputs.now past → Comes result past }
    {
        let moves = self.moves(tick_state, tick_inputs);
        let keeps_colours = self.is_still(&self.context.frame.veh, moves);
        let veh = self.colours(moves, keeps_colours);
        let mode = self.context.mode_reached(tick_state, &veh);
        let walks = self.walks(tick_state, tick_inputs, moves, mode);
        let keeps_signals = self.is_steady(tick_state, &self.context.frame.ped, walks);
        let ped = self.signals_after(tick_state, walks, keeps_signals);
        let shown = self.shown_in(&veh, keeps_colours);
        Next {
            frame: self
                .context
                .frame_after(tick_state, mode, veh, shown.red, ped),
            shown,
            keeps_colours,
            keeps_signals,
        }
    }
}
