//! The pedestrian signals of a tick: what they do by themselves, and where Walk begins (NEMA TS 2: walk, pedestrian
//! clearance, steady don't walk).

ghost use Rattle.std.specs.Prelude.{◌≡◌, ◌<◌, ◌≤◌, ℕ, Bool, if◌then◌else◌, List, map, IsTrue, true};

use crate::{Engine, Memory};
use call_store::{Crosswalks, walks};
use ring_barrier::Changes;
use sig_types::{Mode, Ped, PhaseSet};
use tick_context::{TickInputs, TickState, greens};

impl<M: Memory> Engine<M> {
    ghost use Rattle.sig_types.specs.declared.frame.Colour.{Colour};
    ghost use Rattle.sig_tables.specs.Choosing.{mode_reached};
    ghost use Rattle.sig_types.specs.declared.frame.Ped.TheVariants.{Walk};
    ghost use Rattle.sig_types.specs.Phases.{all_phases, is_phase};
    ghost use Rattle.sig_types.specs.Colour.{signal_of};
    ghost use Rattle.tick_context.specs.Shows.{is_signalling};
    ghost use Rattle.sig_types.specs.PhaseSet.{has};
    ghost use Rattle.sig_tables.specs.Past.{Past};
    ghost use Rattle.sig_tables.specs.Goals.{lesser_in};
    ghost use Rattle.sig_tables.specs.Moves.{Moves};
    ghost use Rattle.sig_tables.specs.Decide.{colours_of};
    ghost use Rattle.sig_tables.specs.Layout.{Has};
    ghost use Rattle.sig_tables.specs.Seen.{frame_seen, mode_seen};
    ghost use Rattle.call_store.specs.Signals.{lesser_of};
    ghost use Rattle.tick_context.specs.Walks.{walk_after, signal_seen};
    ghost use Rattle.engine.specs.Runs.{Runs};
    ghost use Rattle.tick_context.specs.Sees.{Sees};
    ghost use Rattle.engine.specs.EngineStands.{EngineKeeps, tick_count};
    ghost use Rattle.tick_context.specs.Moves.{AreMoves};

    /// The smaller times of a phase, 1 to 16; none for a phase of the goal.
    fn lesser_for(&self, tick_state: &TickState, phase: u8) -> Option<(u32, u32)>
        requires above { 0 < phase }
        requires within { phase ≤ 16 }
        ensures lesser { (past : Past) → Runs M.remembers self.now tick_state.now past
            → lesser_of result ≡ lesser_in past.tables (mode_seen past) phase }
    {
        if tick_state.goal.has(phase) {
            None
        } else {
            tick_state.lesser
        }
    }

    /// The signal of a phase, 1 to 16, where Walk begins on these phases.
    fn signal_after(&self, tick_state: &TickState, walks: PhaseSet, phase: u8) -> Ped
        requires above { 0 < phase }
        requires within { phase ≤ 16 }
        requires few { tick_count M.frames self.now < 4294967295 }
        ensures after { (past : Past) → Runs M.remembers self.now tick_state.now past
            → result ≡ (if has walks phase then Walk else signal_seen past phase) }
    {
        if walks.has(phase) {
            Ped::Walk
        } else {
            self.memory
                .signal_on(&self.context, phase, self.lesser_for(tick_state, phase))
        }
    }

    /// The phases on which Walk begins at this tick, after these moves, in a frame of this mode.
    pub(crate) fn walks(
        &self,
        tick_state: &TickState,
        tick_inputs: &TickInputs,
        moves: Changes,
        mode: Mode,
    ) -> PhaseSet
        ensures walks { (past : Past) (w : Moves) (veh : List Colour) → Runs M.remembers self.now tick_state.now past → Sees tick_inputs.now past → AreMoves moves w
            → mode ≡ mode_reached (mode_seen past) past.tables veh → Has result (walk_after past mode (colours_of past w)) }
    {
        let crosswalks = Crosswalks {
            mode,
            is_zero: self.context.is_zero(tick_state, mode),
            greens: greens(tick_state.ring_turn),
            begins: self.shown.red.meet(moves.begins),
            rests: self.shown.green.minus(moves.ends).minus(self.signalling),
            called: self.context.calls.pedestrian(),
            opposed: tick_inputs.opposed,
        };
        walks(
            &self.context.layout,
            self.context.options_reached(mode),
            &crosswalks,
        )
    }

    /// Whether every phase keeps the signal that it has in these of the last frame: no walk begins, and those that show
    /// Walk or Flash continue with it.
    pub(crate) fn is_steady(&self, tick_state: &TickState, ped: &[Ped; 16], walks: PhaseSet) -> bool
        requires few { tick_count M.frames self.now < 4294967295 }
        ensures steady { (past : Past) (begins : ℕ → Bool) → Runs M.remembers self.now tick_state.now past → Has walks begins → ped.now ≡ (frame_seen past).ped
            → IsTrue result → ped.now ≡ map (λ p. if begins p then Walk else signal_seen past p) all_phases }
    {
        if walks.is_empty() {
            self.signals_on(tick_state)
        } else {
            false
        }
    }

    /// Whether every phase that shows Walk or Flash continues with it. Only those that are on in a ring are looked at:
    /// where another signals, this says no.
    fn signals_on(&self, tick_state: &TickState) -> bool
        requires few { tick_count M.frames self.now < 4294967295 }
        ensures stays { (past : Past) (p : ℕ) → Runs M.remembers self.now tick_state.now past → IsTrue result → is_phase p ≡ true
            → is_signalling (frame_seen past) p ≡ true → signal_seen past p ≡ signal_of (frame_seen past) p }
    {
        if self.signalling.is_empty() {
            return true;
        }
        let [first, second] = self.context.frame.on;
        if self
            .signalling
            .minus(PhaseSet::of(first))
            .minus(PhaseSet::of(second))
            .is_empty()
        {
            self.keeps_signal(tick_state, first) && self.keeps_signal(tick_state, second)
        } else {
            false
        }
    }

    /// Whether a phase on which no walk begins keeps its signal. A number that isn't a phase does.
    fn keeps_signal(&self, tick_state: &TickState, phase: u8) -> bool
        requires few { tick_count M.frames self.now < 4294967295 }
        ensures stays { (past : Past) → Runs M.remembers self.now tick_state.now past → IsTrue result → is_phase phase ≡ true
            → signal_seen past phase ≡ signal_of (frame_seen past) phase }
    {
        if phase == 0 {
            true
        } else if phase > 16 {
            true
        } else {
            let lesser = self.lesser_for(tick_state, phase);
            self.memory.signal_on(&self.context, phase, lesser)
                == self.context.frame.ped[phase as usize - 1]
        }
    }

    /// The signals of this tick, where Walk begins on these phases: those of the last frame, where every phase keeps its own.
    pub(crate) fn signals_after(
        &self,
        tick_state: &TickState,
        walks: PhaseSet,
        kept: bool,
    ) -> [Ped; 16]
        requires few { tick_count M.frames self.now < 4294967295 }
        ensures kept { IsTrue kept → result ≡ self.now.context.frame.ped }
        ensures signals { (past : Past) (begins : ℕ → Bool) → Runs M.remembers self.now tick_state.now past → Has walks begins
            → (IsTrue kept → self.now.context.frame.ped ≡ map (λ p. if begins p then Walk else signal_seen past p) all_phases)
            → result ≡ map (λ p. if begins p then Walk else signal_seen past p) all_phases }
    {
        if kept {
            return self.context.frame.ped;
        }
        let mut ped = [Ped::Dont; 16];
        for p in 0..16 {
            ped[p] = self.signal_after(tick_state, walks, p as u8 + 1);
        }
        ped
    }
}
