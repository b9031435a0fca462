//! What a memory of past frames answers: registers that are stepped from frame to frame, or a window that is looked back
//! over. An engine asks these questions of it, and no others.
ghost use Rattle.std.specs.Prelude.{◌≡◌, ◌≢◌, ◌<◌, ◌≤◌, ◌+◌, ◌-◌, ◌&&◌, ◌==◌, ◌∷◌, [], get_or, ℕ, Bool, true, false, not, Option, None, Some, IsTrue, length};

use coord_count::Count;
use sig_types::{Colour, Frame, Mode, Ped, PhaseSet};
use tick_context::{TickContext, TickInputs, TickState};

/// A memory of the frames of a cabinet so far.
pub trait Memory: Drop {
    ghost use Rattle.sig_types.specs.declared.frame.Field.TheVariants.{Preempt as PreemptInput};
    ghost use Rattle.sig_types.specs.declared.frame.Mode.TheVariants.{Coord};
    ghost use Rattle.sig_types.specs.Phases.{is_phase, is_in};
    ghost use Rattle.sig_types.specs.PhaseSet.{has};
    ghost use Rattle.sig_types.specs.Colour.{same_colour, colour_of, signal_of};
    ghost use Rattle.sig_types.specs.declared.frame.Colour.TheVariants.{Red};
    ghost use Rattle.sig_tables.specs.declared.tables.Tables.{Tables};
    ghost use Rattle.sig_tables.specs.Tables.{is_enabled};
    ghost use Rattle.sig_tables.specs.Past.{Past, Event, History, Input, Install};
    ghost use Rattle.sig_tables.specs.Looking.{runs_on, last_on, latest_on, start_run};
    ghost use Rattle.sig_tables.specs.Lesser.{signal_runs_within};
    ghost use Rattle.sig_tables.specs.Layout.{Has};
    ghost use Rattle.sig_tables.specs.Modes.{bound};
    ghost use Rattle.sig_tables.specs.Calls.{is_green};
    ghost use Rattle.sig_tables.specs.Goals.{is_cleared};
    ghost use Rattle.sig_tables.specs.Preempts.{stage_now};
    ghost use Rattle.sig_tables.specs.View.{is_served, is_startable, has_gap, has_maximum, has_filled_split};
    ghost use Rattle.sig_tables.specs.Decide.{with_event, with_moment, next_moment, past_at};
    ghost use Rattle.sig_tables.specs.Seen.{frame_seen, mode_seen, quiet_seen, quiet_with, opposed_seen, view_seen};
    ghost use Rattle.call_store.specs.Signals.{lesser_of, SignalLasts};
    ghost use Rattle.preempt_stages.specs.Inputs.{preempts_seen};
    ghost use Rattle.tick_context.specs.declared.seeing.TickInputs.{TickInputs};
    ghost use Rattle.tick_context.specs.declared.context.TickContext.{TickContext};
    ghost use Rattle.tick_context.specs.Context.{ContextStands, CountStandsFor};
    ghost use Rattle.tick_context.specs.Lasting.{Looks, Lasts, ColourLasts, HasNoGap, HasNoMaximum, opposed_with, StaysUnserved};
    ghost use Rattle.tick_context.specs.Rests.{Repeats};
    ghost use Rattle.tick_context.specs.Runs.{ContextRuns};
    ghost use Rattle.tick_context.specs.Sees.{Sees};
    ghost use Rattle.tick_context.specs.Strides.{ticks_more};
    ghost use Rattle.engine.specs.Events.{LeavesBe};

    /// What is remembered is what the past gives.
    ghost remembers: { Self → Past → Type 0 };

    /// The number of frames that were kept.
    ghost frames: { Self → ℕ };

    /// Nothing but counts moves at ticks that see this and show what the last frame shows.
    ghost ready: { Self → TickContext → TickInputs → Type 0 };

    /// The colour of a phase, 1 to 16, that follows by itself, where no phase ends or begins.
    fn runs_on(&self, context: &TickContext, phase: u8) -> Colour
        requires above { 0 < phase }
        requires within { phase ≤ 16 }
        requires few { frames self.now < 4294967295 }
        ensures follows { (past : Past) → remembers self.now past → ContextStands context.now past
            → result ≡ runs_on phase past.tables past.moments (colour_of (frame_seen past) phase) };

    /// The signal of a phase, 1 to 16, that follows by itself, with smaller times.
    fn signal_on(&self, context: &TickContext, phase: u8, lesser: Option<(u32, u32)>) -> Ped
        requires above { 0 < phase }
        requires within { phase ≤ 16 }
        requires few { frames self.now < 4294967295 }
        ensures follows { (past : Past) → remembers self.now past → ContextStands context.now past
            → result ≡ signal_runs_within (lesser_of lesser) phase past.tables past.moments (signal_of (frame_seen past) phase) };

    /// Whether the red revert of an enabled Red phase, 1 to 16, is over.
    fn is_startable(&self, context: &TickContext, phase: u8) -> bool
        requires above { 0 < phase }
        requires within { phase ≤ 16 }
        requires few { frames self.now < 4294967295 }
        ensures startable { (past : Past) → remembers self.now past → ContextStands context.now past → is_enabled past.tables phase ≡ true
            → same_colour (colour_of (frame_seen past) phase) Red ≡ true → result ≡ is_startable (view_seen past) phase };

    /// Whether a Green phase, 1 to 16, is served: it has had its minimum green, and no walk or pedestrian clearance
    /// continues.
    fn is_served(&self, context: &TickContext, phase: u8) -> bool
        requires above { 0 < phase }
        requires within { phase ≤ 16 }
        requires few { frames self.now < 4294967295 }
        ensures served { (past : Past) → remembers self.now past → ContextStands context.now past → is_green (frame_seen past) phase ≡ true
            → result ≡ is_served past.tables past.moments phase };

    /// The same with the minimum green and the times that the mode of a tick leaves.
    fn is_cleared(&self, context: &TickContext, tick_state: &TickState, phase: u8) -> bool
        requires above { 0 < phase }
        requires within { phase ≤ 16 }
        requires few { frames self.now < 4294967295 }
        ensures cleared { (past : Past) → remembers self.now past → ContextRuns context.now tick_state.now past → is_green (frame_seen past) phase ≡ true
            → result ≡ is_cleared (mode_seen past) past.tables past.moments phase };

    /// Whether an enabled Green phase, 1 to 16, that is not active at this tick has a gap: it was so for its passage time.
    fn has_gap(&self, context: &TickContext, phase: u8) -> bool
        requires above { 0 < phase }
        requires within { phase ≤ 16 }
        ensures gap { (past : Past) → remembers self.now past → ContextStands context.now past → is_enabled past.tables phase ≡ true
            → is_in (quiet_seen past) phase ≡ true → result ≡ has_gap (view_seen past) phase };

    /// Whether a Green phase, 1 to 16, is at its maximum: it was opposed for that time, this tick included.
    fn has_maximum(&self, context: &TickContext, phase: u8, opposed: bool) -> bool
        requires above { 0 < phase }
        requires within { phase ≤ 16 }
        ensures maximum { (past : Past) → remembers self.now past → ContextStands context.now past → opposed ≡ is_in (opposed_seen past) phase
            → result ≡ has_maximum (view_seen past) phase };

    /// Whether a Green phase, 1 to 16, has filled its split of the pattern that binds the tick.
    fn has_filled(&self, context: &TickContext, tick_state: &TickState, phase: u8) -> bool
        requires above { 0 < phase }
        requires within { phase ≤ 16 }
        requires few { frames self.now < 4294967295 }
        ensures filled { (past : Past) (n : ℕ) → remembers self.now past → ContextRuns context.now tick_state.now past
            → mode_seen past ≡ Coord n → is_green (frame_seen past) phase ≡ true → result ≡ has_filled_split (view_seen past) n phase };

    /// For how many ticks more a phase, 1 to 16, keeps its colour where it neither ends nor begins.
    fn colour_left(&self, context: &TickContext, phase: u8) -> u32
        requires above { 0 < phase }
        requires within { phase ≤ 16 }
        requires few { frames self.now < 4294967295 }
        ensures left { (past : Past) (k : ℕ) → remembers self.now past → ContextStands context.now past → 0 < k → k ≤ result
            → ColourLasts k phase past.tables past.moments (colour_of (frame_seen past) phase) };

    /// For how many ticks more a phase, 1 to 16, keeps its signal where no walk begins.
    fn signal_left(&self, context: &TickContext, phase: u8) -> u32
        requires above { 0 < phase }
        requires within { phase ≤ 16 }
        requires few { frames self.now < 4294967295 }
        ensures left { (past : Past) (k : ℕ) → remembers self.now past → ContextStands context.now past → 0 < k → k ≤ result
            → SignalLasts k phase past.tables past.moments (signal_of (frame_seen past) phase) };

    /// For how many ticks more a Green phase, 1 to 16, has not had its minimum green.
    fn least_left(&self, phase: u8) -> u32
        requires above { 0 < phase }
        requires within { phase ≤ 16 }
        requires few { frames self.now < 4294967295 }
        ensures left { (past : Past) (k : ℕ) → remembers self.now past → is_green (frame_seen past) phase ≡ true → 0 < k → k ≤ result
            → StaysUnserved k past phase };

    /// For how many ticks more a Green phase, 1 to 16, that is not active has no gap.
    fn gap_left(&self, context: &TickContext, phase: u8) -> u32
        requires above { 0 < phase }
        requires within { phase ≤ 16 }
        ensures left { (past : Past) (o : Option ℕ) (k : ℕ) → remembers self.now past → ContextStands context.now past → 0 < k → k ≤ result
            → HasNoGap o k past phase };

    /// For how many ticks more a Green phase, 1 to 16, that is opposed or is not, is not at its maximum.
    fn maximum_left(&self, context: &TickContext, phase: u8, opposed: bool) -> u32
        requires above { 0 < phase }
        requires within { phase ≤ 16 }
        ensures left { (past : Past) (o : Option ℕ) (k : ℕ) → remembers self.now past → ContextStands context.now past
            → opposed ≡ is_in (opposed_with o past) phase → 0 < k → k ≤ result → HasNoMaximum o k past phase };

    /// The phase that was last on in each ring since Start, or 0.
    fn last_on(&self) -> [u8; 2]
        ensures last { (past : Past) → remembers self.now past → (r : ℕ) → 1 ≤ r → r ≤ 2 → get_or result (r - 1) 0 ≡ last_on r past.moments };

    /// A phase of the latest frame since Start that had one on, or 0.
    fn latest_on(&self) -> u8
        ensures latest { (past : Past) → remembers self.now past → result ≡ latest_on past.moments };

    /// For how many frames in a row the cabinet has been in Start.
    fn start_run(&self) -> u32
        ensures start { (past : Past) → remembers self.now past → start_run past.moments ≤ 60 → result ≡ start_run past.moments };

    /// The stage or the exit that preemption asks for at a tick.
    fn stage(&self, context: &TickContext) -> Option<Mode>
        requires few { frames self.now < 4294967295 }
        ensures stage { (past : Past) → remembers self.now past → ContextStands context.now past
            → result ≡ stage_now context.now.tables (preempts_seen past) past.moments };

    /// Whether no preempt input is on.
    fn is_beside(&self) -> bool
        ensures beside { (past : Past) → remembers self.now past → IsTrue result → preempts_seen past ≡ [] };

    /// The count of the cycle of the pattern in which the last frame is coordinated.
    fn count(&self) -> Count
        ensures counts { (past : Past) → remembers self.now past → CountStandsFor result past };

    /// Whether nothing but counts moves at ticks that see this and show what the last frame shows.
    fn is_ready(&self, context: &TickContext, tick_inputs: &TickInputs) -> bool
        ensures ready { IsTrue result → ready self.now context.now tick_inputs.now };

    /// The input of a preempt, 1 to 8, turns on or off between two ticks.
    fn input(&mut self, number: u8, on: bool)
        requires above { 0 < number }
        requires within { number ≤ 8 }
        ensures remembers { (past : Past) → remembers self.old past → remembers self.new (with_event (Input (PreemptInput number on)) past) }
        ensures frames { frames self.new ≡ frames self.old };

    /// The frame of a tick that is about this and sees this, which keeps the colours or the signals of the last one or does not.
    fn keep(
        &mut self,
        context: &TickContext,
        tick_state: &TickState,
        tick_inputs: &TickInputs,
        frame: &Frame,
        same: Same,
    )
        requires few { frames self.old < 4294967295 }
        ensures remembers { (past : Past) → remembers self.old past → ContextRuns context.now tick_state.now past → Sees tick_inputs.now past
            → frame.now ≡ (next_moment past).frame → (same.colours ≡ true → frame.now.veh ≡ (frame_seen past).veh)
            → (same.signals ≡ true → frame.now.ped ≡ (frame_seen past).ped) → remembers self.new (with_moment past (next_moment past)) }
        ensures frames { frames self.new ≡ frames self.old + 1 };

    /// A frame of free operation that is the last one again, with these phases active and these opposed.
    fn again(&mut self, context: &TickContext, active: PhaseSet, opposed: PhaseSet)
        requires few { frames self.old < 4294967295 }
        ensures remembers { (past : Past) → remembers self.old past → ContextStands context.now past → preempts_seen past ≡ []
            → ((p : ℕ) → is_phase p ≡ true → is_in (quiet_seen past) p ≡ (is_green (frame_seen past) p && not (has active p)))
            → Has opposed (is_in (opposed_seen past)) → Repeats past → remembers self.new (with_moment past (next_moment past)) }
        ensures frames { frames self.new ≡ frames self.old + 1 };

    /// N frames that continue the last one, at whose ticks this was seen.
    fn pass(&mut self, context: &TickContext, tick_inputs: &TickInputs, ticks: u32)
        requires some { 0 < ticks }
        requires few { frames self.old + ticks ≤ 4294967295 }
        requires ready { ready self.old context.now tick_inputs.now }
        requires room { context.now.frame.counter + ticks ≤ 4294967295 }
        ensures remembers { (h : History) → remembers self.old (past_at h) → ContextStands context.now (past_at h)
            → Looks (bound context.now.frame.mode) tick_inputs.now (past_at h) → Lasts context.now.frame.mode ticks (past_at h)
            → remembers self.new (past_at (ticks_more ticks h)) }
        ensures frames { frames self.new ≡ frames self.old + ticks };

    /// An event that doesn't concern past frames leaves the memory as it is.
    ghost told: { (m : Self) (past : Past) (e : Event) → LeavesBe e → remembers m past → remembers m (with_event e past) };

    /// So do tables that a download puts in force.
    ghost installed: { (m : Self) (past : Past) (t : Tables) → 0 < length past.moments → (frame_seen past).version ≤ past.version
        → remembers m past → remembers m (with_event (Install t) past) };
}

/// A memory that needs no allocator.
pub trait Fresh: Memory {
    ghost use Rattle.sig_tables.specs.declared.tables.Tables.{Tables};
    ghost use Rattle.sig_tables.specs.Decide.{past_at, opening};

    /// Of the moment before any tick.
    fn fresh() -> Self
        ensures remembers { (t : Tables) (command clock : ℕ) → Self.remembers result (past_at (opening t command clock)) }
        ensures frames { Self.frames result ≡ 0 };
}

/// Whether a frame keeps all the colours of the last one, and all its signals.
#[derive(Clone, Copy)]
pub struct Same {
    pub colours: bool,
    pub signals: bool,
}
