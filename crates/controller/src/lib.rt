//! One cabinet's controller: the engine over registers. The registers are updated at each frame and give the same
//! answers as looking back over all past frames.
#![tactic(auto)]

ghost use Rattle.std.specs.Prelude.{◌≡◌, ◌+◌, ◌==◌, if◌then◌else◌, ◌∷◌, ◌<◌, get_or, ℕ, List, true};
ghost use Rattle.sig_types.specs.Colour.{is_start};

use coord_count::Count;
use coord_gate::filled;
use engine::{Engine, Fresh, Memory, Same};
use ped_clock::PedClocks;
use phase_clock::Clocks;
use preempt_run::Preempts;
use preempt_stages::lesser_green;
use sig_types::{Colour, Frame, Mode, Ped, PhaseSet};
use tick_context::{TickContext, TickInputs, TickState, is_coord};

/// What is kept of the frames so far.
#[derive(Drop)]
pub struct Registers {
    clocks: Clocks,
    signals: PedClocks,
    preempts: Preempts,
    /// The phase that was last on in each ring since Start, or 0.
    last: [u8; 2],
    /// A phase of the latest frame since Start that had one on, or 0.
    latest: u8,
    /// For how many frames in a row the cabinet has been in Start.
    start_run: u32,
    /// The counter of the cycle of the pattern that was sought or coordinated last.
    count: Count,
}

/// Whether a frame is in Start.
fn shows_start(frame: &Frame) -> bool
    ensures { result ≡ is_start frame.now.mode }
{
    frame.mode == Mode::Start
}

/// The phase that was last on in a ring since Start, if this phase is on now (0: none).
fn last_after(before: u8, on: u8, in_start: bool) -> u8
    ensures { result ≡ (if in_start then 0 else if on == 0 then before else on) }
{
    if in_start {
        0
    } else if on == 0 {
        before
    } else {
        on
    }
}

/// A phase of the latest frame since Start that has one on, where these are on now.
fn latest_after(before: u8, on: [u8; 2], in_start: bool) -> u8
    ensures { result ≡ (if in_start then 0
        else if get_or on 0 0 == 0 then (if get_or on 1 0 == 0 then before else get_or on 1 0) else get_or on 0 0) }
{
    if in_start {
        0
    } else if on[0] != 0 {
        on[0]
    } else if on[1] != 0 {
        on[1]
    } else {
        before
    }
}

/// For how many frames in a row a cabinet has been in Start, after one more frame, which is in Start or not.
fn start_run_after(before: u32, in_start: bool) -> u32
    ensures { before < 4294967295 → result ≡ (if in_start then before + 1 else 0) }
{
    if in_start {
        before.saturating_add(1)
    } else {
        0
    }
}

impl Registers {
    ghost use Rattle.sig_tables.specs.Decide.{past_at, opening};
    ghost use Rattle.sig_tables.specs.declared.tables.Tables.{Tables};
    ghost use Rattle.controller.specs.Registers.{frames};

    /// The registers at the moment before any tick.
    pub fn new() -> Registers
        ensures stands { (t : Tables) (command clock : ℕ) → RegistersStand result (past_at (opening t command clock)) }
        ensures frames { frames result ≡ 0 }
    {
        Registers {
            clocks: Clocks::new(),
            signals: PedClocks::new(),
            preempts: Preempts::new(),
            last: [0; 2],
            latest: 0,
            start_run: 1,
            count: Count::new(),
        }
    }

    ghost use Rattle.sig_tables.specs.Past.{Past};
    ghost use Rattle.sig_tables.specs.Choosing.{is_in_step};
    ghost use Rattle.sig_tables.specs.Decide.{with_moment, next_moment};
    ghost use Rattle.tick_context.specs.Context.{CountsOn};
    ghost use Rattle.tick_context.specs.Runs.{ContextRuns};
    ghost use Rattle.controller.specs.Registers.{RegistersStand};
    ghost use Rattle.coord_count.specs.CountStands.{CountStands};

    /// The count of the cycle with one counter more.
    fn counted(&self, counter: u32) -> Count
        ensures kept { (last : ℕ) (before : List ℕ) → CountStands self.now.count (last ∷ before)
            → CountStands result (counter ∷ last ∷ before) }
    {
        let mut count = self.count;
        count.keep(counter);
        count
    }

    /// The count of the cycle after this frame: a coordinated tick continues the count, and any other frame may be a
    /// pickup.
    fn count_after(&self, context: &TickContext, frame: &Frame, tick_state: &TickState) -> Count
        ensures counts { (past : Past) → RegistersStand self.now past → ContextRuns context.now tick_state.now past → frame.now ≡ (next_moment past).frame
            → (n : ℕ) → is_in_step frame.now past.version n ≡ true → CountsOn result (with_moment past (next_moment past)) n }
    {
        if is_coord(tick_state.mode) {
            self.counted(frame.counter)
        } else {
            Count::new()
        }
    }
}

impl Memory for Registers {
    ghost use Rattle.controller.specs.Registers.{RegistersStand, IsReady, frames as frame_count};
    ghost use Rattle.controller.specs.Told.{told_leaves, installed_leaves};

    ghost remembers = { RegistersStand };

    ghost frames = { frame_count };

    ghost ready = { IsReady };

    fn runs_on(&self, context: &TickContext, phase: u8) -> Colour {
        let shown = context.frame.veh[phase as usize - 1];
        match shown {
            Colour::Yellow => {
                if self.clocks.run(phase) != self.clocks.latched_yellow(phase) {
                    Colour::Yellow
                } else if context.tables.phase(phase).red_clear == 0 {
                    Colour::Red
                } else {
                    Colour::Clear
                }
            }
            Colour::Clear => {
                if self.clocks.run(phase) == self.clocks.latched_clear(phase) {
                    Colour::Red
                } else {
                    Colour::Clear
                }
            }
            Colour::Green | Colour::Red => shown,
        }
    }

    fn signal_on(&self, context: &TickContext, phase: u8, lesser: Option<(u32, u32)>) -> Ped {
        let shown = context.frame.ped[phase as usize - 1];
        self.signals.next(phase, shown, lesser, &context.tables)
    }

    fn is_startable(&self, context: &TickContext, phase: u8) -> bool {
        self.clocks.run(phase) >= u32::from(context.tables.phase(phase).red_revert.max(1))
    }

    fn is_served(&self, context: &TickContext, phase: u8) -> bool {
        if self.clocks.run(phase) < self.clocks.latched_least(phase) {
            false
        } else {
            self.signal_on(context, phase, None) == Ped::Dont
        }
    }

    fn is_cleared(&self, context: &TickContext, tick_state: &TickState, phase: u8) -> bool {
        let least = lesser_green(
            &context.tables,
            tick_state.mode,
            self.clocks.latched_least(phase),
        );
        if self.clocks.run(phase) < least {
            false
        } else {
            self.signal_on(context, phase, tick_state.lesser) == Ped::Dont
        }
    }

    fn has_gap(&self, context: &TickContext, phase: u8) -> bool {
        self.clocks.quiet(phase) >= u32::from(context.tables.phase(phase).passage.max(1)) - 1
    }

    fn has_maximum(&self, context: &TickContext, phase: u8, opposed: bool) -> bool {
        let maximum = 10 * u32::from(context.tables.phase(phase).maximum);
        if maximum == 0 {
            true
        } else if opposed {
            self.clocks.pressed(phase) >= maximum - 1
        } else {
            false
        }
    }

    fn has_filled(&self, context: &TickContext, tick_state: &TickState, phase: u8) -> bool {
        let times = context.tables.phase(phase);
        let clear = u32::from(times.yellow_change) + u32::from(times.red_clear);
        filled(
            &context.active_pattern.plan,
            self.clocks.run(phase),
            clear,
            phase,
        )
    }

    fn colour_left(&self, context: &TickContext, phase: u8) -> u32 {
        match context.frame.veh[phase as usize - 1] {
            Colour::Green => u32::MAX,
            Colour::Red => u32::MAX,
            Colour::Yellow => {
                let time = self.clocks.latched_yellow(phase);
                time.saturating_sub(self.clocks.run(phase))
            }
            Colour::Clear => {
                let time = self.clocks.latched_clear(phase);
                time.saturating_sub(self.clocks.run(phase))
            }
        }
    }

    fn signal_left(&self, context: &TickContext, phase: u8) -> u32 {
        self.signals
            .left(phase, context.frame.ped[phase as usize - 1])
    }

    fn least_left(&self, phase: u8) -> u32 {
        let least = self.clocks.latched_least(phase);
        least.saturating_sub(self.clocks.run(phase))
    }

    fn gap_left(&self, context: &TickContext, phase: u8) -> u32 {
        let gap = u32::from(context.tables.phase(phase).passage.max(1));
        (gap - 1).saturating_sub(self.clocks.quiet(phase))
    }

    fn maximum_left(&self, context: &TickContext, phase: u8, opposed: bool) -> u32 {
        let maximum = 10 * u32::from(context.tables.phase(phase).maximum);
        if maximum == 0 {
            0
        } else if opposed {
            (maximum - 1).saturating_sub(self.clocks.pressed(phase))
        } else {
            u32::MAX
        }
    }

    fn last_on(&self) -> [u8; 2] {
        self.last
    }

    fn latest_on(&self) -> u8 {
        self.latest
    }

    fn start_run(&self) -> u32 {
        self.start_run
    }

    fn stage(&self, context: &TickContext) -> Option<Mode> {
        self.preempts.stage(&context.tables, &context.frame)
    }

    fn is_beside(&self) -> bool {
        self.preempts.on().is_empty()
    }

    fn count(&self) -> Count {
        self.count
    }

    fn is_ready(&self, context: &TickContext, tick_inputs: &TickInputs) -> bool {
        if context.frame.counter != self.count.counter() && is_coord(context.frame.mode) {
            false
        } else if !self.preempts.is_clear() {
            false
        } else {
            self.clocks
                .is_steady(tick_inputs.active, tick_inputs.opposed)
        }
    }

    fn input(&mut self, number: u8, on: bool) {
        self.preempts.input(number, on);
    }

    fn keep(
        &mut self,
        context: &TickContext,
        tick_state: &TickState,
        tick_inputs: &TickInputs,
        frame: &Frame,
        same: Same,
    ) {
        let in_start = shows_start(frame);
        let count = self.count_after(context, frame, tick_state);
        self.clocks.step(
            frame,
            same.colours,
            tick_inputs.active,
            tick_inputs.opposed,
            &context.tables,
        );
        self.signals.step(frame, same.signals, &context.tables);
        self.preempts.step(frame);
        self.count = count;
        self.last = [
            last_after(self.last[0], frame.on[0], in_start),
            last_after(self.last[1], frame.on[1], in_start),
        ];
        self.latest = latest_after(self.latest, frame.on, in_start);
        self.start_run = start_run_after(self.start_run, in_start);
    }

    fn again(&mut self, context: &TickContext, active: PhaseSet, opposed: PhaseSet) {
        self.clocks
            .step(&context.frame, true, active, opposed, &context.tables);
        self.signals.step(&context.frame, true, &context.tables);
        self.preempts.stay();
    }

    fn pass(&mut self, context: &TickContext, tick_inputs: &TickInputs, ticks: u32) {
        self.clocks.pass(ticks);
        self.signals.pass(ticks);
        self.preempts.pass(ticks);
        if is_coord(context.frame.mode) {
            self.count.pass(ticks);
        }
    }

    ghost told = { told_leaves };

    ghost installed = { installed_leaves };
}

impl Fresh for Registers {
    fn fresh() -> Registers {
        Registers::new()
    }
}

/// The controller of a cabinet: the engine over registers. It is opened by `Controller::open`.
pub type Controller = Engine<Registers>;
