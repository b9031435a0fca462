//! The observer of a cabinet: the engine over a memory that looks back over the frames that were seen of it. It keeps
//! no clock and no register; only the check of a trace uses it.
#![tactic(auto)]

ghost use Rattle.std.specs.Prelude.{◌≡◌, ◌==◌, ◌<◌, ◌≤◌, if◌then◌else◌, ℕ, ◌∷◌, [], IfOk};
ghost use Rattle.look_back.specs.FrameHistories.{LooksOver};
ghost use Rattle.sig_types.specs.PhaseSet.{has};
ghost use Rattle.call_store.specs.Signals.{lesser_of};
ghost use Rattle.look_back.specs.Cuts.{lesser_of as cut_of};

use coord_count::Count;
use engine::{Engine, Memory, Same};
use look_back::{Cut, FrameHistory, Seen};
use sig_tables::{Tables, time_of};
use sig_types::{Colour, Frame, Mode, NoMemory, Ped, PhaseSet};
use std::alloc::Global;
use tick_context::{TickContext, TickInputs, TickState, first_frame};

/// What was seen of a cabinet, and the preempt inputs that are on.
#[derive(Drop)]
pub struct LookingBack {
    /// All that was seen.
    frame_history: FrameHistory,
    /// The preempts, 1 to 8 in a set as phases are, whose input is on.
    inputs: PhaseSet,
    /// The number of frames that were seen.
    frames: u32,
}

/// The preempts whose input is on, after that of one, 1 to 8, has turned on or off.
fn turned(inputs: PhaseSet, number: u8, on: bool) -> PhaseSet
    requires above { 0 < number }
    requires within { number ≤ 8 }
    ensures { (i : ℕ) → 0 < i → i ≤ 8 → has result i ≡ (if number == i then on else has inputs i) }
{
    let lone = PhaseSet::empty().with(number);
    inputs.minus(lone).with_if(number, on)
}

/// Smaller times as a cut.
fn cut_to(lesser: Option<(u32, u32)>) -> Option<Cut>
    ensures { cut_of result ≡ lesser_of lesser }
{
    match lesser {
        None => None,
        Some((walk, clear)) => Some(Cut { walk, clear }),
    }
}

impl LookingBack {
    ghost use Rattle.sig_tables.specs.Decide.{past_at, opening};
    ghost use Rattle.observer.specs.LookingBack.{SeesBack, frames};

    /// What was seen at the moment before any tick of a cabinet that is opened with these tables.
    fn open(alloc: Global, tables: &Tables) -> Result<LookingBack, NoMemory>
        ensures stands { IfOk result (λ m. (command clock : ℕ) → SeesBack m (past_at (opening tables.now command clock))) }
        ensures frames { IfOk result (λ m. frames m ≡ 0) }
    {
        match FrameHistory::open(alloc) {
            Ok(frame_history) => Ok(LookingBack::over(frame_history, tables)),
            Err(refused) => Err(refused),
        }
    }

    /// The same with a frame history of no frame.
    fn over(frame_history: FrameHistory, tables: &Tables) -> LookingBack
        requires frame_history { LooksOver frame_history [] }
        ensures stands { (command clock : ℕ) → SeesBack result (past_at (opening tables.now command clock)) }
        ensures frames { frames result ≡ 0 }
    {
        let mut frame_history = frame_history;
        let seen = Seen {
            frame: first_frame(),
            active: PhaseSet::empty(),
            opposed: PhaseSet::empty(),
        };
        frame_history.push(&seen, tables, PhaseSet::empty());
        LookingBack {
            frame_history,
            inputs: PhaseSet::empty(),
            frames: 0,
        }
    }
}

impl Memory for LookingBack {
    ghost use Rattle.observer.specs.LookingBack.{SeesBack, always, frames as frame_count};
    ghost use Rattle.observer.specs.Told.{told_leaves, installed_leaves};

    ghost remembers = { SeesBack };

    ghost frames = { frame_count };

    ghost ready = { always };

    fn runs_on(&self, context: &TickContext, phase: u8) -> Colour {
        self.frame_history.runs_on(
            &context.tables,
            phase,
            context.frame.veh[phase as usize - 1],
        )
    }

    fn signal_on(&self, context: &TickContext, phase: u8, lesser: Option<(u32, u32)>) -> Ped {
        let shown = context.frame.ped[phase as usize - 1];
        self.frame_history
            .signal_runs_on(&context.tables, phase, shown, cut_to(lesser))
    }

    fn is_startable(&self, context: &TickContext, phase: u8) -> bool {
        self.frame_history
            .window()
            .has_reverted(&context.tables, phase)
    }

    fn is_served(&self, context: &TickContext, phase: u8) -> bool {
        let place = phase as usize - 1;
        let shown = context.frame.veh[place];
        self.frame_history
            .is_served(&context.tables, phase, shown, context.frame.ped[place])
    }

    fn is_cleared(&self, context: &TickContext, tick_state: &TickState, phase: u8) -> bool {
        let shown = context.frame.ped[phase as usize - 1];
        self.frame_history
            .is_cleared(&context.tables, tick_state.mode, phase, shown)
    }

    fn has_gap(&self, context: &TickContext, phase: u8) -> bool {
        self.frame_history.window().gap_left(&context.tables, phase) == 0
    }

    fn has_maximum(&self, context: &TickContext, phase: u8, opposed: bool) -> bool {
        self.frame_history
            .window()
            .has_maximum(&context.tables, phase, opposed)
    }

    fn has_filled(&self, context: &TickContext, tick_state: &TickState, phase: u8) -> bool {
        let Mode::Coord(pattern) = tick_state.mode else {
            return false;
        };
        if context.tables.unit().force_mode != 2 {
            return false;
        }
        let split = time_of(context.tables.entries(pattern), phase);
        let least = split.saturating_sub(context.tables.clearance(phase));
        self.frame_history.window().run(phase, Colour::Green, least) >= least
    }

    fn colour_left(&self, context: &TickContext, phase: u8) -> u32 {
        match context.frame.veh[phase as usize - 1] {
            Colour::Green => u32::MAX,
            Colour::Red => u32::MAX,
            Colour::Yellow => self.frame_history.colour_left(phase, Colour::Yellow),
            Colour::Clear => self.frame_history.colour_left(phase, Colour::Clear),
        }
    }

    fn signal_left(&self, context: &TickContext, phase: u8) -> u32 {
        match context.frame.ped[phase as usize - 1] {
            Ped::Dont => u32::MAX,
            Ped::Walk => self.frame_history.signal_left(phase, Ped::Walk),
            Ped::Flash => self.frame_history.signal_left(phase, Ped::Flash),
        }
    }

    fn least_left(&self, phase: u8) -> u32 {
        self.frame_history.colour_left(phase, Colour::Green)
    }

    fn gap_left(&self, context: &TickContext, phase: u8) -> u32 {
        self.frame_history.window().gap_left(&context.tables, phase)
    }

    fn maximum_left(&self, context: &TickContext, phase: u8, opposed: bool) -> u32 {
        if context.tables.phase(phase).maximum == 0 {
            0
        } else if opposed {
            self.frame_history
                .window()
                .maximum_left(&context.tables, phase)
        } else {
            u32::MAX
        }
    }

    fn last_on(&self) -> [u8; 2] {
        let long_counts = self.frame_history.long_counts();
        [long_counts.last_on(1), long_counts.last_on(2)]
    }

    fn latest_on(&self) -> u8 {
        self.frame_history.long_counts().latest_on()
    }

    fn start_run(&self) -> u32 {
        self.frame_history.start_run()
    }

    fn stage(&self, context: &TickContext) -> Option<Mode> {
        self.frame_history
            .stage(&context.tables, &context.frame, self.inputs)
    }

    fn is_beside(&self) -> bool {
        self.inputs.is_empty()
    }

    fn count(&self) -> Count {
        self.frame_history.counting().count()
    }

    fn is_ready(&self, context: &TickContext, tick_inputs: &TickInputs) -> bool {
        true
    }

    fn input(&mut self, number: u8, on: bool) {
        self.inputs = turned(self.inputs, number, on);
    }

    fn keep(
        &mut self,
        context: &TickContext,
        tick_state: &TickState,
        tick_inputs: &TickInputs,
        frame: &Frame,
        same: Same,
    ) {
        let seen = Seen {
            frame: *frame,
            active: tick_inputs.active,
            opposed: tick_inputs.opposed,
        };
        self.frame_history.push(&seen, &context.tables, self.inputs);
        self.frames += 1;
    }

    fn again(&mut self, context: &TickContext, active: PhaseSet, opposed: PhaseSet) {
        let seen = Seen {
            frame: context.frame,
            active,
            opposed,
        };
        self.frame_history.push(&seen, &context.tables, self.inputs);
        self.frames += 1;
    }

    fn pass(&mut self, context: &TickContext, tick_inputs: &TickInputs, ticks: u32) {
        self.frame_history
            .push_again(tick_inputs.active, tick_inputs.opposed, ticks);
        self.frames += ticks;
    }

    ghost told = { told_leaves };

    ghost installed = { installed_leaves };
}

/// The observer of a cabinet: the engine over a memory that looks back.
pub type Observer = Engine<LookingBack>;

ghost use Rattle.sig_tables.specs.declared.tables.Tables.{Tables};
ghost use Rattle.sig_tables.specs.Decide.{opening};
ghost use Rattle.tick_context.specs.CanRun.{CanRun};
ghost use Rattle.observer.specs.ObserverStands.{ObserverStands, tick_count, install_count};

/// The observer of a cabinet that is opened with these tables, in Start, with a commanded pattern from 0 to 255 (254
/// and undefined patterns run free, 255 flashes), and a clock in ticks of the day. The add and skip limits of the
/// tables are at least one tick, as in all consistent tables.
pub fn open(
    alloc: Global,
    tables: sig_tables::Tables,
    command: u8,
    clock: u32,
) -> Result<Observer, NoMemory>
    requires tables { CanRun tables }
    requires of_day { clock < 864000 }
    ensures stands { IfOk result (λ observer. ObserverStands observer (opening tables command clock)) }
    ensures ticks { IfOk result (λ observer. tick_count observer ≡ 0) }
    ensures installs { IfOk result (λ observer. install_count observer ≡ 0) }
{
    match LookingBack::open(alloc, &tables) {
        Ok(memory) => Ok(Engine::over(memory, tables, command, clock)),
        Err(refused) => Err(refused),
    }
}
