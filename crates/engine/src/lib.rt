//! The engine of a cabinet: what its phases show after each tick of 0.1 s. Two rings of phases are served by the rules
//! of actuated control (NEMA TS 2, FHWA Signal Timing Manual), in free operation and coordinated in the patterns of a
//! timing plan; preemption, flash, priority requests, commands, clocks and downloads may occur at any time. The
//! definitions look back over past frames; the engine asks a memory about them. It is proved once, for every memory.
#![tactic(auto)]

ghost use Rattle.std.specs.Prelude.{◌≡◌, ◌<◌, ◌≤◌, ◌+◌};

use sig_tables::{Shown, Tables};
use sig_types::{Field, Frame, PhaseSet, Request};
use tick_context::{TickContext, first_frame, is_flash};

mod at_rest;
mod by_colour;
mod colouring;
mod keeping;
mod lasting;
mod memory;
mod moving;
mod passing;
mod reasons;
mod seeing;
mod staying;
mod stride;
mod tick_state;
mod ticking;
mod walking;

use by_colour::ByColour;
pub use memory::{Fresh, Memory, Same};

/// What an engine keeps between ticks: its tables, commands and requests, what the last frame shows, and a memory of
/// the frames before.
#[derive(Drop)]
pub struct Engine<M: Memory> {
    /// The tables in force, the last frame, commands and requests.
    context: TickContext,
    /// The phases by the colour that the last frame shows.
    shown: ByColour,
    /// The phases on which the last frame shows Walk, and those on which it shows Walk or Flash.
    walking: PhaseSet,
    signalling: PhaseSet,
    /// What is remembered of the frames so far.
    memory: M,
}

impl<M: Memory> Engine<M> {
    ghost use Rattle.sig_tables.specs.declared.tables.Tables.{Tables};
    ghost use Rattle.sig_tables.specs.Past.{History, Input, Install, SetPattern, SetClock, SetDrift, Ask, Cancel};
    ghost use Rattle.sig_tables.specs.Decide.{decide, ticked, opening, with_one, last_frame_of, past_at};
    ghost use Rattle.sig_tables.specs.Showing.{ShownAfter};
    ghost use Rattle.tick_context.specs.Modes.{is_flash};
    ghost use Rattle.engine.specs.EngineStands.{EngineStands, tick_count, install_count};
    ghost use Rattle.tick_context.specs.CanRun.{CanRun, NamesPlace};

    /// A cabinet that is opened with these tables, in Start, with a pattern in command, 0 to 255 (254 and those that are
    /// not defined run free, 255 flashes), and a clock in ticks of the day. The tables' limits of adding and subtracting
    /// are at least one tick, as those of consistent tables are. What is remembered is the moment before any tick.
    pub fn over(memory: M, tables: Tables, command: u8, clock: u32) -> Engine<M>
        requires tables { CanRun tables }
        requires of_day { clock < 864000 }
        requires memory { M.remembers memory (past_at (opening tables command clock)) }
        requires none { M.frames memory ≡ 0 }
        ensures stands { EngineStands M.remembers result (opening tables command clock) }
        ensures ticks { tick_count M.frames result ≡ 0 }
        ensures installs { install_count result ≡ 0 }
    {
        Engine {
            context: TickContext::open(tables, command, clock),
            shown: ByColour::of(&first_frame().veh),
            walking: PhaseSet::empty(),
            signalling: PhaseSet::empty(),
            memory,
        }
    }

    /// The frame of the next tick.
    pub fn tick(&mut self) -> Frame
        requires few { tick_count M.frames self.old < 4294967295 }
        ensures decided { (h : History) → EngineStands M.remembers self.old h → result ≡ decide h }
        ensures stands { (h : History) → EngineStands M.remembers self.old h → EngineStands M.remembers self.new (ticked h) }
        ensures counted { tick_count M.frames self.new ≡ tick_count M.frames self.old + 1 }
        ensures installs { install_count self.new ≡ install_count self.old }
    {
        let command = self.context.command_now();
        if self.stays_free(command) {
            self.tick_free(command)
        } else {
            self.tick_in_any(command)
        }
    }

    /// An input from the street: a detector or a push button of a phase, 1 to 16, or the input of a preempt, 1 to 8.
    /// The frames show its effect from the next tick on.
    pub fn input(&mut self, field: Field)
        requires place { NamesPlace field }
        ensures stands { (h : History) → EngineStands M.remembers self.old h → EngineStands M.remembers self.new (with_one h (Input field)) }
        ensures counted { tick_count M.frames self.new ≡ tick_count M.frames self.old }
        ensures installs { install_count self.new ≡ install_count self.old }
    {
        self.context.input(field);
        match field {
            Field::Veh { .. } => {}
            Field::Ped { .. } => {}
            Field::Preempt { number, on } => self.memory.input(number, on),
        }
    }

    /// Tables that a download puts in force: at once, and the next tick runs by them. Their limits of adding and
    /// subtracting are at least one tick.
    pub fn install(&mut self, tables: Tables)
        requires tables { CanRun tables }
        requires few { install_count self.old < 4294967295 }
        ensures stands { (h : History) → EngineStands M.remembers self.old h → EngineStands M.remembers self.new (with_one h (Install tables)) }
        ensures counted { tick_count M.frames self.new ≡ tick_count M.frames self.old }
        ensures installs { install_count self.new ≡ install_count self.old + 1 }
    {
        self.context.install(tables);
    }

    /// Commands a pattern, 0 to 255; it counts from the next tick on, and of several between two ticks the last one does.
    pub fn pattern(&mut self, command: u8)
        ensures stands { (h : History) → EngineStands M.remembers self.old h → EngineStands M.remembers self.new (with_one h (SetPattern command)) }
        ensures counted { tick_count M.frames self.new ≡ tick_count M.frames self.old }
        ensures installs { install_count self.new ≡ install_count self.old }
    {
        self.context.pattern(command);
    }

    /// Sets the clock, in ticks of the day.
    pub fn clock(&mut self, time: u32)
        requires of_day { time < 864000 }
        ensures stands { (h : History) → EngineStands M.remembers self.old h → EngineStands M.remembers self.new (with_one h (SetClock time)) }
        ensures counted { tick_count M.frames self.new ≡ tick_count M.frames self.old }
        ensures installs { install_count self.new ≡ install_count self.old }
    {
        self.context.set_clock(time);
    }

    /// Sets the drift of the clock: after how many ticks each time it gains one more, and after how many it loses one; 0
    /// for never.
    pub fn drift(&mut self, gain: u32, lose: u32)
        ensures stands { (h : History) → EngineStands M.remembers self.old h → EngineStands M.remembers self.new (with_one h (SetDrift gain lose)) }
        ensures counted { tick_count M.frames self.new ≡ tick_count M.frames self.old }
        ensures installs { install_count self.new ≡ install_count self.old }
    {
        self.context.drift(gain, lose);
    }

    /// A priority request (NTCIP 1211), whose number is 1 to 10. It replaces the one of its number.
    pub fn request(&mut self, request: Request)
        requires above { 0 < request.number }
        requires within { request.number ≤ 10 }
        ensures stands { (h : History) → EngineStands M.remembers self.old h → EngineStands M.remembers self.new (with_one h (Ask request)) }
        ensures counted { tick_count M.frames self.new ≡ tick_count M.frames self.old }
        ensures installs { install_count self.new ≡ install_count self.old }
    {
        self.context.request(request);
    }

    /// Cancels the priority request of a number, 1 to 10.
    pub fn cancel(&mut self, number: u8)
        requires above { 0 < number }
        requires within { number ≤ 10 }
        ensures stands { (h : History) → EngineStands M.remembers self.old h → EngineStands M.remembers self.new (with_one h (Cancel number)) }
        ensures counted { tick_count M.frames self.new ≡ tick_count M.frames self.old }
        ensures installs { install_count self.new ≡ install_count self.old }
    {
        self.context.cancel(number);
    }

    /// The tables in force.
    pub fn tables(&self) -> &Tables
        ensures tables { (h : History) → EngineStands M.remembers self.now h → result.now ≡ (past_at h).tables }
    {
        &self.context.tables
    }

    /// The last frame; before any tick, that of Start.
    pub fn frame(&self) -> Frame
        ensures frame { (h : History) → EngineStands M.remembers self.now h → result ≡ last_frame_of h }
    {
        self.context.frame
    }

    /// Whether the cabinet flashes: its last frame is in Flash.
    pub fn flashing(&self) -> bool
        ensures flashing { (h : History) → EngineStands M.remembers self.now h → result ≡ is_flash (last_frame_of h).mode }
    {
        is_flash(self.context.frame.mode)
    }

    /// What the cabinet shows to management software.
    pub fn shown(&self) -> Shown
        ensures shown { (h : History) → EngineStands M.remembers self.now h → ShownAfter result (past_at h) }
    {
        self.context.shown()
    }
}

impl<M: Fresh> Engine<M> {
    ghost use Rattle.sig_tables.specs.Decide.{opening};
    ghost use Rattle.tick_context.specs.CanRun.{CanRun};
    ghost use Rattle.engine.specs.EngineStands.{EngineStands, tick_count, install_count};

    /// The same with a memory that needs no allocator.
    pub fn open(tables: Tables, command: u8, clock: u32) -> Engine<M>
        requires tables { CanRun tables }
        requires of_day { clock < 864000 }
        ensures stands { EngineStands M.remembers result (opening tables command clock) }
        ensures ticks { tick_count M.frames result ≡ 0 }
        ensures installs { install_count result ≡ 0 }
    {
        Engine::over(M::fresh(), tables, command, clock)
    }
}
