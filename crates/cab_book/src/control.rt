//! What gives the frames of a cabinet: a controller, which is the engine over registers, or an observer, which is the
//! engine over a memory that looks back. A run takes the one and the check of a trace the other, and by these contracts
//! nobody can distinguish them.
ghost use Rattle.std.specs.Prelude.{◌≡◌, ◌<◌, ◌≤◌, ◌+◌, IfOk, IfErr};

use controller::Controller;
use observer::Observer;
use sig_tables::{Shown, Tables};
use sig_types::{Field, Frame, NoMemory, Request};
use std::alloc::Global;

/// The engine that gives the frames of a cabinet.
#[derive(Clone, Copy, PartialEq, Eq)]
pub enum Engine {
    /// A controller, which keeps registers from tick to tick.
    Controller,
    /// An observer, which looks back over all that was seen.
    Observer,
}

/// A controller, or an observer.
#[derive(Drop)]
pub enum Control {
    Registers(Controller),
    LookingBack(Observer),
}

impl Control {
    ghost use Rattle.sig_tables.specs.Past.{History, Input, Install, SetPattern, SetClock, SetDrift, Ask, Cancel};
    ghost use Rattle.sig_tables.specs.Decide.{decide, ticked, opening, with_one, last_frame_of, past_at};
    ghost use Rattle.sig_tables.specs.Showing.{ShownAfter};
    ghost use Rattle.tick_context.specs.Modes.{is_flash};
    ghost use Rattle.tick_context.specs.CanRun.{CanRun, NamesPlace};
    ghost use Rattle.tick_context.specs.Strides.{IsStride, is_told, ticks_more};
    ghost use Rattle.cab_book.specs.declared.control.Engine.{Engine};
    ghost use Rattle.cab_book.specs.Controls.{ControlStands, engine_of, tick_count};

    /// A cabinet that is opened with these tables, in Start, with a pattern in command, 0 to 255, and a clock in ticks of the
    /// day. Only an observer takes memory.
    pub fn open(
        alloc: Global,
        engine: Engine,
        tables: Tables,
        command: u8,
        clock: u32,
    ) -> Result<Control, NoMemory>
        requires tables { CanRun tables }
        requires of_day { clock < 864000 }
        ensures stands { IfOk result (λ control. ControlStands control (opening tables command clock)) }
        ensures engine { IfOk result (λ control. engine_of control ≡ engine) }
        ensures memory { IfErr result (λ _. engine ≡ Engine.Observer) }
    {
        match engine {
            Engine::Controller => Ok(Control::Registers(Controller::open(tables, command, clock))),
            Engine::Observer => match observer::open(alloc, tables, command, clock) {
                Ok(observer) => Ok(Control::LookingBack(observer)),
                Err(NoMemory) => Err(NoMemory),
            },
        }
    }

    /// The frame of the next tick.
    pub fn tick(&mut self) -> Frame
        requires few { tick_count self.old < 4294967295 }
        ensures decided { (h : History) → ControlStands self.old h → result ≡ decide h }
        ensures stands { (h : History) → ControlStands self.old h → ControlStands self.new (ticked h) }
        ensures counted { tick_count self.new ≡ tick_count self.old + 1 }
    {
        match self {
            Control::Registers(controller) => controller.tick(),
            Control::LookingBack(observer) => observer.tick(),
        }
    }

    /// Takes ticks until one gives a frame that has a line in a trace, but at most n: how many there were, and whether the frame
    /// of the last of them has a line.
    pub fn stride_told(&mut self, n: u32) -> (u32, bool)
        requires some { 1 ≤ n }
        requires few { tick_count self.old + n ≤ 4294967295 }
        ensures least { (h : History) → ControlStands self.old h → IsStride h n result.0 }
        ensures told { (h : History) → ControlStands self.old h → result.1 ≡ is_told h result.0 }
        ensures stands { (h : History) → ControlStands self.old h → ControlStands self.new (ticks_more result.0 h) }
        ensures some { 1 ≤ result.0 }
        ensures within { result.0 ≤ n }
        ensures counted { tick_count self.new ≡ tick_count self.old + result.0 }
    {
        match self {
            Control::Registers(controller) => controller.stride_told(n),
            Control::LookingBack(observer) => observer.stride_told(n),
        }
    }

    /// An input from the street: a detector or a push button of a phase, 1 to 16, or the input of a preempt, 1 to 8.
    pub fn input(&mut self, field: Field)
        requires place { NamesPlace field }
        ensures stands { (h : History) → ControlStands self.old h → ControlStands self.new (with_one h (Input field)) }
        ensures counted { tick_count self.new ≡ tick_count self.old }
    {
        match self {
            Control::Registers(controller) => controller.input(field),
            Control::LookingBack(observer) => observer.input(field),
        }
    }

    /// Tables that a download puts in force: at once, and the next tick runs by them. Their limits of adding and subtracting
    /// are at least one tick.
    pub fn install(&mut self, tables: Tables)
        requires tables { CanRun tables }
        requires few { install_count self.old < 4294967295 }
        ensures stands { (h : History) → ControlStands self.old h → ControlStands self.new (with_one h (Install tables)) }
        ensures counted { tick_count self.new ≡ tick_count self.old }
    {
        match self {
            Control::Registers(controller) => controller.install(tables),
            Control::LookingBack(observer) => observer.install(tables),
        }
    }

    /// Commands a pattern, 0 to 255.
    pub fn pattern(&mut self, command: u8)
        ensures stands { (h : History) → ControlStands self.old h → ControlStands self.new (with_one h (SetPattern command)) }
        ensures counted { tick_count self.new ≡ tick_count self.old }
    {
        match self {
            Control::Registers(controller) => controller.pattern(command),
            Control::LookingBack(observer) => observer.pattern(command),
        }
    }

    /// Sets the clock, in ticks of the day.
    pub fn clock(&mut self, time: u32)
        requires of_day { time < 864000 }
        ensures stands { (h : History) → ControlStands self.old h → ControlStands self.new (with_one h (SetClock time)) }
        ensures counted { tick_count self.new ≡ tick_count self.old }
    {
        match self {
            Control::Registers(controller) => controller.clock(time),
            Control::LookingBack(observer) => observer.clock(time),
        }
    }

    /// Sets the drift of the clock: after how many ticks each time it gains one more, and after how many it loses one; 0
    /// for never.
    pub fn drift(&mut self, gain: u32, lose: u32)
        ensures stands { (h : History) → ControlStands self.old h → ControlStands self.new (with_one h (SetDrift gain lose)) }
        ensures counted { tick_count self.new ≡ tick_count self.old }
        ensures engine { engine_of self.new ≡ engine_of self.old }
    {
        match self {
            Control::Registers(controller) => controller.drift(gain, lose),
            Control::LookingBack(observer) => observer.drift(gain, lose),
        }
    }

    /// A priority request (NTCIP 1211), whose number is 1 to 10. It replaces the one of its number.
    pub fn request(&mut self, request: Request)
        requires above { 0 < request.number }
        requires within { request.number ≤ 10 }
        ensures stands { (h : History) → ControlStands self.old h → ControlStands self.new (with_one h (Ask request)) }
        ensures counted { tick_count self.new ≡ tick_count self.old }
    {
        match self {
            Control::Registers(controller) => controller.request(request),
            Control::LookingBack(observer) => observer.request(request),
        }
    }

    /// Cancels the priority request of a number, 1 to 10.
    pub fn cancel(&mut self, number: u8)
        requires above { 0 < number }
        requires within { number ≤ 10 }
        ensures stands { (h : History) → ControlStands self.old h → ControlStands self.new (with_one h (Cancel number)) }
        ensures counted { tick_count self.new ≡ tick_count self.old }
    {
        match self {
            Control::Registers(controller) => controller.cancel(number),
            Control::LookingBack(observer) => observer.cancel(number),
        }
    }

    /// The tables in force.
    pub fn tables(&self) -> &Tables
        ensures tables { (h : History) → ControlStands self.now h → result.now ≡ (past_at h).tables }
    {
        match self {
            Control::Registers(controller) => controller.tables(),
            Control::LookingBack(observer) => observer.tables(),
        }
    }

    /// The last frame; before any tick, that of Start.
    pub fn frame(&self) -> Frame
        ensures frame { (h : History) → ControlStands self.now h → result ≡ last_frame_of h }
    {
        match self {
            Control::Registers(controller) => controller.frame(),
            Control::LookingBack(observer) => observer.frame(),
        }
    }

    /// Whether the cabinet flashes: its last frame is in Flash.
    pub fn flashing(&self) -> bool
        ensures flashing { (h : History) → ControlStands self.now h → result ≡ is_flash (last_frame_of h).mode }
    {
        match self {
            Control::Registers(controller) => controller.flashing(),
            Control::LookingBack(observer) => observer.flashing(),
        }
    }

    /// What the cabinet shows to management software.
    pub fn shown(&self) -> Shown
        ensures shown { (h : History) → ControlStands self.now h → ShownAfter result (past_at h) }
    {
        match self {
            Control::Registers(controller) => controller.shown(),
            Control::LookingBack(observer) => observer.shown(),
        }
    }
}

ghost use Rattle.cab_book.specs.Controls.{install_count};
