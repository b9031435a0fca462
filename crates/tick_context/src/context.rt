//! What a tick uses in addition to past frames, whichever engine gives them: the tables in force, the last frame,
//! commands and requests.

ghost use Rattle.std.specs.Prelude.{◌≡◌, ◌<◌, ◌≤◌, ◌+◌};

use crate::active_pattern::ActivePattern;
use crate::opening::first_frame;
use crate::unit_commands::UnitCommands;
use call_store::Calls;
use prio_queue::Queue;
use sig_tables::{Layout, Shown, Tables};
use sig_types::{Field, Frame, Request};

/// What a cabinet keeps in addition to its past frames. Both engines hold one.
#[derive(Drop)]
pub struct TickContext {
    /// The tables in force, what they say of all phases, and how many tables were put in force since the opening.
    pub tables: Tables,
    pub layout: Layout,
    pub version: u32,
    /// The last frame.
    pub frame: Frame,
    pub calls: Calls,
    /// The priority requests.
    pub requests: Queue,
    /// The pattern in command, the clock and its drift.
    pub unit_commands: UnitCommands,
    /// The pattern that was sought, or coordinated in, last.
    pub active_pattern: ActivePattern,
    ghost adds: { 0 < tables.unit.add },
    ghost subtracts: { 0 < tables.unit.subtract },
}

impl TickContext {
    ghost use Rattle.sig_tables.specs.Past.{Past, Input, Install, SetPattern, SetClock, SetDrift, Ask, Cancel};
    ghost use Rattle.sig_tables.specs.Decide.{past_of, opening_commands, with_event};
    ghost use Rattle.sig_tables.specs.Showing.{ShownAfter};
    ghost use Rattle.tick_context.specs.CanRun.{CanRun, NamesPlace};
    ghost use Rattle.tick_context.specs.Context.{ContextStands, told_ticks};

    /// Of a cabinet that is opened with these tables, in Start, with a pattern in command, 0 to 255, and a clock in ticks of
    /// the day. The tables' limits of adding and subtracting are at least one tick, as those of consistent tables are.
    pub fn open(tables: Tables, command: u8, clock: u32) -> TickContext
        requires tables { CanRun tables }
        requires of_day { clock < 864000 }
        ensures stands { ContextStands result (past_of tables (opening_commands command clock)) }
        ensures ticks { told_ticks result ≡ 0 }
        ensures installs { result.version ≡ 0 }
    {
        let layout = Layout::of(&tables, 1);
        TickContext {
            layout,
            active_pattern: ActivePattern::none(&tables, layout),
            tables,
            version: 0,
            frame: first_frame(),
            calls: Calls::new(),
            requests: Queue::new(),
            unit_commands: UnitCommands::of(command, clock),
        }
    }

    /// An input from the street: a detector or a push button of a phase, 1 to 16, or the input of a preempt, 1 to 8, which
    /// calls no phase.
    pub fn input(&mut self, field: Field)
        requires place { NamesPlace field }
        ensures stands { (past : Past) → ContextStands self.old past → ContextStands self.new (with_event (Input field) past) }
        ensures ticks { told_ticks self.new ≡ told_ticks self.old }
        ensures installs { self.new.version ≡ self.old.version }
    {
        self.calls.input(field, &self.layout, &self.frame);
    }

    /// Tables that a download puts in force. Their limits of adding and subtracting are at least one tick.
    pub fn install(&mut self, tables: Tables)
        requires tables { CanRun tables }
        requires few { self.old.version < 4294967295 }
        ensures stands { (past : Past) → ContextStands self.old past → ContextStands self.new (with_event (Install tables) past) }
        ensures ticks { told_ticks self.new ≡ told_ticks self.old }
        ensures installs { self.new.version ≡ self.old.version + 1 }
    {
        self.layout = Layout::of(&tables, 1);
        self.active_pattern = ActivePattern::none(&tables, self.layout);
        self.tables = tables;
        self.version += 1;
    }

    /// Commands a pattern, 0 to 255.
    pub fn pattern(&mut self, command: u8)
        ensures stands { (past : Past) → ContextStands self.old past → ContextStands self.new (with_event (SetPattern command) past) }
        ensures ticks { told_ticks self.new ≡ told_ticks self.old }
        ensures installs { self.new.version ≡ self.old.version }
    {
        self.unit_commands.pattern(command);
    }

    /// Sets the clock, in ticks of the day.
    pub fn set_clock(&mut self, time: u32)
        requires of_day { time < 864000 }
        ensures stands { (past : Past) → ContextStands self.old past → ContextStands self.new (with_event (SetClock time) past) }
        ensures ticks { told_ticks self.new ≡ told_ticks self.old }
        ensures installs { self.new.version ≡ self.old.version }
    {
        self.unit_commands.set_clock(time);
    }

    /// Sets the drift of the clock: after how many ticks each time it gains one more, and after how many it loses one; 0 for
    /// never.
    pub fn drift(&mut self, gain: u32, lose: u32)
        ensures stands { (past : Past) → ContextStands self.old past → ContextStands self.new (with_event (SetDrift gain lose) past) }
        ensures ticks { told_ticks self.new ≡ told_ticks self.old }
        ensures installs { self.new.version ≡ self.old.version }
    {
        self.unit_commands.drift(gain, lose);
    }

    /// A priority request, whose number is 1 to 10. It replaces the one of its number.
    pub fn request(&mut self, request: Request)
        requires above { 0 < request.number }
        requires within { request.number ≤ 10 }
        ensures stands { (past : Past) → ContextStands self.old past → ContextStands self.new (with_event (Ask request) past) }
        ensures ticks { told_ticks self.new ≡ told_ticks self.old }
        ensures installs { self.new.version ≡ self.old.version }
    {
        let ticks = self.unit_commands.ticks();
        self.requests.request(request, ticks);
    }

    /// Cancels the priority request of a number, 1 to 10.
    pub fn cancel(&mut self, number: u8)
        requires above { 0 < number }
        requires within { number ≤ 10 }
        ensures stands { (past : Past) → ContextStands self.old past → ContextStands self.new (with_event (Cancel number) past) }
        ensures ticks { told_ticks self.new ≡ told_ticks self.old }
        ensures installs { self.new.version ≡ self.old.version }
    {
        let ticks = self.unit_commands.ticks();
        self.requests.cancel(number, ticks);
    }

    /// What the cabinet shows to management software.
    pub fn shown(&self) -> Shown
        ensures shown { (past : Past) → ContextStands self.now past → ShownAfter result past }
    {
        Shown {
            frame: self.frame,
            command: self.unit_commands.command(),
            clock: self.unit_commands.clock(),
            veh_calls: self.calls.vehicle(),
            ped_calls: self.calls.pedestrian(),
            requests: self.requests.states(self.unit_commands.ticks()),
            version: self.version,
        }
    }
}
