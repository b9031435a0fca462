//! What a tick is about, from what both engines keep: the pattern in command, what the mode brings to green, the counter and
//! its target, and the priority request that is active.

ghost use Rattle.std.specs.Prelude.{◌≡◌, ◌<◌, ◌≤◌, ◌+◌, ℕ};

use crate::context::TickContext;
use crate::modes::{has_pattern, is_coord};
use crate::tick_state::TickState;
use coord_count::{Count, Limits};
use flash_mode::ring_turn_of;
use preempt_stages::{goal, lesser};
use sig_types::{Mode, PhaseSet};

impl TickContext {
    ghost use Rattle.sig_types.specs.declared.frame.Mode.TheVariants.{Coord};
    ghost use Rattle.sig_types.specs.Phases.{is_in};
    ghost use Rattle.sig_tables.specs.Past.{Past};
    ghost use Rattle.sig_tables.specs.Slots.{cycle_time};
    ghost use Rattle.sig_tables.specs.Command.{command_now};
    ghost use Rattle.sig_tables.specs.Clock.{target_in};
    ghost use Rattle.sig_tables.specs.Counters.{counter_in};
    ghost use Rattle.sig_tables.specs.Priority.{active_in};
    ghost use Rattle.sig_tables.specs.Goals.{goal_in};
    ghost use Rattle.sig_tables.specs.Layout.{Has};
    ghost use Rattle.sig_tables.specs.Seen.{mode_seen, moment_seen};
    ghost use Rattle.prio_queue.specs.Places.{some_number};
    ghost use Rattle.tick_context.specs.Binds.{ActivePatternIs, IsBound};
    ghost use Rattle.tick_context.specs.Context.{ContextStands, CountStandsFor, told_ticks};
    ghost use Rattle.tick_context.specs.TickState.{TickStateIs};
    ghost use Rattle.tick_context.specs.Even.{IsEven, UnitCommandsPassed};
    ghost use Rattle.tick_context.specs.Passed.{HasGoneOn};

    /// The pattern in command at this tick.
    pub fn command_now(&self) -> u8
        ensures command { (past : Past) → ContextStands self.now past → result ≡ command_now past }
    {
        self.unit_commands.command_now(&self.tables)
    }

    /// Keeps the pattern that this mode, which is that of this tick, seeks or is coordinated in.
    pub fn follow(&mut self, mode: Mode)
        ensures stands { (past : Past) → ContextStands self.old past → ContextStands self.new past }
        ensures bound { (past : Past) → ContextStands self.old past → mode ≡ mode_seen past → IsBound self.new.active_pattern past.tables mode }
        ensures ticks { told_ticks self.new ≡ told_ticks self.old }
        ensures installs { self.new.version ≡ self.old.version }
    {
        self.active_pattern.follow(&self.tables, mode);
    }

    /// Skips N ticks at which the command and the clock continue evenly; while coordinated in a pattern this is the
    /// counter of the last of them.
    pub fn pass(&mut self, ticks: u32, counter: u32)
        requires few { told_ticks self.old + ticks ≤ 4294967295 }
        requires even { IsEven self.old.unit_commands self.old.tables ticks }
        ensures passed { HasGoneOn counter self.old self.new }
        ensures unit_commands { UnitCommandsPassed ticks self.old.unit_commands self.new.unit_commands }
        ensures ticks { told_ticks self.new ≡ told_ticks self.old + ticks }
        ensures installs { self.new.version ≡ self.old.version }
    {
        self.unit_commands.pass(ticks, &self.tables);
        if is_coord(self.frame.mode) {
            self.frame.counter = counter;
            self.frame.target = self.active_pattern.target(self.unit_commands.clock());
        }
    }

    /// The phases that a mode brings to green; none where it has no goal.
    fn goal(&self, mode: Mode) -> PhaseSet
        ensures goal { (past : Past) → ContextStands self.now past → IsBound self.now.active_pattern past.tables mode
            → Has result (is_in (goal_in past.tables mode)) }
    {
        goal(&self.tables, mode, self.active_pattern.coordinated_pair())
    }

    /// What the clock asks of the counter, in ticks: that of the pattern which the mode seeks or is coordinated in,
    /// else 0.
    fn target(&self, mode: Mode, clock: u32) -> u32
        requires of_day { clock < 864000 }
        ensures target { (past : Past) → ContextStands self.now past → IsBound self.now.active_pattern past.tables mode
            → result ≡ target_in past.tables mode clock }
        ensures below { result < self.now.active_pattern.plan.cycle }
    {
        if has_pattern(mode) {
            self.active_pattern.target(clock)
        } else {
            0
        }
    }

    /// Where the cabinet is in the cycle of its pattern, with which it is coordinated, in ticks, by this count.
    fn counter_on(&self, target: u32, count: Count) -> u32
        requires below { target < self.now.active_pattern.plan.cycle }
        ensures counter { (past : Past) (n : ℕ) → ContextStands self.now past → CountStandsFor count past
            → ActivePatternIs self.now.active_pattern past.tables n → mode_seen past ≡ Coord n
            → result ≡ counter_in past.tables (Coord n) target past.moments }
        ensures within { (past : Past) (n : ℕ) → ContextStands self.now past → CountStandsFor count past
            → ActivePatternIs self.now.active_pattern past.tables n → mode_seen past ≡ Coord n → result < cycle_time past.tables n }
    {
        if count.counter() < self.active_pattern.plan.cycle {
            count.next(&self.active_pattern.plan, Limits::of(&self.tables), target)
        } else {
            0
        }
    }

    /// Where the cabinet is in the cycle of the pattern with which it is coordinated, in ticks, by this count; else 0.
    fn counter(&self, mode: Mode, target: u32, count: Count) -> u32
        requires below { target < self.now.active_pattern.plan.cycle }
        ensures counter { (past : Past) → ContextStands self.now past → CountStandsFor count past
            → IsBound self.now.active_pattern past.tables mode → mode ≡ mode_seen past
            → result ≡ counter_in past.tables mode target past.moments }
        ensures within { (past : Past) (n : ℕ) → ContextStands self.now past → CountStandsFor count past
            → IsBound self.now.active_pattern past.tables mode → mode ≡ mode_seen past → mode ≡ Coord n
            → result < cycle_time past.tables n }
    {
        if is_coord(mode) {
            self.counter_on(target, count)
        } else {
            0
        }
    }

    /// The priority request that is active at this tick, if one is: none except while coordinated in a pattern.
    fn active_request(&self, mode: Mode) -> Option<u8>
        requires few { told_ticks self.now < 4294967295 }
        ensures active { (past : Past) → ContextStands self.now past → IsBound self.now.active_pattern past.tables mode
            → result ≡ some_number (active_in past.tables mode ((moment_seen past).number + 1) past.asked) }
    {
        if is_coord(mode) {
            let coordinated = self.active_pattern.options.coordinated;
            self.requests
                .active(self.unit_commands.ticks() + 1, coordinated)
        } else {
            None
        }
    }

    /// What this tick is about, in this mode, with this commanded pattern. The count is that of the cycle of the
    /// pattern in which the last frame was coordinated.
    pub fn tick_state(&self, mode: Mode, command: u8, count: Count) -> TickState
        requires few { told_ticks self.now < 4294967295 }
        ensures tick_state { (past : Past) → ContextStands self.now past → CountStandsFor count past
            → IsBound self.now.active_pattern past.tables mode → mode ≡ mode_seen past → command ≡ command_now past
            → TickStateIs result past }
        ensures of_day { result.clock < 864000 }
    {
        let clock = self.unit_commands.clock_now();
        let goal = self.goal(mode);
        let target = self.target(mode, clock);
        TickState {
            command,
            clock,
            mode,
            goal,
            ring_turn: ring_turn_of(&self.frame, mode, self.layout.starts_up, goal),
            lesser: lesser(&self.tables, mode),
            counter: self.counter(mode, target, count),
            target,
            active: self.active_request(mode),
        }
    }
}
