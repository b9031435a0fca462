//! The counter of a cycle: how far a coordinated cabinet has come since local zero, and how it is brought onto the
//! offset (FHWA Signal Timing Manual, offset transition). Two numbers are kept that looking back over the counters
//! since the pickup would give: how often the counter waited and how often it skipped in this cycle.
#![tactic(auto)]

ghost use Rattle.std.specs.Prelude.{◌≡◌, ◌<◌, ◌≤◌, ◌-◌, ◌+◌, ℕ, List, [], ◌∷◌};

use sig_tables::Plan;

mod limits;
mod passing;

use limits::{ADD_ONLY, DWELL, SHORTWAY};
pub use limits::{Limits, needed};

/// The counter of the last frame, in ticks since local zero; how often it waited and how often it skipped a tick since
/// it last changed to 0, or since the pickup; and whether the last step changed it.
#[derive(Clone, Copy)]
pub struct Count {
    counter: u32,
    stands: u32,
    skips: u32,
    changed: bool,
}

impl Count {
    ghost use Rattle.sig_tables.specs.Counting.{next_counter, last_counter, dwelling, adding, skipping};
    ghost use Rattle.coord_count.specs.Limits.{correction_in};
    ghost use Rattle.coord_count.specs.CountStands.{CountStands, counter_of};

    /// Before any pickup: it counts as if the pattern were picked up now.
    pub fn new() -> Count
        ensures none { CountStands result [] }
        ensures picked_up { CountStands result (0 ∷ []) }
        ensures counter { counter_of result ≡ 0 }
    {
        Count {
            counter: 0,
            stands: 0,
            skips: 0,
            changed: true,
        }
    }

    /// A pattern is picked up: what was counted before is forgotten.
    /// Here only tests call it; it is part of the public interface.
    pub fn pickup(&mut self)
        ensures picked_up { CountStands self.new (0 ∷ []) }
        ensures counter { counter_of self.new ≡ 0 }
    {
        *self = Count::new();
    }

    /// The counter of the last frame, in ticks; 0 before any.
    pub fn counter(&self) -> u32
        ensures kept { result ≡ counter_of self.now }
        ensures counter { (counters : List ℕ) → CountStands self.now counters → result ≡ last_counter counters }
    {
        self.counter
    }

    /// The counter of the next frame, whose target is given. The counter and the target are below the plan's cycle, and the
    /// limits at least one tick.
    pub fn next(&self, plan: &Plan, limits: Limits, target: u32) -> u32
        requires counter { counter_of self.now < plan.now.cycle }
        requires target { target < plan.now.cycle }
        requires add { 0 < limits.add }
        requires subtract { 0 < limits.subtract }
        ensures next { (counters : List ℕ) → CountStands self.now counters
            → result ≡ next_counter (correction_in plan.now limits) counters target }
        ensures within { plan.now.window < plan.now.cycle → result < plan.now.cycle }
    {
        let error = ahead(plan.cycle, target, self.counter);
        if error == 0 || plan.window <= self.counter {
            return tick_later(plan.cycle, self.counter);
        }
        match limits.mode {
            DWELL => self.dwelling(plan, limits),
            ADD_ONLY => self.adding(plan, limits),
            SHORTWAY if limits.adds_sooner(plan, error) => self.adding(plan, limits),
            SHORTWAY => self.skipping(plan, limits),
            _ => tick_later(plan.cycle, self.counter),
        }
    }

    /// The next frame has this counter, whatever it is.
    pub fn keep(&mut self, counter: u32)
        ensures kept { (last : ℕ) (before : List ℕ) → CountStands self.old (last ∷ before)
            → CountStands self.new (counter ∷ last ∷ before) }
        ensures counter { counter_of self.new ≡ counter }
    {
        self.changed = counter != self.counter;
        if counter == 0 && self.changed {
            self.stands = 0;
            self.skips = 0;
        } else if !self.changed {
            self.stands = self.stands.saturating_add(1);
        } else if counter > 1 && counter - 2 == self.counter {
            self.skips = self.skips.saturating_add(1);
        }
        self.counter = counter;
    }

    /// One tick in coordination: the counter of its frame, which is kept.
    pub fn step(&mut self, plan: &Plan, limits: Limits, target: u32) -> u32
        requires counter { counter_of self.old < plan.now.cycle }
        requires target { target < plan.now.cycle }
        requires add { 0 < limits.add }
        requires subtract { 0 < limits.subtract }
        ensures next { (counters : List ℕ) → CountStands self.old counters
            → result ≡ next_counter (correction_in plan.now limits) counters target }
        ensures kept { (last : ℕ) (before : List ℕ) → CountStands self.old (last ∷ before)
            → CountStands self.new (result ∷ last ∷ before) }
        ensures counter { counter_of self.new ≡ result }
        ensures within { plan.now.window < plan.now.cycle → result < plan.now.cycle }
    {
        let counter = self.next(plan, limits, target);
        self.keep(counter);
        counter
    }

    /// Dwelling: the counter waits at local zero, up to the limit.
    fn dwelling(&self, plan: &Plan, limits: Limits) -> u32
        requires counter { counter_of self.now < plan.now.cycle }
        ensures next { (counters : List ℕ) → CountStands self.now counters
            → result ≡ dwelling (correction_in plan.now limits) counters (counter_of self.now) }
        ensures within { result < plan.now.cycle }
    {
        if self.counter == 0 && self.stands < limits.dwell {
            self.counter
        } else {
            tick_later(plan.cycle, self.counter)
        }
    }

    /// Adding: the counter waits at every second tick, up to the limit.
    fn adding(&self, plan: &Plan, limits: Limits) -> u32
        requires counter { counter_of self.now < plan.now.cycle }
        ensures next { (counters : List ℕ) → CountStands self.now counters
            → result ≡ adding (correction_in plan.now limits) counters (counter_of self.now) }
        ensures within { result < plan.now.cycle }
    {
        if self.changed && self.stands < limits.add {
            self.counter
        } else {
            tick_later(plan.cycle, self.counter)
        }
    }

    /// Subtracting: the counter skips a tick, up to the limit and never past the window.
    fn skipping(&self, plan: &Plan, limits: Limits) -> u32
        requires counter { counter_of self.now < plan.now.cycle }
        ensures next { (counters : List ℕ) → CountStands self.now counters
            → result ≡ skipping (correction_in plan.now limits) counters (counter_of self.now) }
        ensures within { plan.now.window < plan.now.cycle → result < plan.now.cycle }
    {
        if plan.window.saturating_sub(self.counter) >= 2 && self.skips < limits.subtract {
            self.counter + 2
        } else {
            tick_later(plan.cycle, self.counter)
        }
    }
}

ghost use Rattle.sig_tables.specs.Counting.{ahead, tick_later};

/// How far the target would be ahead, round the cycle, if the counter continued as time does.
fn ahead(cycle: u32, target: u32, counter: u32) -> u32
    requires counter { counter < cycle }
    requires target { target < cycle }
    ensures ahead { result ≡ ahead cycle target counter }
    ensures below { result < cycle }
{
    if counter < target {
        target - counter - 1
    } else {
        cycle - (counter - target) - 1
    }
}

/// A moment of the cycle, one tick later.
fn tick_later(cycle: u32, moment: u32) -> u32
    requires { moment < cycle }
    ensures later { result ≡ tick_later cycle moment }
    ensures below { result < cycle }
{
    if moment + 1 == cycle { 0 } else { moment + 1 }
}
