//! Patterns chosen by counted traffic: a section has a level, from 0 on. It rises if the volume of a period reaches the
//! threshold of a higher step, and falls only if the volume is below the lower threshold of its own step, so that it
//! doesn't change back and forth.
#![tactic(auto)]

ghost use Rattle.std.specs.Prelude.{ℕ, ◌≡◌, ◌≤◌, ◌↔◌, List, length};
ghost use Rattle.responsive.specs.declared.Step.{Step as StepRow};
ghost use Rattle.responsive.specs.Level.{up_met, down_met, greatest, level, Stays};

/// A step of a rule: its level is reached at a volume of `up`, and held down to one of `down`.
#[derive(Clone, Copy, PartialEq, Eq)]
pub struct Step {
    /// Vehicles in a period, 1 to 1,000,000.
    pub up: u32,
    /// Vehicles in a period, 1 to 1,000,000.
    pub down: u32,
    /// The pattern that is commanded at the step's level, 0 to 255.
    pub pattern: u8,
}

/// What a section's pattern follows: a pattern at level 0, and a step for each level from 1 on.
#[derive(PartialEq, Drop)]
pub struct Rule {
    /// The section of the master's schedule, 1 to 8.
    pub section: u8,
    /// The pattern at level 0, 0 to 255.
    pub base: u8,
    /// At most 8.
    pub steps: Vec<Step>,
}

/// The highest level whose step's `up` the volume meets; 0 where there is none.
fn highest_up(steps: &[Step], volume: u32) -> u32
    requires few { length steps.now ≤ 8 }
    ensures value { result ≡ greatest (up_met volume) steps.now (length steps.now) }
    ensures few { result ≤ length steps.now }
{
    let mut found = 0;
    for i in 0..steps.len() {
        if steps[i].up <= volume {
            found = i as u32 + 1;
        }
    }
    found
}

/// The highest level up to this one whose step's `down` the volume meets; 0 where there is none.
fn highest_down(steps: &[Step], most: u32, volume: u32) -> u32
    requires few { length steps.now ≤ 8 }
    requires most { most ≤ length steps.now }
    ensures { result ≡ greatest (down_met volume) steps.now most }
{
    let mut found = 0;
    for i in 0..most as usize {
        if steps[i].down <= volume {
            found = i as u32 + 1;
        }
    }
    found
}

/// The level that follows a level.
fn next_level(steps: &[Step], now: u32, volume: u32) -> u32
    requires few { length steps.now ≤ 8 }
    requires now { now ≤ length steps.now }
    ensures { result ≡ level steps.now now volume }
{
    let up = highest_up(steps, volume);
    if up > now {
        up
    } else if now > 0 && volume < steps[now as usize - 1].down {
        highest_down(steps, now - 1, volume)
    } else {
        now
    }
}

/// The level that follows a level after a period of this volume. Takes no memory.
pub fn level(rule: &Rule, now: u32, volume: u32) -> u32
    requires few { length rule.now.steps.items ≤ 8 }
    requires now { now ≤ length rule.now.steps.items }
    ensures level { result ≡ level rule.now.steps.items now volume }
    ensures few { result ≤ length rule.now.steps.items }
{
    next_level(rule.steps.as_slice(), now, volume)
}

/// A law: a level stays exactly where no step above it is reached, and it is 0 or the volume meets its own `down`.
pub fn level_stays()
    ensures { (steps : List StepRow) (now volume : ℕ) → now ≤ length steps → (level steps now volume ≡ now) ↔ Stays steps now volume }
{}
