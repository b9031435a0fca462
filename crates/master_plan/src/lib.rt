//! The master's time of day, and the pattern that its schedule has for a section of cabinets. Nothing here takes memory.
#![tactic(auto)]

ghost use Rattle.std.specs.Prelude.{◌≡◌, ◌+◌, ◌*◌, ◌%◌, ◌<◌, Some};
ghost use Rattle.scenario_data.specs.Content.{scenario_content};
ghost use Rattle.master_plan.specs.Schedule.{master_clock, or_before, scheduled};

use scenario_data::{Entry, Scenario};

/// The later of an entry, if there is one, and one that follows it.
fn later(first: Option<Entry>, next: Entry) -> Option<Entry>
    ensures { result ≡ or_before first (Some next) }
{
    match first {
        Some(entry) if next.second < entry.second => Some(entry),
        _ => Some(next),
    }
}

/// The pattern that the schedule has for a section, 1 to 8, at a time of day in ticks; none exactly where it has no entry.
pub fn scheduled(s: &Scenario, section: u8, clock: u32) -> Option<u8>
    ensures { result ≡ scheduled s.now.master.schedule.items section clock }
{
    let mut come = None;
    let mut any = None;
    for entry in &s.master.schedule {
        if entry.section == section {
            any = later(any, *entry);
            if 10 * u64::from(entry.second) <= u64::from(clock) {
                come = later(come, *entry);
            }
        }
    }
    match (come, any) {
        (Some(entry), _) | (None, Some(entry)) => Some(entry.pattern),
        (None, None) => None,
    }
}

/// The ticks of a day.
const DAY: u64 = 864_000;

/// The time of day after that many rounds of that many ticks.
fn clock_after(opening: u32, rounds: u32, ticks: u32) -> u32
    ensures clock { result ≡ (opening + rounds * ticks) % 864000 }
    ensures within { result < 864000 }
{
    let passed = u64::from(rounds) * u64::from(ticks);
    ((u64::from(opening) + passed) % DAY) as u32
}

/// The master's time of day in a round, which is counted from 1, in ticks.
pub fn master_clock(s: &Scenario, round: u32) -> u32
    ensures clock { result ≡ master_clock (scenario_content s.now) round }
    ensures within { result < 864000 }
{
    clock_after(s.master.clock, round.saturating_sub(1), s.ticks)
}
