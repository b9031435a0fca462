//! The entries of the master's schedule by counted traffic.

ghost use Rattle.std.specs.Prelude.{ℕ, ◌≡◌, ◌<◌, ◌≤◌, ◌*◌, ◌+◌, ◌++◌, ◌/◌, ◌-◌, suc, map, length, option_map, Some, IfOk, OnOk};
ghost use Rattle.scenario_data.specs.Content.{scenario_content};
ghost use Rattle.responsive.specs.Level.{level};
ghost use Rattle.field_read.specs.Content.{RespondContent, rule_content, respond_content, field_content};
ghost use Rattle.field_file.specs.Schedule.{Counted, pattern_at, base_entries, changes, second_of, entries};
ghost use Rattle.field_file.specs.Written.{schedule_by, schedule_of};
ghost use Rattle.field_file.specs.Counting.{HasVolumes, RulesStand, LevelsFit, AreLevels, change_between};

use crate::volumes::{period_of, volumes_of};
use detector_bank::{Edge, edges};
use field_read::{Field, Respond};
use master_plan::master_clock;
use responsive::{Rule, level};
use scenario_data::{Entry, Scenario};
use sig_types::NoMemory;
use std::alloc::Global;

/// The second of the day at which a round begins by the master's clock.
fn second_of(scenario: &Scenario, round: u32) -> u32
    ensures { result ≡ second_of (scenario_content scenario.now) round }
{
    master_clock(scenario, round) / 10
}

/// The pattern of a rule at a level.
fn pattern_at(rule: &Rule, level: u32) -> u8
    requires { level ≤ length rule.now.steps.items }
    ensures { result ≡ pattern_at (rule_content rule.now) level }
{
    if level == 0 {
        rule.base
    } else {
        rule.steps[level as usize - 1].pattern
    }
}

/// The entry of each rule's base.
fn base_entries(alloc: Global, rules: &Vec<Rule>, second: u32) -> Result<Vec<Entry>, NoMemory>
    ensures { IfOk result (λ entries. entries.items ≡ base_entries second (map rule_content rules.now.items)) }
{
    let mut entries = Vec::new(alloc);
    for k in 0..rules.len() {
        let rule = &rules[k];
        let entry = Entry {
            second,
            section: rule.section,
            pattern: rule.base,
        };
        if entries.push(entry).is_err() {
            return Err(NoMemory);
        }
    }
    Ok(entries)
}

/// The level of a rule after a period of this volume, with the entry of another pattern.
fn follow(
    entries: &mut Vec<Entry>,
    rule: &Rule,
    before: u32,
    volume: u32,
    second: u32,
) -> Result<u32, NoMemory>
    requires steps { length rule.now.steps.items ≤ 8 }
    requires before { before ≤ length rule.now.steps.items }
    ensures level { IfOk result (λ now. now ≡ level rule.now.steps.items before volume) }
    ensures few { IfOk result (λ now. now ≤ length rule.now.steps.items) }
    ensures entry { IfOk result (λ now. entries.new.items ≡ entries.old.items ++ change_between second (rule_content rule.now) before now) }
{
    let now = level(rule, before, volume);
    let pattern = pattern_at(rule, now);
    if pattern == pattern_at(rule, before) {
        return Ok(now);
    }
    let entry = Entry {
        second,
        section: rule.section,
        pattern,
    };
    match entries.push(entry) {
        Ok(()) => Ok(now),
        Err(_) => Err(NoMemory),
    }
}

/// The levels of the rules after period `n`, with the entries of other patterns.
fn follow_all(
    entries: &mut Vec<Entry>,
    levels: &mut Vec<u32>,
    rules: &Vec<Rule>,
    table: &Vec<u32>,
    n: u32,
    second: u32,
) -> Result<(), NoMemory>
    requires rules { RulesStand (map rule_content rules.now.items) }
    requires levels { LevelsFit levels.old.items (map rule_content rules.now.items) }
    requires table { n * 8 + 8 ≤ length table.now.items }
    ensures fit { OnOk result (LevelsFit levels.new.items (map rule_content rules.now.items)) }
    ensures follows { OnOk result ((c : Counted) (periods : ℕ) → n < periods → HasVolumes table.now.items c periods c.edges → AreLevels levels.old.items c (map rule_content rules.now.items) n
        → AreLevels levels.new.items c (map rule_content rules.now.items) (suc n) × (entries.new.items ≡ entries.old.items ++ changes c second n (map rule_content rules.now.items))) }
{
    for k in 0..rules.len() {
        let rule = &rules[k];
        let volume = table[n as usize * 8 + (rule.section as usize - 1)];
        match follow(entries, rule, levels[k], volume, second) {
            Ok(now) => levels[k] = now,
            Err(NoMemory) => return Err(NoMemory),
        }
    }
    Ok(())
}

/// The first round after period `n`.
fn round_behind(period: u32, n: u32, rounds: u32) -> u32
    requires some { 0 < period }
    requires behind { n < (rounds - 1) / period }
    ensures { result ≡ suc n * period + 1 }
{
    (n + 1) * period + 1
}

/// The entries for all rounds, by rules and edges.
fn entries_of(
    alloc: Global,
    scenario: &Scenario,
    respond: &Respond,
    edges: &Vec<Edge>,
) -> Result<Vec<Entry>, NoMemory>
    requires some { 0 < respond.now.period }
    requires rules { RulesStand (respond_content respond.now).sections }
    requires short { scenario.now.rounds ≤ 86400 }
    ensures { IfOk result (λ found. found.items ≡ entries (scenario_content scenario.now)
        (record { sections = map (λ c. c.section) (scenario_content scenario.now).cabinets; period = respond.now.period; edges = edges.now.items }) (respond_content respond.now).sections) }
{
    let rules = &respond.sections;
    let periods = period_of(respond.period, scenario.rounds);
    let table = match volumes_of(alloc, scenario, respond.period, periods, edges) {
        Ok(table) => table,
        Err(NoMemory) => return Err(NoMemory),
    };
    let mut levels = match vec![in alloc; 0u32; rules.len()] {
        Ok(levels) => levels,
        Err(_) => return Err(NoMemory),
    };
    let mut found = match base_entries(alloc, rules, second_of(scenario, 1)) {
        Ok(found) => found,
        Err(NoMemory) => return Err(NoMemory),
    };
    for n in 0..periods {
        let second = second_of(scenario, round_behind(respond.period, n, scenario.rounds));
        match follow_all(&mut found, &mut levels, rules, &table, n, second) {
            Ok(()) => {}
            Err(NoMemory) => return Err(NoMemory),
        }
    }
    Ok(found)
}

/// The entries for all rounds of a field file, by these rules.
fn entries_by(alloc: Global, field: &Field, respond: &Respond) -> Result<Vec<Entry>, NoMemory>
    requires pulses { length field.now.pulses.items ≤ 1000000 }
    requires short { field.now.scenario.rounds ≤ 86400 }
    requires some { 0 < respond.now.period }
    requires rules { RulesStand (respond_content respond.now).sections }
    ensures { IfOk result (λ found. found.items ≡ schedule_by (field_content field.now) (respond_content respond.now)) }
{
    let counted = edges(alloc, &field.bank, &field.pulses, field.scenario.rounds)?;
    entries_of(alloc, &field.scenario, respond, &counted)
}

/// The schedule of a field file's rules, if it has any.
pub(crate) fn schedule_of(alloc: Global, field: &Field) -> Result<Option<Vec<Entry>>, NoMemory>
    requires pulses { length field.now.pulses.items ≤ 1000000 }
    requires short { field.now.scenario.rounds ≤ 86400 }
    requires rules { (r : RespondContent) → (field_content field.now).respond ≡ Some r → (0 < r.period) × RulesStand r.sections }
    ensures { IfOk result (λ schedule. option_map (λ v. v.items) schedule ≡ schedule_of (field_content field.now)) }
{
    match &field.respond {
        None => Ok(None),
        Some(respond) => match entries_by(alloc, field, respond) {
            Ok(found) => Ok(Some(found)),
            Err(NoMemory) => Err(NoMemory),
        },
    }
}
