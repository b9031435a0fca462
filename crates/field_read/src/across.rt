//! What concerns several lists of a field file: repeated detectors, pulses of none, and rules that don't fit one
//! another or the scenario.

ghost use Rattle.std.specs.Prelude.{◌≡◌, ◌<◌, map, length};
ghost use Rattle.scenario_data.specs.Content.{scenario_content};
ghost use Rattle.scenario_read.specs.Readers.{Answers};
ghost use Rattle.field_read.specs.Content.{rule_content, respond_content, field_content};
ghost use Rattle.field_read.specs.Checks.{is_repeated, section_faults, is_above, step_fault, step_faults, all_step_faults, pulse_faults, schedule_faults, period_faults, day_faults, respond_faults, asked_faults, across_faults};
ghost use Rattle.field_read.specs.Places.{BankPlaced, PulsesPlaced, Marks};

use crate::marks::{is_marked, marked};
use crate::named::Field;
use crate::place::{Place, refuse, refuse_member};
use crate::respond::Respond;
use detector_bank::{Detector, Pulse};
use responsive::{Rule, Step};
use scenario_data::{ReadFail, Scenario};
use scenario_read::Unfit;
use std::alloc::Global;

/// Refuses the first pulse whose detector is not in the bank.
fn pulses_known(
    alloc: Global,
    marks: &[bool; 4225],
    bank: &Vec<Detector>,
    pulses: &Vec<Pulse>,
) -> Result<(), ReadFail>
    requires marks { Marks marks.now bank.now.items }
    requires placed { PulsesPlaced pulses.now.items }
    ensures { Answers result (pulse_faults bank.now.items pulses.now.items) (λ _. Unit {0}) }
{
    for place in 0..pulses.len() {
        let pulse = pulses[place];
        if !is_marked(marks, pulse.cabinet, pulse.detector) {
            return Err(refuse(alloc, Place::Pulse(place), Unfit::Wrong));
        }
    }
    Ok(())
}

/// Whether a section has a rule before the one at a place.
fn is_repeated(rules: &Vec<Rule>, place: usize) -> bool
    requires within { place < length rules.now.items }
    ensures { result ≡ is_repeated (map rule_content rules.now.items) place }
{
    let section = rules[place].section;
    for before in 0..place {
        let repeated = rules[before].section == section;
        if repeated {
            return true;
        }
    }
    false
}

/// Refuses the first rule of a section that has one.
fn sections_differ(alloc: Global, rules: &Vec<Rule>) -> Result<(), ReadFail>
    ensures { Answers result (section_faults (map rule_content rules.now.items)) (λ _. Unit {0}) }
{
    for place in 0..rules.len() {
        if is_repeated(rules, place) {
            return Err(refuse(alloc, Place::Section(place), Unfit::Wrong));
        }
    }
    Ok(())
}

/// Whether both volumes of a step are above those of the step before.
fn is_above(steps: &Vec<Step>, place: usize) -> bool
    requires within { place < length steps.now.items }
    ensures { result ≡ is_above steps.now.items place }
{
    place == 0 || steps[place - 1].up < steps[place].up && steps[place - 1].down < steps[place].down
}

/// Refuses a step whose volumes don't fit.
fn step_fits(alloc: Global, steps: &Vec<Step>, section: usize, step: usize) -> Result<(), ReadFail>
    requires within { step < length steps.now.items }
    ensures { Answers result (step_fault section steps.now.items step) (λ _. Unit {0}) }
{
    if steps[step].down <= steps[step].up && is_above(steps, step) {
        Ok(())
    } else {
        Err(refuse(alloc, Place::Step { section, step }, Unfit::Beyond))
    }
}

/// Refuses the first step of a rule whose volumes don't fit.
fn steps_rise(alloc: Global, steps: &Vec<Step>, section: usize) -> Result<(), ReadFail>
    ensures { Answers result (step_faults section steps.now.items) (λ _. Unit {0}) }
{
    for step in 0..steps.len() {
        match step_fits(alloc, steps, section, step) {
            Ok(()) => {}
            Err(fail) => return Err(fail),
        }
    }
    Ok(())
}

/// Refuses the first step of any rule whose volumes don't fit.
fn all_steps_rise(alloc: Global, rules: &Vec<Rule>) -> Result<(), ReadFail>
    ensures { Answers result (all_step_faults (map rule_content rules.now.items)) (λ _. Unit {0}) }
{
    for section in 0..rules.len() {
        match steps_rise(alloc, &rules[section].steps, section) {
            Ok(()) => {}
            Err(fail) => return Err(fail),
        }
    }
    Ok(())
}

/// Refuses a schedule of the scenario's own.
fn unscheduled(alloc: Global, scenario: &Scenario) -> Result<(), ReadFail>
    ensures { Answers result (schedule_faults (scenario_content scenario.now)) (λ _. Unit {0}) }
{
    if scenario.master.schedule.is_empty() {
        Ok(())
    } else {
        Err(refuse_member(alloc, Place::Master, "schedule", Unfit::Wrong))
    }
}

/// Refuses a period that doesn't begin at whole seconds of the master's clock.
fn in_seconds(alloc: Global, scenario: &Scenario, period: u32) -> Result<(), ReadFail>
    ensures { Answers result (period_faults (scenario_content scenario.now) period) (λ _. Unit {0}) }
{
    let ticks = u64::from(period) * u64::from(scenario.ticks);
    if scenario.master.clock % 10 == 0 && ticks % 10 == 0 {
        Ok(())
    } else {
        Err(refuse_member(alloc, Place::Respond, "period", Unfit::Beyond))
    }
}

/// Refuses rounds that take more than a day, which is 864,000 ticks.
fn in_a_day(alloc: Global, scenario: &Scenario) -> Result<(), ReadFail>
    ensures { Answers result (day_faults (scenario_content scenario.now)) (λ _. Unit {0}) }
{
    let ticks = u64::from(scenario.rounds) * u64::from(scenario.ticks);
    if ticks <= 864_000 {
        Ok(())
    } else {
        Err(refuse_member(alloc, Place::Scenario, "rounds", Unfit::Beyond))
    }
}

/// Refuses rules that don't fit one another or the scenario.
fn rules_fit(alloc: Global, scenario: &Scenario, respond: &Respond) -> Result<(), ReadFail>
    ensures { Answers result (respond_faults (scenario_content scenario.now) (respond_content respond.now)) (λ _. Unit {0}) }
{
    sections_differ(alloc, &respond.sections)?;
    all_steps_rise(alloc, &respond.sections)?;
    unscheduled(alloc, scenario)?;
    in_seconds(alloc, scenario, respond.period)?;
    in_a_day(alloc, scenario)?;
    Ok(())
}

/// Refuses what doesn't fit together in the lists of a field file, whose names are without fault: a repeated detector,
/// a pulse of none, and rules that don't fit one another or the scenario, in this order.
#[tactic(auto, using(scenario_read::proofs::Refusing::refuses_more))]
pub fn lists_fit(alloc: Global, field: &Field) -> Result<(), ReadFail>
    requires bank { BankPlaced field.now.bank.items }
    requires pulses { PulsesPlaced field.now.pulses.items }
    ensures { Answers result (across_faults (field_content field.now)) (λ _. Unit {0}) }
{
    let marks = marked(alloc, &field.bank)?;
    pulses_known(alloc, &marks, &field.bank, &field.pulses)?;
    match &field.respond {
        None => Ok(()),
        Some(respond) => rules_fit(alloc, &field.scenario, respond),
    }
}
