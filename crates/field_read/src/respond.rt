//! How the patterns of sections follow the traffic: a period, and for each section a rule of steps.

ghost use Rattle.std.specs.Prelude.{◌≡◌, codes, map, option_map};
ghost use Rattle.serde_json.specs.View.{view, items_view};
ghost use Rattle.scenario_read.specs.Paths.{then_named};
ghost use Rattle.scenario_read.specs.Kinds.{each};
ghost use Rattle.scenario_read.specs.Fields.{held, field_faults, object_of};
ghost use Rattle.scenario_read.specs.Content.{each_of, list_in};
ghost use Rattle.scenario_read.specs.Readers.{Answers};
ghost use Rattle.field_read.specs.Table.{step_shape, steps, section_shape, sections, respond_shape, respond};
ghost use Rattle.field_read.specs.Content.{rule_content, respond_content, step_of, rule_of, respond_of, respond_asked};
ghost use Rattle.field_read.specs.Places.{steps_of};

use crate::members::{known_names, whole_at};
use crate::place::{Place, refuse_member};
use responsive::{Rule, Step};
use scenario_data::ReadFail;
use scenario_read::{Unfit, list_of};
use serde_json::Value;
use std::alloc::Global;

/// The rules by which patterns follow the traffic.
#[derive(Drop)]
pub struct Respond {
    /// The number of rounds that are counted together, 1 to 3,600.
    pub period: u32,
    /// A rule for each of 1 to 8 sections.
    pub sections: Vec<Rule>,
}

/// One step of a section's rule.
fn step_in(alloc: Global, object: &Value, section: usize, step: usize) -> Result<Step, ReadFail>
    ensures { Answers result (object_of step_shape (steps_of (Place.Step section step)) (view object.now)) (λ s. s ≡ step_of (view object.now)) }
{
    let place = Place::Step { section, step };
    known_names(alloc, object, place, &["up", "down", "pattern"])?;
    let up = whole_at(alloc, object, place, "up", 1, 1_000_000)?;
    let down = whole_at(alloc, object, place, "down", 1, 1_000_000)?;
    let pattern = whole_at(alloc, object, place, "pattern", 0, 255)?;
    Ok(Step {
        up,
        down,
        pattern: pattern as u8,
    })
}

/// The steps of a list, in order.
fn steps_in(alloc: Global, items: &Vec<Value>, section: usize) -> Result<Vec<Step>, ReadFail>
    ensures { Answers result (each (object_of step_shape) (then_named (steps_of (Place.Section section)) (codes "steps")) 0 (items_view items.now.items))
        (λ found. found.items ≡ each_of step_of (items_view items.now.items)) }
{
    let mut found = Vec::new(alloc);
    for step in 0..items.len() {
        match step_in(alloc, &items[step], section, step) {
            Ok(item) => match found.push(item) {
                Ok(()) => {}
                Err(_) => return Err(ReadFail::NoMemory),
            },
            Err(fail) => return Err(fail),
        }
    }
    Ok(found)
}

/// The steps of a section's rule, at most 8.
#[tactic(auto, using(scenario_read::proofs::Refusing::refuses_more))]
fn steps_at(alloc: Global, object: &Value, section: usize) -> Result<Vec<Step>, ReadFail>
    ensures { Answers result (field_faults (steps_of (Place.Section section)) (view object.now) steps) (λ found. found.items ≡ list_in step_of (held steps (view object.now))) }
{
    let place = Place::Section(section);
    match object.get("steps") {
        None => Err(refuse_member(alloc, place, "steps", Unfit::Wrong)),
        Some(value) => match list_of(value, 0, 8) {
            Ok(items) => steps_in(alloc, items, section),
            Err(unfit) => Err(refuse_member(alloc, place, "steps", unfit)),
        },
    }
}

/// The rule of a section.
fn rule_in(alloc: Global, object: &Value, section: usize) -> Result<Rule, ReadFail>
    ensures { Answers result (object_of section_shape (steps_of (Place.Section section)) (view object.now)) (λ r. rule_content r ≡ rule_of (view object.now)) }
{
    let place = Place::Section(section);
    known_names(alloc, object, place, &["section", "base", "steps"])?;
    let number = whole_at(alloc, object, place, "section", 1, 8)?;
    let base = whole_at(alloc, object, place, "base", 0, 255)?;
    let steps = steps_at(alloc, object, section)?;
    Ok(Rule {
        section: number as u8,
        base: base as u8,
        steps,
    })
}

/// The rules of a list, in order.
fn rules_in(alloc: Global, items: &Vec<Value>) -> Result<Vec<Rule>, ReadFail>
    ensures { Answers result (each (object_of section_shape) (then_named (steps_of Place.Respond) (codes "sections")) 0 (items_view items.now.items))
        (λ found. map rule_content found.items ≡ each_of rule_of (items_view items.now.items)) }
{
    let mut found = Vec::new(alloc);
    for section in 0..items.len() {
        match rule_in(alloc, &items[section], section) {
            Ok(item) => match found.push(item) {
                Ok(()) => {}
                Err(_) => return Err(ReadFail::NoMemory),
            },
            Err(fail) => return Err(fail),
        }
    }
    Ok(found)
}

/// The rules of the sections, 1 to 8.
#[tactic(auto, using(scenario_read::proofs::Refusing::refuses_more))]
fn sections_at(alloc: Global, object: &Value) -> Result<Vec<Rule>, ReadFail>
    ensures { Answers result (field_faults (steps_of Place.Respond) (view object.now) sections) (λ found. map rule_content found.items ≡ list_in rule_of (held sections (view object.now))) }
{
    match object.get("sections") {
        None => Err(refuse_member(alloc, Place::Respond, "sections", Unfit::Wrong)),
        Some(value) => match list_of(value, 1, 8) {
            Ok(items) => rules_in(alloc, items),
            Err(unfit) => Err(refuse_member(alloc, Place::Respond, "sections", unfit)),
        },
    }
}

/// The period and the rules of the sections that an object says, refused at its first fault.
pub fn respond_in(alloc: Global, object: &Value) -> Result<Respond, ReadFail>
    ensures { Answers result (object_of respond_shape (steps_of Place.Respond) (view object.now)) (λ r. respond_content r ≡ respond_of (view object.now)) }
{
    let place = Place::Respond;
    known_names(alloc, object, place, &["period", "sections"])?;
    let period = whole_at(alloc, object, place, "period", 1, 3600)?;
    let sections = sections_at(alloc, object)?;
    Ok(Respond { period, sections })
}

/// How patterns follow the traffic; by default they don't.
pub(crate) fn respond_at(alloc: Global, object: &Value) -> Result<Option<Respond>, ReadFail>
    ensures { Answers result (field_faults (steps_of Place.Top) (view object.now) respond) (λ r. option_map respond_content r ≡ respond_asked (view object.now)) }
{
    match object.get("respond") {
        None => Ok(None),
        Some(value) => Ok(Some(respond_in(alloc, value)?)),
    }
}
