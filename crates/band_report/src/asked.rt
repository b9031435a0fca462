//! What an object asks of bands, refused at its first fault.

ghost use Rattle.std.specs.Prelude.{◌≡◌, ◌≤◌, codes, length, [], ◌∷◌, None, Some, IfOk};
ghost use Rattle.serde_json.specs.View.{view, items_view};
ghost use Rattle.scenario_data.specs.Content.{scenario_content};
ghost use Rattle.scenario_read.specs.Paths.{Named, then_named, then_item};
ghost use Rattle.scenario_read.specs.Kinds.{each, whole, fault_at};
ghost use Rattle.scenario_read.specs.Fields.{names, field_faults, fields_faults, object_of};
ghost use Rattle.scenario_read.specs.Content.{whole_of, each_of};
ghost use Rattle.scenario_read.specs.Readers.{Answers, Refuses, fit_of, names_faults, refusal_at, steps_of};
ghost use Rattle.scenario_checked.specs.Inside.{scenario};
ghost use Rattle.band_report.specs.Street.{misfit_of};
ghost use Rattle.band_report.specs.Asked.{travel, asked_shape, cabinets_asked, travel_asked, misfit_causes, band_faults};
ghost use Rattle.band_report.specs.Parts.{beside_fields, SaysBeside};
ghost use Rattle.band_report.specs.BandAnswer.{Says};

use crate::{Misfit, misfit_of};
use scenario_checked::inner_fail;
use scenario_data::{ReadFail, Refusal, Scenario};
use scenario_read::{
    Place, Unfit, checked_parts, items_of, known_names, refuse_member, scenario_from, whole_at,
    whole_of,
};
use serde_json::Value;
use std::alloc::Global;

/// What an object asks: the bands of a section of a scenario in a pattern, with the travel times from each of its cabinets to
/// the next, in ticks.
#[derive(Drop)]
pub struct Asked {
    pub scenario: Scenario,
    pub section: u8,
    pub pattern: u8,
    pub travel: Vec<u32>,
}

/// The scenario of an object. Its compact text is left out.
fn scenario_at(alloc: Global, object: &Value) -> Result<Scenario, ReadFail>
    ensures read { Answers result (field_faults (steps_of Place.Top) (view object.now) scenario) (λ s. (scenario_content s).cabinets ≡ cabinets_asked (view object.now)) }
    ensures few { IfOk result (λ s. length s.cabinets.items ≤ 64) }
{
    match object.get("scenario") {
        None => Err(refuse_member(alloc, Place::Top, "scenario", Unfit::Wrong)),
        Some(value) => match checked_parts(alloc, value) {
            Ok(parts) => Ok(scenario_from(parts, Vec::new(alloc))),
            Err(fail) => Err(inner_fail(alloc, fail)),
        },
    }
}

/// The refusal that names a path.
fn named(path: String, unfit: Unfit) -> ReadFail
    ensures { result ≡ ReadFail.Refused (refusal_at path unfit) }
{
    match unfit {
        Unfit::Wrong => ReadFail::Refused(Refusal::Field(path)),
        Unfit::Beyond => ReadFail::Refused(Refusal::Limit(path)),
    }
}

/// The refusal of a travel time, of which the first is at place 0.
fn refuse_leg(alloc: Global, leg: usize, unfit: Unfit) -> ReadFail
    ensures { Refuses result (fault_at (then_item (Named (codes "travel") ∷ []) leg) (fit_of unfit)) }
{
    match format!(in alloc; "travel[{leg}]") {
        Ok(path) => named(path, unfit),
        Err(_) => ReadFail::NoMemory,
    }
}

/// A travel time of 0 to 864,000 ticks.
pub(crate) fn leg_in(alloc: Global, value: &Value, leg: usize) -> Result<u32, ReadFail>
    ensures { Answers result (whole 0 864000 (then_item (then_named (steps_of Place.Top) (codes "travel")) leg) (view value.now)) (λ ticks. ticks ≡ whole_of (view value.now)) }
{
    match whole_of(value, 0, 864_000) {
        Ok(ticks) => Ok(ticks),
        Err(unfit) => Err(refuse_leg(alloc, leg, unfit)),
    }
}

/// The travel times of a list, in order.
fn legs_in(alloc: Global, items: &Vec<Value>) -> Result<Vec<u32>, ReadFail>
    ensures { Answers result (each (whole 0 864000) (then_named (steps_of Place.Top) (codes "travel")) 0 (items_view items.now.items))
        (λ found. found.items ≡ each_of whole_of (items_view items.now.items)) }
{
    let mut found = Vec::new(alloc);
    for place in 0..items.len() {
        match leg_in(alloc, &items[place], place) {
            Ok(ticks) => match found.push(ticks) {
                Ok(()) => {}
                Err(_) => return Err(ReadFail::NoMemory),
            },
            Err(fail) => return Err(fail),
        }
    }
    Ok(found)
}

/// The travel times of an object.
#[tactic(auto, using(scenario_read::proofs::Refusing::refuses_more))]
fn travel_at(alloc: Global, object: &Value) -> Result<Vec<u32>, ReadFail>
    ensures { Answers result (field_faults (steps_of Place.Top) (view object.now) travel) (λ found. found.items ≡ travel_asked (view object.now)) }
{
    match object.get("travel") {
        None => Err(refuse_member(alloc, Place::Top, "travel", Unfit::Wrong)),
        Some(value) => match items_of(value) {
            Ok(items) => legs_in(alloc, items),
            Err(unfit) => Err(refuse_member(alloc, Place::Top, "travel", unfit)),
        },
    }
}

/// What is next to the scenario.
#[derive(Drop)]
pub(crate) struct Beside {
    pub section: u8,
    pub pattern: u8,
    pub travel: Vec<u32>,
}

/// What the names in addition to the scenario's say.
pub(crate) fn beside_in(alloc: Global, object: &Value) -> Result<Beside, ReadFail>
    ensures { Answers result (fields_faults (steps_of Place.Top) (view object.now) beside_fields) (λ beside. SaysBeside beside (view object.now)) }
{
    let section = whole_at(alloc, object, Place::Top, "section", 1, 8)?;
    let pattern = whole_at(alloc, object, Place::Top, "pattern", 1, 48)?;
    let travel = travel_at(alloc, object)?;
    Ok(Beside {
        section: section as u8,
        pattern: pattern as u8,
        travel,
    })
}

/// Refuses what is not an object, and the least name, by bytes, that may not be there.
pub(crate) fn names_known(alloc: Global, object: &Value) -> Result<(), ReadFail>
    ensures { Answers result (names_faults (names asked_shape.fields) (steps_of Place.Top) (view object.now)) (λ _. Unit {0}) }
{
    known_names(
        alloc,
        object,
        Place::Top,
        &["scenario", "section", "pattern", "travel"],
    )
}

/// What the names of an object say, refused at the first fault of a name or a value.
fn named_in(alloc: Global, value: &Value) -> Result<Asked, ReadFail>
    ensures read { Answers result (object_of asked_shape (steps_of Place.Top) (view value.now)) (λ a. Says a (view value.now)) }
    ensures few { IfOk result (λ a. length a.scenario.cabinets.items ≤ 64) }
{
    names_known(alloc, value)?;
    let scenario = match scenario_at(alloc, value) {
        Ok(scenario) => scenario,
        Err(fail) => return Err(fail),
    };
    match beside_in(alloc, value) {
        Ok(
            Beside {
                section,
                pattern,
                travel,
            },
        ) => Ok(Asked {
            scenario,
            section,
            pattern,
            travel,
        }),
        Err(fail) => Err(fail),
    }
}

/// The refusal of what prevents any band.
fn refuse_misfit(alloc: Global, misfit: Misfit) -> ReadFail
    ensures { Refuses result (misfit_causes (Some misfit)) }
{
    match misfit {
        Misfit::NoCabinet => refuse_member(alloc, Place::Top, "section", Unfit::Beyond),
        Misfit::Undefined => refuse_member(alloc, Place::Top, "pattern", Unfit::Beyond),
        Misfit::Cycles => refuse_member(alloc, Place::Top, "pattern", Unfit::Wrong),
        Misfit::Legs => refuse_member(alloc, Place::Top, "travel", Unfit::Beyond),
    }
}

/// Refuses what prevents any band.
pub(crate) fn fitting(alloc: Global, asked: &Asked) -> Result<(), ReadFail>
    requires few { length asked.now.scenario.cabinets.items ≤ 64 }
    ensures { Answers result (misfit_causes (misfit_of (scenario_content asked.now.scenario).cabinets asked.now.section asked.now.pattern (length asked.now.travel.items)))
        (λ _. misfit_of (scenario_content asked.now.scenario).cabinets asked.now.section asked.now.pattern (length asked.now.travel.items) ≡ None) }
{
    match misfit_of(
        alloc,
        &asked.scenario,
        asked.section,
        asked.pattern,
        asked.travel.len(),
    ) {
        Ok(None) => Ok(()),
        Ok(Some(misfit)) => Err(refuse_misfit(alloc, misfit)),
        Err(_) => Err(ReadFail::NoMemory),
    }
}

/// What an object asks, refused at its first fault.
#[tactic(auto, using(scenario_read::proofs::Refusing::refuses_more))]
pub(crate) fn asked_in(alloc: Global, value: &Value) -> Result<Asked, ReadFail>
    ensures read { Answers result (band_faults (view value.now)) (λ a. Says a (view value.now)) }
    ensures few { IfOk result (λ a. length a.scenario.cabinets.items ≤ 64) }
    ensures fits { IfOk result (λ a. misfit_of (scenario_content a.scenario).cabinets a.section a.pattern (length a.travel.items) ≡ None) }
{
    let asked = named_in(alloc, value)?;
    fitting(alloc, &asked)?;
    Ok(asked)
}
