//! What vehicles with priority ask of cabinets: a request, or the cancel of one (after NTCIP 1211).

ghost use Rattle.std.specs.Prelude.{◌≡◌, codes, [], ◌∷◌};
ghost use Rattle.serde_json.specs.View.{view, items_view};
ghost use Rattle.scenario_read.specs.Paths.{then_named};
ghost use Rattle.scenario_read.specs.Kinds.{each};
ghost use Rattle.scenario_read.specs.Fields.{names, known_fields, field_faults, fields_faults, alternative_faults, object_of};
ghost use Rattle.scenario_read.specs.Table.{cancel, request_fields, priority_fields, priority_shape, departure_faults, priority_item, priority};
ghost use Rattle.scenario_read.specs.Content.{each_of, number_at, request_of, act_of, priority_of, events_at};
ghost use Rattle.scenario_read.specs.Readers.{steps_of, Answers, names_faults};

use crate::members::{known_names, whole_at};
use crate::place::{List, Place, refuse, refuse_member};
use crate::values::{Unfit, list_of};
use scenario_data::{PriorityAct, PriorityItem, ReadFail};
use serde_json::Value;
use sig_types::Request;
use std::alloc::Global;

/// Refuses what is not an object, and the least name that an item does not have: where a request or a cancel is the
/// only one, the names of the other are not known.
fn known_in_item(
    alloc: Global,
    object: &Value,
    place: Place,
    rounds: u32,
    cabinets: u32,
) -> Result<(), ReadFail>
    ensures { Answers result (names_faults (names (known_fields (priority_shape rounds cabinets) (view object.now))) (steps_of place) (view object.now)) (λ _. Unit {0}) }
{
    match (
        object.get("cancel").is_some(),
        object.get("number").is_some(),
    ) {
        (true, false) => known_names(alloc, object, place, &["round", "cabinet", "cancel"]),
        (false, true) => known_names(
            alloc,
            object,
            place,
            &[
                "round",
                "cabinet",
                "number",
                "class",
                "level",
                "phase",
                "arrival",
                "departure",
            ],
        ),
        _ => known_names(
            alloc,
            object,
            place,
            &[
                "round",
                "cabinet",
                "cancel",
                "number",
                "class",
                "level",
                "phase",
                "arrival",
                "departure",
            ],
        ),
    }
}

/// A request, whatever its times are to each other.
fn request_in(alloc: Global, object: &Value, place: Place) -> Result<Request, ReadFail>
    ensures { Answers result (fields_faults (steps_of place) (view object.now) request_fields) (λ request. request ≡ request_of (view object.now)) }
{
    let number = whole_at(alloc, object, place, "number", 1, 10)?;
    let class = whole_at(alloc, object, place, "class", 1, 10)?;
    let level = whole_at(alloc, object, place, "level", 1, 10)?;
    let phase = whole_at(alloc, object, place, "phase", 1, 16)?;
    let arrival = whole_at(alloc, object, place, "arrival", 0, 65_535)?;
    let departure = whole_at(alloc, object, place, "departure", 0, 65_535)?;
    Ok(Request {
        number: number as u8,
        class: class as u8,
        level: level as u8,
        phase: phase as u8,
        arrival: arrival as u16,
        departure: departure as u16,
    })
}

/// The cancel of a request.
fn cancel_in(alloc: Global, object: &Value, place: Place) -> Result<u8, ReadFail>
    ensures { Answers result (fields_faults (steps_of place) (view object.now) (cancel ∷ [])) (λ number. number ≡ number_at cancel (view object.now)) }
{
    let number = whole_at(alloc, object, place, "cancel", 1, 10)?;
    Ok(number as u8)
}

/// The request or the cancel of an item.
fn act_in(alloc: Global, object: &Value, place: Place) -> Result<PriorityAct, ReadFail>
    ensures { Answers result (alternative_faults (steps_of place) (view object.now) priority_fields) (λ act. act ≡ act_of (view object.now)) }
{
    match (
        object.get("cancel").is_some(),
        object.get("number").is_some(),
    ) {
        (true, false) => Ok(PriorityAct::Cancel(cancel_in(alloc, object, place)?)),
        (false, true) => Ok(PriorityAct::Request(request_in(alloc, object, place)?)),
        _ => Err(refuse(alloc, place, Unfit::Wrong)),
    }
}

/// An item, whatever the times of its request are to each other.
fn untimed_in(
    alloc: Global,
    object: &Value,
    place: Place,
    rounds: u32,
    cabinets: u32,
) -> Result<PriorityItem, ReadFail>
    ensures { Answers result (object_of (priority_shape rounds cabinets) (steps_of place) (view object.now)) (λ item. item ≡ priority_of rounds cabinets (view object.now)) }
{
    known_in_item(alloc, object, place, rounds, cabinets)?;
    let round = whole_at(alloc, object, place, "round", 1, rounds)?;
    let cabinet = whole_at(alloc, object, place, "cabinet", 1, cabinets)?;
    let act = act_in(alloc, object, place)?;
    Ok(PriorityItem {
        round,
        cabinet,
        act,
    })
}

/// Refuses a request that arrives after it departs.
fn timed(alloc: Global, place: Place, act: PriorityAct) -> Result<(), ReadFail>
    ensures { Answers result (departure_faults (steps_of place) act) (λ _. Unit {0}) }
{
    match act {
        PriorityAct::Request(request) => if request.arrival <= request.departure {
            Ok(())
        } else {
            Err(refuse_member(alloc, place, "departure", Unfit::Beyond))
        },
        PriorityAct::Cancel(_) => Ok(()),
    }
}

/// What is asked in one item of a scenario with this number of rounds and cabinets.
pub fn priority_in(
    alloc: Global,
    object: &Value,
    item: usize,
    rounds: u32,
    cabinets: u32,
) -> Result<PriorityItem, ReadFail>
    ensures { Answers result (priority_item rounds cabinets (steps_of (Place.Listed List.Priority item)) (view object.now)) (λ p. p ≡ priority_of rounds cabinets (view object.now)) }
{
    let place = Place::Listed {
        list: List::Priority,
        place: item,
    };
    let found = untimed_in(alloc, object, place, rounds, cabinets)?;
    timed(alloc, place, found.act)?;
    Ok(found)
}

/// What is asked in the items of a list, in order.
fn items_in(
    alloc: Global,
    items: &Vec<Value>,
    rounds: u32,
    cabinets: u32,
) -> Result<Vec<PriorityItem>, ReadFail>
    ensures { Answers result (each (priority_item rounds cabinets) (then_named (steps_of Place.Top) (codes "priority")) 0 (items_view items.now.items))
        (λ found. found.items ≡ each_of (priority_of rounds cabinets) (items_view items.now.items)) }
{
    let mut found = Vec::new(alloc);
    for place in 0..items.len() {
        match priority_in(alloc, &items[place], place, rounds, cabinets) {
            Ok(item) => match found.push(item) {
                Ok(()) => {}
                Err(_) => return Err(ReadFail::NoMemory),
            },
            Err(fail) => return Err(fail),
        }
    }
    Ok(found)
}

/// What is asked in a scenario with that many rounds and cabinets; nothing by default.
#[tactic(auto, using(crate::proofs::Refusing::refuses_more))]
pub(crate) fn priority_at(
    alloc: Global,
    object: &Value,
    rounds: u32,
    cabinets: u32,
) -> Result<Vec<PriorityItem>, ReadFail>
    ensures { Answers result (field_faults (steps_of Place.Top) (view object.now) (priority rounds cabinets))
        (λ found. found.items ≡ events_at priority priority_of rounds cabinets (view object.now)) }
{
    match object.get("priority") {
        None => Ok(Vec::new(alloc)),
        Some(value) => match list_of(value, 0, 100_000) {
            Ok(items) => items_in(alloc, items, rounds, cabinets),
            Err(unfit) => Err(refuse_member(alloc, Place::Top, "priority", unfit)),
        },
    }
}
