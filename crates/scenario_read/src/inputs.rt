//! The inputs from the street: each goes to a cabinet in a round, and is a vehicle detector, a push button or a preempt
//! input.

ghost use Rattle.std.specs.Prelude.{◌≡◌, codes, [], ◌∷◌};
ghost use Rattle.serde_json.specs.View.{view, items_view};
ghost use Rattle.scenario_read.specs.Paths.{then_named};
ghost use Rattle.scenario_read.specs.Kinds.{each};
ghost use Rattle.scenario_read.specs.Fields.{held, names, known_fields, field_faults, fields_faults, alternative_faults, object_of};
ghost use Rattle.scenario_read.specs.Table.{veh, on, ped, preempt, input_fields, input_shape, inputs};
ghost use Rattle.scenario_read.specs.Content.{each_of, number_at, flag_of, field_of, input_of, events_at};
ghost use Rattle.scenario_read.specs.Readers.{steps_of, Answers, names_faults};

use crate::members::{flag_at, known_names, whole_at};
use crate::place::{List, Place, refuse, refuse_member};
use crate::values::{Unfit, list_of};
use scenario_data::{Input, ReadFail};
use serde_json::Value;
use sig_types::Field;
use std::alloc::Global;

/// Refuses what is not an object, and the least name that an input does not have: where a detector, a button or a
/// preempt input is the only one, the names of the others are not known.
fn known_in_input(
    alloc: Global,
    object: &Value,
    place: Place,
    rounds: u32,
    cabinets: u32,
) -> Result<(), ReadFail>
    ensures { Answers result (names_faults (names (known_fields (input_shape rounds cabinets) (view object.now))) (steps_of place) (view object.now)) (λ _. Unit {0}) }
{
    match (
        object.get("veh").is_some(),
        object.get("ped").is_some(),
        object.get("preempt").is_some(),
    ) {
        (true, false, false) => {
            known_names(alloc, object, place, &["round", "cabinet", "veh", "on"])
        }
        (false, true, false) => known_names(alloc, object, place, &["round", "cabinet", "ped"]),
        (false, false, true) => known_names(
            alloc,
            object,
            place,
            &["round", "cabinet", "preempt", "on"],
        ),
        _ => known_names(
            alloc,
            object,
            place,
            &["round", "cabinet", "veh", "on", "ped", "preempt", "on"],
        ),
    }
}

/// A vehicle detector that turns on or off.
fn detector_in(alloc: Global, object: &Value, place: Place) -> Result<Field, ReadFail>
    ensures { Answers result (fields_faults (steps_of place) (view object.now) (veh ∷ on ∷ []))
        (λ field. field ≡ Field.Veh (number_at veh (view object.now)) (flag_of (held on (view object.now)))) }
{
    let phase = whole_at(alloc, object, place, "veh", 1, 16)?;
    let on = flag_at(alloc, object, place, "on")?;
    Ok(Field::Veh {
        phase: phase as u8,
        on,
    })
}

/// A push button that is pressed.
fn button_in(alloc: Global, object: &Value, place: Place) -> Result<Field, ReadFail>
    ensures { Answers result (fields_faults (steps_of place) (view object.now) (ped ∷ []))
        (λ field. field ≡ Field.Ped (number_at ped (view object.now))) }
{
    let phase = whole_at(alloc, object, place, "ped", 1, 16)?;
    Ok(Field::Ped { phase: phase as u8 })
}

/// A preempt input that turns on or off.
fn preempt_in(alloc: Global, object: &Value, place: Place) -> Result<Field, ReadFail>
    ensures { Answers result (fields_faults (steps_of place) (view object.now) (preempt ∷ on ∷ []))
        (λ field. field ≡ Field.Preempt (number_at preempt (view object.now)) (flag_of (held on (view object.now)))) }
{
    let number = whole_at(alloc, object, place, "preempt", 1, 8)?;
    let on = flag_at(alloc, object, place, "on")?;
    Ok(Field::Preempt {
        number: number as u8,
        on,
    })
}

/// The detector, the push button or the preempt input of an input.
fn field_in(alloc: Global, object: &Value, place: Place) -> Result<Field, ReadFail>
    ensures { Answers result (alternative_faults (steps_of place) (view object.now) input_fields) (λ field. field ≡ field_of (view object.now)) }
{
    match (
        object.get("veh").is_some(),
        object.get("ped").is_some(),
        object.get("preempt").is_some(),
    ) {
        (true, false, false) => detector_in(alloc, object, place),
        (false, true, false) => button_in(alloc, object, place),
        (false, false, true) => preempt_in(alloc, object, place),
        _ => Err(refuse(alloc, place, Unfit::Wrong)),
    }
}

/// One input of a scenario with this number of rounds and cabinets.
pub fn input_in(
    alloc: Global,
    object: &Value,
    input: usize,
    rounds: u32,
    cabinets: u32,
) -> Result<Input, ReadFail>
    ensures { Answers result (object_of (input_shape rounds cabinets) (steps_of (Place.Listed List.Inputs input)) (view object.now)) (λ i. i ≡ input_of rounds cabinets (view object.now)) }
{
    let place = Place::Listed {
        list: List::Inputs,
        place: input,
    };
    known_in_input(alloc, object, place, rounds, cabinets)?;
    let round = whole_at(alloc, object, place, "round", 1, rounds)?;
    let cabinet = whole_at(alloc, object, place, "cabinet", 1, cabinets)?;
    let field = field_in(alloc, object, place)?;
    Ok(Input {
        round,
        cabinet,
        field,
    })
}

/// The inputs of a list, in order.
fn inputs_in(
    alloc: Global,
    items: &Vec<Value>,
    rounds: u32,
    cabinets: u32,
) -> Result<Vec<Input>, ReadFail>
    ensures { Answers result (each (object_of (input_shape rounds cabinets)) (then_named (steps_of Place.Top) (codes "inputs")) 0 (items_view items.now.items))
        (λ found. found.items ≡ each_of (input_of rounds cabinets) (items_view items.now.items)) }
{
    let mut found = Vec::new(alloc);
    for place in 0..items.len() {
        match input_in(alloc, &items[place], place, rounds, cabinets) {
            Ok(input) => match found.push(input) {
                Ok(()) => {}
                Err(_) => return Err(ReadFail::NoMemory),
            },
            Err(fail) => return Err(fail),
        }
    }
    Ok(found)
}

/// The inputs of a scenario with this number of rounds and cabinets; none where none are said.
#[tactic(auto, using(crate::proofs::Refusing::refuses_more))]
pub(crate) fn inputs_at(
    alloc: Global,
    object: &Value,
    rounds: u32,
    cabinets: u32,
) -> Result<Vec<Input>, ReadFail>
    ensures { Answers result (field_faults (steps_of Place.Top) (view object.now) (inputs rounds cabinets))
        (λ found. found.items ≡ events_at inputs input_of rounds cabinets (view object.now)) }
{
    match object.get("inputs") {
        None => Ok(Vec::new(alloc)),
        Some(value) => match list_of(value, 0, 1_000_000) {
            Ok(items) => inputs_in(alloc, items, rounds, cabinets),
            Err(unfit) => Err(refuse_member(alloc, Place::Top, "inputs", unfit)),
        },
    }
}
