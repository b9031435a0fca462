//! The pulses of a field file: each puts a detector on or off in a round.

ghost use Rattle.std.specs.Prelude.{◌≡◌, codes};
ghost use Rattle.serde_json.specs.View.{view, items_view};
ghost use Rattle.scenario_read.specs.Paths.{then_named};
ghost use Rattle.scenario_read.specs.Kinds.{each};
ghost use Rattle.scenario_read.specs.Fields.{field_faults, object_of};
ghost use Rattle.scenario_read.specs.Content.{each_of};
ghost use Rattle.scenario_read.specs.Readers.{Answers};
ghost use Rattle.field_read.specs.Table.{pulse_shape, pulses};
ghost use Rattle.field_read.specs.Content.{pulse_of, pulses_of};
ghost use Rattle.field_read.specs.Places.{steps_of};

use crate::members::{flag_at, known_names, whole_at};
use crate::place::{Place, refuse_member};
use detector_bank::Pulse;
use scenario_data::ReadFail;
use scenario_read::list_of;
use serde_json::Value;
use std::alloc::Global;

/// The pulse that an object says, at its place from 0 among the pulses, in a scenario with this number of rounds and
/// cabinets; refused at its first fault.
pub fn pulse_in(
    alloc: Global,
    object: &Value,
    place: usize,
    rounds: u32,
    cabinets: u32,
) -> Result<Pulse, ReadFail>
    ensures { Answers result (object_of (pulse_shape rounds cabinets) (steps_of (Place.Pulse place)) (view object.now)) (λ p. p ≡ pulse_of rounds cabinets (view object.now)) }
{
    let place = Place::Pulse(place);
    known_names(
        alloc,
        object,
        place,
        &["round", "cabinet", "detector", "on"],
    )?;
    let round = whole_at(alloc, object, place, "round", 1, rounds)?;
    let cabinet = whole_at(alloc, object, place, "cabinet", 1, cabinets)?;
    let detector = whole_at(alloc, object, place, "detector", 1, 64)?;
    let on = flag_at(alloc, object, place, "on")?;
    Ok(Pulse {
        round,
        cabinet,
        detector: detector as u8,
        on,
    })
}

/// The pulses of a list, in order.
fn pulses_in(
    alloc: Global,
    items: &Vec<Value>,
    rounds: u32,
    cabinets: u32,
) -> Result<Vec<Pulse>, ReadFail>
    ensures { Answers result (each (object_of (pulse_shape rounds cabinets)) (then_named (steps_of Place.Top) (codes "pulses")) 0 (items_view items.now.items))
        (λ found. found.items ≡ each_of (pulse_of rounds cabinets) (items_view items.now.items)) }
{
    let mut found = Vec::new(alloc);
    for place in 0..items.len() {
        match pulse_in(alloc, &items[place], place, rounds, cabinets) {
            Ok(item) => match found.push(item) {
                Ok(()) => {}
                Err(_) => return Err(ReadFail::NoMemory),
            },
            Err(fail) => return Err(fail),
        }
    }
    Ok(found)
}

/// The pulses of a field file, at most 1,000,000; none where none are said.
#[tactic(auto, using(scenario_read::proofs::Refusing::refuses_more))]
pub(crate) fn pulses_at(
    alloc: Global,
    object: &Value,
    rounds: u32,
    cabinets: u32,
) -> Result<Vec<Pulse>, ReadFail>
    ensures { Answers result (field_faults (steps_of Place.Top) (view object.now) (pulses rounds cabinets)) (λ found. found.items ≡ pulses_of rounds cabinets (view object.now)) }
{
    match object.get("pulses") {
        None => Ok(Vec::new(alloc)),
        Some(value) => match list_of(value, 0, 1_000_000) {
            Ok(items) => pulses_in(alloc, items, rounds, cabinets),
            Err(unfit) => Err(refuse_member(alloc, Place::Top, "pulses", unfit)),
        },
    }
}
