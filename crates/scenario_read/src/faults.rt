//! The faults of the link: each meets a frame of a stream, in a round, on its way to a cabinet or from it.

ghost use Rattle.std.specs.Prelude.{◌≡◌, codes};
ghost use Rattle.serde_json.specs.View.{view, items_view};
ghost use Rattle.scenario_read.specs.Paths.{then_named};
ghost use Rattle.scenario_read.specs.Kinds.{each};
ghost use Rattle.scenario_read.specs.Fields.{held, field_faults, object_of};
ghost use Rattle.scenario_read.specs.Table.{fault_shape, link_faults};
ghost use Rattle.scenario_read.specs.Content.{each_of, fault_of, events_at};
ghost use Rattle.scenario_read.specs.Readers.{steps_of, Answers};

use crate::members::{kind_at, known_names, stream_at, way_at, whole_at, whole_or_at};
use crate::place::{List, Place, refuse_member};
use crate::values::list_of;
use scenario_data::{Fault, ReadFail};
use serde_json::Value;
use std::alloc::Global;

/// One fault of a scenario with this number of rounds and cabinets.
pub fn fault_in(
    alloc: Global,
    object: &Value,
    fault: usize,
    rounds: u32,
    cabinets: u32,
) -> Result<Fault, ReadFail>
    ensures { Answers result (object_of (fault_shape rounds cabinets) (steps_of (Place.Listed List.Faults fault)) (view object.now)) (λ f. f ≡ fault_of rounds cabinets (view object.now)) }
{
    let place = Place::Listed {
        list: List::Faults,
        place: fault,
    };
    known_names(
        alloc,
        object,
        place,
        &[
            "round", "cabinet", "stream", "way", "index", "kind", "by", "octet",
        ],
    )?;
    let round = whole_at(alloc, object, place, "round", 1, rounds)?;
    let cabinet = whole_at(alloc, object, place, "cabinet", 1, cabinets)?;
    let stream = stream_at(alloc, object, place)?;
    let way = way_at(alloc, object, place)?;
    let index = whole_or_at(alloc, object, place, "index", 0, 65_535, 0)?;
    let kind = kind_at(alloc, object, place)?;
    let by = whole_or_at(alloc, object, place, "by", 0, 86_400, 1)?;
    let octet = whole_or_at(alloc, object, place, "octet", 1, 255, 1)?;
    Ok(Fault {
        round,
        cabinet,
        stream,
        way,
        index,
        kind,
        by,
        octet: octet as u8,
    })
}

/// The faults of a list, in order.
fn faults_in(
    alloc: Global,
    items: &Vec<Value>,
    rounds: u32,
    cabinets: u32,
) -> Result<Vec<Fault>, ReadFail>
    ensures { Answers result (each (object_of (fault_shape rounds cabinets)) (then_named (steps_of Place.Top) (codes "faults")) 0 (items_view items.now.items))
        (λ found. found.items ≡ each_of (fault_of rounds cabinets) (items_view items.now.items)) }
{
    let mut found = Vec::new(alloc);
    for place in 0..items.len() {
        match fault_in(alloc, &items[place], place, rounds, cabinets) {
            Ok(item) => match found.push(item) {
                Ok(()) => {}
                Err(_) => return Err(ReadFail::NoMemory),
            },
            Err(fail) => return Err(fail),
        }
    }
    Ok(found)
}

/// The faults of the link of a scenario with this number of rounds and cabinets; none where none are said.
#[tactic(auto, using(crate::proofs::Refusing::refuses_more))]
pub(crate) fn faults_at(
    alloc: Global,
    object: &Value,
    rounds: u32,
    cabinets: u32,
) -> Result<Vec<Fault>, ReadFail>
    ensures { Answers result (field_faults (steps_of Place.Top) (view object.now) (link_faults rounds cabinets))
        (λ found. found.items ≡ events_at link_faults fault_of rounds cabinets (view object.now)) }
{
    match object.get("faults") {
        None => Ok(Vec::new(alloc)),
        Some(value) => match list_of(value, 0, 100_000) {
            Ok(items) => faults_in(alloc, items, rounds, cabinets),
            Err(unfit) => Err(refuse_member(alloc, Place::Top, "faults", unfit)),
        },
    }
}
