//! The bank of a field file: its detectors, each of a cabinet, and the phases that they call.

ghost use Rattle.std.specs.Prelude.{◌≡◌, codes};
ghost use Rattle.serde_json.specs.View.{view, items_view};
ghost use Rattle.scenario_read.specs.Paths.{then_named};
ghost use Rattle.scenario_read.specs.Kinds.{each};
ghost use Rattle.scenario_read.specs.Fields.{field_faults, object_of};
ghost use Rattle.scenario_read.specs.Content.{each_of};
ghost use Rattle.scenario_read.specs.Readers.{Answers};
ghost use Rattle.field_read.specs.Table.{detector_shape, bank};
ghost use Rattle.field_read.specs.Content.{detector_of, bank_of};
ghost use Rattle.field_read.specs.Places.{steps_of};

use crate::members::{known_names, whole_at};
use crate::place::{Place, refuse_member};
use detector_bank::Detector;
use scenario_data::ReadFail;
use scenario_read::list_of;
use serde_json::Value;
use std::alloc::Global;

/// The detector that an object says, at its place from 0 in the bank of a scenario with this number of cabinets;
/// refused at its first fault.
pub fn detector_in(
    alloc: Global,
    object: &Value,
    place: usize,
    cabinets: u32,
) -> Result<Detector, ReadFail>
    ensures { Answers result (object_of (detector_shape cabinets) (steps_of (Place.Detector place)) (view object.now)) (λ d. d ≡ detector_of cabinets (view object.now)) }
{
    let place = Place::Detector(place);
    known_names(
        alloc,
        object,
        place,
        &[
            "cabinet",
            "detector",
            "phase",
            "delay",
            "extend",
            "no_activity",
            "max_presence",
            "erratic",
        ],
    )?;
    let cabinet = whole_at(alloc, object, place, "cabinet", 1, cabinets)?;
    let detector = whole_at(alloc, object, place, "detector", 1, 64)?;
    let phase = whole_at(alloc, object, place, "phase", 1, 16)?;
    let delay = whole_at(alloc, object, place, "delay", 0, 255)?;
    let extend = whole_at(alloc, object, place, "extend", 0, 255)?;
    let no_activity = whole_at(alloc, object, place, "no_activity", 0, 65_535)?;
    let max_presence = whole_at(alloc, object, place, "max_presence", 0, 65_535)?;
    let erratic = whole_at(alloc, object, place, "erratic", 0, 255)?;
    Ok(Detector {
        cabinet,
        detector: detector as u8,
        phase: phase as u8,
        delay: delay as u8,
        extend: extend as u8,
        no_activity: no_activity as u16,
        max_presence: max_presence as u16,
        erratic: erratic as u8,
    })
}

/// The detectors of a list, in order.
fn detectors_in(alloc: Global, items: &Vec<Value>, cabinets: u32) -> Result<Vec<Detector>, ReadFail>
    ensures { Answers result (each (object_of (detector_shape cabinets)) (then_named (steps_of Place.Top) (codes "bank")) 0 (items_view items.now.items))
        (λ found. found.items ≡ each_of (detector_of cabinets) (items_view items.now.items)) }
{
    let mut found = Vec::new(alloc);
    for place in 0..items.len() {
        match detector_in(alloc, &items[place], place, cabinets) {
            Ok(item) => match found.push(item) {
                Ok(()) => {}
                Err(_) => return Err(ReadFail::NoMemory),
            },
            Err(fail) => return Err(fail),
        }
    }
    Ok(found)
}

/// The bank of a field file, at most 512 detectors; none where none are said.
#[tactic(auto, using(scenario_read::proofs::Refusing::refuses_more))]
pub(crate) fn bank_at(
    alloc: Global,
    object: &Value,
    cabinets: u32,
) -> Result<Vec<Detector>, ReadFail>
    ensures { Answers result (field_faults (steps_of Place.Top) (view object.now) (bank cabinets)) (λ found. found.items ≡ bank_of cabinets (view object.now)) }
{
    match object.get("bank") {
        None => Ok(Vec::new(alloc)),
        Some(value) => match list_of(value, 0, 512) {
            Ok(items) => detectors_in(alloc, items, cabinets),
            Err(unfit) => Err(refuse_member(alloc, Place::Top, "bank", unfit)),
        },
    }
}
