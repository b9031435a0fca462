//! The frames that reach cabinets as they are: each on a stream, in a round, as its octets.

ghost use Rattle.std.specs.Prelude.{◌≡◌, ◌≤◌, map, codes, length};
ghost use Rattle.serde_json.specs.View.{view, items_view};
ghost use Rattle.scenario_data.specs.Content.{frame_content};
ghost use Rattle.scenario_read.specs.Paths.{then_named};
ghost use Rattle.scenario_read.specs.Kinds.{each};
ghost use Rattle.scenario_read.specs.Fields.{held, field_faults, object_of};
ghost use Rattle.scenario_read.specs.Table.{frame_hex, frame_shape, frames};
ghost use Rattle.scenario_read.specs.CellLists.{octets_of};
ghost use Rattle.scenario_read.specs.Content.{each_of, frame_of, events_at};
ghost use Rattle.scenario_read.specs.Readers.{steps_of, Answers};

use crate::members::{known_names, stream_at, whole_at};
use crate::place::{List, Place, refuse_member};
use crate::values::{Unfit, list_of};
use hex::FromHexError;
use scenario_data::{FrameItem, FrameOctets, ReadFail};
use serde_json::Value;
use std::alloc::Global;

/// The octets of a frame, at most 1,472.
fn octets_at(alloc: Global, object: &Value, place: Place) -> Result<FrameOctets, ReadFail>
    ensures { Answers result (field_faults (steps_of place) (view object.now) frame_hex) (λ octets. octets ≡ octets_of (held frame_hex (view object.now))) }
{
    let Some(Value::String(text)) = object.get("hex") else {
        return Err(refuse_member(alloc, place, "hex", Unfit::Wrong));
    };
    match hex::decode(alloc, text.as_str()) {
        Ok(octets) => if octets.len() <= 1472 {
            Ok(FrameOctets::new(octets))
        } else {
            Err(refuse_member(alloc, place, "hex", Unfit::Beyond))
        },
        Err(FromHexError::OutOfMemory) => Err(ReadFail::NoMemory),
        Err(_) => Err(refuse_member(alloc, place, "hex", Unfit::Wrong)),
    }
}

/// One frame of a scenario with this number of rounds and cabinets.
pub fn frame_in(
    alloc: Global,
    object: &Value,
    frame: usize,
    rounds: u32,
    cabinets: u32,
) -> Result<FrameItem, ReadFail>
    ensures { Answers result (object_of (frame_shape rounds cabinets) (steps_of (Place.Listed List.Frames frame)) (view object.now)) (λ f. frame_content f ≡ frame_of rounds cabinets (view object.now)) }
{
    let place = Place::Listed {
        list: List::Frames,
        place: frame,
    };
    known_names(alloc, object, place, &["round", "cabinet", "stream", "hex"])?;
    let round = whole_at(alloc, object, place, "round", 1, rounds)?;
    let cabinet = match whole_at(alloc, object, place, "cabinet", 1, cabinets) {
        Ok(cabinet) => cabinet,
        Err(fail) => return Err(fail),
    };
    let stream = stream_at(alloc, object, place)?;
    let hex = octets_at(alloc, object, place)?;
    Ok(FrameItem {
        round,
        cabinet,
        stream,
        hex,
    })
}

/// The frames of a list, in order.
fn frames_in(
    alloc: Global,
    items: &Vec<Value>,
    rounds: u32,
    cabinets: u32,
) -> Result<Vec<FrameItem>, ReadFail>
    ensures { Answers result (each (object_of (frame_shape rounds cabinets)) (then_named (steps_of Place.Top) (codes "frames")) 0 (items_view items.now.items))
        (λ found. map frame_content found.items ≡ each_of (frame_of rounds cabinets) (items_view items.now.items)) }
{
    let mut found = Vec::new(alloc);
    for place in 0..items.len() {
        match frame_in(alloc, &items[place], place, rounds, cabinets) {
            Ok(item) => match found.push(item) {
                Ok(()) => {}
                Err(_) => return Err(ReadFail::NoMemory),
            },
            Err(fail) => return Err(fail),
        }
    }
    Ok(found)
}

/// The frames of a scenario with this number of rounds and cabinets; none where none are said.
#[tactic(auto, using(crate::proofs::Refusing::refuses_more))]
pub(crate) fn frames_at(
    alloc: Global,
    object: &Value,
    rounds: u32,
    cabinets: u32,
) -> Result<Vec<FrameItem>, ReadFail>
    ensures { Answers result (field_faults (steps_of Place.Top) (view object.now) (frames rounds cabinets))
        (λ found. map frame_content found.items ≡ events_at frames frame_of rounds cabinets (view object.now)) }
{
    match object.get("frames") {
        None => Ok(Vec::new(alloc)),
        Some(value) => match list_of(value, 0, 100_000) {
            Ok(items) => frames_in(alloc, items, rounds, cabinets),
            Err(unfit) => Err(refuse_member(alloc, Place::Top, "frames", unfit)),
        },
    }
}
