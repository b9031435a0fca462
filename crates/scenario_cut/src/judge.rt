//! The items of a list at the top of a scenario, judged one by one. Nothing stays of an item but what later checks ask for: what a
//! cabinet says, and a load, by whose cabinet the later ones are judged.

ghost use Rattle.std.specs.Prelude.{◌≡◌, ◌≢◌, ◌<◌, ◌++◌, ◌∷◌, [], length, map, Some, IfSome};
ghost use Rattle.json.specs.Json.{value};
ghost use Rattle.serde_json.specs.Data.{Data, Items, item, no_items};
ghost use Rattle.serde_json.specs.Read.{of_json, converted};
ghost use Rattle.serde_json.specs.View.{view};
ghost use Rattle.scenario_data.specs.Content.{cabinet_content};
ghost use Rattle.scenario_read.specs.Paths.{then_item};
ghost use Rattle.scenario_read.specs.Table.{cabinet, load, load_cabinet};
ghost use Rattle.scenario_read.specs.Content.{cabinet_of};
ghost use Rattle.scenario_read.specs.Readers.{Answers, load_cabinets};
ghost use Rattle.scenario_cut.specs.Growing.{both};
ghost use Rattle.scenario_cut.specs.Judging.{form_of, name_of, list_path, item_kind, cabinets_of, Stays};

use crate::form::Form;
use crate::keeping::keep;
use json::Reader;
use scenario_data::{Cabinet, LoadItem, ReadFail};
use scenario_read::{cabinet_in, fault_in, frame_in, input_in, load_in, priority_in};
use serde_json::Value;
use std::alloc::Global;

/// A list at the top of a scenario.
#[derive(Clone, Copy)]
pub(crate) enum Listing {
    Cabinets,
    Inputs,
    Loads,
    Priority,
    Frames,
    Faults,
}

/// The version of a scenario, 1 or 2, and how many rounds and how many cabinets it has: what the items of its lists are judged by.
#[derive(Clone, Copy)]
pub struct Extent {
    pub version: u32,
    pub rounds: u32,
    pub cabinets: u32,
}

/// What stays of the items of a list.
#[derive(Drop)]
pub(crate) struct Found {
    pub cabinets: Vec<Cabinet>,
    pub loads: Vec<LoadItem>,
}

/// The name of a list.
pub(crate) fn name_of(list: Listing) -> &'static str
    ensures { result.now ≡ name_of list }
{
    match list {
        Listing::Cabinets => "cabinets",
        Listing::Inputs => "inputs",
        Listing::Loads => "loads",
        Listing::Priority => "priority",
        Listing::Frames => "frames",
        Listing::Faults => "faults",
    }
}

/// The place of an item, by how much of it is kept.
fn form_of(list: Listing) -> Form
    ensures { result ≡ form_of list }
{
    match list {
        Listing::Cabinets => Form::Cabinet,
        _ => Form::Event,
    }
}

/// Judges a cabinet, and puts what it says after those before.
fn judge_cabinet(
    alloc: Global,
    object: &Value,
    place: usize,
    extent: Extent,
    cabinets: &mut Vec<Cabinet>,
) -> Result<(), ReadFail>
    ensures { Answers result (cabinet extent.version (then_item (list_path Listing.Cabinets) place) (view object.now))
        (λ _. map cabinet_content cabinets.new.items ≡ map cabinet_content cabinets.old.items ++ cabinet_of extent.version (view object.now) ∷ []) }
{
    match cabinet_in(alloc, object, place, extent.version) {
        Ok(cabinet) => match cabinets.push(cabinet) {
            Ok(()) => Ok(()),
            Err(_) => Err(ReadFail::NoMemory),
        },
        Err(fail) => Err(fail),
    }
}

/// Judges a load, and puts it after those before.
fn judge_load(
    alloc: Global,
    object: &Value,
    place: usize,
    extent: Extent,
    loads: &mut Vec<LoadItem>,
) -> Result<(), ReadFail>
    ensures { Answers result (load extent.rounds extent.cabinets (load_cabinets loads.old.items) (then_item (list_path Listing.Loads) place) (view object.now))
        (λ _. load_cabinets loads.new.items ≡ load_cabinets loads.old.items ++ load_cabinet extent.cabinets (view object.now) ∷ []) }
{
    match load_in(alloc, object, loads, place, extent.rounds, extent.cabinets) {
        Ok(load) => match loads.push(load) {
            Ok(()) => Ok(()),
            Err(_) => Err(ReadFail::NoMemory),
        },
        Err(fail) => Err(fail),
    }
}

/// Judges an item of what happens, of which nothing stays: any but a load.
fn judge_event(
    alloc: Global,
    object: &Value,
    list: Listing,
    place: usize,
    extent: Extent,
) -> Result<(), ReadFail>
    requires cabinet { list ≢ Listing.Cabinets }
    requires load { list ≢ Listing.Loads }
    ensures { Answers result (item_kind list extent [] (then_item (list_path list) place) (view object.now)) (λ _. Unit {0}) }
{
    let rounds = extent.rounds;
    let cabinets = extent.cabinets;
    match list {
        Listing::Inputs => match input_in(alloc, object, place, rounds, cabinets) {
            Ok(_) => Ok(()),
            Err(fail) => Err(fail),
        },
        Listing::Priority => match priority_in(alloc, object, place, rounds, cabinets) {
            Ok(_) => Ok(()),
            Err(fail) => Err(fail),
        },
        Listing::Frames => match frame_in(alloc, object, place, rounds, cabinets) {
            Ok(_) => Ok(()),
            Err(fail) => Err(fail),
        },
        Listing::Faults => match fault_in(alloc, object, place, rounds, cabinets) {
            Ok(_) => Ok(()),
            Err(fail) => Err(fail),
        },
        _ => Err(ReadFail::NoMemory),
    }
}

/// Judges the item at a place, counted from 0, after those of which this stays.
fn judge_item(
    alloc: Global,
    object: &Value,
    list: Listing,
    place: usize,
    extent: Extent,
    found: &mut Found,
) -> Result<(), ReadFail>
    ensures { (ds : Items) → Stays list extent found.old ds → Answers result (item_kind list extent (cabinets_of extent ds) (then_item (list_path list) place) (view object.now))
        (λ _. Stays list extent found.new (both ds (item (view object.now) no_items))) }
{
    match list {
        Listing::Cabinets => judge_cabinet(alloc, object, place, extent, &mut found.cabinets),
        Listing::Loads => judge_load(alloc, object, place, extent, &mut found.loads),
        _ => judge_event(alloc, object, list, place, extent),
    }
}

/// Judges the next item of the reader, nested at most so deep, by what is kept of it.
pub(crate) fn judge_next(
    alloc: Global,
    reader: &mut Reader<'_>,
    depth: usize,
    list: Listing,
    place: usize,
    extent: Extent,
    found: &mut Found,
) -> Option<Result<(), ReadFail>>
    ensures ok { IfSome result (λ answer. (d : Data) × (converted of_json (value depth reader.old) ≡ Some (d, reader.new))
        × ((ds : Items) → Stays list extent found.old ds → Answers answer (item_kind list extent (cabinets_of extent ds) (then_item (list_path list) place) d)
        (λ _. Stays list extent found.new (both ds (item d no_items))))) }
    ensures shorter { IfSome result (λ _. length reader.new < length reader.old) }
{
    match keep(alloc, reader, depth, form_of(list)) {
        Some(object) => Some(judge_item(alloc, &object, list, place, extent, found)),
        None => None,
    }
}
