//! The loads: each puts cells into the tables of a cabinet, from a round on. A cabinet has at most a hundred.

ghost use Rattle.std.specs.Prelude.{◌≡◌, map, codes, []};
ghost use Rattle.serde_json.specs.View.{view, items_view};
ghost use Rattle.scenario_data.specs.Content.{put_content, load_content};
ghost use Rattle.scenario_read.specs.Paths.{then_named};
ghost use Rattle.scenario_read.specs.Kinds.{each_behind};
ghost use Rattle.scenario_read.specs.Fields.{held, field_faults, object_of};
ghost use Rattle.scenario_read.specs.CellLists.{cell_of};
ghost use Rattle.scenario_read.specs.Table.{load_cells, load_shape, load_cabinet, count_of, full_faults, load, loads};
ghost use Rattle.scenario_read.specs.Content.{each_of, list_in, load_of, events_at};
ghost use Rattle.scenario_read.specs.Readers.{steps_of, load_cabinets, Answers};

use crate::cells::cells_in;
use crate::members::{known_names, whole_at};
use crate::place::{List, Place, refuse, refuse_member};
use crate::values::{Unfit, items_of, list_of};
use scenario_data::{LoadItem, ReadFail};
use serde_json::Value;
use sig_tables::{Cell, CellValue};
use std::alloc::Global;

/// The cells of a load, 1 to 768.
#[tactic(auto, using(crate::proofs::Refusing::refuses_more))]
fn cells_at(alloc: Global, object: &Value, load: usize) -> Result<Vec<(Cell, CellValue)>, ReadFail>
    ensures { Answers result (field_faults (steps_of (Place.Listed List.Loads load)) (view object.now) load_cells)
        (λ puts. map put_content puts.items ≡ list_in cell_of (held load_cells (view object.now))) }
{
    let place = Place::Listed {
        list: List::Loads,
        place: load,
    };
    match object.get("cells") {
        None => Err(refuse_member(alloc, place, "cells", Unfit::Wrong)),
        Some(value) => match list_of(value, 1, 768) {
            Ok(items) => cells_in(alloc, items, List::Loads, load),
            Err(unfit) => Err(refuse_member(alloc, place, "cells", unfit)),
        },
    }
}

/// A load, however many of its cabinet are before.
fn uncounted_in(
    alloc: Global,
    object: &Value,
    load: usize,
    rounds: u32,
    cabinets: u32,
) -> Result<LoadItem, ReadFail>
    ensures { Answers result (object_of (load_shape rounds cabinets) (steps_of (Place.Listed List.Loads load)) (view object.now)) (λ l. load_content l ≡ load_of rounds cabinets (view object.now)) }
{
    let place = Place::Listed {
        list: List::Loads,
        place: load,
    };
    known_names(alloc, object, place, &["round", "cabinet", "cells"])?;
    let round = whole_at(alloc, object, place, "round", 1, rounds)?;
    let cabinet = whole_at(alloc, object, place, "cabinet", 1, cabinets)?;
    let cells = cells_at(alloc, object, load)?;
    Ok(LoadItem {
        round,
        cabinet,
        cells,
    })
}

/// How many of the loads are of a cabinet.
fn count_of(found: &Vec<LoadItem>, cabinet: u32) -> usize
    ensures { result ≡ count_of cabinet (load_cabinets found.now.items) }
{
    let mut count = 0;
    for place in 0..found.len() {
        if found[place].cabinet == cabinet {
            count += 1;
        }
    }
    count
}

/// Refuses a load of a cabinet that has a hundred before it.
fn counted(alloc: Global, place: Place, found: &Vec<LoadItem>, cabinet: u32) -> Result<(), ReadFail>
    ensures { Answers result (full_faults (load_cabinets found.now.items) (steps_of place) cabinet) (λ _. Unit {0}) }
{
    if count_of(found, cabinet) < 100 {
        Ok(())
    } else {
        Err(refuse(alloc, place, Unfit::Beyond))
    }
}

/// One load after those found, of a scenario with this number of rounds and cabinets.
pub fn load_in(
    alloc: Global,
    object: &Value,
    found: &Vec<LoadItem>,
    place: usize,
    rounds: u32,
    cabinets: u32,
) -> Result<LoadItem, ReadFail>
    ensures { Answers result (load rounds cabinets (load_cabinets found.now.items) (steps_of (Place.Listed List.Loads place)) (view object.now)) (λ l. load_content l ≡ load_of rounds cabinets (view object.now)) }
{
    let load = uncounted_in(alloc, object, place, rounds, cabinets)?;
    let place = Place::Listed {
        list: List::Loads,
        place,
    };
    counted(alloc, place, found, load.cabinet)?;
    Ok(load)
}

/// The loads of a list, in order.
fn loads_in(
    alloc: Global,
    items: &Vec<Value>,
    rounds: u32,
    cabinets: u32,
) -> Result<Vec<LoadItem>, ReadFail>
    ensures { Answers result (each_behind (load rounds cabinets) (load_cabinet cabinets) (then_named (steps_of Place.Top) (codes "loads")) 0 [] (items_view items.now.items))
        (λ found. map load_content found.items ≡ each_of (load_of rounds cabinets) (items_view items.now.items)) }
{
    let mut found = Vec::new(alloc);
    for place in 0..items.len() {
        match load_in(alloc, &items[place], &found, place, rounds, cabinets) {
            Ok(load) => match found.push(load) {
                Ok(()) => {}
                Err(_) => return Err(ReadFail::NoMemory),
            },
            Err(fail) => return Err(fail),
        }
    }
    Ok(found)
}

/// The loads of a scenario with this number of rounds and cabinets; none where none are said.
#[tactic(auto, using(crate::proofs::Refusing::refuses_more))]
pub(crate) fn loads_at(
    alloc: Global,
    object: &Value,
    rounds: u32,
    cabinets: u32,
) -> Result<Vec<LoadItem>, ReadFail>
    ensures { Answers result (field_faults (steps_of Place.Top) (view object.now) (loads rounds cabinets))
        (λ found. map load_content found.items ≡ events_at loads load_of rounds cabinets (view object.now)) }
{
    match object.get("loads") {
        None => Ok(Vec::new(alloc)),
        Some(value) => match items_of(value) {
            Ok(items) => loads_in(alloc, items, rounds, cabinets),
            Err(unfit) => Err(refuse_member(alloc, Place::Top, "loads", unfit)),
        },
    }
}
