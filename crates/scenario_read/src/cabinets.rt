//! The cabinets of a scenario: their tables, what they open with, and how their clocks drift.

ghost use Rattle.std.specs.Prelude.{◌≡◌, ◌≤◌, ◌++◌, map, codes, length, IfOk};
ghost use Rattle.serde_json.specs.View.{view, items_view};
ghost use Rattle.scenario_data.specs.Content.{put_content, cabinet_content};
ghost use Rattle.scenario_read.specs.Paths.{then_named};
ghost use Rattle.scenario_read.specs.Kinds.{each};
ghost use Rattle.scenario_read.specs.Fields.{held, field_faults, fields_faults, names, known_fields};
ghost use Rattle.scenario_read.specs.CellLists.{cell, cell_of};
ghost use Rattle.scenario_read.specs.Table.{cells, gain, lose, drift_fields, drift_faults, cabinet_shape, cabinet, cabinets};
ghost use Rattle.scenario_read.specs.Content.{each_of, list_in, drift_at, cabinet_of};
ghost use Rattle.scenario_read.specs.Readers.{steps_of, Answers, names_faults};

use crate::cells::cells_in;
use crate::members::{base_at, known_names, rare_at, whole_or_at};
use crate::place::{List, Place, refuse, refuse_member};
use crate::values::{Unfit, list_of};
use scenario_data::{Cabinet, ReadFail};
use serde_json::Value;
use sig_tables::{Cell, CellValue};
use std::alloc::Global;

/// The cells of a cabinet; none where none are said.
#[tactic(auto, using(crate::proofs::Refusing::refuses_more))]
fn cells_at(
    alloc: Global,
    object: &Value,
    cabinet: usize,
) -> Result<Vec<(Cell, CellValue)>, ReadFail>
    ensures { Answers result (field_faults (steps_of (Place.Listed List.Cabinets cabinet)) (view object.now) cells)
        (λ puts. map put_content puts.items ≡ list_in cell_of (held cells (view object.now))) }
{
    let place = Place::Listed {
        list: List::Cabinets,
        place: cabinet,
    };
    match object.get("cells") {
        None => Ok(Vec::new(alloc)),
        Some(value) => match list_of(value, 0, 4096) {
            Ok(items) => cells_in(alloc, items, List::Cabinets, cabinet),
            Err(unfit) => Err(refuse_member(alloc, place, "cells", unfit)),
        },
    }
}

/// Refuses what is not an object, and the least name that a cabinet does not have in a scenario of this version.
fn known_in_cabinet(
    alloc: Global,
    object: &Value,
    place: Place,
    version: u32,
) -> Result<(), ReadFail>
    ensures { Answers result (names_faults (names (known_fields (cabinet_shape version) (view object.now))) (steps_of place) (view object.now)) (λ _. Unit {0}) }
{
    if version == 2 {
        known_names(
            alloc,
            object,
            place,
            &[
                "base", "cells", "pattern", "clock", "section", "gain", "lose",
            ],
        )
    } else {
        known_names(
            alloc,
            object,
            place,
            &["base", "cells", "pattern", "clock", "section"],
        )
    }
}

/// In how many ticks the clock of a cabinet gains one, and in how many it loses one; 0 is never.
#[derive(Drop)]
struct Drift {
    gain: u32,
    lose: u32,
}

/// How the clock of a cabinet drifts, in a scenario of this version.
fn drift_in(alloc: Global, object: &Value, place: Place, version: u32) -> Result<Drift, ReadFail>
    ensures { Answers result (fields_faults (steps_of place) (view object.now) (drift_fields version) ++ drift_faults version (steps_of place) (view object.now))
        (λ drift. (drift.gain ≡ drift_at version gain (view object.now)) × (drift.lose ≡ drift_at version lose (view object.now))) }
{
    if version != 2 {
        return Ok(Drift { gain: 0, lose: 0 });
    }
    let gain = rare_at(alloc, object, place, "gain")?;
    let lose = rare_at(alloc, object, place, "lose")?;
    if gain > 0 && lose > 0 {
        return Err(refuse(alloc, place, Unfit::Wrong));
    }
    Ok(Drift { gain, lose })
}

/// One cabinet, at a place counted from 0, in a scenario of this version, 1 or 2: only in version 2 may it name a
/// drift.
pub fn cabinet_in(
    alloc: Global,
    object: &Value,
    number: usize,
    version: u32,
) -> Result<Cabinet, ReadFail>
    ensures { Answers result (cabinet version (steps_of (Place.Listed List.Cabinets number)) (view object.now)) (λ c. cabinet_content c ≡ cabinet_of version (view object.now)) }
{
    let place = Place::Listed {
        list: List::Cabinets,
        place: number,
    };
    known_in_cabinet(alloc, object, place, version)?;
    let base = base_at(alloc, object, place)?;
    let cells = cells_at(alloc, object, number)?;
    let pattern = whole_or_at(alloc, object, place, "pattern", 0, 255, 0)?;
    let clock = whole_or_at(alloc, object, place, "clock", 0, 863_999, 0)?;
    let section = whole_or_at(alloc, object, place, "section", 1, 8, 1)?;
    let drift = drift_in(alloc, object, place, version)?;
    Ok(Cabinet {
        base,
        cells,
        pattern: pattern as u8,
        clock,
        section: section as u8,
        gain: drift.gain,
        lose: drift.lose,
    })
}

/// The cabinets of a list, in order.
fn cabinets_in(alloc: Global, items: &Vec<Value>, version: u32) -> Result<Vec<Cabinet>, ReadFail>
    ensures read { Answers result (each (cabinet version) (then_named (steps_of Place.Top) (codes "cabinets")) 0 (items_view items.now.items))
        (λ found. map cabinet_content found.items ≡ each_of (cabinet_of version) (items_view items.now.items)) }
    ensures count { IfOk result (λ found. length found.items ≡ length items.now.items) }
{
    let mut found = Vec::new(alloc);
    for place in 0..items.len() {
        match cabinet_in(alloc, &items[place], place, version) {
            Ok(cabinet) => match found.push(cabinet) {
                Ok(()) => {}
                Err(_) => return Err(ReadFail::NoMemory),
            },
            Err(fail) => return Err(fail),
        }
    }
    Ok(found)
}

/// The cabinets of a scenario of this version, 1 to 64.
#[tactic(auto, using(crate::proofs::Refusing::refuses_more))]
pub(crate) fn cabinets_at(
    alloc: Global,
    object: &Value,
    version: u32,
) -> Result<Vec<Cabinet>, ReadFail>
    ensures read { Answers result (field_faults (steps_of Place.Top) (view object.now) (cabinets version))
        (λ found. map cabinet_content found.items ≡ list_in (cabinet_of version) (held (cabinets version) (view object.now))) }
    ensures few { IfOk result (λ found. length found.items ≤ 64) }
{
    match object.get("cabinets") {
        None => Err(refuse_member(alloc, Place::Top, "cabinets", Unfit::Wrong)),
        Some(value) => match list_of(value, 1, 64) {
            Ok(items) => cabinets_in(alloc, items, version),
            Err(unfit) => Err(refuse_member(alloc, Place::Top, "cabinets", unfit)),
        },
    }
}
