//! A cell of the tables and what is put there, as a list of a scenario: a word, the numbers of its row and column, and a
//! number or a text in hexadecimal digits (columns after NTCIP 1202).

ghost use Rattle.std.specs.Prelude.{◌≡◌, ◌≤◌, length, map, codes, IsTrue};
ghost use Rattle.serde_json.specs.View.{view, items_view};
ghost use Rattle.sig_tables.specs.Cells.{IsCell, is_cell, content_of};
ghost use Rattle.sig_tables.specs.Ranges.{allowed_in};
ghost use Rattle.scenario_data.specs.Content.{put_content};
ghost use Rattle.scenario_read.specs.Paths.{then_named};
ghost use Rattle.scenario_read.specs.Kinds.{fault_at, each};
ghost use Rattle.scenario_read.specs.CellLists.{octet_at, octet_of, named_cell, listed_cell, value_place, item_count, octets_fits, content_fits, content_in, cell, cell_of};
ghost use Rattle.scenario_read.specs.Content.{each_of};
ghost use Rattle.scenario_read.specs.Readers.{steps_of, Answers};

use crate::place::{List, Place, refuse};
use crate::values::{Unfit, whole_of};
use arrayvec::ArrayVec;
use hex::FromHexError;
use scenario_data::ReadFail;
use serde_json::Value;
use sig_tables::{Allowed, Cell, CellValue, Tables};
use std::alloc::Global;

/// The number of a row or a column; 0, which none has, where it is anything else.
fn octet_of(value: &Value) -> u8
    ensures { result ≡ octet_of (view value.now) }
{
    let Value::Number(number) = value else {
        return 0;
    };
    match number.as_u64() {
        Some(n) if n <= 255 => n as u8,
        _ => 0,
    }
}

/// The number at a place of a list.
fn octet_at(list: &Value, place: usize) -> u8
    ensures { result ≡ octet_at place (view list.now) }
{
    match list.get(place) {
        Some(value) => octet_of(value),
        None => 0,
    }
}

/// The cell that a word and the numbers after it name.
fn named_cell(word: &str, list: &Value) -> Option<Cell>
    ensures { result ≡ named_cell word.now (view list.now) }
{
    let first = octet_at(list, 1);
    let second = octet_at(list, 2);
    match word {
        "phase" => Some(Cell::Phase {
            phase: first,
            column: second,
        }),
        "sequence" => Some(Cell::Sequence {
            sequence: first,
            ring: second,
        }),
        "split" => Some(Cell::Split {
            split: first,
            phase: second,
            column: octet_at(list, 3),
        }),
        "pattern" => Some(Cell::Pattern {
            pattern: first,
            column: second,
        }),
        "preempt" => Some(Cell::Preempt {
            preempt: first,
            column: second,
        }),
        "unit" => Some(Cell::Unit(first)),
        _ => None,
    }
}

/// The cell that a list names.
fn listed_cell(list: &Value) -> Option<Cell>
    ensures { result ≡ listed_cell (view list.now) }
{
    let word = match list.get(0) {
        Some(word) => word.as_str(),
        None => None,
    };
    match word {
        Some(word) => named_cell(word, list),
        None => None,
    }
}

/// Where in its list the value of a cell is.
fn value_place(cell: Cell) -> usize
    ensures { result ≡ value_place cell }
{
    match cell {
        Cell::Split { .. } => 4,
        Cell::Unit(_) => 2,
        _ => 3,
    }
}

/// How many items a list has.
fn item_count(list: &Value) -> usize
    ensures { result ≡ item_count (view list.now) }
{
    match list {
        Value::Array(items) => items.len(),
        _ => 0,
    }
}

/// Whether there is such a cell.
pub(crate) fn is_cell(cell: Cell) -> bool
    ensures value { result ≡ is_cell cell }
    ensures there { IsTrue result → IsCell cell }
{
    Tables::is_cell(cell)
}

/// A few octets.
pub(crate) fn octets_from<const N: usize>(octets: &[u8]) -> ArrayVec<u8, N>
    requires { length octets.now ≤ N }
    ensures { result.items ≡ octets.now }
{
    let mut list = ArrayVec::new();
    for octet in octets {
        list.push(*octet);
    }
    list
}

/// Octets in hexadecimal digits.
fn octets_in(alloc: Global, value: &Value, place: Place) -> Result<CellValue, ReadFail>
    ensures { Answers result (fault_at (steps_of place) (octets_fits 16 (view value.now))) (λ v. content_of v ≡ content_in (view value.now)) }
{
    let Value::String(text) = value else {
        return Err(refuse(alloc, place, Unfit::Wrong));
    };
    match hex::decode(alloc, text.as_str()) {
        Ok(octets) => if octets.len() <= 16 {
            Ok(CellValue::Octets(octets_from(octets.as_slice())))
        } else {
            Err(refuse(alloc, place, Unfit::Beyond))
        },
        Err(FromHexError::OutOfMemory) => Err(ReadFail::NoMemory),
        Err(_) => Err(refuse(alloc, place, Unfit::Wrong)),
    }
}

/// What is put into a cell.
fn content_in(alloc: Global, cell: Cell, value: &Value, place: Place) -> Result<CellValue, ReadFail>
    ensures { Answers result (fault_at (steps_of place) (content_fits (allowed_in cell) (view value.now))) (λ v. content_of v ≡ content_in (view value.now)) }
{
    match Tables::allowed(cell) {
        Allowed::Numbers { least, most } => match whole_of(value, least, most) {
            Ok(number) => Ok(CellValue::Number(number)),
            Err(unfit) => Err(refuse(alloc, place, unfit)),
        },
        Allowed::Lists => octets_in(alloc, value, place),
    }
}

/// A cell and what is put there.
pub(crate) fn cell_in(
    alloc: Global,
    list: &Value,
    place: Place,
) -> Result<(Cell, CellValue), ReadFail>
    ensures { Answers result (cell (steps_of place) (view list.now)) (λ put. put_content put ≡ cell_of (view list.now)) }
{
    let Some(cell) = listed_cell(list) else {
        return Err(refuse(alloc, place, Unfit::Wrong));
    };
    if !is_cell(cell) || item_count(list) != value_place(cell) + 1 {
        return Err(refuse(alloc, place, Unfit::Wrong));
    }
    match list.get(value_place(cell)) {
        Some(value) => Ok((cell, content_in(alloc, cell, value, place)?)),
        None => Err(refuse(alloc, place, Unfit::Wrong)),
    }
}

/// The cells that an item of a list says, in order.
pub(crate) fn cells_in(
    alloc: Global,
    items: &Vec<Value>,
    list: List,
    place: usize,
) -> Result<Vec<(Cell, CellValue)>, ReadFail>
    ensures { Answers result (each cell (then_named (steps_of (Place.Listed list place)) (codes "cells")) 0 (items_view items.now.items))
        (λ puts. map put_content puts.items ≡ each_of cell_of (items_view items.now.items)) }
{
    let Ok(mut cells) = Vec::with_capacity(alloc, items.len()) else {
        return Err(ReadFail::NoMemory);
    };
    for cell in 0..items.len() {
        match cell_in(alloc, &items[cell], Place::Cell { list, place, cell }) {
            Ok(put) => match cells.push(put) {
                Ok(()) => {}
                Err(_) => return Err(ReadFail::NoMemory),
            },
            Err(fail) => return Err(fail),
        }
    }
    Ok(cells)
}
