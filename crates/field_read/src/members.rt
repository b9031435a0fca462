//! The members of an object: which names are allowed, and the value at a name.

ghost use Rattle.std.specs.Prelude.{◌≡◌, ◌≤◌, map, IfOk};
ghost use Rattle.serde_json.specs.View.{view, members_view};
ghost use Rattle.scenario_read.specs.Kinds.{flag};
ghost use Rattle.scenario_read.specs.Fields.{needed, held, field_faults, unknown_faults};
ghost use Rattle.scenario_read.specs.Table.{needed_whole};
ghost use Rattle.scenario_read.specs.Content.{number_at, flag_of};
ghost use Rattle.scenario_read.specs.Readers.{Answers, names_faults};
ghost use Rattle.field_read.specs.Places.{steps_of};

use crate::place::{Place, refuse, refuse_member};
use scenario_data::ReadFail;
use scenario_read::{Unfit, flag_of, is_among, whole_of};
use serde_json::{Map, Value};
use std::alloc::Global;

/// Refuses the least name, by bytes, that is not known.
fn known_members(
    alloc: Global,
    members: &Map<String, Value>,
    place: Place,
    known: &[&str],
) -> Result<(), ReadFail>
    ensures { Answers result (unknown_faults (map (λ name. name.now) known.now) (steps_of place) (members_view members.now.entries)) (λ _. Unit {0}) }
{
    for (name, _) in members.iter() {
        if !is_among(known, name.as_str()) {
            return Err(refuse_member(alloc, place, name.as_str(), Unfit::Wrong));
        }
    }
    Ok(())
}

/// Refuses what is not an object, and the least name, by bytes, that is not known.
pub(crate) fn known_names(
    alloc: Global,
    value: &Value,
    place: Place,
    known: &[&str],
) -> Result<(), ReadFail>
    ensures { Answers result (names_faults (map (λ name. name.now) known.now) (steps_of place) (view value.now)) (λ _. Unit {0}) }
{
    match value {
        Value::Object(members) => known_members(alloc, members, place, known),
        _ => Err(refuse(alloc, place, Unfit::Wrong)),
    }
}

/// A whole number that must be at a name.
pub(crate) fn whole_at(
    alloc: Global,
    object: &Value,
    place: Place,
    name: &str,
    least: u32,
    most: u32,
) -> Result<u32, ReadFail>
    ensures read { Answers result (field_faults (steps_of place) (view object.now) (needed_whole name.now least most))
        (λ n. n ≡ number_at (needed_whole name.now least most) (view object.now)) }
    ensures few { IfOk result (λ n. n ≤ most) }
{
    match object.get(name) {
        Some(value) => match whole_of(value, least, most) {
            Ok(number) => Ok(number),
            Err(unfit) => Err(refuse_member(alloc, place, name, unfit)),
        },
        None => Err(refuse_member(alloc, place, name, Unfit::Wrong)),
    }
}

/// True or false, which must be at a name.
pub(crate) fn flag_at(
    alloc: Global,
    object: &Value,
    place: Place,
    name: &str,
) -> Result<bool, ReadFail>
    ensures { Answers result (field_faults (steps_of place) (view object.now) (needed name.now flag))
        (λ b. b ≡ flag_of (held (needed name.now flag) (view object.now))) }
{
    match object.get(name) {
        Some(value) => match flag_of(value) {
            Ok(flag) => Ok(flag),
            Err(unfit) => Err(refuse_member(alloc, place, name, unfit)),
        },
        None => Err(refuse_member(alloc, place, name, Unfit::Wrong)),
    }
}
