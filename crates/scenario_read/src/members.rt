//! The members of an object: which names are allowed, and the value at a name.

ghost use Rattle.std.specs.Prelude.{◌≡◌, ◌≤◌, map, codes, IfOk};
ghost use Rattle.serde_json.specs.Data.{number, unsigned};
ghost use Rattle.serde_json.specs.View.{view, members_view};
ghost use Rattle.scenario_read.specs.Kinds.{whole, rare, flag, fault_at, Wrong};
ghost use Rattle.scenario_read.specs.Fields.{needed, optional, held, field_faults, unknown_faults};
ghost use Rattle.scenario_read.specs.Table.{needed_whole, optional_whole, base, stream, way, fault_kind};
ghost use Rattle.scenario_read.specs.Content.{number_at, whole_of, base_of, flag_of, stream_of, direction_of, fault_kind_of};
ghost use Rattle.scenario_read.specs.Readers.{steps_of, Answers, names_faults};

use crate::place::{Place, refuse, refuse_member};
use crate::values::{
    Unfit, base_of, direction_of, fault_kind_of, flag_of, is_among, rare_of, stream_of, whole_of,
};
use scenario_data::{Base, Direction, FaultKind, ReadFail};
use serde_json::{Map, Value};
use sig_types::Way;
use std::alloc::Global;

/// Refuses the least name, by bytes, that is not known.
fn known_members(
    alloc: Global,
    members: &Map<String, Value>,
    place: Place,
    known: &[&str],
) -> Result<(), ReadFail>
    ensures { Answers result (unknown_faults (map (λ name. name.now) known.now) (steps_of place) (members_view members.now.entries)) (λ _. Unit {0}) }
{
    for (name, _) in members.iter() {
        if !is_among(known, name.as_str()) {
            return Err(refuse_member(alloc, place, name.as_str(), Unfit::Wrong));
        }
    }
    Ok(())
}

/// Refuses a value that isn't an object, and the first unknown name in byte order.
pub fn known_names(
    alloc: Global,
    value: &Value,
    place: Place,
    known: &[&str],
) -> Result<(), ReadFail>
    ensures { Answers result (names_faults (map (λ name. name.now) known.now) (steps_of place) (view value.now)) (λ _. Unit {0}) }
{
    match value {
        Value::Object(members) => known_members(alloc, members, place, known),
        _ => Err(refuse(alloc, place, Unfit::Wrong)),
    }
}

/// A required whole number at a name.
pub fn whole_at(
    alloc: Global,
    object: &Value,
    place: Place,
    name: &str,
    least: u32,
    most: u32,
) -> Result<u32, ReadFail>
    ensures read { Answers result (field_faults (steps_of place) (view object.now) (needed_whole name.now least most))
        (λ n. n ≡ number_at (needed_whole name.now least most) (view object.now)) }
    ensures few { IfOk result (λ n. n ≤ most) }
{
    match object.get(name) {
        Some(value) => match whole_of(value, least, most) {
            Ok(number) => Ok(number),
            Err(unfit) => Err(refuse_member(alloc, place, name, unfit)),
        },
        None => Err(refuse_member(alloc, place, name, Unfit::Wrong)),
    }
}

/// True or false, which must be at a name.
pub(crate) fn flag_at(
    alloc: Global,
    object: &Value,
    place: Place,
    name: &str,
) -> Result<bool, ReadFail>
    ensures { Answers result (field_faults (steps_of place) (view object.now) (needed name.now flag))
        (λ b. b ≡ flag_of (held (needed name.now flag) (view object.now))) }
{
    match object.get(name) {
        Some(value) => match flag_of(value) {
            Ok(flag) => Ok(flag),
            Err(unfit) => Err(refuse_member(alloc, place, name, unfit)),
        },
        None => Err(refuse_member(alloc, place, name, Unfit::Wrong)),
    }
}

/// A whole number that may be absent.
pub(crate) fn whole_or_at(
    alloc: Global,
    object: &Value,
    place: Place,
    name: &str,
    least: u32,
    most: u32,
    default: u32,
) -> Result<u32, ReadFail>
    requires least { least ≤ default }
    requires most { default ≤ most }
    ensures read { Answers result (field_faults (steps_of place) (view object.now) (optional_whole name.now least most default))
        (λ n. n ≡ number_at (optional_whole name.now least most default) (view object.now)) }
    ensures few { IfOk result (λ n. n ≤ most) }
{
    match object.get(name) {
        Some(value) => match whole_of(value, least, most) {
            Ok(number) => Ok(number),
            Err(unfit) => Err(refuse_member(alloc, place, name, unfit)),
        },
        None => Ok(default),
    }
}

/// In how many ticks a clock gains or loses one, 12,000 to 864,000; by default 0, which means never.
pub(crate) fn rare_at(
    alloc: Global,
    object: &Value,
    place: Place,
    name: &str,
) -> Result<u32, ReadFail>
    ensures { Answers result (field_faults (steps_of place) (view object.now) (optional name.now (rare 12000 864000) (number (unsigned 0))))
        (λ n. n ≡ number_at (optional name.now (rare 12000 864000) (number (unsigned 0))) (view object.now)) }
{
    match object.get(name) {
        Some(value) => match rare_of(value, 12_000, 864_000) {
            Ok(number) => Ok(number),
            Err(unfit) => Err(refuse_member(alloc, place, name, unfit)),
        },
        None => Ok(0),
    }
}

/// The stream of a frame or a fault.
pub(crate) fn stream_at(alloc: Global, object: &Value, place: Place) -> Result<Way, ReadFail>
    ensures { Answers result (field_faults (steps_of place) (view object.now) stream) (λ found. found ≡ stream_of (held stream (view object.now))) }
{
    match object.get("stream") {
        Some(value) => match stream_of(value) {
            Ok(stream) => Ok(stream),
            Err(unfit) => Err(refuse_member(alloc, place, "stream", unfit)),
        },
        None => Err(refuse_member(alloc, place, "stream", Unfit::Wrong)),
    }
}

/// The direction of a fault.
pub(crate) fn way_at(alloc: Global, object: &Value, place: Place) -> Result<Direction, ReadFail>
    ensures { Answers result (field_faults (steps_of place) (view object.now) way) (λ found. found ≡ direction_of (held way (view object.now))) }
{
    match object.get("way") {
        Some(value) => match direction_of(value) {
            Ok(way) => Ok(way),
            Err(unfit) => Err(refuse_member(alloc, place, "way", unfit)),
        },
        None => Err(refuse_member(alloc, place, "way", Unfit::Wrong)),
    }
}

/// What a fault does.
pub(crate) fn kind_at(alloc: Global, object: &Value, place: Place) -> Result<FaultKind, ReadFail>
    ensures { Answers result (field_faults (steps_of place) (view object.now) fault_kind) (λ found. found ≡ fault_kind_of (held fault_kind (view object.now))) }
{
    match object.get("kind") {
        Some(value) => match fault_kind_of(value) {
            Ok(kind) => Ok(kind),
            Err(unfit) => Err(refuse_member(alloc, place, "kind", unfit)),
        },
        None => Err(refuse_member(alloc, place, "kind", Unfit::Wrong)),
    }
}

/// The standard tables of a cabinet; `std8` where none are said.
pub(crate) fn base_at(alloc: Global, object: &Value, place: Place) -> Result<Base, ReadFail>
    ensures { Answers result (field_faults (steps_of place) (view object.now) base) (λ b. b ≡ base_of (held base (view object.now))) }
{
    match object.get("base") {
        Some(value) => match base_of(value) {
            Ok(base) => Ok(base),
            Err(unfit) => Err(refuse_member(alloc, place, "base", unfit)),
        },
        None => Ok(Base::Std8),
    }
}
