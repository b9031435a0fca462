//! The compact text of a scenario: its members in order, with the lists that were read item by item in their places.

ghost use Rattle.std.specs.Prelude.{◌≡◌, ℕ, List, [], ◌∷◌, ◌++◌, true, false, IfSome, string_bytes};
ghost use Rattle.json.specs.Print.{quoted};
ghost use Rattle.serde_json.specs.Data.{Items, array, object};
ghost use Rattle.serde_json.specs.View.{view, members_view};
ghost use Rattle.serde_json.specs.Written.{has_float, members_have_float, comma_if, compact_text};
ghost use Rattle.scenario_file.specs.Growing.{written, inner_text};
ghost use Rattle.scenario_file.specs.Framing.{filled, scheduled, master_with, value_in, with_lists, TextsStand};

use crate::lists::Texts;
use crate::pieces::{add, add_value, comma};
use crate::written::Written;
use serde_json::{Map, Value};
use std::alloc::Global;

/// Adds a name in quotes with its colon, after a comma where a member is before.
fn add_name(alloc: Global, text: &mut String, name: &str, later: bool) -> Option<()>
    ensures { IfSome result (λ _. string_bytes text.new ≡ ((string_bytes text.old ++ comma_if later) ++ quoted name.now) ++ 58 ∷ []) }
{
    let Ok(copy) = String::from_str(alloc, name) else {
        return None;
    };
    add(text, comma(later))?;
    add_value(alloc, text, &Value::String(copy))?;
    add(text, ":")
}

/// Adds a list whose items have this text between its brackets.
fn add_list(text: &mut String, items: &Written<'_>) -> Option<()>
    ensures { IfSome result (λ _. (ds : Items) → written items.now ≡ inner_text false ds → string_bytes text.new ≡ string_bytes text.old ++ compact_text (array ds)) }
{
    add(text, "[")?;
    items.add_to(text)?;
    add(text, "]")?;
    Some(())
}

/// Adds what is at a name of the master: its schedule, or another value.
fn add_setting(
    alloc: Global,
    text: &mut String,
    name: &str,
    value: &Value,
    schedule: &Written<'_>,
) -> Option<()>
    ensures { IfSome result (λ _. (ds : Items) → written schedule.now ≡ inner_text false ds → has_float (view value.now) ≡ false
        → string_bytes text.new ≡ string_bytes text.old ++ compact_text (scheduled ds name.now (view value.now))) }
{
    if name == "schedule" {
        add_list(text, schedule)
    } else {
        add_value(alloc, text, value)
    }
}

/// Adds an object of these members of the master, with the schedule in its place.
fn add_settings(
    alloc: Global,
    text: &mut String,
    members: &Map<String, Value>,
    schedule: &Written<'_>,
) -> Option<()>
    ensures { IfSome result (λ _. (ds : Items) → written schedule.now ≡ inner_text false ds → members_have_float (members_view members.now.entries) ≡ false
        → string_bytes text.new ≡ string_bytes text.old ++ compact_text (object (filled (scheduled ds) (members_view members.now.entries)))) }
{
    add(text, "{")?;
    let mut later = false;
    for (name, value) in members.iter() {
        add_name(alloc, text, name.as_str(), later)?;
        add_setting(alloc, text, name.as_str(), value, schedule)?;
        later = true;
    }
    add(text, "}")?;
    Some(())
}

/// Adds the master, with the schedule in its place.
fn add_master(
    alloc: Global,
    text: &mut String,
    master: &Value,
    schedule: &Written<'_>,
) -> Option<()>
    ensures { IfSome result (λ _. (ds : Items) → written schedule.now ≡ inner_text false ds → has_float (view master.now) ≡ false
        → string_bytes text.new ≡ string_bytes text.old ++ compact_text (master_with ds (view master.now))) }
{
    match master {
        Value::Object(members) => add_settings(alloc, text, members, schedule),
        _ => add_value(alloc, text, master),
    }
}

/// Adds what is at a name: a list that was read item by item, the master, or another value.
fn add_member(
    alloc: Global,
    text: &mut String,
    name: &str,
    value: &Value,
    texts: &Texts<'_>,
) -> Option<()>
    ensures { IfSome result (λ _. (rows : List ℕ → Items) → TextsStand texts.now rows → has_float (view value.now) ≡ false
        → string_bytes text.new ≡ string_bytes text.old ++ compact_text (value_in rows name.now (view value.now))) }
{
    match texts.named(name) {
        Some(items) => add_list(text, items),
        None => {
            if name == "master" {
                add_master(alloc, text, value, &texts.schedule)
            } else {
                add_value(alloc, text, value)
            }
        }
    }
}

/// The compact text of an object of these members, with the lists in their places, and with room for N bytes.
pub(crate) fn compact(
    alloc: Global,
    frame: &Map<String, Value>,
    texts: &Texts<'_>,
    room: usize,
) -> Option<String>
    ensures { IfSome result (λ text. (rows : List ℕ → Items) → TextsStand texts.now rows → members_have_float (members_view frame.now.entries) ≡ false
        → string_bytes text ≡ compact_text (object (with_lists rows (members_view frame.now.entries)))) }
{
    let Ok(mut text) = String::with_capacity(alloc, room) else {
        return None;
    };
    add(&mut text, "{")?;
    let mut later = false;
    for (name, value) in frame.iter() {
        add_name(alloc, &mut text, name.as_str(), later)?;
        add_member(alloc, &mut text, name.as_str(), value, texts)?;
        later = true;
    }
    add(&mut text, "}")?;
    Some(text)
}
