//! A value of the text, of which that is kept on which its first fault may hang.

ghost use Rattle.std.specs.Prelude.{◌≡◌, ◌<◌, ◌≤◌, length, Some, IfSome, option_map, string_bytes};
ghost use Rattle.json.specs.Json.{value, items, members};
ghost use Rattle.serde_json.specs.Data.{Data, Items, item, Members, no_members, put};
ghost use Rattle.serde_json.specs.Read.{of_json, of_items, of_members, converted};
ghost use Rattle.serde_json.specs.View.{view, items_view, members_view};
ghost use Rattle.scenario_cut.specs.Cutting.{names_at, few, room, cut, cut_items, cut_members};
ghost use Rattle.scenario_cut.specs.Growing.{both};
ghost use Rattle.scenario_cut.specs.Others.{with_other};

use crate::allowed::{allows, hold};
use crate::form::{
    Form, drops, item_form, member_form, opens_array, opens_object, room, room_behind,
};
use crate::numbers::number_of;
use crate::passing::{pass, pass_items, pass_members};
use json::{Reader, Token};
use serde_json::{Map, Value};
use std::alloc::Global;

/// Puts a value at a name, in place of what was there.
pub(crate) fn put_member(members: &mut Map<String, Value>, name: String, value: Value) -> Option<()>
    ensures { IfSome result (λ _. members_view members.new.entries ≡ put (string_bytes name) (view value) (members_view members.old.entries)) }
{
    match members.insert(name, value) {
        Ok(old) => {
            drop(old);
            Some(())
        }
        Err(_) => None,
    }
}

/// Puts the least of the other names, if there is one, among the members that are kept. Null represents its value.
pub(crate) fn put_other(
    members: Map<String, Value>,
    other: Option<String>,
) -> Option<Map<String, Value>>
    ensures { IfSome result (λ all. members_view all.entries ≡ with_other (option_map string_bytes other) (members_view members.entries)) }
{
    let mut all = members;
    match other {
        Some(name) => match put_member(&mut all, name, Value::Null) {
            Some(()) => Some(all),
            None => None,
        },
        None => Some(all),
    }
}

/// Puts a value after the items that are kept.
fn put_item(found: &mut Vec<Value>, value: Value) -> Option<()>
    ensures { IfSome result (λ _. (rest : Items) → both (items_view found.old.items) (item (view value) rest) ≡ both (items_view found.new.items) rest) }
{
    match found.push(value) {
        Ok(()) => Some(()),
        Err(_) => None,
    }
}

/// Skips an item for which there is no room. Null represents it, or it is dropped.
fn pass_item(
    reader: &mut Reader<'_>,
    depth: usize,
    form: Form,
    found: &mut Vec<Value>,
) -> Option<()>
    ensures ok { IfSome result (λ _. (d : Data) × (converted of_json (value depth reader.old) ≡ Some (d, reader.new))
        × ((rest : Items) → both (items_view found.old.items) (cut_items form 0 (item d rest)) ≡ both (items_view found.new.items) (cut_items form 0 rest))) }
    ensures shorter { IfSome result (λ _. length reader.new < length reader.old) }
{
    if !pass(reader, depth) {
        return None;
    }
    if drops(form) {
        return Some(());
    }
    match put_item(found, Value::Null) {
        Some(()) => Some(()),
        None => None,
    }
}

/// What is kept of the next value of the reader, at a place of this form, with arrays and objects nested at most so
/// deep; none, if memory runs out or the value has no reading.
#[cycle(keep)]
pub fn keep(alloc: Global, reader: &mut Reader<'_>, depth: usize, form: Form) -> Option<Value>
    ensures ok { IfSome result (λ v. (d : Data) × (converted of_json (value depth reader.old) ≡ Some (d, reader.new)) × (view v ≡ cut form d)) }
    ensures shorter { IfSome result (λ _. length reader.new < length reader.old) }
{
    let token = reader.next()?;
    match token {
        Token::String(text) => match String::from_str(alloc, text) {
            Ok(copy) => Some(Value::String(copy)),
            Err(_) => None,
        },
        Token::Number(text) => match number_of(text) {
            Some(number) => Some(Value::Number(number)),
            None => None,
        },
        Token::Bool(b) => Some(Value::Bool(b)),
        Token::Null => Some(Value::Null),
        Token::EndObject | Token::EndArray | Token::Key(_) | Token::Bad => None,
        Token::BeginArray => {
            if depth == 0 {
                return None;
            }
            if !opens_array(form) {
                if pass_items(reader, depth - 1) {
                    return Some(Value::Null);
                }
                return None;
            }
            match keep_items(alloc, reader, depth - 1, item_form(form)) {
                Some(items) => Some(Value::Array(items)),
                None => None,
            }
        }
        Token::BeginObject => {
            if depth == 0 {
                return None;
            }
            if !opens_object(form) {
                if pass_members(reader, depth - 1) {
                    return Some(Value::Null);
                }
                return None;
            }
            match keep_members(alloc, reader, depth - 1, form) {
                Some(members) => Some(Value::Object(members)),
                None => None,
            }
        }
    }
}

/// Keeps what is kept of the next item of a list that has room for that many, after those before. Returns the room
/// after it.
#[cycle(keep)]
fn keep_item(
    alloc: Global,
    reader: &mut Reader<'_>,
    depth: usize,
    form: Form,
    left: usize,
    found: &mut Vec<Value>,
) -> Option<usize>
    requires { left ≤ 4097 }
    ensures ok { IfSome result (λ behind. (d : Data) × (converted of_json (value depth reader.old) ≡ Some (d, reader.new))
        × ((rest : Items) → both (items_view found.old.items) (cut_items form left (item d rest)) ≡ both (items_view found.new.items) (cut_items form behind rest))) }
    ensures few { IfSome result (λ behind. behind ≤ 4097) }
    ensures shorter { IfSome result (λ _. length reader.new < length reader.old) }
{
    if left == 0 {
        return match pass_item(reader, depth, form, found) {
            Some(()) => Some(0),
            None => None,
        };
    }
    let kept = keep(alloc, reader, depth, form)?;
    let behind = room_behind(form, left - 1, &kept);
    match put_item(found, kept) {
        Some(()) => Some(behind),
        None => None,
    }
}

/// What is kept of the items up to the bracket that closes an array.
#[cycle(keep)]
fn keep_items(
    alloc: Global,
    reader: &mut Reader<'_>,
    depth: usize,
    form: Form,
) -> Option<Vec<Value>>
    ensures ok { IfSome result (λ kept. (ds : Items) × (converted of_items (items (value depth) (length reader.old) reader.old) ≡ Some (ds, reader.new))
        × (items_view kept.items ≡ cut_items form (room form) ds)) }
    ensures shorter { IfSome result (λ _. length reader.new < length reader.old) }
{
    let mut found = Vec::new(alloc);
    let mut left = room(form);
    'items: while !reader.take_end_array() {
        left = keep_item(alloc, reader, depth, form, left, &mut found)?;
    }
    Some(found)
}

/// What is kept of the members up to the brace that closes an object. Of equal names the last counts, and of the names that no object
/// there may have the least.
#[cycle(keep)]
fn keep_members(
    alloc: Global,
    reader: &mut Reader<'_>,
    depth: usize,
    form: Form,
) -> Option<Map<String, Value>>
    ensures ok { IfSome result (λ kept. (ms : Members) × (converted (λ js. of_members js no_members) (members (value depth) (length reader.old) reader.old) ≡ Some (ms, reader.new))
        × (members_view kept.entries ≡ few (names_at form) (cut_members form ms))) }
    ensures shorter { IfSome result (λ _. length reader.new < length reader.old) }
{
    let mut found = Map::new(alloc);
    let mut other = None;
    'members: loop {
        let name = match reader.next_key() {
            Ok(Some(name)) => name,
            Ok(None) => break,
            Err(_) => return None,
        };
        if allows(form, name) {
            let key = match String::from_str(alloc, name) {
                Ok(key) => key,
                Err(_) => return None,
            };
            let member = keep(alloc, reader, depth, member_form(form, name))?;
            put_member(&mut found, key, member)?;
        } else {
            hold(alloc, &mut other, name)?;
            if !pass(reader, depth) {
                return None;
            }
        }
    }
    match put_other(found, other) {
        Some(all) => Some(all),
        None => None,
    }
}
