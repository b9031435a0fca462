//! A whole scenario of whose equal names the last is kept. Those before it are skipped where they may have much after
//! them. How often each name comes is counted first; that the last of each was kept is seen in the end.

ghost use Rattle.std.specs.Prelude.{◌≡◌, ◌<◌, ◌≤◌, ℕ, List, true, false, length, nat_lt, bytes_eq, get_or, Some, IfSome, IsTrue};
ghost use Rattle.json.specs.Json.{value, members};
ghost use Rattle.serde_json.specs.Data.{Data, Members, no_members};
ghost use Rattle.serde_json.specs.Read.{of_json, of_members, converted};
ghost use Rattle.serde_json.specs.View.{view, members_view};
ghost use Rattle.scenario_read.specs.Answers.{Reads};
ghost use Rattle.scenario_cut.specs.Cutting.{Whole, names_at, few, cut, cut_members, member_form};
ghost use Rattle.scenario_cut.specs.Last.{Enters, hidden, large_names, place_in};

use crate::allowed::{allows, hold};
use crate::form::{Form, member_form};
use crate::keeping::{keep, put_member, put_other};
use crate::passing::pass;
use json::{Reader, Scratch, Token};
use serde_json::{Map, Value};
use std::alloc::Global;

/// The place of a name among those that may have much after them; 7, where it is none of them.
fn place_of(name: &str) -> usize
    ensures { result ≡ place_in large_names name.now }
{
    if name == "cabinets" {
        0
    } else if name == "master" {
        1
    } else if name == "inputs" {
        2
    } else if name == "loads" {
        3
    } else if name == "priority" {
        4
    } else if name == "frames" {
        5
    } else if name == "faults" {
        6
    } else {
        7
    }
}

/// Counts the names up to the brace that closes the whole object; false, where it is none.
fn count_members(reader: &mut Reader<'_>, counts: &mut [u32; 7]) -> bool {
    'members: loop {
        let name = match reader.next_key() {
            Ok(Some(name)) => name,
            Ok(None) => return true,
            Err(_) => return false,
        };
        let place = place_of(name);
        if place < 7 && counts[place] < 1_000_000_000 {
            counts[place] += 1;
        }
        if !pass(reader, 126) {
            return false;
        }
    }
}

/// How often each name comes in a text that is one object. Nothing rests on it but that memory is spared.
fn counts_of(alloc: Global, bytes: &[u8]) -> Option<[u32; 7]> {
    let Ok(text) = std::str::from_utf8(bytes) else {
        return None;
    };
    let mut scratch = Scratch::new(alloc);
    let Ok(mut reader) = Reader::new(text, &mut scratch) else {
        return None;
    };
    match reader.next() {
        Some(Token::BeginObject) => {}
        _ => return None,
    }
    let mut counts = [0; 7];
    if count_members(&mut reader, &mut counts) {
        Some(counts)
    } else {
        None
    }
}

/// Counts a name down, and says whether it comes for the last time.
fn is_last(name: &str, left: &mut [u32; 7]) -> bool
    ensures last { result ≡ true → get_or left.new (place_in large_names name.now) 0 ≡ 0 }
    ensures more { result ≡ false → nat_lt 0 (get_or left.new (place_in large_names name.now) 0) ≡ true }
    ensures others { (other : List ℕ) → bytes_eq other name.now ≡ false → get_or left.old (place_in large_names other) 0 ≡ get_or left.new (place_in large_names other) 0 }
{
    let place = place_of(name);
    if place >= 7 {
        return true;
    }
    if left[place] <= 1 {
        left[place] = 0;
        return true;
    }
    left[place] -= 1;
    false
}

/// Whether no name is to come any more.
fn none_left(left: &[u32; 7]) -> bool
    ensures { result ≡ true → (place : ℕ) → get_or left.now place 0 ≡ 0 }
{
    for place in 0..7 {
        if left[place] != 0 {
            return false;
        }
    }
    true
}

/// What is kept of the next member, where its name comes for the last time; else null.
fn keep_or_pass(
    alloc: Global,
    reader: &mut Reader<'_>,
    depth: usize,
    name: &str,
    left: &mut [u32; 7],
) -> Option<Value>
    ensures ok { IfSome result (λ v. (d : Data) × (converted of_json (value depth reader.old) ≡ Some (d, reader.new))
        × Enters (hidden left.old) (hidden left.new) name.now (view v) (cut (member_form Whole name.now) d)) }
    ensures shorter { IfSome result (λ _. length reader.new < length reader.old) }
{
    if is_last(name, left) {
        match keep(alloc, reader, depth, member_form(Form::Whole, name)) {
            Some(kept) => Some(kept),
            None => None,
        }
    } else if pass(reader, depth) {
        Some(Value::Null)
    } else {
        None
    }
}

/// What is kept of the members up to the brace that closes the whole object, where each name comes at the most that
/// often. Of the names that no scenario may have it is the least.
fn keep_last(
    alloc: Global,
    reader: &mut Reader<'_>,
    depth: usize,
    counts: [u32; 7],
) -> Option<Map<String, Value>>
    ensures ok { IfSome result (λ kept. (ms : Members) × (converted (λ js. of_members js no_members) (members (value depth) (length reader.old) reader.old) ≡ Some (ms, reader.new))
        × (members_view kept.entries ≡ few (names_at Whole) (cut_members Whole ms))) }
{
    let mut found = Map::new(alloc);
    let mut left = counts;
    let mut other = None;
    'members: loop {
        let name = match reader.next_key() {
            Ok(Some(name)) => name,
            Ok(None) => break,
            Err(_) => return None,
        };
        if allows(Form::Whole, name) {
            let key = match String::from_str(alloc, name) {
                Ok(key) => key,
                Err(_) => return None,
            };
            let member = keep_or_pass(alloc, reader, depth, name, &mut left)?;
            put_member(&mut found, key, member)?;
        } else {
            hold(alloc, &mut other, name)?;
            if !pass(reader, depth) {
                return None;
            }
        }
    }
    if !none_left(&left) {
        return None;
    }
    match put_other(found, other) {
        Some(all) => Some(all),
        None => None,
    }
}

/// What is kept of the value of the bytes as a whole scenario; none if memory runs out or they are not such a text.
pub(crate) fn kept_last(alloc: Global, bytes: &[u8]) -> Option<Value>
    ensures { IfSome result (λ kept. (d : Data) × Reads bytes.now d × (view kept ≡ cut Whole d)) }
{
    let counts = counts_of(alloc, bytes)?;
    let Ok(text) = std::str::from_utf8(bytes) else {
        return None;
    };
    let mut scratch = Scratch::new(alloc);
    let Ok(mut reader) = Reader::new(text, &mut scratch) else {
        return None;
    };
    match reader.next() {
        Some(Token::BeginObject) => {}
        _ => return None,
    }
    let kept = keep_last(alloc, &mut reader, 126, counts)?;
    match reader.next() {
        Some(_) => None,
        None => Some(Value::Object(kept)),
    }
}
