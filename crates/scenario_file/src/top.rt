//! The whole text of a scenario: an object whose lists are read item by item, and whose other members become a tree,
//! with a list of empty objects where the cabinets are, and an empty list where another list does.

ghost use Rattle.std.specs.Prelude.{◌≡◌, ◌<◌, ◌≤◌, ℕ, List, true, length, Some, IfSome, IsUtf8, codes};
ghost use Rattle.json.specs.Json.{value, members};
ghost use Rattle.serde_json.specs.Data.{Data, Items, Members, object, no_members, no_items, put};
ghost use Rattle.serde_json.specs.Read.{of_json, of_members, converted, read};
ghost use Rattle.serde_json.specs.View.{view, members_view};
ghost use Rattle.scenario_read.specs.Sorted.{Sorted, MembersSorted};
ghost use Rattle.scenario_file.specs.Listing.{Holds, name_of};
ghost use Rattle.scenario_file.specs.Framing.{is_list, with_lists, Puts, AllStand};
ghost use Rattle.scenario_file.specs.Left.{Grows, ReadSoFar};

use crate::found::{Found, list_named, stand_in};
use crate::left::Left;
use crate::listed::list_at;
use crate::lists::{Lists, no_lists, put_list};
use crate::master::{MASTER_NAMES, Master, master_at};
use crate::trees::{is_full, put_member, tree};
use json::{Reader, Scratch, Token};
use scenario_cut::pass;
use serde_json::{Map, Value};
use std::alloc::Global;

/// A scenario's value except its lists, and these.
#[derive(Drop)]
pub(crate) struct Whole<'a> {
    pub frame: Map<String, Value>,
    pub lists: Lists<'a>,
}

/// A scenario's value so far, and how often its names are still to come.
#[derive(Drop)]
pub(crate) struct Reading<'a> {
    pub whole: Whole<'a>,
    pub left: Left,
}

/// The bytes of a file, and whether the names of its master are to be counted.
#[derive(Clone, Copy)]
struct File<'a> {
    bytes: &'a [u8],
    counts: bool,
}

/// How often the names come in the object that begins at this place of the bytes. None, where that can't be known.
fn master_left(alloc: Global, bytes: &[u8], place: usize) -> Option<Left> {
    let rest = bytes.get(place..)?;
    Left::of(alloc, rest, &MASTER_NAMES)
}

/// How often the names come in the master that begins at this place of the file. No names, where they are not to be
/// counted, and where that can't be known.
fn left_at(alloc: Global, file: File<'_>, place: usize) -> Left {
    if !file.counts {
        return Left::none(alloc);
    }
    match master_left(alloc, file.bytes, place) {
        Some(left) => left,
        None => Left::none(alloc),
    }
}

/// Reads a list that is nested at most so deep, and gives what represents it.
fn list_member<'a>(
    alloc: Global,
    reader: &mut Reader<'_>,
    depth: usize,
    found: Found,
    lists: &mut Lists<'a>,
    file: &'a [u8],
) -> Option<Value>
    requires deep { 1 ≤ depth }
    requires top { is_list (name_of found) ≡ true }
    requires begins { Holds found no_items }
    ensures ok { IfSome result (λ v. (d : Data) × (converted of_json (value depth reader.old) ≡ Some (d, reader.new)) × Puts lists.old lists.new (name_of found) d (view v)) }
    ensures sorted { IfSome result (λ v. Sorted (view v)) }
    ensures shorter { IfSome result (λ _. length reader.new < length reader.old) }
{
    let listed = list_at(alloc, reader, found, depth - 1, file)?;
    let standing = stand_in(alloc, &listed.found)?;
    put_list(lists, listed);
    Some(standing)
}

/// Reads the master, nested at most so deep, and gives what represents it.
fn master_member<'a>(
    alloc: Global,
    reader: &mut Reader<'_>,
    depth: usize,
    lists: &mut Lists<'a>,
    file: File<'a>,
) -> Option<Value>
    requires deep { 2 ≤ depth }
    ensures ok { IfSome result (λ v. (d : Data) × (converted of_json (value depth reader.old) ≡ Some (d, reader.new)) × Puts lists.old lists.new (codes "master") d (view v)) }
    ensures sorted { IfSome result (λ v. Sorted (view v)) }
    ensures shorter { IfSome result (λ _. length reader.new < length reader.old) }
{
    let left = left_at(alloc, file, reader.offset());
    let master = master_at(alloc, reader, depth, left, file.bytes)?;
    let Master { members, schedule } = master;
    put_list(lists, schedule);
    Some(Value::Object(members))
}

/// Reads what is at the next name, nested at most so deep, and gives what represents it in the frame.
fn member_at<'a>(
    alloc: Global,
    reader: &mut Reader<'_>,
    depth: usize,
    name: &str,
    lists: &mut Lists<'a>,
    file: File<'a>,
) -> Option<Value>
    requires deep { 2 ≤ depth }
    ensures ok { IfSome result (λ v. (d : Data) × (converted of_json (value depth reader.old) ≡ Some (d, reader.new)) × Puts lists.old lists.new name.now d (view v)) }
    ensures sorted { IfSome result (λ v. Sorted (view v)) }
    ensures shorter { IfSome result (λ _. length reader.new < length reader.old) }
{
    match list_named(alloc, name) {
        Some(found) => list_member(alloc, reader, depth, found, lists, file.bytes),
        None => {
            if name == "master" {
                master_member(alloc, reader, depth, lists, file)
            } else {
                match tree(alloc, reader, depth, &[]) {
                    Some(value) => Some(value),
                    None => None,
                }
            }
        }
    }
}

/// Reads what is at the next name, nested at most so deep, and puts what represents it into the frame.
fn put_next<'a>(
    alloc: Global,
    reader: &mut Reader<'_>,
    depth: usize,
    name: &str,
    whole: &mut Whole<'a>,
    file: File<'a>,
) -> Option<()>
    requires deep { 2 ≤ depth }
    ensures ok { IfSome result (λ _. (d : Data) × (converted of_json (value depth reader.old) ≡ Some (d, reader.new)) × Grows whole.old whole.new name.now d) }
    ensures shorter { IfSome result (λ _. length reader.new < length reader.old) }
{
    let Ok(key) = String::from_str(alloc, name) else {
        return None;
    };
    if is_full(&whole.frame) {
        return None;
    }
    let value = member_at(alloc, reader, depth, name, &mut whole.lists, file)?;
    put_member(&mut whole.frame, key, value)?;
    Some(())
}

/// Reads what is at the next name, nested at most so deep, where the name comes for the last time, or else skips it.
fn next_member<'a>(
    alloc: Global,
    reader: &mut Reader<'_>,
    depth: usize,
    name: &str,
    reading: &mut Reading<'a>,
    file: File<'a>,
) -> Option<()>
    requires deep { 2 ≤ depth }
    ensures ok { IfSome result (λ _. (d : Data) × (converted of_json (value depth reader.old) ≡ Some (d, reader.new))
        × ((ms : Members) → MembersSorted ms → ReadSoFar reading.old ms → ReadSoFar reading.new (put name.now d ms))) }
    ensures shorter { IfSome result (λ _. length reader.new < length reader.old) }
{
    if reading.left.is_last(name) {
        put_next(alloc, reader, depth, name, &mut reading.whole, file)?;
        Some(())
    } else if pass(reader, depth) {
        Some(())
    } else {
        None
    }
}

/// Nothing was read yet.
fn nothing_read<'a>(alloc: Global, left: Left) -> Reading<'a>
    ensures { ReadSoFar result no_members }
{
    let frame = Map::new(alloc);
    let lists = no_lists(alloc);
    Reading {
        whole: Whole { frame, lists },
        left,
    }
}

/// The members up to the brace that closes the whole object, each nested at most so deep. Of equal names the last counts; of those
/// of which more is to come none is read. Where names were counted, those of the master are counted too.
pub(crate) fn members_of<'a>(
    alloc: Global,
    reader: &mut Reader<'_>,
    depth: usize,
    left: Left,
    file: &'a [u8],
) -> Option<Whole<'a>>
    requires deep { 2 ≤ depth }
    ensures ok { IfSome result (λ whole. (rows : List ℕ → Items)
        × (converted (λ ms. of_members ms no_members) (members (value depth) (length reader.old) reader.old) ≡ Some (with_lists rows (members_view whole.frame.entries), reader.new))
        × AllStand whole.lists (members_view whole.frame.entries) rows) }
    ensures sorted { IfSome result (λ whole. MembersSorted (members_view whole.frame.entries)) }
    ensures shorter { IfSome result (λ _. length reader.new < length reader.old) }
{
    let file = File {
        bytes: file,
        counts: left.has_names(),
    };
    let mut reading = nothing_read(alloc, left);
    'members: loop {
        let name = match reader.next_key() {
            Ok(Some(name)) => name,
            Ok(None) => break,
            Err(_) => return None,
        };
        next_member(alloc, reader, depth, name, &mut reading, file)?;
    }
    if reading.left.none_left() {
        let Reading { whole, .. } = reading;
        Some(whole)
    } else {
        None
    }
}

/// The parts of a text that is one object, whose names appear this often.
pub(crate) fn whole_of<'a>(alloc: Global, bytes: &'a [u8], left: Left) -> Option<Whole<'a>>
    ensures utf8 { IfSome result (λ _. IsUtf8 bytes.now) }
    ensures ok { IfSome result (λ whole. (rows : List ℕ → Items)
        × (read bytes.now ≡ Some (object (with_lists rows (members_view whole.frame.entries))))
        × AllStand whole.lists (members_view whole.frame.entries) rows) }
    ensures sorted { IfSome result (λ whole. MembersSorted (members_view whole.frame.entries)) }
{
    let Ok(text) = std::str::from_utf8(bytes) else {
        return None;
    };
    let mut scratch = Scratch::new(alloc);
    let Ok(mut reader) = Reader::new(text, &mut scratch) else {
        return None;
    };
    match reader.next() {
        Some(Token::BeginObject) => {}
        _ => return None,
    }
    let whole = members_of(alloc, &mut reader, 126, left, bytes)?;
    match reader.next() {
        Some(_) => None,
        None => Some(whole),
    }
}
