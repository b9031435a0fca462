//! The master of a scenario: its schedule is read entry by entry, and its other values become a tree, with an empty
//! list for the schedule. Of equal names the last counts; if they were counted beforehand, only the last is read.

ghost use Rattle.std.specs.Prelude.{◌≡◌, ◌<◌, ◌≤◌, ◌-◌, length, Some, IfSome, codes};
ghost use Rattle.json.specs.Json.{value, members};
ghost use Rattle.serde_json.specs.Data.{Data, Items, Members, array, no_items, no_members, object, put};
ghost use Rattle.serde_json.specs.Read.{of_json, of_members, converted};
ghost use Rattle.serde_json.specs.View.{view, members_view};
ghost use Rattle.scenario_read.specs.Sorted.{Sorted, MembersSorted};
ghost use Rattle.scenario_file.specs.Framing.{filled, scheduled, Enters, MasterStands};
ghost use Rattle.scenario_file.specs.Left.{MasterGrows, MasterReadSoFar};

use crate::found::{Found, Reach};
use crate::left::Left;
use crate::listed::{Listed, list_at};
use crate::trees::{is_full, put_member, tree};
use crate::written::Written;
use json::{Reader, Token};
use scenario_cut::pass;
use serde_json::{Map, Value};
use std::alloc::Global;

/// The names of a master.
pub(crate) const MASTER_NAMES: [&str; 6] = [
    "clock",
    "poll_every",
    "clock_every",
    "pattern_every",
    "retries",
    "schedule",
];

/// A master except its schedule, and this.
#[derive(Drop)]
pub(crate) struct Master<'a> {
    pub members: Map<String, Value>,
    pub schedule: Listed<'a>,
}

/// A master so far, and how often its names are still to come.
#[derive(Drop)]
pub(crate) struct MasterReading<'a> {
    pub master: Master<'a>,
    pub left: Left,
}

/// A schedule without entries.
fn no_schedule<'a>(alloc: Global) -> Listed<'a>
    ensures { MasterStands result no_members no_items }
{
    Listed {
        found: Found::Schedule(Vec::new(alloc)),
        text: Written::empty(alloc),
        some: false,
        last: Reach::none(),
    }
}

/// An empty list, which represents the items of a list.
pub(crate) fn no_entries(alloc: Global) -> Value
    ensures { view result ≡ array no_items }
{
    Value::Array(Vec::new(alloc))
}

/// What is at the next name of the master, nested at most so deep. A schedule comes in place of the one before.
fn member_at<'a>(
    alloc: Global,
    reader: &mut Reader<'_>,
    depth: usize,
    name: &str,
    schedule: &mut Listed<'a>,
    file: &'a [u8],
) -> Option<Value>
    requires deep { 1 ≤ depth }
    ensures ok { IfSome result (λ v. (d : Data) × (converted of_json (value depth reader.old) ≡ Some (d, reader.new))
        × ((ms : Members) → (ds : Items) → MasterStands schedule.old ms ds → (now : Items) × Enters (scheduled ds) (scheduled now) name.now d (view v) × MasterStands schedule.new (put name.now (view v) ms) now)) }
    ensures sorted { IfSome result (λ v. Sorted (view v)) }
    ensures shorter { IfSome result (λ _. length reader.new < length reader.old) }
{
    if name == "schedule" {
        let none = Found::Schedule(Vec::new(alloc));
        let listed = list_at(alloc, reader, none, depth - 1, file)?;
        *schedule = listed;
        Some(no_entries(alloc))
    } else {
        match tree(alloc, reader, depth, &[]) {
            Some(value) => Some(value),
            None => None,
        }
    }
}

/// Reads what is at the next name of the master, nested at most so deep, and puts what represents it into the members.
fn put_next<'a>(
    alloc: Global,
    reader: &mut Reader<'_>,
    depth: usize,
    name: &str,
    master: &mut Master<'a>,
    file: &'a [u8],
) -> Option<()>
    requires deep { 1 ≤ depth }
    ensures ok { IfSome result (λ _. (d : Data) × (converted of_json (value depth reader.old) ≡ Some (d, reader.new)) × MasterGrows master.old master.new name.now d) }
    ensures shorter { IfSome result (λ _. length reader.new < length reader.old) }
{
    let Ok(key) = String::from_str(alloc, name) else {
        return None;
    };
    if is_full(&master.members) {
        return None;
    }
    let value = member_at(alloc, reader, depth, name, &mut master.schedule, file)?;
    put_member(&mut master.members, key, value)?;
    Some(())
}

/// Reads what is at the next name of the master, nested at most so deep, where the name comes for the last time, or
/// else skips it.
fn next_member<'a>(
    alloc: Global,
    reader: &mut Reader<'_>,
    depth: usize,
    name: &str,
    reading: &mut MasterReading<'a>,
    file: &'a [u8],
) -> Option<()>
    requires deep { 1 ≤ depth }
    ensures ok { IfSome result (λ _. (d : Data) × (converted of_json (value depth reader.old) ≡ Some (d, reader.new))
        × ((ms : Members) → MembersSorted ms → MasterReadSoFar reading.old ms → MasterReadSoFar reading.new (put name.now d ms))) }
    ensures shorter { IfSome result (λ _. length reader.new < length reader.old) }
{
    if reading.left.is_last(name) {
        put_next(alloc, reader, depth, name, &mut reading.master, file)?;
        Some(())
    } else if pass(reader, depth) {
        Some(())
    } else {
        None
    }
}

/// Nothing of a master was read yet.
fn nothing_read<'a>(alloc: Global, left: Left) -> MasterReading<'a>
    ensures { MasterReadSoFar result no_members }
{
    let members = Map::new(alloc);
    let schedule = no_schedule(alloc);
    MasterReading {
        master: Master { members, schedule },
        left,
    }
}

/// The members up to the brace that closes the master, each nested at most so deep. Of equal names the last counts; of
/// those of which more is to come none is read. Nothing even if fewer come than were counted.
fn members_of<'a>(
    alloc: Global,
    reader: &mut Reader<'_>,
    depth: usize,
    left: Left,
    file: &'a [u8],
) -> Option<Master<'a>>
    requires deep { 1 ≤ depth }
    ensures ok { IfSome result (λ master. (ds : Items)
        × (converted (λ ms. of_members ms no_members) (members (value depth) (length reader.old) reader.old) ≡ Some (filled (scheduled ds) (members_view master.members.entries), reader.new))
        × MasterStands master.schedule (members_view master.members.entries) ds) }
    ensures sorted { IfSome result (λ master. MembersSorted (members_view master.members.entries)) }
    ensures shorter { IfSome result (λ _. length reader.new < length reader.old) }
{
    let mut reading = nothing_read(alloc, left);
    'members: loop {
        let name = match reader.next_key() {
            Ok(Some(name)) => name,
            Ok(None) => break,
            Err(_) => return None,
        };
        next_member(alloc, reader, depth, name, &mut reading, file)?;
    }
    if reading.left.none_left() {
        let MasterReading { master, .. } = reading;
        Some(master)
    } else {
        None
    }
}

/// The master, where an object is the reader's next value, nested at most so deep, whose names appear this often.
/// Nothing even if fewer come.
pub(crate) fn master_at<'a>(
    alloc: Global,
    reader: &mut Reader<'_>,
    depth: usize,
    left: Left,
    file: &'a [u8],
) -> Option<Master<'a>>
    requires deep { 2 ≤ depth }
    ensures ok { IfSome result (λ master. (ds : Items)
        × (converted of_json (value depth reader.old) ≡ Some (object (filled (scheduled ds) (members_view master.members.entries)), reader.new))
        × MasterStands master.schedule (members_view master.members.entries) ds) }
    ensures sorted { IfSome result (λ master. MembersSorted (members_view master.members.entries)) }
    ensures shorter { IfSome result (λ _. length reader.new < length reader.old) }
{
    match reader.next() {
        Some(Token::BeginObject) => match members_of(alloc, reader, depth - 1, left, file) {
            Some(master) => Some(master),
            None => None,
        },
        _ => None,
    }
}
