//! The master of a scenario: how often it polls and sets, and its schedule.

ghost use Rattle.std.specs.Prelude.{◌≡◌, codes};
ghost use Rattle.serde_json.specs.View.{view, items_view};
ghost use Rattle.scenario_data.specs.Content.{master_content};
ghost use Rattle.scenario_read.specs.Paths.{then_named};
ghost use Rattle.scenario_read.specs.Kinds.{each};
ghost use Rattle.scenario_read.specs.Fields.{held, field_faults, object_of};
ghost use Rattle.scenario_read.specs.Table.{entry_shape, schedule, master_shape, master};
ghost use Rattle.scenario_read.specs.Content.{each_of, list_in, entry_of, master_of};
ghost use Rattle.scenario_read.specs.Readers.{steps_of, Answers};

use crate::members::{known_names, whole_at, whole_or_at};
use crate::place::{Place, refuse_member};
use crate::values::list_of;
use scenario_data::{Entry, MasterSetup, ReadFail};
use serde_json::Value;
use std::alloc::Global;

/// One entry of the schedule.
fn entry_in(alloc: Global, object: &Value, entry: usize) -> Result<Entry, ReadFail>
    ensures { Answers result (object_of entry_shape (steps_of (Place.Entry entry)) (view object.now)) (λ e. e ≡ entry_of (view object.now)) }
{
    let place = Place::Entry(entry);
    known_names(alloc, object, place, &["second", "section", "pattern"])?;
    let second = whole_at(alloc, object, place, "second", 0, 86_399)?;
    let section = whole_at(alloc, object, place, "section", 1, 8)?;
    let pattern = whole_at(alloc, object, place, "pattern", 0, 255)?;
    Ok(Entry {
        second,
        section: section as u8,
        pattern: pattern as u8,
    })
}

/// The entries of a schedule, in order.
fn entries_in(alloc: Global, items: &Vec<Value>) -> Result<Vec<Entry>, ReadFail>
    ensures { Answers result (each (object_of entry_shape) (then_named (steps_of Place.Master) (codes "schedule")) 0 (items_view items.now.items))
        (λ found. found.items ≡ each_of entry_of (items_view items.now.items)) }
{
    let mut found = Vec::new(alloc);
    for place in 0..items.len() {
        match entry_in(alloc, &items[place], place) {
            Ok(entry) => match found.push(entry) {
                Ok(()) => {}
                Err(_) => return Err(ReadFail::NoMemory),
            },
            Err(fail) => return Err(fail),
        }
    }
    Ok(found)
}

/// The schedule of a master; empty by default.
#[tactic(auto, using(crate::proofs::Refusing::refuses_more))]
fn schedule_at(alloc: Global, object: &Value) -> Result<Vec<Entry>, ReadFail>
    ensures { Answers result (field_faults (steps_of Place.Master) (view object.now) schedule)
        (λ found. found.items ≡ list_in entry_of (held schedule (view object.now))) }
{
    match object.get("schedule") {
        None => Ok(Vec::new(alloc)),
        Some(value) => match list_of(value, 0, 1000) {
            Ok(items) => entries_in(alloc, items),
            Err(unfit) => Err(refuse_member(alloc, Place::Master, "schedule", unfit)),
        },
    }
}

/// The master that an object says.
fn master_in(alloc: Global, object: &Value) -> Result<MasterSetup, ReadFail>
    ensures { Answers result (object_of master_shape (steps_of Place.Master) (view object.now)) (λ m. master_content m ≡ master_of (view object.now)) }
{
    let place = Place::Master;
    known_names(
        alloc,
        object,
        place,
        &[
            "clock",
            "poll_every",
            "clock_every",
            "pattern_every",
            "retries",
            "schedule",
        ],
    )?;
    let clock = whole_or_at(alloc, object, place, "clock", 0, 863_999, 0)?;
    let poll_every = whole_or_at(alloc, object, place, "poll_every", 0, 86_400, 0)?;
    let clock_every = whole_or_at(alloc, object, place, "clock_every", 0, 86_400, 0)?;
    let pattern_every = whole_or_at(alloc, object, place, "pattern_every", 0, 86_400, 0)?;
    let retries = whole_or_at(alloc, object, place, "retries", 1, 10, 3)?;
    let schedule = schedule_at(alloc, object)?;
    Ok(MasterSetup {
        clock,
        poll_every,
        clock_every,
        pattern_every,
        retries,
        schedule,
    })
}

/// The master of a scenario; by default one that neither polls nor sets.
pub fn master_at(alloc: Global, object: &Value) -> Result<MasterSetup, ReadFail>
    ensures { Answers result (field_faults (steps_of Place.Top) (view object.now) master) (λ m. master_content m ≡ master_of (held master (view object.now))) }
{
    match object.get("master") {
        Some(value) => master_in(alloc, value),
        None => Ok(MasterSetup {
            clock: 0,
            poll_every: 0,
            clock_every: 0,
            pattern_every: 0,
            retries: 3,
            schedule: Vec::new(alloc),
        }),
    }
}
