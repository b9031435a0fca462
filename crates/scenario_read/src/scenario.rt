//! A scenario from its JSON value: the names first, in the order of their table, then the number of ticks of the whole
//! run, then the tables of each cabinet.

ghost use Rattle.std.specs.Prelude.{◌≡◌, ◌≤◌, ◌*◌, length, IfOk};
ghost use Rattle.serde_json.specs.Data.{depth};
ghost use Rattle.serde_json.specs.Read.{max_depth};
ghost use Rattle.serde_json.specs.View.{view};
ghost use Rattle.scenario_data.specs.Content.{scenario_content};
ghost use Rattle.scenario_read.specs.Content.{scenario_of};
ghost use Rattle.scenario_read.specs.Faults.{product_faults, named_faults, faults};
ghost use Rattle.scenario_read.specs.Sorted.{Sorted};
ghost use Rattle.scenario_read.specs.Readers.{Answers, Says, content_from};
ghost use Rattle.scenario_read.specs.Answers.{Reads};

use crate::events::{Events, events_in};
use crate::members::{known_names, whole_at};
use crate::place::{Place, refuse_member};
use crate::setup::{Setup, setup_in};
use crate::tables::all_judged;
use crate::values::Unfit;
use scenario_data::{ReadFail, Scenario};
use serde_json::Value;
use std::alloc::Global;

/// What the names of a scenario say.
#[derive(Drop)]
pub struct Parts {
    pub version: u32,
    pub setup: Setup,
    pub events: Events,
}

/// What the names of a scenario say, refused at the first fault of a name or a value.
fn parts_in(alloc: Global, value: &Value) -> Result<Parts, ReadFail>
    ensures read { Answers result (named_faults (view value.now)) (λ parts. Says parts (view value.now)) }
    ensures few { IfOk result (λ parts. length parts.setup.cabinets.items ≤ 64 × (parts.setup.rounds ≤ 86400) × (parts.setup.ticks ≤ 600)) }
{
    known_names(
        alloc,
        value,
        Place::Top,
        &[
            "version",
            "rounds",
            "ticks",
            "community",
            "cabinets",
            "master",
            "inputs",
            "loads",
            "priority",
            "frames",
            "faults",
        ],
    )?;
    let version = whole_at(alloc, value, Place::Top, "version", 1, 2)?;
    let setup = match setup_in(alloc, value, version) {
        Ok(setup) => setup,
        Err(fail) => return Err(fail),
    };
    let events = match events_in(alloc, value, setup.rounds, setup.cabinets.len() as u32) {
        Ok(events) => events,
        Err(fail) => return Err(fail),
    };
    Ok(Parts {
        version,
        setup,
        events,
    })
}

/// Refuses a scenario whose cabinets would run for more than 55,296,000 ticks together.
fn within_ticks(alloc: Global, setup: &Setup) -> Result<(), ReadFail>
    requires cabinets { length setup.now.cabinets.items ≤ 64 }
    requires rounds { setup.now.rounds ≤ 86400 }
    requires ticks { setup.now.ticks ≤ 600 }
    ensures { Answers result (product_faults (length setup.now.cabinets.items * setup.now.rounds * setup.now.ticks)) (λ _. Unit {0}) }
{
    let ticks = setup.cabinets.len() as u64 * u64::from(setup.rounds) * u64::from(setup.ticks);
    if ticks <= 55_296_000 {
        Ok(())
    } else {
        Err(refuse_member(alloc, Place::Top, "rounds", Unfit::Beyond))
    }
}

/// A scenario of these parts.
pub fn scenario_from(parts: Parts, compact: Vec<u8>) -> Scenario
    ensures content { scenario_content result ≡ content_from parts compact.items }
    ensures text { result.compact ≡ compact }
{
    let Parts {
        version,
        setup,
        events,
    } = parts;
    let Setup {
        rounds,
        ticks,
        community,
        cabinets,
        master,
    } = setup;
    let Events {
        inputs,
        loads,
        priority,
        frames,
        faults,
    } = events;
    Scenario {
        version,
        rounds,
        ticks,
        community,
        cabinets,
        master,
        inputs,
        loads,
        priority,
        frames,
        faults,
        compact,
    }
}

/// What a scenario's value says, refused at its first fault.
pub fn checked_parts(alloc: Global, value: &Value) -> Result<Parts, ReadFail>
    ensures { Answers result (faults (view value.now)) (λ parts. Says parts (view value.now)) }
{
    let parts = parts_in(alloc, value)?;
    within_ticks(alloc, &parts.setup)?;
    match all_judged(&parts.setup.cabinets) {
        Ok(()) => Ok(parts),
        Err(fail) => Err(fail),
    }
}

/// A scenario from its JSON value, refused at its first fault.
pub(crate) fn scenario_in(alloc: Global, value: &Value) -> Result<Scenario, ReadFail>
    requires sorted { Sorted (view value.now) }
    requires nests { depth (view value.now) ≤ max_depth }
    ensures read { Answers result (faults (view value.now)) (λ s. scenario_content s ≡ scenario_of (view value.now)) }
    ensures back { IfOk result (λ s. Reads s.compact.items (view value.now)) }
{
    let parts = checked_parts(alloc, value)?;
    match value.to_vec(alloc) {
        Ok(compact) => Ok(scenario_from(parts, compact)),
        Err(_) => Err(ReadFail::NoMemory),
    }
}
