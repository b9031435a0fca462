//! The result of a field file as a JSON value.

ghost use Rattle.std.specs.Prelude.{◌≡◌, ◌++◌, map, unwrap_or, option_map, Some, IfOk, OnOk};
ghost use Rattle.serde_json.specs.Data.{null, array, no_items, object};
ghost use Rattle.serde_json.specs.View.{view, items_of, members_view};
ghost use Rattle.scenario_read.specs.Kinds.{items_in};
ghost use Rattle.scenario_read.specs.Fields.{either};
ghost use Rattle.field_file.specs.Written.{call_value, entry_value, with_inputs, with_schedule, with_traffic};

use detector_bank::Call;
use scenario_data::Entry;
use scenario_file::{put_in_master, put_named};
use serde_json::{Map, Value, json};
use sig_types::NoMemory;
use std::alloc::{AllocError, Global};

/// A call that begins or ends, as an input.
pub(crate) fn call_in(alloc: Global, call: &Call) -> Result<Value, AllocError>
    ensures { IfOk result (λ v. view v ≡ call_value call.now) }
{
    json!(in alloc; {"cabinet": call.cabinet, "on": call.on, "round": call.round, "veh": call.phase})
}

/// An entry of a schedule.
fn entry_in(alloc: Global, entry: &Entry) -> Result<Value, AllocError>
    ensures { IfOk result (λ v. view v ≡ entry_value entry.now) }
{
    json!(in alloc; {"pattern": entry.pattern, "second": entry.second, "section": entry.section})
}

/// Puts calls after the values of a list.
fn push_calls(alloc: Global, values: &mut Vec<Value>, calls: &Vec<Call>) -> Result<(), NoMemory>
    ensures { OnOk result (map view values.new.items ≡ map view values.old.items ++ map call_value calls.now.items) }
{
    for i in 0..calls.len() {
        let value = match call_in(alloc, &calls[i]) {
            Ok(value) => value,
            Err(_) => return Err(NoMemory),
        };
        if values.push(value).is_err() {
            return Err(NoMemory);
        }
    }
    Ok(())
}

/// The entries of a schedule as values.
pub(crate) fn entry_values(alloc: Global, entries: &Vec<Entry>) -> Result<Vec<Value>, NoMemory>
    ensures { IfOk result (λ values. map view values.items ≡ map entry_value entries.now.items) }
{
    let mut values = Vec::new(alloc);
    for i in 0..entries.len() {
        let value = match entry_in(alloc, &entries[i]) {
            Ok(value) => value,
            Err(_) => return Err(NoMemory),
        };
        if values.push(value).is_err() {
            return Err(NoMemory);
        }
    }
    Ok(values)
}

/// The values of a list; none of anything else.
fn values_of(alloc: Global, value: Option<Value>) -> Vec<Value>
    ensures { items_of (map view result.items) ≡ items_in (unwrap_or (either (option_map view value) (Some (array no_items))) null) }
{
    match value {
        Some(Value::Array(values)) => values,
        _ => Vec::new(alloc),
    }
}

/// Puts calls after the inputs of a scenario.
fn put_inputs(
    alloc: Global,
    members: &mut Map<String, Value>,
    calls: &Vec<Call>,
) -> Result<(), NoMemory>
    ensures { OnOk result (object (members_view members.new.entries) ≡ with_inputs calls.now.items (object (members_view members.old.entries))) }
{
    let old = match put_named(alloc, members, "inputs", Value::Null) {
        Ok(old) => old,
        Err(NoMemory) => return Err(NoMemory),
    };
    let mut values = values_of(alloc, old);
    match push_calls(alloc, &mut values, calls) {
        Ok(()) => {}
        Err(NoMemory) => return Err(NoMemory),
    }
    match put_named(alloc, members, "inputs", Value::Array(values)) {
        Ok(held) => {
            drop(held);
            Ok(())
        }
        Err(NoMemory) => Err(NoMemory),
    }
}

/// Puts a schedule into the master of a scenario.
fn put_schedule(
    alloc: Global,
    members: &mut Map<String, Value>,
    schedule: &Vec<Entry>,
) -> Result<(), NoMemory>
    ensures { OnOk result (object (members_view members.new.entries) ≡ with_schedule (Some schedule.now.items) (object (members_view members.old.entries))) }
{
    let entries = entry_values(alloc, schedule)?;
    put_in_master(alloc, members, Value::Array(entries))
}

/// Puts a schedule, if there is one, and calls into a scenario.
fn put_traffic(
    alloc: Global,
    members: &mut Map<String, Value>,
    calls: &Vec<Call>,
    schedule: &Option<Vec<Entry>>,
) -> Result<(), NoMemory>
    ensures { OnOk result (object (members_view members.new.entries) ≡ with_traffic calls.now.items (option_map (λ s. s.items) schedule.now) (object (members_view members.old.entries))) }
{
    match schedule {
        None => put_inputs(alloc, members, calls),
        Some(entries) => {
            put_schedule(alloc, members, entries)?;
            put_inputs(alloc, members, calls)
        }
    }
}

/// A scenario with these calls after its inputs, and with this schedule, if there is one.
pub(crate) fn result_in(
    alloc: Global,
    scenario: Value,
    calls: &Vec<Call>,
    schedule: &Option<Vec<Entry>>,
) -> Result<Value, NoMemory>
    ensures { IfOk result (λ v. view v ≡ with_traffic calls.now.items (option_map (λ s. s.items) schedule.now) (view scenario)) }
{
    match scenario {
        Value::Object(mut members) => {
            put_traffic(alloc, &mut members, calls, schedule)?;
            Ok(Value::Object(members))
        }
        other => Ok(other),
    }
}
