//! Values that are put at names of an object, as the schedule at its place in the master of a scenario.

ghost use Rattle.std.specs.Prelude.{◌≡◌, codes, unwrap_or, option_map, Some, IfOk, OnOk};
ghost use Rattle.serde_json.specs.Data.{null, object, no_members, put};
ghost use Rattle.serde_json.specs.Find.{get_member};
ghost use Rattle.serde_json.specs.View.{view, members_view};
ghost use Rattle.scenario_read.specs.Fields.{either};
ghost use Rattle.scenario_file.specs.Source.{with_member, master_and};

use serde_json::{Map, Value};
use sig_types::NoMemory;
use std::alloc::Global;

/// Puts a value at a name, and returns the earlier one.
pub fn put_named(
    alloc: Global,
    members: &mut Map<String, Value>,
    name: &str,
    value: Value,
) -> Result<Option<Value>, NoMemory>
    ensures old { IfOk result (λ old. option_map view old ≡ get_member name.now (members_view members.old.entries)) }
    ensures put { OnOk result (members_view members.new.entries ≡ put name.now (view value) (members_view members.old.entries)) }
{
    let key = match String::from_str(alloc, name) {
        Ok(key) => key,
        Err(_) => return Err(NoMemory),
    };
    match members.insert(key, value) {
        Ok(old) => Ok(old),
        Err(_) => Err(NoMemory),
    }
}

/// What is at a name, or else an object without names.
fn or_empty(alloc: Global, value: Option<Value>) -> Value
    ensures { view result ≡ unwrap_or (either (option_map view value) (Some (object no_members))) null }
{
    match value {
        Some(value) => value,
        None => Value::Object(Map::new(alloc)),
    }
}

/// A master with this schedule.
fn master_in(alloc: Global, master: Value, schedule: Value) -> Result<Value, NoMemory>
    ensures { IfOk result (λ v. view v ≡ with_member (codes "schedule") (view schedule) (view master)) }
{
    match master {
        Value::Object(mut members) => {
            match put_named(alloc, &mut members, "schedule", schedule) {
                Ok(held) => {
                    drop(held);
                    Ok(Value::Object(members))
                }
                Err(NoMemory) => Err(NoMemory),
            }
        }
        other => Ok(other),
    }
}

/// Puts a schedule into the master of a scenario with these members.
pub fn put_in_master(
    alloc: Global,
    members: &mut Map<String, Value>,
    schedule: Value,
) -> Result<(), NoMemory>
    ensures { OnOk result (members_view members.new.entries ≡ put (codes "master") (master_and (view schedule) (object (members_view members.old.entries))) (members_view members.old.entries)) }
{
    let old = match put_named(alloc, members, "master", Value::Null) {
        Ok(old) => old,
        Err(NoMemory) => return Err(NoMemory),
    };
    let master = match master_in(alloc, or_empty(alloc, old), schedule) {
        Ok(master) => master,
        Err(NoMemory) => return Err(NoMemory),
    };
    match put_named(alloc, members, "master", master) {
        Ok(held) => {
            drop(held);
            Ok(())
        }
        Err(NoMemory) => Err(NoMemory),
    }
}
