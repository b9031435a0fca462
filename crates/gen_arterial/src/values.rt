//! The generated scenario as a JSON value, and its compact text.

ghost use Rattle.std.specs.Prelude.{◌≡◌, ℕ, map, IfOk, OnOk};
ghost use Rattle.serde_json.specs.Data.{array, put};
ghost use Rattle.serde_json.specs.View.{view, members_view};
ghost use Rattle.sig_types.specs.declared.frame.Field.{Field as FieldRow};
ghost use Rattle.serde_json.specs.Written.{compact_text};
ghost use Rattle.scenario_read.specs.Answers.{Reads};
ghost use Rattle.gen_arterial.specs.Written.{cabinet_value, load_value, field_value, input_value, lost_value, items_from, whole, master_value, lists_members, whole_value, scenario_value};
ghost use Rattle.gen_arterial.specs.Drawing.{setup_cabinet_value, setup_load_value, AreDrawn};

use crate::drawing::{Drawn, Setup};
use scenario_data::{Fault, Input};
use serde_json::{Map, Value, json};
use sig_types::{Field, NoMemory};
use std::alloc::{AllocError, Global};

/// A cabinet.
fn cabinet_in(alloc: Global, setup: &Setup) -> Result<Value, AllocError>
    ensures { IfOk result (λ v. view v ≡ cabinet_value setup.now.offset setup.now.correction) }
{
    json!(in alloc; {
        "base": "std8",
        "cells": [["pattern", 1, 3, setup.offset], ["unit", 1, setup.correction]],
        "pattern": 1
    })
}

/// The load of a cabinet.
fn load_in(alloc: Global, setup: &Setup) -> Result<Value, AllocError>
    ensures { IfOk result (λ v. view v ≡ load_value setup.now.load_round setup.now.cabinet setup.now.load_maximum) }
{
    json!(in alloc; {
        "cabinet": setup.cabinet,
        "cells": [["phase", 2, 6, setup.load_maximum]],
        "round": setup.load_round
    })
}

/// A detector that turns on or off.
fn detector_in(
    alloc: Global,
    round: u32,
    cabinet: u32,
    phase: u8,
    on: bool,
) -> Result<Value, AllocError>
    ensures { IfOk result (λ v. view v ≡ field_value round cabinet (FieldRow.Veh phase on)) }
{
    json!(in alloc; {"cabinet": cabinet, "on": on, "round": round, "veh": phase})
}

/// A push button that is pressed.
fn button_in(alloc: Global, round: u32, cabinet: u32, phase: u8) -> Result<Value, AllocError>
    ensures { IfOk result (λ v. view v ≡ field_value round cabinet (FieldRow.Ped phase)) }
{
    json!(in alloc; {"cabinet": cabinet, "ped": phase, "round": round})
}

/// A preempt input that turns on or off.
fn preempt_in(
    alloc: Global,
    round: u32,
    cabinet: u32,
    number: u8,
    on: bool,
) -> Result<Value, AllocError>
    ensures { IfOk result (λ v. view v ≡ field_value round cabinet (FieldRow.Preempt number on)) }
{
    json!(in alloc; {"cabinet": cabinet, "on": on, "preempt": number, "round": round})
}

/// An input of a round at a cabinet.
fn field_in(alloc: Global, round: u32, cabinet: u32, field: Field) -> Result<Value, AllocError>
    ensures { IfOk result (λ v. view v ≡ field_value round cabinet field) }
{
    match field {
        Field::Veh { phase, on } => detector_in(alloc, round, cabinet, phase, on),
        Field::Ped { phase } => button_in(alloc, round, cabinet, phase),
        Field::Preempt { number, on } => preempt_in(alloc, round, cabinet, number, on),
    }
}

/// An input.
fn input_in(alloc: Global, input: &Input) -> Result<Value, AllocError>
    ensures { IfOk result (λ v. view v ≡ input_value input.now) }
{
    field_in(alloc, input.round, input.cabinet, input.field)
}

/// A lost poll.
fn lost_in(alloc: Global, fault: &Fault) -> Result<Value, AllocError>
    ensures { IfOk result (λ v. view v ≡ lost_value fault.now) }
{
    json!(in alloc; {
        "cabinet": fault.cabinet,
        "kind": "lose",
        "round": fault.round,
        "stream": "poll",
        "way": "down"
    })
}

/// The cabinets.
fn cabinets_in(alloc: Global, setups: &[Setup]) -> Result<Value, AllocError>
    ensures { IfOk result (λ v. view v ≡ array (items_from (map setup_cabinet_value setups.now))) }
{
    let mut values = Vec::new(alloc);
    for setup in setups {
        serde_json::push(&mut values, cabinet_in(alloc, setup)?)?;
    }
    Ok(Value::Array(values))
}

/// The loads.
fn loads_in(alloc: Global, setups: &[Setup]) -> Result<Value, AllocError>
    ensures { IfOk result (λ v. view v ≡ array (items_from (map setup_load_value setups.now))) }
{
    let mut values = Vec::new(alloc);
    for setup in setups {
        serde_json::push(&mut values, load_in(alloc, setup)?)?;
    }
    Ok(Value::Array(values))
}

/// The inputs.
fn inputs_in(alloc: Global, inputs: &[Input]) -> Result<Value, AllocError>
    ensures { IfOk result (λ v. view v ≡ array (items_from (map input_value inputs.now))) }
{
    let mut values = Vec::new(alloc);
    for input in inputs {
        serde_json::push(&mut values, input_in(alloc, input)?)?;
    }
    Ok(Value::Array(values))
}

/// The lost polls.
fn faults_in(alloc: Global, faults: &[Fault]) -> Result<Value, AllocError>
    ensures { IfOk result (λ v. view v ≡ array (items_from (map lost_value faults.now))) }
{
    let mut values = Vec::new(alloc);
    for fault in faults {
        serde_json::push(&mut values, lost_in(alloc, fault)?)?;
    }
    Ok(Value::Array(values))
}

/// What the master does.
fn master_in(alloc: Global) -> Result<Value, AllocError>
    ensures { IfOk result (λ v. view v ≡ master_value) }
{
    json!(in alloc; {
        "pattern_every": 60,
        "poll_every": 1,
        "retries": 3,
        "schedule": [{"pattern": 1, "second": 0, "section": 1}]
    })
}

/// Puts a value at a name.
fn put_named(
    alloc: Global,
    members: &mut Map<String, Value>,
    name: &str,
    value: Value,
) -> Result<(), NoMemory>
    ensures { OnOk result (members_view members.new.entries ≡ put name.now (view value) (members_view members.old.entries)) }
{
    let key = match String::from_str(alloc, name) {
        Ok(key) => key,
        Err(_) => return Err(NoMemory),
    };
    match members.insert(key, value) {
        Ok(old) => {
            drop(old);
            Ok(())
        }
        Err(_) => Err(NoMemory),
    }
}

/// A number.
fn number_in(n: u32) -> Value
    ensures { view result ≡ whole n }
{
    Value::from(n)
}

/// The lists of a scenario.
#[derive(Drop)]
struct Lists {
    cabinets: Value,
    faults: Value,
    inputs: Value,
    loads: Value,
}

/// The members of a scenario with these lists.
fn members_of(alloc: Global, lists: Lists) -> Result<Map<String, Value>, NoMemory>
    ensures { IfOk result (λ m. members_view m.entries ≡ lists_members (view lists.cabinets) (view lists.faults) (view lists.inputs) (view lists.loads)) }
{
    let mut members = Map::new(alloc);
    put_named(alloc, &mut members, "cabinets", lists.cabinets)?;
    put_named(alloc, &mut members, "faults", lists.faults)?;
    put_named(alloc, &mut members, "inputs", lists.inputs)?;
    put_named(alloc, &mut members, "loads", lists.loads)?;
    Ok(members)
}

/// The whole scenario of these lists.
fn whole_in(alloc: Global, lists: Lists, rounds: u32) -> Result<Value, NoMemory>
    ensures { IfOk result (λ v. view v ≡ whole_value (view lists.cabinets) (view lists.faults) (view lists.inputs) (view lists.loads) rounds) }
{
    let master = match master_in(alloc) {
        Ok(master) => master,
        Err(_) => return Err(NoMemory),
    };
    let mut members = members_of(alloc, lists)?;
    put_named(alloc, &mut members, "master", master)?;
    put_named(alloc, &mut members, "rounds", number_in(rounds))?;
    put_named(alloc, &mut members, "ticks", number_in(100))?;
    put_named(alloc, &mut members, "version", number_in(1))?;
    Ok(Value::Object(members))
}

/// The value of all that was drawn for that many rounds.
fn value_of(alloc: Global, drawn: &Drawn, rounds: u32) -> Result<Value, NoMemory>
    ensures { IfOk result (λ v. (seed cabinets : ℕ) → AreDrawn drawn.now seed cabinets rounds → view v ≡ scenario_value seed cabinets rounds) }
{
    let cabinets = match cabinets_in(alloc, drawn.setups.as_slice()) {
        Ok(cabinets) => cabinets,
        Err(_) => return Err(NoMemory),
    };
    let loads = match loads_in(alloc, drawn.setups.as_slice()) {
        Ok(loads) => loads,
        Err(_) => return Err(NoMemory),
    };
    let inputs = match inputs_in(alloc, drawn.rounds.inputs.as_slice()) {
        Ok(inputs) => inputs,
        Err(_) => return Err(NoMemory),
    };
    let faults = match faults_in(alloc, drawn.rounds.faults.as_slice()) {
        Ok(faults) => faults,
        Err(_) => return Err(NoMemory),
    };
    let lists = Lists {
        cabinets,
        faults,
        inputs,
        loads,
    };
    match whole_in(alloc, lists, rounds) {
        Ok(whole) => Ok(whole),
        Err(NoMemory) => Err(NoMemory),
    }
}

/// The compact text of all that was generated for this number of rounds; it is read as that value.
pub fn compact_of(alloc: Global, drawn: &Drawn, rounds: u32) -> Result<Vec<u8>, NoMemory>
    ensures text { IfOk result (λ text. (seed cabinets : ℕ) → AreDrawn drawn.now seed cabinets rounds → text.items ≡ compact_text (scenario_value seed cabinets rounds)) }
    ensures reads { IfOk result (λ text. (seed cabinets : ℕ) → AreDrawn drawn.now seed cabinets rounds → Reads text.items (scenario_value seed cabinets rounds)) }
{
    let value = match value_of(alloc, drawn, rounds) {
        Ok(value) => value,
        Err(NoMemory) => return Err(NoMemory),
    };
    let written = value.to_vec(alloc);
    drop(value);
    match written {
        Ok(text) => Ok(text),
        Err(_) => Err(NoMemory),
    }
}
