//! The text of a result from the parts of its scenario's text, without a tree of it: the calls go after the text of the
//! inputs one by one.

ghost use Rattle.std.specs.Prelude.{◌≡◌, option_map, IfOk, OnOk};
ghost use Rattle.serde_json.specs.Data.{Data};
ghost use Rattle.scenario_file.specs.Source.{Writes};
ghost use Rattle.field_file.specs.Written.{with_inputs, with_schedule, with_traffic};
ghost use Rattle.field_file.specs.Texts.{IsLineOf};

use crate::traffic::Traffic;
use crate::written::{call_in, entry_values};
use detector_bank::Call;
use scenario_data::Entry;
use scenario_file::ScenarioText;
use sig_types::NoMemory;
use std::alloc::Global;

/// Adds calls after the inputs.
fn add_calls(alloc: Global, text: &mut ScenarioText<'_>, calls: &Vec<Call>) -> Result<(), NoMemory>
    ensures { OnOk result ((s : Data) → Writes text.old s → Writes text.new (with_inputs calls.now.items s)) }
{
    match text.begin_inputs(alloc) {
        Some(()) => {}
        None => return Err(NoMemory),
    }
    for i in 0..calls.len() {
        let value = match call_in(alloc, &calls[i]) {
            Ok(value) => value,
            Err(_) => return Err(NoMemory),
        };
        match text.add_input(alloc, &value) {
            Some(()) => {}
            None => return Err(NoMemory),
        }
    }
    Ok(())
}

/// Puts a schedule, if there is one, in place of the master's.
fn put_entries(
    alloc: Global,
    text: &mut ScenarioText<'_>,
    schedule: &Option<Vec<Entry>>,
) -> Result<(), NoMemory>
    ensures { OnOk result ((s : Data) → Writes text.old s → Writes text.new (with_schedule (option_map (λ v. v.items) schedule.now) s)) }
{
    let entries = match schedule {
        None => return Ok(()),
        Some(entries) => entries,
    };
    let values = match entry_values(alloc, entries) {
        Ok(values) => values,
        Err(NoMemory) => return Err(NoMemory),
    };
    match text.put_schedule(alloc, &values) {
        Some(()) => Ok(()),
        None => Err(NoMemory),
    }
}

/// The compact text and a newline, with room for N bytes.
fn line_of(alloc: Global, text: &ScenarioText<'_>, room: usize) -> Result<Vec<u8>, NoMemory>
    ensures { IfOk result (λ line. (s : Data) → Writes text.now s → IsLineOf line.items s) }
{
    let whole = match text.write(alloc, room) {
        Some(whole) => whole,
        None => return Err(NoMemory),
    };
    let mut line = whole.into_bytes();
    match line.push(b'\n') {
        Ok(()) => Ok(line),
        Err(_) => Err(NoMemory),
    }
}

/// The text of the scenario with this traffic, with room for N bytes.
pub(crate) fn text_in_parts(
    alloc: Global,
    mut text: ScenarioText<'_>,
    traffic: &Traffic,
    room: usize,
) -> Result<Vec<u8>, NoMemory>
    ensures { IfOk result (λ line. (s : Data) → Writes text.entry s → IsLineOf line.items (with_traffic traffic.now.calls.items (option_map (λ v. v.items) traffic.now.schedule) s)) }
{
    match put_entries(alloc, &mut text, &traffic.schedule) {
        Ok(()) => {}
        Err(NoMemory) => return Err(NoMemory),
    }
    match add_calls(alloc, &mut text, &traffic.calls) {
        Ok(()) => {}
        Err(NoMemory) => return Err(NoMemory),
    }
    match line_of(alloc, &text, room) {
        Ok(line) => Ok(line),
        Err(NoMemory) => Err(NoMemory),
    }
}
