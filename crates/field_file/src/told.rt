//! The answer to a field file: the text of its result, or its first fault. A valid field file is read in parts, and the
//! first fault of most others is found, both with little memory; the value of any other decides.

ghost use Rattle.std.specs.Prelude.{◌≡◌, ◌≤◌, ℕ, List, [], codes, option_map, Some, IfOk, IfErr};
ghost use Rattle.serde_json.specs.Data.{Data, depth};
ghost use Rattle.serde_json.specs.Find.{get};
ghost use Rattle.serde_json.specs.Read.{max_depth};
ghost use Rattle.serde_json.specs.View.{view};
ghost use Rattle.scenario_read.specs.Fields.{held};
ghost use Rattle.scenario_read.specs.Sorted.{Sorted};
ghost use Rattle.scenario_read.specs.Answers.{Reads, OnRefusal};
ghost use Rattle.scenario_read.specs.Readers.{Answers};
ghost use Rattle.scenario_checked.specs.Inside.{scenario};
ghost use Rattle.scenario_file.specs.Source.{Writes};
ghost use Rattle.field_read.specs.Content.{field_content, field_of};
ghost use Rattle.field_read.specs.Checks.{file_faults};
ghost use Rattle.field_read.specs.Answers.{IsFirstFieldFault};
ghost use Rattle.field_file.specs.Written.{with_traffic};
ghost use Rattle.field_file.specs.FieldAnswer.{bytes_faults, result_faults, WasRead, TellsOf, TellsResult, IsFirstResultFault};
ghost use Rattle.field_file.specs.Texts.{IsTextOf};

use crate::parts::text_in_parts;
use crate::traffic::{Traffic, at_most, traffic_of};
use crate::written::result_in;
use detector_bank::Call;
use field_read::{Field, Listed, Source, first_fault, listed, listed_again, read_source};
use scenario_data::{Entry, ReadFail};
use scenario_file::ScenarioText;
use serde_json::Value;
use sig_types::NoMemory;
use std::alloc::Global;

/// The compact text of a value and a newline.
fn text_of(alloc: Global, value: &Value) -> Result<Vec<u8>, NoMemory>
    ensures { IfOk result (λ text. IsTextOf text.items (view value.now)) }
{
    let mut text = match value.to_vec(alloc) {
        Ok(text) => text,
        Err(_) => return Err(NoMemory),
    };
    match text.push(b'\n') {
        Ok(()) => Ok(text),
        Err(_) => Err(NoMemory),
    }
}

/// The scenario of a field file, taken out of its value.
fn scenario_out(mut value: Value) -> Option<Value>
    ensures { option_map view result ≡ get (codes "scenario") (view value) }
{
    match value.get_mut("scenario") {
        Some(scenario) => Some(scenario.take()),
        None => None,
    }
}

/// The text of a scenario with these calls and this schedule.
fn traffic_text(
    alloc: Global,
    value: Value,
    calls: &Vec<Call>,
    schedule: &Option<Vec<Entry>>,
) -> Result<Vec<u8>, NoMemory>
    ensures { IfOk result (λ text. (s : Data) → get (codes "scenario") (view value) ≡ Some s → IsTextOf text.items (with_traffic calls.now.items (option_map (λ s. s.items) schedule.now) s)) }
{
    let scenario = match scenario_out(value) {
        Some(scenario) => scenario,
        None => return Ok(Vec::new(alloc)),
    };
    let whole = result_in(alloc, scenario, calls, schedule)?;
    text_of(alloc, &whole)
}

/// The text of a result, refused where it has too many bytes.
fn sized(alloc: Global, text: Vec<u8>) -> Result<Vec<u8>, ReadFail>
    ensures { Answers result (bytes_faults text.items) (λ same. same.items ≡ text.items) }
{
    at_most(alloc, "scenario", text.len() as u64, 16_777_216)?;
    Ok(text)
}

/// The text of a field file's result from its value, refused at the first fault of its size.
fn told_of(alloc: Global, value: Value, field: Field) -> Result<Vec<u8>, ReadFail>
    requires sorted { Sorted (view value) }
    requires nests { depth (view value) ≤ max_depth }
    requires read { WasRead (field_content field) (view value) }
    ensures { Answers result (result_faults (view value)) (λ text. TellsOf (view value) text.items) }
{
    let traffic = match traffic_of(alloc, &field) {
        Ok(traffic) => traffic,
        Err(fail) => return Err(fail),
    };
    let text = match traffic_text(alloc, value, &traffic.calls, &traffic.schedule) {
        Ok(text) => text,
        Err(NoMemory) => return Err(ReadFail::NoMemory),
    };
    match sized(alloc, text) {
        Ok(text) => Ok(text),
        Err(fail) => Err(fail),
    }
}

/// How many bytes a result may have: those of its scenario's text, and some for each call.
fn room_for(field: &Field, traffic: &Traffic) -> usize {
    let more = traffic.calls.len().saturating_mul(64);
    field.scenario.compact.len().saturating_add(more)
}

/// The same from the parts of its scenario's text, of a field file that was read so.
fn told_in_parts(alloc: Global, field: Field, text: ScenarioText<'_>) -> Result<Vec<u8>, ReadFail>
    requires read { (d : Data) × WasRead (field_content field) d }
    ensures { (bytes : List ℕ) (d : Data) → Reads bytes d → WasRead (field_content field) d → Writes text.entry (held scenario d)
        → Answers result (result_faults d) (λ told. TellsOf d told.items) }
{
    let traffic = match traffic_of(alloc, &field) {
        Ok(traffic) => traffic,
        Err(fail) => return Err(fail),
    };
    let room = room_for(&field, &traffic);
    drop(field);
    let text = match text_in_parts(alloc, text, &traffic, room) {
        Ok(text) => text,
        Err(NoMemory) => return Err(ReadFail::NoMemory),
    };
    match sized(alloc, text) {
        Ok(text) => Ok(text),
        Err(fail) => Err(fail),
    }
}

/// The result of a field file whose value is read whole.
fn told_whole(alloc: Global, bytes: &[u8]) -> Result<Vec<u8>, ReadFail>
    ensures told { IfOk result (λ text. TellsResult bytes.now text.items) }
    ensures refused { IfErr result (λ fail. OnRefusal fail (IsFirstResultFault bytes.now)) }
{
    let Source { field, value } = match read_source(alloc, bytes) {
        Ok(source) => source,
        Err(fail) => return Err(fail),
    };
    match told_of(alloc, value, field) {
        Ok(text) => Ok(text),
        Err(fail) => Err(fail),
    }
}

/// What a right field file says, read in parts, or the first fault of another, both in little memory. A try that reads
/// all of a file finds a fault across its lists. Any other is looked for before the second try: where one is found, no
/// names are counted. Lack of memory is also the answer for what none of these ways says.
fn read_in_parts<'a>(alloc: Global, bytes: &'a [u8]) -> Result<Listed<'a>, ReadFail>
    ensures ok { IfOk result (λ l. (d : Data) × Reads bytes.now d × (file_faults d ≡ []) × (field_content l.field ≡ field_of d) × Writes l.text (held scenario d)) }
    ensures refused { IfErr result (λ fail. OnRefusal fail (IsFirstFieldFault bytes.now)) }
{
    match listed(alloc, bytes) {
        Ok(read) => return Ok(read),
        Err(ReadFail::Refused(refusal)) => return Err(ReadFail::Refused(refusal)),
        Err(ReadFail::NoMemory) => {}
    }
    if let Err(ReadFail::Refused(refusal)) = first_fault(alloc, bytes) {
        return Err(ReadFail::Refused(refusal));
    }
    listed_again(alloc, bytes)
}

/// The result of a field file as a scenario's compact text and a newline: the calls of its bank after the inputs and,
/// where patterns follow the traffic, the schedule that counted traffic gives. The refusal is the first fault in the
/// order of the checks: those of the file, then more than 1,000,000 inputs, more than 1,000 entries, and more than
/// 16,777,216 bytes of the result.
pub fn respond(alloc: Global, bytes: &[u8]) -> Result<Vec<u8>, ReadFail>
    ensures told { IfOk result (λ text. TellsResult bytes.now text.items) }
    ensures refused { IfErr result (λ fail. OnRefusal fail (IsFirstResultFault bytes.now)) }
{
    match read_in_parts(alloc, bytes) {
        Ok(Listed { field, text }) => match told_in_parts(alloc, field, text) {
            Ok(text) => Ok(text),
            Err(fail) => Err(fail),
        },
        Err(ReadFail::Refused(refusal)) => Err(ReadFail::Refused(refusal)),
        Err(ReadFail::NoMemory) => told_whole(alloc, bytes),
    }
}
