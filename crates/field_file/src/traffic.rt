//! What the traffic of a field file gives: the calls of its bank and, where patterns follow the traffic, the schedule.

ghost use Rattle.std.specs.Prelude.{◌≡◌, ◌≤◌, ◌+◌, ◌++◌, [], ◌∷◌, option_map};
ghost use Rattle.serde_json.specs.Data.{Data};
ghost use Rattle.scenario_read.specs.Paths.{Named};
ghost use Rattle.scenario_read.specs.Kinds.{fault_at, within};
ghost use Rattle.scenario_read.specs.Readers.{Answers};
ghost use Rattle.field_read.specs.Content.{field_content};
ghost use Rattle.field_file.specs.Written.{calls_of, schedule_of};
ghost use Rattle.field_file.specs.FieldAnswer.{entry_count, inputs_faults, entries_faults, WasRead, IsTraffic};

use crate::schedule::schedule_of;
use detector_bank::{Call, bank_calls};
use field_read::Field;
use scenario_data::{Entry, ReadFail};
use scenario_read::{Place, Unfit, refuse_member};
use sig_types::NoMemory;
use std::alloc::Global;

/// The calls of a bank, and a schedule, if there is one.
#[derive(Drop)]
pub(crate) struct Traffic {
    pub calls: Vec<Call>,
    pub schedule: Option<Vec<Entry>>,
}

/// Refuses more than that many at a name.
pub(crate) fn at_most(alloc: Global, name: &str, count: u64, most: u64) -> Result<(), ReadFail>
    ensures { Answers result (fault_at (Named name.now ∷ []) (within 0 most count)) (λ _. count ≤ most) }
{
    if count <= most {
        Ok(())
    } else {
        Err(refuse_member(alloc, Place::Top, name, Unfit::Beyond))
    }
}

/// How many entries a schedule has.
fn entry_count(schedule: &Option<Vec<Entry>>) -> u64
    ensures { result ≡ entry_count (option_map (λ s. s.items) schedule.now) }
{
    match schedule {
        None => 0,
        Some(entries) => entries.len() as u64,
    }
}

/// The calls of a field file that was read, refused where the result would have too many inputs.
fn calls_of(alloc: Global, field: &Field) -> Result<Vec<Call>, ReadFail>
    requires read { (d : Data) × WasRead (field_content field.now) d }
    ensures { Answers result (inputs_faults (field_content field.now)) (λ calls. calls.items ≡ calls_of (field_content field.now)) }
{
    let calls = match bank_calls(alloc, &field.bank, &field.pulses, field.scenario.rounds) {
        Ok(calls) => calls,
        Err(NoMemory) => return Err(ReadFail::NoMemory),
    };
    let inputs = field.scenario.inputs.len() as u64 + calls.len() as u64;
    match at_most(alloc, "pulses", inputs, 1_000_000) {
        Ok(()) => Ok(calls),
        Err(fail) => Err(fail),
    }
}

/// The schedule of a field file that was read, if it has rules, refused where it has too many entries.
fn entries_of(alloc: Global, field: &Field) -> Result<Option<Vec<Entry>>, ReadFail>
    requires read { (d : Data) × WasRead (field_content field.now) d }
    ensures { Answers result (entries_faults (field_content field.now)) (λ schedule. option_map (λ v. v.items) schedule ≡ schedule_of (field_content field.now)) }
{
    let schedule = match schedule_of(alloc, field) {
        Ok(schedule) => schedule,
        Err(NoMemory) => return Err(ReadFail::NoMemory),
    };
    match at_most(alloc, "respond", entry_count(&schedule), 1000) {
        Ok(()) => Ok(schedule),
        Err(fail) => Err(fail),
    }
}

/// The traffic of a field file that was read, refused where the result would have too many inputs or too many entries.
pub(crate) fn traffic_of(alloc: Global, field: &Field) -> Result<Traffic, ReadFail>
    requires read { (d : Data) × WasRead (field_content field.now) d }
    ensures { Answers result (inputs_faults (field_content field.now) ++ entries_faults (field_content field.now)) (λ traffic. IsTraffic traffic (field_content field.now)) }
{
    let calls = match calls_of(alloc, field) {
        Ok(calls) => calls,
        Err(fail) => return Err(fail),
    };
    match entries_of(alloc, field) {
        Ok(schedule) => Ok(Traffic { calls, schedule }),
        Err(fail) => Err(fail),
    }
}
