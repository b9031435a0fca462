//! The field file: bytes in, what it says with its value, or the first fault out. This way answers for any file,
//! because it keeps a value: its caller makes the resulting scenario from that.

ghost use Rattle.std.specs.Prelude.{◌≡◌, ◌≤◌, [], IfOk, IfErr};
ghost use Rattle.serde_json.specs.Data.{depth};
ghost use Rattle.serde_json.specs.Read.{max_depth};
ghost use Rattle.serde_json.specs.View.{view};
ghost use Rattle.scenario_data.specs.Content.{scenario_content};
ghost use Rattle.scenario_read.specs.Sorted.{Sorted};
ghost use Rattle.scenario_read.specs.Readers.{Answers};
ghost use Rattle.scenario_read.specs.Answers.{Reads, IsScenario, OnRefusal};
ghost use Rattle.field_read.specs.Content.{field_content, field_of};
ghost use Rattle.field_read.specs.Checks.{file_faults};
ghost use Rattle.field_read.specs.Answers.{IsFirstFieldFault};

use crate::across::lists_fit;
use crate::named::{Field, named_in};
use scenario_cut::{Form, kept_of};
use scenario_data::ReadFail;
use serde_json::Value;
use std::alloc::Global;

/// A field file from its JSON value, refused at its first fault.
fn field_in(alloc: Global, value: &Value) -> Result<Field, ReadFail>
    requires sorted { Sorted (view value.now) }
    requires nests { depth (view value.now) ≤ max_depth }
    ensures read { Answers result (file_faults (view value.now)) (λ f. field_content f ≡ field_of (view value.now)) }
    ensures back { IfOk result (λ f. IsScenario f.scenario.compact.items (scenario_content f.scenario)) }
{
    let field = match named_in(alloc, value) {
        Ok(field) => field,
        Err(fail) => return Err(fail),
    };
    match lists_fit(alloc, &field) {
        Ok(()) => Ok(field),
        Err(fail) => Err(fail),
    }
}

/// A field file with the JSON value that it was read from.
#[derive(Drop)]
pub struct Source {
    pub field: Field,
    pub value: Value,
}

/// Reads a field file with its value, in time and memory that grow with its bytes. The refusal is the first fault in the order
/// of the checks: the JSON reading, the names and values in the order of their table, those of the scenario with their paths
/// behind `scenario.`, and then what lies across the lists. The compact text of its scenario reads as that scenario. A value is kept: all
/// of a right one, and of any other that on which its first fault may hang. So it takes the most memory, and is the last way, for files
/// of which `listed`, `first_fault` and `listed_again` tell nothing.
pub fn read_source(alloc: Global, bytes: &[u8]) -> Result<Source, ReadFail>
    ensures value { IfOk result (λ s. Reads bytes.now (view s.value)) }
    ensures nests { IfOk result (λ s. depth (view s.value) ≤ max_depth) }
    ensures clean { IfOk result (λ s. file_faults (view s.value) ≡ []) }
    ensures told { IfOk result (λ s. field_content s.field ≡ field_of (view s.value)) }
    ensures refused { IfErr result (λ fail. OnRefusal fail (IsFirstFieldFault bytes.now)) }
    ensures scenario { IfOk result (λ s. IsScenario s.field.scenario.compact.items (scenario_content s.field.scenario)) }
{
    let value = match kept_of(alloc, bytes, Form::Field) {
        Ok(value) => value,
        Err(fail) => return Err(fail),
    };
    match field_in(alloc, &value) {
        Ok(field) => Ok(Source { field, value }),
        Err(fail) => Err(fail),
    }
}
