//! The scenario inside a field file, with its compact text.

ghost use Rattle.std.specs.Prelude.{◌≡◌, ◌≤◌, length, IfOk};
ghost use Rattle.serde_json.specs.Data.{depth};
ghost use Rattle.serde_json.specs.Read.{max_depth};
ghost use Rattle.serde_json.specs.View.{view};
ghost use Rattle.scenario_data.specs.Content.{scenario_content};
ghost use Rattle.scenario_read.specs.Fields.{held, field_faults};
ghost use Rattle.scenario_read.specs.Content.{scenario_of};
ghost use Rattle.scenario_read.specs.Faults.{faults};
ghost use Rattle.scenario_read.specs.Sorted.{Sorted};
ghost use Rattle.scenario_read.specs.Readers.{Answers};
ghost use Rattle.scenario_read.specs.Answers.{Reads, IsScenario};
ghost use Rattle.scenario_checked.specs.Inside.{scenario};
ghost use Rattle.field_read.specs.Places.{steps_of};

use crate::place::{Place, refuse_member};
use scenario_checked::inner_fail;
use scenario_data::{ReadFail, Scenario};
use scenario_read::{Unfit, checked_parts, scenario_from};
use serde_json::Value;
use std::alloc::Global;

/// A scenario from its JSON value, refused at its first fault.
fn scenario_in(alloc: Global, value: &Value) -> Result<Scenario, ReadFail>
    requires sorted { Sorted (view value.now) }
    requires nests { depth (view value.now) ≤ max_depth }
    ensures read { Answers result (faults (view value.now)) (λ s. scenario_content s ≡ scenario_of (view value.now)) }
    ensures back { IfOk result (λ s. Reads s.compact.items (view value.now)) }
{
    let parts = checked_parts(alloc, value)?;
    match value.to_vec(alloc) {
        Ok(compact) => Ok(scenario_from(parts, compact)),
        Err(_) => Err(ReadFail::NoMemory),
    }
}

/// The scenario of a field file.
pub(crate) fn scenario_at(alloc: Global, object: &Value) -> Result<Scenario, ReadFail>
    requires sorted { Sorted (view object.now) }
    requires nests { depth (view object.now) ≤ max_depth }
    ensures read { Answers result (field_faults (steps_of Place.Top) (view object.now) scenario) (λ s. scenario_content s ≡ scenario_of (held scenario (view object.now))) }
    ensures few { IfOk result (λ s. length s.cabinets.items ≤ 64) }
    ensures back { IfOk result (λ s. IsScenario s.compact.items (scenario_content s)) }
{
    match object.get("scenario") {
        None => Err(refuse_member(alloc, Place::Top, "scenario", Unfit::Wrong)),
        Some(value) => match scenario_in(alloc, value) {
            Ok(scenario) => Ok(scenario),
            Err(fail) => Err(inner_fail(alloc, fail)),
        },
    }
}
