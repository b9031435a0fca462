//! The scenario file: bytes in, a scenario or the first fault out; and its compact text.

ghost use Rattle.std.specs.Prelude.{◌≡◌, ◌≤◌, IfOk, IfErr};
ghost use Rattle.scenario_data.specs.Content.{scenario_content};
ghost use Rattle.scenario_read.specs.Answers.{IsScenario, IsFirstFault, OnRefusal};

use crate::scenario::scenario_in;
use scenario_data::{ReadFail, Refusal, Scenario};
use serde_json::Value;
use sig_types::NoMemory;
use std::alloc::Global;

/// Reads a scenario, in time and memory that grow with its bytes. The refusal is the first fault in the order of the
/// checks: the JSON reading, the names and values in the order of their table, the number of ticks, the rules of each
/// cabinet's opening tables. Its compact text reads as the same scenario.
pub fn read(alloc: Global, bytes: &[u8]) -> Result<Scenario, ReadFail>
    ensures scenario { IfOk result (λ s. IsScenario bytes.now (scenario_content s)) }
    ensures refused { IfErr result (λ fail. OnRefusal fail (IsFirstFault bytes.now)) }
    ensures reads_back { IfOk result (λ s. IsScenario s.compact.items (scenario_content s)) }
{
    match Value::from_slice(alloc, bytes) {
        Ok(value) => match scenario_in(alloc, &value) {
            Ok(scenario) => Ok(scenario),
            Err(fail) => Err(fail),
        },
        Err(e) => Err(if e.is_memory() {
            ReadFail::NoMemory
        } else {
            ReadFail::Refused(Refusal::Syntax)
        }),
    }
}

/// The compact text of a scenario.
pub fn text(alloc: Global, scenario: &Scenario) -> Result<Vec<u8>, NoMemory>
    requires reads_back { IsScenario scenario.now.compact.items (scenario_content scenario.now) }
    ensures copy { IfOk result (λ text. text.items ≡ scenario.now.compact.items) }
    ensures reads_back { IfOk result (λ text. IsScenario text.items (scenario_content scenario.now)) }
{
    match scenario.compact.clone() {
        Ok(text) => Ok(text),
        Err(_) => Err(NoMemory),
    }
}
