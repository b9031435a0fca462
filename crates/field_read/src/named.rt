//! What the names of a field file say.

ghost use Rattle.std.specs.Prelude.{◌≡◌, ◌≤◌, length, IfOk};
ghost use Rattle.serde_json.specs.Data.{depth};
ghost use Rattle.serde_json.specs.Read.{max_depth};
ghost use Rattle.serde_json.specs.View.{view};
ghost use Rattle.scenario_data.specs.Content.{scenario_content};
ghost use Rattle.scenario_read.specs.Sorted.{Sorted};
ghost use Rattle.scenario_read.specs.Readers.{Answers};
ghost use Rattle.scenario_read.specs.Answers.{IsScenario};
ghost use Rattle.field_read.specs.Content.{field_content, field_of};
ghost use Rattle.field_read.specs.Checks.{named_faults};

use crate::inner::scenario_at;
use crate::members::known_names;
use crate::place::Place;
use crate::respond::Respond;
use crate::traffic::{Traffic, traffic_in};
use detector_bank::{Detector, Pulse};
use scenario_data::{ReadFail, Scenario};
use serde_json::Value;
use std::alloc::Global;

/// A field file: a scenario, the detectors of its cabinets and their pulses, and how patterns follow the traffic.
#[derive(Drop)]
pub struct Field {
    pub scenario: Scenario,
    /// At most 512, no two of one cabinet with one number.
    pub bank: Vec<Detector>,
    /// At most 1,000,000, each of a detector of the bank.
    pub pulses: Vec<Pulse>,
    pub respond: Option<Respond>,
}

/// A field file of these parts.
fn field_from(scenario: Scenario, traffic: Traffic) -> Field
    ensures scenario { result.scenario ≡ scenario }
    ensures bank { result.bank ≡ traffic.bank }
    ensures pulses { result.pulses ≡ traffic.pulses }
    ensures respond { result.respond ≡ traffic.respond }
{
    let Traffic {
        bank,
        pulses,
        respond,
    } = traffic;
    Field {
        scenario,
        bank,
        pulses,
        respond,
    }
}

/// What the names of a field file say, refused at the first fault of a name or a value.
pub(crate) fn named_in(alloc: Global, value: &Value) -> Result<Field, ReadFail>
    requires sorted { Sorted (view value.now) }
    requires nests { depth (view value.now) ≤ max_depth }
    ensures read { Answers result (named_faults (view value.now)) (λ f. field_content f ≡ field_of (view value.now)) }
    ensures back { IfOk result (λ f. IsScenario f.scenario.compact.items (scenario_content f.scenario)) }
{
    known_names(
        alloc,
        value,
        Place::Top,
        &["scenario", "bank", "pulses", "respond"],
    )?;
    let scenario = match scenario_at(alloc, value) {
        Ok(scenario) => scenario,
        Err(fail) => return Err(fail),
    };
    match traffic_in(
        alloc,
        value,
        scenario.rounds,
        scenario.cabinets.len() as u32,
    ) {
        Ok(traffic) => Ok(field_from(scenario, traffic)),
        Err(fail) => Err(fail),
    }
}
