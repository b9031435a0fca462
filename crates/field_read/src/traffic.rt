//! What a field file says in addition to its scenario.

ghost use Rattle.serde_json.specs.View.{view};
ghost use Rattle.scenario_read.specs.Fields.{fields_faults};
ghost use Rattle.scenario_read.specs.Readers.{Answers};
ghost use Rattle.field_read.specs.Table.{traffic_fields};
ghost use Rattle.field_read.specs.Places.{steps_of, SaysTraffic};

use crate::bank::bank_at;
use crate::place::Place;
use crate::pulses::pulses_at;
use crate::respond::{Respond, respond_at};
use detector_bank::{Detector, Pulse};
use scenario_data::ReadFail;
use serde_json::Value;
use std::alloc::Global;

/// The bank, its pulses, and how patterns follow them.
#[derive(Drop)]
pub(crate) struct Traffic {
    pub bank: Vec<Detector>,
    pub pulses: Vec<Pulse>,
    pub respond: Option<Respond>,
}

/// What is next to a scenario with that many rounds and cabinets.
pub(crate) fn traffic_in(
    alloc: Global,
    object: &Value,
    rounds: u32,
    cabinets: u32,
) -> Result<Traffic, ReadFail>
    ensures { Answers result (fields_faults (steps_of Place.Top) (view object.now) (traffic_fields rounds cabinets)) (λ traffic. SaysTraffic traffic rounds cabinets (view object.now)) }
{
    let bank = bank_at(alloc, object, cabinets)?;
    let pulses = pulses_at(alloc, object, rounds, cabinets)?;
    let respond = respond_at(alloc, object)?;
    Ok(Traffic {
        bank,
        pulses,
        respond,
    })
}
