//! What a scenario says of its rounds: what happens in them, at which cabinet.

ghost use Rattle.serde_json.specs.View.{view};
ghost use Rattle.scenario_read.specs.Fields.{fields_faults};
ghost use Rattle.scenario_read.specs.Table.{event_fields};
ghost use Rattle.scenario_read.specs.Readers.{steps_of, SaysEvents, Answers};

use crate::faults::faults_at;
use crate::frames::frames_at;
use crate::inputs::inputs_at;
use crate::loads::loads_at;
use crate::place::Place;
use crate::priority::priority_at;
use scenario_data::{Fault, FrameItem, Input, LoadItem, PriorityItem, ReadFail};
use serde_json::Value;
use std::alloc::Global;

/// What happens in the rounds.
#[derive(Drop)]
pub struct Events {
    pub inputs: Vec<Input>,
    pub loads: Vec<LoadItem>,
    pub priority: Vec<PriorityItem>,
    pub frames: Vec<FrameItem>,
    pub faults: Vec<Fault>,
}

/// What happens in that many rounds at that many cabinets.
pub(crate) fn events_in(
    alloc: Global,
    object: &Value,
    rounds: u32,
    cabinets: u32,
) -> Result<Events, ReadFail>
    ensures { Answers result (fields_faults (steps_of Place.Top) (view object.now) (event_fields rounds cabinets)) (λ events. SaysEvents events rounds cabinets (view object.now)) }
{
    let inputs = inputs_at(alloc, object, rounds, cabinets)?;
    let loads = loads_at(alloc, object, rounds, cabinets)?;
    let priority = priority_at(alloc, object, rounds, cabinets)?;
    let frames = frames_at(alloc, object, rounds, cabinets)?;
    let faults = faults_at(alloc, object, rounds, cabinets)?;
    Ok(Events {
        inputs,
        loads,
        priority,
        frames,
        faults,
    })
}
