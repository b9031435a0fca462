//! What a scenario says once, for the whole run.

ghost use Rattle.std.specs.Prelude.{◌≡◌, ◌≤◌, length, IfOk};
ghost use Rattle.serde_json.specs.View.{view};
ghost use Rattle.scenario_read.specs.Fields.{held, field_faults, fields_faults};
ghost use Rattle.scenario_read.specs.Table.{community, setup_fields};
ghost use Rattle.scenario_read.specs.Content.{text_of};
ghost use Rattle.scenario_read.specs.Readers.{steps_of, SaysSetup, Answers};

use crate::cabinets::cabinets_at;
use crate::cells::octets_from;
use crate::master::master_at;
use crate::members::whole_at;
use crate::place::{Place, refuse_member};
use crate::values::text_of;
use arrayvec::ArrayVec;
use scenario_data::{Cabinet, MasterSetup, ReadFail};
use serde_json::Value;
use std::alloc::Global;

/// What holds for the whole run.
#[derive(Drop)]
pub struct Setup {
    pub rounds: u32,
    pub ticks: u32,
    pub community: ArrayVec<u8, 32>,
    pub cabinets: Vec<Cabinet>,
    pub master: MasterSetup,
}

/// The community of a scenario, 1 to 32 characters; by default `public`.
pub fn community_at(alloc: Global, object: &Value) -> Result<ArrayVec<u8, 32>, ReadFail>
    ensures { Answers result (field_faults (steps_of Place.Top) (view object.now) community) (λ found. found.items ≡ text_of (held community (view object.now))) }
{
    match object.get("community") {
        Some(value) => match text_of(value, 1, 32) {
            Ok(text) => Ok(octets_from(text.as_bytes())),
            Err(unfit) => Err(refuse_member(alloc, Place::Top, "community", unfit)),
        },
        None => Ok(octets_from(b"public")),
    }
}

/// What represents the whole run, in a scenario of this version.
pub(crate) fn setup_in(alloc: Global, object: &Value, version: u32) -> Result<Setup, ReadFail>
    ensures read { Answers result (fields_faults (steps_of Place.Top) (view object.now) (setup_fields version)) (λ setup. SaysSetup setup version (view object.now)) }
    ensures few { IfOk result (λ setup. length setup.cabinets.items ≤ 64 × (setup.rounds ≤ 86400) × (setup.ticks ≤ 600)) }
{
    let rounds = whole_at(alloc, object, Place::Top, "rounds", 1, 86_400)?;
    let ticks = whole_at(alloc, object, Place::Top, "ticks", 1, 600)?;
    let community = community_at(alloc, object)?;
    let cabinets = cabinets_at(alloc, object, version)?;
    let master = master_at(alloc, object)?;
    Ok(Setup {
        rounds,
        ticks,
        community,
        cabinets,
        master,
    })
}
