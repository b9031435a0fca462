//! The checks of a scenario in their order, in little memory: the names and the numbers, then the cabinets one by one, the master, what
//! happens, item by item and list by list, the number of ticks, and the tables.

ghost use Rattle.std.specs.Prelude.{◌≡◌, ◌≤◌, ◌*◌, IfOk, IfErr};
ghost use Rattle.serde_json.specs.Data.{Data};
ghost use Rattle.serde_json.specs.View.{view};
ghost use Rattle.scenario_read.specs.Answers.{IsFirstFault, OnRefusal, Reads};
ghost use Rattle.scenario_read.specs.Faults.{product_faults, faults};
ghost use Rattle.scenario_read.specs.Readers.{Answers, Refuses};
ghost use Rattle.scenario_cut.specs.Around.{Object, scenario_in};
ghost use Rattle.scenario_cut.specs.Checks.{head_of, head_faults, extent_of, extent_at, behind_faults, IsClean};
ghost use Rattle.scenario_cut.specs.Cutting.{Outer, Setup, cut};

use crate::around::Around;
use crate::form::Form;
use crate::groups::{judge_cabinets, judge_events};
use crate::judge::Extent;
use crate::texts::kept_of_few;
use scenario_data::ReadFail;
use scenario_read::{
    Place, Unfit, all_judged, community_at, known_names, master_at, refuse_member, whole_at,
};
use serde_json::Value;
use std::alloc::Global;

/// The numbers of a scenario that are before its cabinets.
#[derive(Clone, Copy)]
pub(crate) struct Head {
    pub version: u32,
    pub rounds: u32,
    pub ticks: u32,
}

/// The numbers before the cabinets, refused at the first fault of a name or of what is before them.
fn head_in(alloc: Global, setup: &Value) -> Result<Head, ReadFail>
    ensures read { Answers result (head_faults (view setup.now)) (λ head. head ≡ head_of (view setup.now)) }
    ensures few { IfOk result (λ head. (head.rounds ≤ 86400) × (head.ticks ≤ 600)) }
{
    known_names(
        alloc,
        setup,
        Place::Top,
        &[
            "version",
            "rounds",
            "ticks",
            "community",
            "cabinets",
            "master",
            "inputs",
            "loads",
            "priority",
            "frames",
            "faults",
        ],
    )?;
    let version = whole_at(alloc, setup, Place::Top, "version", 1, 2)?;
    let rounds = whole_at(alloc, setup, Place::Top, "rounds", 1, 86_400)?;
    let ticks = whole_at(alloc, setup, Place::Top, "ticks", 1, 600)?;
    match community_at(alloc, setup) {
        Ok(_) => Ok(Head {
            version,
            rounds,
            ticks,
        }),
        Err(fail) => Err(fail),
    }
}

/// Refuses cabinets that would run for more than 55,296,000 ticks together.
fn within_ticks(alloc: Global, cabinets: usize, head: Head) -> Result<(), ReadFail>
    requires cabinets { cabinets ≤ 64 }
    requires rounds { head.rounds ≤ 86400 }
    requires ticks { head.ticks ≤ 600 }
    ensures { Answers result (product_faults (cabinets * head.rounds * head.ticks)) (λ _. Unit {0}) }
{
    let ticks = cabinets as u64 * u64::from(head.rounds) * u64::from(head.ticks);
    if ticks <= 55_296_000 {
        Ok(())
    } else {
        Err(refuse_member(alloc, Place::Top, "rounds", Unfit::Beyond))
    }
}

/// The checks after the numbers, of a text of whose scenario this is kept in addition to its lists: the extent of the
/// scenario, or its first fault.
fn judge_behind(
    alloc: Global,
    bytes: &[u8],
    around: Around,
    setup: &Value,
    head: Head,
) -> Result<Extent, ReadFail>
    requires rounds { head.rounds ≤ 86400 }
    requires ticks { head.ticks ≤ 600 }
    ensures { (d : Data) → Reads bytes.now d → view setup.now ≡ cut Setup (scenario_in around d)
        → Answers result (behind_faults head (scenario_in around d) (view setup.now)) (λ e. e ≡ extent_at head (scenario_in around d)) }
{
    let extent = Extent {
        version: head.version,
        rounds: head.rounds,
        cabinets: 0,
    };
    let found = judge_cabinets(alloc, bytes, around, setup, extent)?;
    let count = found.cabinets.len();
    if count > 64 {
        return Err(ReadFail::NoMemory);
    }
    match master_at(alloc, setup) {
        Ok(_) => {}
        Err(fail) => return Err(fail),
    }
    let extent = Extent {
        version: head.version,
        rounds: head.rounds,
        cabinets: count as u32,
    };
    match judge_events(alloc, bytes, around, setup, extent) {
        Ok(()) => {}
        Err(fail) => return Err(fail),
    }
    match within_ticks(alloc, count, head) {
        Ok(()) => {}
        Err(fail) => return Err(fail),
    }
    match all_judged(&found.cabinets) {
        Ok(()) => Ok(extent),
        Err(fail) => Err(fail),
    }
}

/// The extent of the scenario of a text, of which this is kept in addition to its lists, or its first fault. Lack of
/// memory is also the answer for what this way does not say.
fn fault_of(alloc: Global, bytes: &[u8], around: Around, setup: &Value) -> Result<Extent, ReadFail>
    ensures { (d : Data) → Reads bytes.now d → view setup.now ≡ cut Setup (scenario_in around d)
        → Answers result (faults (scenario_in around d)) (λ e. e ≡ extent_of (scenario_in around d)) }
{
    let head = match head_in(alloc, setup) {
        Ok(head) => head,
        Err(fail) => return Err(fail),
    };
    match judge_behind(alloc, bytes, around, setup, head) {
        Ok(extent) => Ok(extent),
        Err(fail) => Err(fail),
    }
}

/// Judges a scenario's text in little memory. Lack of memory is also the answer for what this way does not say.
pub(crate) fn first_fault(alloc: Global, bytes: &[u8]) -> Result<(), ReadFail>
    ensures { IfErr result (λ fail. OnRefusal fail (IsFirstFault bytes.now)) }
{
    let setup = match kept_of_few(alloc, bytes, Form::Setup) {
        Ok(setup) => setup,
        Err(fail) => return Err(fail),
    };
    match fault_of(alloc, bytes, Around::Nothing, &setup) {
        Ok(_) => Ok(()),
        Err(fail) => Err(fail),
    }
}

/// The first fault of the scenario at `scenario` in the object that the bytes are, found in little memory, list by
/// list; if it has none, its extent. `frame` is what is kept of the object as `Form::Outer`. Out of memory also means
/// that this way gives no answer, for example if the value is missing.
pub fn inner_fault(alloc: Global, bytes: &[u8], frame: &Value) -> Result<Extent, ReadFail>
    ensures fault { IfErr result (λ fail. (d : Data) → Reads bytes.now d → view frame.now ≡ cut Outer d → Refuses fail (faults (scenario_in Object d))) }
    ensures none { IfOk result (λ e. (d : Data) → Reads bytes.now d → view frame.now ≡ cut Outer d → IsClean e (scenario_in Object d)) }
{
    let Some(setup) = frame.get("scenario") else {
        return Err(ReadFail::NoMemory);
    };
    match fault_of(alloc, bytes, Around::Object, setup) {
        Ok(extent) => Ok(extent),
        Err(fail) => Err(fail),
    }
}
