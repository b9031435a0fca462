//! What an object asks of bands, by the parts of its text.

ghost use Rattle.std.specs.Prelude.{◌≡◌, ◌≤◌, [], length, None, IfOk, IfErr};
ghost use Rattle.serde_json.specs.Data.{Data, Members, object};
ghost use Rattle.scenario_data.specs.Content.{scenario_content};
ghost use Rattle.scenario_read.specs.Answers.{OnRefusal, Reads};
ghost use Rattle.scenario_read.specs.Fields.{object_of};
ghost use Rattle.scenario_read.specs.Readers.{Answers};
ghost use Rattle.band_report.specs.Street.{misfit_of};
ghost use Rattle.band_report.specs.Asked.{asked_shape, band_faults};
ghost use Rattle.band_report.specs.Parts.{PartsStand};
ghost use Rattle.band_report.specs.BandAnswer.{IsFirstBandFault, Says};

use crate::asked::{Asked, fitting};
use crate::parts::Parts;
use scenario_data::ReadFail;
use scenario_file::{FileLeft, parts_with};
use std::alloc::Global;

/// What the names of an object of these parts say, refused at the first fault of a value.
fn named_in_parts(parts: Parts) -> Result<Asked, ReadFail>
    requires stand { (ms : Members) × PartsStand parts ms }
    ensures read { (ms : Members) → PartsStand parts ms → Answers result (object_of asked_shape [] (object ms)) (λ a. Says a (object ms)) }
    ensures few { IfOk result (λ a. length a.scenario.cabinets.items ≤ 64) }
{
    let Parts {
        scenario,
        section,
        pattern,
        travel,
    } = parts;
    let scenario = match scenario {
        Ok(scenario) => scenario,
        Err(fail) => return Err(fail),
    };
    let section = match section {
        Ok(section) => section,
        Err(fail) => return Err(fail),
    };
    let pattern = match pattern {
        Ok(pattern) => pattern,
        Err(fail) => return Err(fail),
    };
    let travel = match travel {
        Ok(travel) => travel,
        Err(fail) => return Err(fail),
    };
    Ok(Asked {
        scenario,
        section,
        pattern,
        travel,
    })
}

/// What an object of these parts asks, refused at its first fault.
#[tactic(auto, using(scenario_read::proofs::Refusing::refuses_more))]
fn asked_in_parts(alloc: Global, parts: Parts) -> Result<Asked, ReadFail>
    requires stand { (ms : Members) × PartsStand parts ms }
    ensures read { (ms : Members) → PartsStand parts ms → Answers result (band_faults (object ms)) (λ a. Says a (object ms)) }
    ensures few { IfOk result (λ a. length a.scenario.cabinets.items ≤ 64) }
    ensures fits { IfOk result (λ a. misfit_of (scenario_content a.scenario).cabinets a.section a.pattern (length a.travel.items) ≡ None) }
{
    let asked = named_in_parts(parts)?;
    fitting(alloc, &asked)?;
    Ok(asked)
}

/// What the bytes ask, or their first fault, in little memory, where their names appear this often. Lack of memory is
/// also the answer for what this way does not say.
pub(crate) fn asked_by_parts(alloc: Global, bytes: &[u8], left: FileLeft) -> Result<Asked, ReadFail>
    ensures read { IfOk result (λ a. (d : Data) × Reads bytes.now d × (band_faults d ≡ []) × Says a d) }
    ensures refused { IfErr result (λ fail. OnRefusal fail (IsFirstBandFault bytes.now)) }
    ensures few { IfOk result (λ a. length a.scenario.cabinets.items ≤ 64) }
    ensures fits { IfOk result (λ a. misfit_of (scenario_content a.scenario).cabinets a.section a.pattern (length a.travel.items) ≡ None) }
{
    let Some(parts) = parts_with(alloc, bytes, left) else {
        return Err(ReadFail::NoMemory);
    };
    match asked_in_parts(alloc, parts) {
        Ok(asked) => Ok(asked),
        Err(fail) => Err(fail),
    }
}
