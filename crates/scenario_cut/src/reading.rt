//! A scenario, or the first fault of a text that is none, by what is kept of its value.

ghost use Rattle.std.specs.Prelude.{◌≡◌, IfOk, IfErr};
ghost use Rattle.serde_json.specs.Data.{Data};
ghost use Rattle.serde_json.specs.View.{view};
ghost use Rattle.scenario_data.specs.Content.{scenario_content};
ghost use Rattle.scenario_read.specs.Answers.{IsScenario, IsFirstFault, OnRefusal, Reads};
ghost use Rattle.scenario_cut.specs.Cutting.{Whole, cut};
ghost use Rattle.scenario_cut.specs.Texts.{IsNoText};

use crate::checks::first_fault;
use crate::form::Form;
use crate::last::kept_last;
use crate::texts::kept_of;
use scenario_data::{ReadFail, Scenario};
use scenario_read::{checked_parts, scenario_from};
use serde_json::Value;
use std::alloc::Global;

/// What is kept of the value of the bytes as a whole scenario, of equal names only the last where that can be seen;
/// refused where they are not JSON.
fn kept_whole(alloc: Global, bytes: &[u8]) -> Result<Value, ReadFail>
    ensures kept { IfOk result (λ kept. (d : Data) × Reads bytes.now d × (view kept ≡ cut Whole d)) }
    ensures none { IfErr result (λ fail. OnRefusal fail (IsNoText bytes.now)) }
{
    match kept_last(alloc, bytes) {
        Some(kept) => Ok(kept),
        None => match kept_of(alloc, bytes, Form::Whole) {
            Ok(kept) => Ok(kept),
            Err(fail) => Err(fail),
        },
    }
}

/// Reads a scenario by what is kept of its value: all of a right one, and of any other that on which its first fault may hang.
fn read_kept(alloc: Global, bytes: &[u8]) -> Result<Scenario, ReadFail>
    ensures scenario { IfOk result (λ s. IsScenario bytes.now (scenario_content s)) }
    ensures refused { IfErr result (λ fail. OnRefusal fail (IsFirstFault bytes.now)) }
    ensures reads_back { IfOk result (λ s. IsScenario s.compact.items (scenario_content s)) }
{
    let kept = match kept_whole(alloc, bytes) {
        Ok(kept) => kept,
        Err(fail) => return Err(fail),
    };
    let parts = match checked_parts(alloc, &kept) {
        Ok(parts) => parts,
        Err(fail) => return Err(fail),
    };
    match kept.to_vec(alloc) {
        Ok(compact) => Ok(scenario_from(parts, compact)),
        Err(_) => Err(ReadFail::NoMemory),
    }
}

/// Reads a scenario. A fault is looked for with its lists judged item by item; only of a text in which none was found so is a value kept:
/// all of a right one. The refusal is the first fault in the order of the checks. The compact text reads as the same scenario.
pub fn read(alloc: Global, bytes: &[u8]) -> Result<Scenario, ReadFail>
    ensures scenario { IfOk result (λ s. IsScenario bytes.now (scenario_content s)) }
    ensures refused { IfErr result (λ fail. OnRefusal fail (IsFirstFault bytes.now)) }
    ensures reads_back { IfOk result (λ s. IsScenario s.compact.items (scenario_content s)) }
{
    match first_fault(alloc, bytes) {
        Err(ReadFail::Refused(refusal)) => Err(ReadFail::Refused(refusal)),
        _ => read_kept(alloc, bytes),
    }
}
