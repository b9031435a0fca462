//! A scenario inside an object, at its name `scenario`: a fault of it is a fault of the object, with its path after
//! `scenario.`.
ghost use Rattle.std.specs.Prelude.{◌≡◌, ◌++◌, if◌then◌else◌, List, ℕ, IfOk, string_bytes, bytes_eq, codes, map};
ghost use Rattle.scenario_data.specs.Causes.{Cause, Names};
ghost use Rattle.scenario_read.specs.Readers.{Refuses};
ghost use Rattle.scenario_read.specs.Faults.{first_cause};
ghost use Rattle.scenario_checked.specs.Inside.{inner_path, inner_cause};

use scenario_data::{ReadFail, Refusal};
use std::alloc::{AllocError, Global};

/// Where a fault of the scenario is in the object.
fn inner_path(alloc: Global, path: &String) -> Result<String, AllocError>
    ensures { IfOk result (λ inner. string_bytes inner ≡ inner_path (string_bytes path.now)) }
{
    if path.as_str() == "." {
        String::from_str(alloc, "scenario")
    } else {
        let path = path.as_str();
        format!(in alloc; "scenario.{path}")
    }
}

/// A refusal of the scenario as one of the object.
#[tactic(auto, using(crate::proofs::Around::inner_field, crate::proofs::Around::inner_limit, crate::proofs::Around::inner_broken))]
fn inner_refusal(alloc: Global, refusal: Refusal) -> Result<Refusal, AllocError>
    ensures { IfOk result (λ inner. (causes : List Cause) → Names refusal (first_cause causes) → Names inner (first_cause (map inner_cause causes))) }
{
    match refusal {
        Refusal::Field(path) => match inner_path(alloc, &path) {
            Ok(path) => Ok(Refusal::Field(path)),
            Err(e) => Err(e),
        },
        Refusal::Limit(path) => match inner_path(alloc, &path) {
            Ok(path) => Ok(Refusal::Limit(path)),
            Err(e) => Err(e),
        },
        Refusal::Broken { cab, rule, row } => Ok(Refusal::Broken { cab, rule, row }),
        Refusal::Syntax => Ok(Refusal::Syntax),
    }
}

/// A failed read of the scenario as one of the object.
pub fn inner_fail(alloc: Global, fail: ReadFail) -> ReadFail
    ensures { (causes : List Cause) → Refuses fail causes → Refuses result (map inner_cause causes) }
{
    match fail {
        ReadFail::Refused(refusal) => match inner_refusal(alloc, refusal) {
            Ok(refusal) => ReadFail::Refused(refusal),
            Err(_) => ReadFail::NoMemory,
        },
        ReadFail::NoMemory => ReadFail::NoMemory,
    }
}
