//! The scenario file: bytes in, a scenario or the first fault out. A valid scenario is read with little memory, even if
//! an earlier value at one of its names is at fault. `scenario_cut` gives the first fault of any other text.

ghost use Rattle.std.specs.Prelude.{IfOk, IfErr, IfSome};
ghost use Rattle.scenario_data.specs.Content.{scenario_content};
ghost use Rattle.scenario_read.specs.Answers.{IsScenario, IsFirstFault, OnRefusal};

use crate::left::Left;
use crate::master::MASTER_NAMES;
use crate::source::{SCENARIO_NAMES, Source, source_of};
use crate::top::whole_of;
use scenario_data::{ReadFail, Scenario};
use std::alloc::Global;

/// Reads a scenario that is right, list by list, without a tree of the whole, and of its members of equal names only
/// the last, where names are repeated; so also of those of its master, where names were counted. None where the text
/// isn't right, where an earlier one that is read holds what none may hold, and if memory runs out.
fn listed(alloc: Global, bytes: &[u8], left: Left) -> Option<Scenario>
    ensures scenario { IfSome result (λ s. IsScenario bytes.now (scenario_content s)) }
    ensures reads_back { IfSome result (λ s. IsScenario s.compact.items (scenario_content s)) }
{
    let whole = whole_of(alloc, bytes, left)?;
    let Source { scenario, .. } = source_of(alloc, whole, bytes.len())?;
    Some(scenario)
}

/// Whether a name of the last master is repeated. False even if that is not an object, and if memory runs out.
fn master_has_again(alloc: Global, bytes: &[u8]) -> bool {
    match Left::of_inner(alloc, bytes, "master", &MASTER_NAMES) {
        Some(left) => left.has_again(),
        None => false,
    }
}

/// How often the names come in a text that is one object, where one of them is repeated, or one of its last master;
/// else nothing. Nothing also if memory runs out.
fn again(alloc: Global, bytes: &[u8]) -> Option<Left> {
    let left = Left::of(alloc, bytes, &SCENARIO_NAMES)?;
    if left.has_again() || master_has_again(alloc, bytes) {
        Some(left)
    } else {
        None
    }
}

/// Reads a valid scenario without a tree of the whole: first all of it, and if that gives none, only the last of equal
/// names, its own and those of its master. None if the text isn't valid and, mostly, if memory runs out: `read` says
/// which of these it is.
pub fn scenario_of(alloc: Global, bytes: &[u8]) -> Option<Scenario>
    ensures scenario { IfSome result (λ s. IsScenario bytes.now (scenario_content s)) }
    ensures reads_back { IfSome result (λ s. IsScenario s.compact.items (scenario_content s)) }
{
    match listed(alloc, bytes, Left::none(alloc)) {
        Some(scenario) => Some(scenario),
        None => {
            let left = again(alloc, bytes)?;
            listed(alloc, bytes, left)
        }
    }
}

/// Reads a scenario, in time and memory that grow with its bytes. The refusal is the first fault in the order of the
/// checks: the JSON reading, the names and values in the order of their table, the number of ticks, the rules of each
/// cabinet's opening tables. Its compact text reads as the same scenario.
pub fn read(alloc: Global, bytes: &[u8]) -> Result<Scenario, ReadFail>
    ensures scenario { IfOk result (λ s. IsScenario bytes.now (scenario_content s)) }
    ensures refused { IfErr result (λ fail. OnRefusal fail (IsFirstFault bytes.now)) }
    ensures reads_back { IfOk result (λ s. IsScenario s.compact.items (scenario_content s)) }
{
    match scenario_of(alloc, bytes) {
        Some(scenario) => Ok(scenario),
        None => scenario_cut::read(alloc, bytes),
    }
}
