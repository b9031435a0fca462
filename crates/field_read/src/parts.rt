//! The parts of a field file, by their names: of equal names the last counts.

ghost use Rattle.std.specs.Prelude.{codes};
ghost use Rattle.serde_json.specs.Data.{Data, Items, Members, no_members, array, put};
ghost use Rattle.field_read.specs.Lists.{Holds, name_of};
ghost use Rattle.field_read.specs.Parts.{SaysScenario, SaysRespond, PartsStand};

use crate::Respond;
use crate::found::Found;
use detector_bank::{Detector, Pulse};
use scenario_file::Source;
use std::alloc::Global;

/// What was found at the names so far; no detectors and no pulses, where their names were not.
#[derive(Drop)]
pub(crate) struct Parts<'a> {
    pub scenario: Option<Source<'a>>,
    pub bank: Vec<Detector>,
    pub pulses: Vec<Pulse>,
    pub respond: Option<Respond>,
}

/// Nothing found.
pub(crate) fn no_parts<'a>(alloc: Global) -> Parts<'a>
    ensures { PartsStand result no_members }
{
    Parts {
        scenario: None,
        bank: Vec::new(alloc),
        pulses: Vec::new(alloc),
        respond: None,
    }
}

/// Puts a scenario in place of the one before.
pub(crate) fn put_scenario<'a>(parts: &mut Parts<'a>, source: Source<'a>)
    ensures { (ms : Members) → (d : Data) → PartsStand parts.old ms → SaysScenario source.entry d → PartsStand parts.new (put (codes "scenario") d ms) }
{
    parts.scenario = Some(source);
}

/// Puts a list in place of the one before.
pub(crate) fn put_list(parts: &mut Parts<'_>, found: Found)
    ensures { (ms : Members) → (ds : Items) → PartsStand parts.old ms → Holds found ds → PartsStand parts.new (put (name_of found) (array ds) ms) }
{
    match found {
        Found::Bank(bank) => parts.bank = bank,
        Found::Pulses(pulses) => parts.pulses = pulses,
    }
}

/// Puts the rules of the sections in place of those before.
pub(crate) fn put_respond(parts: &mut Parts<'_>, respond: Respond)
    ensures { (ms : Members) → (d : Data) → PartsStand parts.old ms → SaysRespond respond d → PartsStand parts.new (put (codes "respond") d ms) }
{
    parts.respond = Some(respond);
}
