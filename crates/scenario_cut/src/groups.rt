//! The cabinets of a scenario's text, and the lists of what happens, each group judged in one pass.

ghost use Rattle.std.specs.Prelude.{◌≡◌, ◌++◌, List, [], IfSome};
ghost use Rattle.serde_json.specs.Data.{Data};
ghost use Rattle.serde_json.specs.View.{view};
ghost use Rattle.scenario_data.specs.Causes.{Cause};
ghost use Rattle.scenario_read.specs.Answers.{Reads};
ghost use Rattle.scenario_read.specs.Fields.{held, field_faults, fields_faults};
ghost use Rattle.scenario_read.specs.Readers.{Answers};
ghost use Rattle.scenario_read.specs.Table.{cabinets, event_fields};
ghost use Rattle.scenario_cut.specs.Around.{scenario_in};
ghost use Rattle.scenario_cut.specs.Cutting.{Setup, cut};
ghost use Rattle.scenario_cut.specs.Judging.{list_field, StaysIn, TellsIn};
ghost use Rattle.scenario_cut.specs.Known.{Knows, any_stands, stands};
ghost use Rattle.scenario_cut.specs.declared.judge.Extent.{Extent};
ghost use Rattle.scenario_cut.specs.declared.judge.Listing.{Listing};
ghost use Rattle.scenario_cut.specs.declared.named.Group.{Group};
ghost use Rattle.scenario_cut.specs.declared.named.Search.{Search};

use crate::around::{Around, known_of};
use crate::judge::{Extent, Found, Listing, name_of};
use crate::listing::ListVerdict;
use crate::named::{Group, Known, Search, all_absent};
use scenario_data::ReadFail;
use serde_json::Value;
use std::alloc::Global;

/// Whether a list is in a scenario, of which this is kept.
fn stands(setup: &Value, list: Listing) -> bool
    ensures { result ≡ stands list (view setup.now) }
{
    setup.get(name_of(list)).is_some()
}

/// What is known of a list, as an answer.
fn answer_of(told: ListVerdict) -> Result<Found, ReadFail>
    ensures { (l : Listing) → (e : Extent) → (d : Data) → TellsIn l e told d
        → Answers result (field_faults [] d (list_field l e)) (λ found. StaysIn l e found (held (list_field l e) d)) }
{
    let ListVerdict { refusal, found } = told;
    match refusal {
        Some(fail) => Err(fail),
        None => Ok(found),
    }
}

/// Whether one of the lists is in a scenario, of which this is kept.
fn any_stands(setup: &Value, group: Group) -> bool
    ensures { result ≡ any_stands group (view setup.now) }
{
    match group {
        Group::Cabinets => stands(setup, Listing::Cabinets),
        Group::Events => {
            stands(setup, Listing::Inputs)
                || stands(setup, Listing::Loads)
                || stands(setup, Listing::Priority)
                || stands(setup, Listing::Frames)
                || stands(setup, Listing::Faults)
        }
    }
}

/// What is known of the lists of a text's scenario, of which this is kept in addition to its lists; none, where this
/// way does not say.
fn known_in(
    alloc: Global,
    bytes: &[u8],
    around: Around,
    setup: &Value,
    search: Search,
) -> Option<Known>
    ensures { IfSome result (λ known. (d : Data) → Reads bytes.now d → view setup.now ≡ cut Setup (scenario_in around d) → Knows search known (scenario_in around d)) }
{
    if !any_stands(setup, search.group) {
        return Some(all_absent(alloc));
    }
    match known_of(alloc, bytes, around, search) {
        Some(known) => Some(known),
        None => None,
    }
}

/// Judges the cabinets of a text's scenario: what stays of them, or their first fault. Lack of memory represents what
/// this way does not say.
pub(crate) fn judge_cabinets(
    alloc: Global,
    bytes: &[u8],
    around: Around,
    setup: &Value,
    extent: Extent,
) -> Result<Found, ReadFail>
    ensures { (d : Data) → Reads bytes.now d → view setup.now ≡ cut Setup (scenario_in around d)
        → Answers result (field_faults [] (scenario_in around d) (cabinets extent.version)) (λ found. StaysIn Listing.Cabinets extent found (held (cabinets extent.version) (scenario_in around d))) }
{
    let search = Search {
        group: Group::Cabinets,
        extent,
    };
    match known_in(alloc, bytes, around, setup, search) {
        Some(known) => answer_of(known.cabinets),
        None => Err(ReadFail::NoMemory),
    }
}

/// The first fault of a list, or else what is answered of those after it.
fn behind(told: ListVerdict, rest: Result<(), ReadFail>) -> Result<(), ReadFail>
    ensures { (l : Listing) → (e : Extent) → (d : Data) → (causes : List Cause) → TellsIn l e told d → Answers rest causes (λ _. Unit {0})
        → Answers result (field_faults [] d (list_field l e) ++ causes) (λ _. Unit {0}) }
{
    match answer_of(told) {
        Ok(_) => rest,
        Err(fail) => Err(fail),
    }
}

/// The first fault of what happens, in the order of the lists.
fn first_of(known: Known) -> Result<(), ReadFail>
    ensures { (search : Search) → (d : Data) → search.group ≡ Group.Events → Knows search known d
        → Answers result (fields_faults [] d (event_fields search.extent.rounds search.extent.cabinets)) (λ _. Unit {0}) }
{
    let from_faults = behind(known.faults, Ok(()));
    let from_frames = behind(known.frames, from_faults);
    let from_priority = behind(known.priority, from_frames);
    let from_loads = behind(known.loads, from_priority);
    behind(known.inputs, from_loads)
}

/// Judges what happens in the rounds of a text's scenario. Lack of memory is also the answer for what this way does not
/// say.
pub(crate) fn judge_events(
    alloc: Global,
    bytes: &[u8],
    around: Around,
    setup: &Value,
    extent: Extent,
) -> Result<(), ReadFail>
    ensures { (d : Data) → Reads bytes.now d → view setup.now ≡ cut Setup (scenario_in around d)
        → Answers result (fields_faults [] (scenario_in around d) (event_fields extent.rounds extent.cabinets)) (λ _. Unit {0}) }
{
    let search = Search {
        group: Group::Events,
        extent,
    };
    match known_in(alloc, bytes, around, setup, search) {
        Some(known) => first_of(known),
        None => Err(ReadFail::NoMemory),
    }
}
