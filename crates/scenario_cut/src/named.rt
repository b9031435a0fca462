//! The lists of a scenario's text that are looked for in one pass, found by their names and judged; all other values
//! are skipped. Of equal names the last counts.

ghost use Rattle.std.specs.Prelude.{◌≡◌, ◌<◌, true, length, Some, IfSome};
ghost use Rattle.json.specs.Json.{value, members};
ghost use Rattle.serde_json.specs.Data.{Data, Members, object, no_members, put};
ghost use Rattle.serde_json.specs.Read.{of_json, of_members, converted};
ghost use Rattle.scenario_cut.specs.Judging.{TellsIn};
ghost use Rattle.scenario_cut.specs.Known.{Knows, list_named, told_of, with_told};
ghost use Rattle.scenario_cut.specs.declared.judge.Extent.{Extent};
ghost use Rattle.scenario_cut.specs.declared.judge.Listing.{Listing};

use crate::judge::{Extent, Listing};
use crate::listing::{ListVerdict, judge_list, nothing};
use crate::passing::pass;
use json::Reader;
use scenario_read::{Place, Unfit, refuse_member};
use std::alloc::Global;

/// Lists that are looked for in one pass: the cabinets, or those of what happens.
#[derive(Clone, Copy)]
pub(crate) enum Group {
    Cabinets,
    Events,
}

/// What is looked for: lists of a scenario of this extent.
#[derive(Clone, Copy)]
pub(crate) struct Search {
    pub group: Group,
    pub extent: Extent,
}

/// What is known of each list.
#[derive(Drop)]
pub(crate) struct Known {
    pub cabinets: ListVerdict,
    pub inputs: ListVerdict,
    pub loads: ListVerdict,
    pub priority: ListVerdict,
    pub frames: ListVerdict,
    pub faults: ListVerdict,
}

/// What is known of a list that isn't: the cabinets must, and any other has no items.
fn absent(alloc: Global, list: Listing) -> ListVerdict
    ensures { (e : Extent) → TellsIn list e result (object no_members) }
{
    match list {
        Listing::Cabinets => ListVerdict {
            refusal: Some(refuse_member(alloc, Place::Top, "cabinets", Unfit::Wrong)),
            found: nothing(alloc),
        },
        _ => ListVerdict {
            refusal: None,
            found: nothing(alloc),
        },
    }
}

/// What is known where none of the lists is there.
pub(crate) fn all_absent(alloc: Global) -> Known
    ensures { (e : Extent) → (l : Listing) → TellsIn l e (told_of l result) (object no_members) }
{
    let cabinets = absent(alloc, Listing::Cabinets);
    let inputs = absent(alloc, Listing::Inputs);
    let loads = absent(alloc, Listing::Loads);
    let priority = absent(alloc, Listing::Priority);
    let frames = absent(alloc, Listing::Frames);
    let faults = absent(alloc, Listing::Faults);
    Known {
        cabinets,
        inputs,
        loads,
        priority,
        frames,
        faults,
    }
}

/// The list of this name, if it is looked for.
fn list_named(group: Group, name: &str) -> Option<Listing>
    ensures { result ≡ list_named group name.now }
{
    match group {
        Group::Cabinets => if name == "cabinets" {
            Some(Listing::Cabinets)
        } else {
            None
        },
        Group::Events => if name == "inputs" {
            Some(Listing::Inputs)
        } else if name == "loads" {
            Some(Listing::Loads)
        } else if name == "priority" {
            Some(Listing::Priority)
        } else if name == "frames" {
            Some(Listing::Frames)
        } else if name == "faults" {
            Some(Listing::Faults)
        } else {
            None
        },
    }
}

/// Puts what is known of a list in place of what was known of it.
fn put_told(known: &mut Known, list: Listing, told: ListVerdict)
    ensures { known.new ≡ with_told list told known.old }
{
    match list {
        Listing::Cabinets => known.cabinets = told,
        Listing::Inputs => known.inputs = told,
        Listing::Loads => known.loads = told,
        Listing::Priority => known.priority = told,
        Listing::Frames => known.frames = told,
        Listing::Faults => known.faults = told,
    }
}

/// Judges the next member, nested at most so deep, if it is one of the lists that are looked for; else passes it over.
fn judge_member(
    alloc: Global,
    reader: &mut Reader<'_>,
    depth: usize,
    name: &str,
    search: Search,
    known: &mut Known,
) -> Option<()>
    ensures ok { IfSome result (λ _. (d : Data) × (converted of_json (value depth reader.old) ≡ Some (d, reader.new))
        × ((ms : Members) → Knows search known.old (object ms) → Knows search known.new (object (put name.now d ms)))) }
    ensures shorter { IfSome result (λ _. length reader.new < length reader.old) }
{
    match list_named(search.group, name) {
        Some(list) => {
            let told = judge_list(alloc, reader, depth, list, search.extent)?;
            put_told(known, list, told);
            Some(())
        }
        None => if pass(reader, depth) { Some(()) } else { None },
    }
}

/// Judges the lists that are looked for among the members up to the brace that closes a scenario.
fn judge_rest(
    alloc: Global,
    reader: &mut Reader<'_>,
    depth: usize,
    search: Search,
    known: &mut Known,
) -> Option<()>
    ensures ok { IfSome result (λ _. (ms : Members) × (converted (λ js. of_members js no_members) (members (value depth) (length reader.old) reader.old) ≡ Some (ms, reader.new))
        × (Knows search known.old (object no_members) → Knows search known.new (object ms))) }
    ensures shorter { IfSome result (λ _. length reader.new < length reader.old) }
{
    'members: loop {
        let name = match reader.next_key() {
            Ok(Some(name)) => name,
            Ok(None) => return Some(()),
            Err(_) => return None,
        };
        judge_member(alloc, reader, depth, name, search, known)?;
    }
}

/// What is known of the lists in the members up to the brace that closes a scenario, each nested at most so deep.
pub(crate) fn judge_members(
    alloc: Global,
    reader: &mut Reader<'_>,
    depth: usize,
    search: Search,
) -> Option<Known>
    ensures ok { IfSome result (λ known. (ms : Members) × (converted (λ js. of_members js no_members) (members (value depth) (length reader.old) reader.old) ≡ Some (ms, reader.new))
        × Knows search known (object ms)) }
    ensures shorter { IfSome result (λ _. length reader.new < length reader.old) }
{
    let mut known = all_absent(alloc);
    match judge_rest(alloc, reader, depth, search, &mut known) {
        Some(()) => Some(known),
        None => None,
    }
}
