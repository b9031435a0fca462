//! Where in a scenario a value is, how that is written, and the refusals that name it. Text is made only where a fault
//! was found.

ghost use Rattle.std.specs.Prelude.{◌≡◌, IfOk, string_bytes};
ghost use Rattle.scenario_read.specs.Paths.{path_text, then_named};
ghost use Rattle.scenario_read.specs.Kinds.{fault_at};
ghost use Rattle.scenario_read.specs.Readers.{list_name, steps_of, fit_of, refusal_at, Refuses};

use crate::values::Unfit;
use scenario_data::{ReadFail, Refusal};
use std::alloc::{AllocError, Global};

/// A list at the top of a scenario.
#[derive(Clone, Copy)]
pub enum List {
    Cabinets,
    Inputs,
    Loads,
    Priority,
    Frames,
    Faults,
}

/// An object or an item of a list. Places in lists are counted from 0.
#[derive(Clone, Copy)]
pub enum Place {
    Top,
    Master,
    Entry(usize),
    Listed {
        list: List,
        place: usize,
    },
    Cell {
        list: List,
        place: usize,
        cell: usize,
    },
}

/// The name at which a list is.
pub(crate) fn list_name(list: List) -> &'static str
    ensures { result.now ≡ list_name list }
{
    match list {
        List::Cabinets => "cabinets",
        List::Inputs => "inputs",
        List::Loads => "loads",
        List::Priority => "priority",
        List::Frames => "frames",
        List::Faults => "faults",
    }
}

/// The path of a place.
fn path_of(alloc: Global, place: Place) -> Result<String, AllocError>
    ensures { IfOk result (λ path. string_bytes path ≡ path_text (steps_of place)) }
{
    match place {
        Place::Top => String::from_str(alloc, "."),
        Place::Master => String::from_str(alloc, "master"),
        Place::Entry(entry) => format!(in alloc; "master.schedule[{entry}]"),
        Place::Listed { list, place } => {
            let name = list_name(list);
            format!(in alloc; "{name}[{place}]")
        }
        Place::Cell { list, place, cell } => {
            let name = list_name(list);
            format!(in alloc; "{name}[{place}].cells[{cell}]")
        }
    }
}

/// The path of a member of an object.
#[tactic(auto, using(crate::proofs::Refusing::ended))]
fn path_of_member(alloc: Global, place: Place, member: &str) -> Result<String, AllocError>
    ensures { IfOk result (λ path. string_bytes path ≡ path_text (then_named (steps_of place) member.now)) }
{
    match place {
        Place::Top => String::from_str(alloc, member),
        Place::Master => format!(in alloc; "master.{member}"),
        Place::Entry(entry) => format!(in alloc; "master.schedule[{entry}].{member}"),
        Place::Listed { list, place } => {
            let name = list_name(list);
            format!(in alloc; "{name}[{place}].{member}")
        }
        Place::Cell { list, place, cell } => {
            let name = list_name(list);
            format!(in alloc; "{name}[{place}].cells[{cell}].{member}")
        }
    }
}

/// The refusal that names a path.
fn named(path: String, unfit: Unfit) -> ReadFail
    ensures { result ≡ ReadFail.Refused (refusal_at path unfit) }
{
    match unfit {
        Unfit::Wrong => ReadFail::Refused(Refusal::Field(path)),
        Unfit::Beyond => ReadFail::Refused(Refusal::Limit(path)),
    }
}

/// The refusal of the value at a place.
pub fn refuse(alloc: Global, place: Place, unfit: Unfit) -> ReadFail
    ensures { Refuses result (fault_at (steps_of place) (fit_of unfit)) }
{
    match path_of(alloc, place) {
        Ok(path) => named(path, unfit),
        Err(_) => ReadFail::NoMemory,
    }
}

/// The refusal of a member of an object.
pub fn refuse_member(alloc: Global, place: Place, name: &str, unfit: Unfit) -> ReadFail
    ensures { Refuses result (fault_at (then_named (steps_of place) name.now) (fit_of unfit)) }
{
    match path_of_member(alloc, place, name) {
        Ok(path) => named(path, unfit),
        Err(_) => ReadFail::NoMemory,
    }
}
