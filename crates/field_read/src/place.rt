//! Where in a field file a value is, how that is written, and the refusals that name it. Text is made only where a
//! fault was found.

ghost use Rattle.std.specs.Prelude.{◌≡◌, IfOk, string_bytes};
ghost use Rattle.scenario_read.specs.Paths.{path_text, then_named};
ghost use Rattle.scenario_read.specs.Kinds.{fault_at};
ghost use Rattle.scenario_read.specs.Readers.{fit_of, refusal_at, Refuses};
ghost use Rattle.field_read.specs.Places.{steps_of};

use scenario_data::{ReadFail, Refusal};
use scenario_read::Unfit;
use std::alloc::{AllocError, Global};

/// An object or an item of a list. Places in lists are counted from 0.
#[derive(Clone, Copy)]
pub enum Place {
    Top,
    Scenario,
    Master,
    Detector(usize),
    Pulse(usize),
    Respond,
    Section(usize),
    Step { section: usize, step: usize },
}

/// The path of a place.
fn path_of(alloc: Global, place: Place) -> Result<String, AllocError>
    ensures { IfOk result (λ path. string_bytes path ≡ path_text (steps_of place)) }
{
    match place {
        Place::Top => String::from_str(alloc, "."),
        Place::Scenario => String::from_str(alloc, "scenario"),
        Place::Master => String::from_str(alloc, "scenario.master"),
        Place::Detector(place) => format!(in alloc; "bank[{place}]"),
        Place::Pulse(place) => format!(in alloc; "pulses[{place}]"),
        Place::Respond => String::from_str(alloc, "respond"),
        Place::Section(section) => format!(in alloc; "respond.sections[{section}]"),
        Place::Step { section, step } => {
            format!(in alloc; "respond.sections[{section}].steps[{step}]")
        }
    }
}

/// The path of a member of an object.
#[tactic(auto, using(scenario_read::proofs::Refusing::ended))]
fn path_of_member(alloc: Global, place: Place, member: &str) -> Result<String, AllocError>
    ensures { IfOk result (λ path. string_bytes path ≡ path_text (then_named (steps_of place) member.now)) }
{
    match place {
        Place::Top => String::from_str(alloc, member),
        Place::Scenario => format!(in alloc; "scenario.{member}"),
        Place::Master => format!(in alloc; "scenario.master.{member}"),
        Place::Detector(place) => format!(in alloc; "bank[{place}].{member}"),
        Place::Pulse(place) => format!(in alloc; "pulses[{place}].{member}"),
        Place::Respond => format!(in alloc; "respond.{member}"),
        Place::Section(section) => format!(in alloc; "respond.sections[{section}].{member}"),
        Place::Step { section, step } => {
            format!(in alloc; "respond.sections[{section}].steps[{step}].{member}")
        }
    }
}

/// The refusal that names a path.
fn named(path: String, unfit: Unfit) -> ReadFail
    ensures { result ≡ ReadFail.Refused (refusal_at path unfit) }
{
    match unfit {
        Unfit::Wrong => ReadFail::Refused(Refusal::Field(path)),
        Unfit::Beyond => ReadFail::Refused(Refusal::Limit(path)),
    }
}

/// The refusal of the value at a place.
pub(crate) fn refuse(alloc: Global, place: Place, unfit: Unfit) -> ReadFail
    ensures { Refuses result (fault_at (steps_of place) (fit_of unfit)) }
{
    match path_of(alloc, place) {
        Ok(path) => named(path, unfit),
        Err(_) => ReadFail::NoMemory,
    }
}

/// The refusal of a member of an object.
pub(crate) fn refuse_member(alloc: Global, place: Place, name: &str, unfit: Unfit) -> ReadFail
    ensures { Refuses result (fault_at (then_named (steps_of place) name.now) (fit_of unfit)) }
{
    match path_of_member(alloc, place, name) {
        Ok(path) => named(path, unfit),
        Err(_) => ReadFail::NoMemory,
    }
}
