//! What is kept of an invalid scenario's value while its first fault is searched: a smaller value with the same first
//! fault; a value without faults is kept whole. If possible the first fault is found without that, list by list.
//! Readers of objects around a scenario use this crate to keep or skip a value.
#![tactic(auto)]

mod allowed;
mod around;
mod checks;
mod form;
mod groups;
mod judge;
mod keeping;
mod last;
mod listing;
mod named;
mod numbers;
mod passing;
mod reading;
mod texts;

ghost use Rattle.std.specs.Prelude.{◌≡◌, []};
ghost use Rattle.serde_json.specs.Data.{Data};
ghost use Rattle.scenario_read.specs.Faults.{faults, first_cause};
ghost use Rattle.scenario_read.specs.Sorted.{Sorted};
ghost use Rattle.scenario_cut.specs.Cutting.{Whole, cut};

pub use around::Around;
pub use checks::inner_fault;
pub use form::Form;
pub use judge::Extent;
pub use keeping::keep;
pub use numbers::number_of;
pub use passing::{pass, pass_items, pass_members, pass_rest};
pub use reading::read;
pub use texts::{kept_of, kept_of_few};

/// A law: what is kept of a value has the first fault of the value.
pub fn first_fault_is_kept()
    ensures { (d : Data) → first_cause (faults (cut Whole d)) ≡ first_cause (faults d) }
{}

/// A law: a value without faults is kept whole, where each object has each name once, rising by bytes, as it is read.
pub fn right_values_are_kept_whole()
    ensures { (d : Data) → Sorted d → faults d ≡ [] → cut Whole d ≡ d }
{}
