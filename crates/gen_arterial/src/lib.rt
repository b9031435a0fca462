//! Generated scenarios: from a seed, a number of cabinets and a number of rounds, a street with traffic, a download at
//! each cabinet and lost polls. The same numbers give the same scenario, to the byte, on every machine; the reader of
//! scenarios refuses none.
#![tactic(auto)]

mod drawing;
mod draws;
mod making;
mod values;

ghost use Rattle.std.specs.Prelude.{◌≡◌, ℕ, []};
ghost use Rattle.scenario_read.specs.Content.{scenario_of};
ghost use Rattle.scenario_read.specs.Faults.{faults};
ghost use Rattle.gen_arterial.specs.Written.{CanMake, scenario_value, generated, generated_text};
ghost use Rattle.gen_arterial.specs.Smallest.{smallest_text};

pub use making::{make, text_of};

/// A law: the reader of scenarios finds no fault in the value of a generated scenario, and reads from it what is generated.
pub fn generated_is_read()
    ensures faultless { (seed cabinets rounds : ℕ) → CanMake cabinets rounds → faults (scenario_value seed cabinets rounds) ≡ [] }
    ensures content { (seed cabinets rounds : ℕ) → CanMake cabinets rounds → scenario_of (scenario_value seed cabinets rounds) ≡ generated seed cabinets rounds }
{}

/// The text of seed 0 for one cabinet and one round, computed from the definition.
pub fn smallest_generated()
    ensures { generated_text 0 1 1 ≡ smallest_text }
{}
