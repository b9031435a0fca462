//! The result of a field file: a scenario in which the calls of a bank of detectors are inputs and, if patterns follow
//! the traffic, the schedule that counted traffic gives.
#![tactic(auto)]

mod parts;
mod schedule;
mod told;
mod traffic;
mod volumes;
mod written;

ghost use Rattle.std.specs.Prelude.{◌≡◌, ℕ, List, [], codes, String, string_bytes};
ghost use Rattle.std.specs.declared.alloc.Global.{Global};
ghost use Rattle.serde_json.specs.Data.{Data};
ghost use Rattle.scenario_data.specs.declared.refusal.Refusal.{Refusal};
ghost use Rattle.scenario_read.specs.Answers.{IsFirstFault, SameFault};
ghost use Rattle.scenario_read.specs.Faults.{faults};
ghost use Rattle.field_file.specs.Written.{result_of};
ghost use Rattle.field_file.specs.FieldAnswer.{result_faults, HasResult, TellsResult, IsFirstResultFault};

pub use told::respond;

/// A law: bytes have one result, or one first fault, and never both.
pub fn bytes_have_one_answer()
    ensures one { (bytes a b : List ℕ) → TellsResult bytes a → TellsResult bytes b → a ≡ b }
    ensures apart { (bytes : List ℕ) → (refusal : Refusal) → HasResult bytes → IsFirstResultFault bytes refusal → ⊥ }
    ensures one_fault { (bytes : List ℕ) → (a b : Refusal) → IsFirstResultFault bytes a → IsFirstResultFault bytes b → SameFault a b }
{}

/// A law: a limit has the name of what is beyond it, and never that of the whole, `.`.
pub fn limits_have_names()
    ensures { (bytes : List ℕ) → (path : String Global) → IsFirstResultFault bytes (Refusal.Limit path) → string_bytes path ≡ codes "." → ⊥ }
{}

/// A law: a result has no fault of a scenario, and the reader of scenarios refuses nothing of its text.
pub fn results_are_scenarios()
    ensures faultless { (d : Data) → result_faults d ≡ [] → faults (result_of d) ≡ [] }
    ensures unrefused { (bytes text : List ℕ) → (refusal : Refusal) → TellsResult bytes text → IsFirstFault text refusal → ⊥ }
{}
