//! The field file (RFC 8259): a scenario, the vehicle detectors of its cabinets with their pulses, and how patterns
//! follow the traffic, as one JSON object with the names `scenario`, `bank`, `pulses` and `respond`. There are two ways
//! to read it. Read as a whole, an invalid file is refused at its first fault. Read item by item, a valid file takes
//! little memory, and so does a file whose first fault concerns several lists, which is refused at that fault; nothing
//! is said about any other file.
#![tactic(auto)]

mod across;
mod bank;
mod first;
mod found;
mod inner;
mod judged;
mod list_reading;
mod lists;
mod marks;
mod members;
mod named;
mod parts;
mod place;
mod pulses;
mod reading;
mod respond;
mod top;
mod traffic;
mod whole;

ghost use Rattle.std.specs.Prelude.{◌≡◌, ℕ, List, codes, String, string_bytes};
ghost use Rattle.std.specs.declared.alloc.Global.{Global};
ghost use Rattle.scenario_data.specs.declared.refusal.Refusal.{Refusal};
ghost use Rattle.scenario_read.specs.Answers.{SameFault};
ghost use Rattle.field_read.specs.Content.{FieldContent};
ghost use Rattle.field_read.specs.Answers.{IsField, IsFirstFieldFault};

pub use across::lists_fit;
pub use bank::detector_in;
pub use first::first_fault;
pub use list_reading::{listed, listed_again};
pub use named::Field;
pub use pulses::pulse_in;
pub use reading::{Source, read_source};
pub use respond::{Respond, respond_in};
pub use whole::Listed;

/// A law: bytes are one field file and no more, or have one first fault and no other, and never both.
pub fn bytes_have_one_answer()
    ensures one { (bytes : List ℕ) → (a b : FieldContent) → IsField bytes a → IsField bytes b → a ≡ b }
    ensures apart { (bytes : List ℕ) → (a : FieldContent) → (refusal : Refusal) → IsField bytes a → IsFirstFieldFault bytes refusal → ⊥ }
    ensures one_fault { (bytes : List ℕ) → (a b : Refusal) → IsFirstFieldFault bytes a → IsFirstFieldFault bytes b → SameFault a b }
{}

/// A law: a limit has the name of what is beyond it, and never that of the whole, `.`.
pub fn limits_have_names()
    ensures { (bytes : List ℕ) → (path : String Global) → IsFirstFieldFault bytes (Refusal.Limit path) → string_bytes path ≡ codes "." → ⊥ }
{}
