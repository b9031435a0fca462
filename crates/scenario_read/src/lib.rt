//! The scenario file, read whole and refused at its first fault. The table of names says what a value may be; the JSON
//! reading is `serde_json`'s (RFC 8259).
#![tactic(auto)]

mod cabinets;
mod cells;
mod events;
mod faults;
mod frames;
mod inputs;
mod loads;
mod master;
mod members;
mod place;
mod priority;
mod reading;
mod scenario;
mod setup;
mod tables;
mod values;

ghost use Rattle.std.specs.Prelude.{◌≡◌, ℕ, List, [], ◌∷◌, codes, Some, String, string_bytes};
ghost use Rattle.std.specs.declared.alloc.Global.{Global};
ghost use Rattle.serde_json.specs.Data.{object, member, no_members, number, unsigned, array, item, no_items, string};
ghost use Rattle.scenario_data.specs.Causes.{Field, Limit};
ghost use Rattle.scenario_read.specs.Paths.{path_text, Named, Item};
ghost use Rattle.scenario_data.specs.declared.refusal.Refusal.{Refusal};
ghost use Rattle.scenario_data.specs.Content.{ScenarioContent};
ghost use Rattle.scenario_read.specs.Faults.{faults, first_cause};
ghost use Rattle.scenario_read.specs.Answers.{IsScenario, IsFirstFault, SameFault};

pub use cabinets::cabinet_in;
pub use events::Events;
pub use faults::fault_in;
pub use frames::frame_in;
pub use inputs::input_in;
pub use loads::load_in;
pub use master::master_at;
pub use members::{known_names, whole_at};
pub use place::{Place, refuse_member};
pub use priority::priority_in;
pub use reading::{read, text};
pub use scenario::{Parts, checked_parts, scenario_from};
pub use setup::{Setup, community_at};
pub use tables::all_judged;
pub use values::{Unfit, flag_of, is_among, items_of, list_of, whole_of};

/// Small values, as the definitions see them.
pub fn small_values()
    ensures empty { first_cause (faults (object no_members)) ≡ Some (Field (codes "version")) }
    ensures wrong_kind { first_cause (faults (object (member (codes "version") (string []) no_members))) ≡ Some (Field (codes "version")) }
    ensures cabinets { first_cause (faults (object (member (codes "cabinets") (array no_items) (member (codes "rounds") (number (unsigned 1)) (member (codes "ticks") (number (unsigned 1)) (member (codes "version") (number (unsigned 1)) no_members))))))
        ≡ Some (Limit (codes "cabinets")) }
    ensures unknown { first_cause (faults (object (member (codes "cabinets") (array (item (object (member (codes "bases") (string []) no_members)) no_items)) (member (codes "rounds") (number (unsigned 1)) (member (codes "ticks") (number (unsigned 1)) (member (codes "version") (number (unsigned 1)) no_members))))))
        ≡ Some (Field (path_text (Named (codes "cabinets") ∷ Item 0 ∷ Named (codes "bases") ∷ []))) }
{}

/// A law: bytes are one scenario and no more, or have one first fault and no other, and never both.
pub fn bytes_have_one_answer()
    ensures one { (bytes : List ℕ) → (a b : ScenarioContent) → IsScenario bytes a → IsScenario bytes b → a ≡ b }
    ensures apart { (bytes : List ℕ) → (a : ScenarioContent) → (refusal : Refusal) → IsScenario bytes a → IsFirstFault bytes refusal → ⊥ }
    ensures one_fault { (bytes : List ℕ) → (a b : Refusal) → IsFirstFault bytes a → IsFirstFault bytes b → SameFault a b }
{}

/// A law: a limit has the name of what is beyond it. That of the whole, `.`, is only for too many bytes.
pub fn limits_have_names()
    ensures { (bytes : List ℕ) → (path : String Global) → IsFirstFault bytes (Refusal.Limit path) → string_bytes path ≡ codes "." → ⊥ }
{}
