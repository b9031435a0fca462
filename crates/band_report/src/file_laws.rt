//! What is asked of through bands as one JSON object (RFC 8259), with the names `scenario`, `section`, `pattern` and `travel`; and the
//! two lines that answer it.
ghost use Rattle.std.specs.Prelude.{◌≡◌, ℕ, List, codes, String, string_bytes};
ghost use Rattle.std.specs.declared.alloc.Global.{Global};
ghost use Rattle.scenario_data.specs.declared.refusal.Refusal.{Refusal};
ghost use Rattle.scenario_read.specs.Answers.{SameFault};
ghost use Rattle.band_report.specs.BandAnswer.{AsksOfBands, TellsBands, IsFirstBandFault};

/// A law: bytes that ask for bands have either one answer or one first fault, and never both.
pub fn bytes_have_one_answer()
    ensures one { (bytes a b : List ℕ) → TellsBands bytes a → TellsBands bytes b → a ≡ b }
    ensures apart { (bytes : List ℕ) → (refusal : Refusal) → AsksOfBands bytes → IsFirstBandFault bytes refusal → ⊥ }
    ensures one_fault { (bytes : List ℕ) → (a b : Refusal) → IsFirstBandFault bytes a → IsFirstBandFault bytes b → SameFault a b }
{}

/// A law: a limit has the name of what is beyond it, and never that of the whole, `.`.
pub fn limits_have_names()
    ensures { (bytes : List ℕ) → (path : String Global) → IsFirstBandFault bytes (Refusal.Limit path) → string_bytes path ≡ codes "." → ⊥ }
{}
