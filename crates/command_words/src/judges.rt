//! The words of `judge`: how a log is judged. Each option is in its place.

ghost use Rattle.std.specs.Prelude.{◌≡◌, ◌∷◌, ◌++◌, ◌↔◌, ℕ, List, false, codes, map, string_bytes};
ghost use Rattle.judge_laws.specs.declared.Terms.{Terms as TermsRow};
ghost use Rattle.command_words.specs.Words.{joined_words, IsTerms, IsJudge};

use crate::numbers::{behind, optional_number};
use judge_laws::Terms;

/// Whether the first word says that a log begins in the middle, and the words after it.
fn first_joined(words: &[String]) -> (bool, &[String])
    ensures rest { map string_bytes words.now ≡ joined_words result.0 ++ map string_bytes result.1.now }
    ensures none { result.0 ≡ false → (rest : List (List ℕ)) → map string_bytes words.now ≡ codes "--joined" ∷ rest → ⊥ }
{
    match behind(words, "--joined") {
        Some(rest) => (true, rest),
        None => (false, words),
    }
}

/// The terms that the words after the name of the command give.
fn given_terms(words: &[String]) -> Option<Terms>
    ensures { (terms : TermsRow) → (result ≡ Some terms) ↔ IsTerms (map string_bytes words.now) terms }
{
    let (joined, rest) = first_joined(words);
    match optional_number(rest, "--tolerance", 20) {
        Some(tolerance) => Some(Terms {
            tolerance: tolerance as u8,
            joined,
        }),
        None => None,
    }
}

/// The terms on which the words ask for a log to be judged.
pub fn terms_of(words: &[String]) -> Option<Terms>
    ensures { (terms : TermsRow) → (result ≡ Some terms) ↔ IsJudge (map string_bytes words.now) terms }
{
    match behind(words, "judge") {
        Some(rest) => given_terms(rest),
        None => None,
    }
}
