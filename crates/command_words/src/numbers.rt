//! Words one after another, and the numbers among them.

ghost use Rattle.std.specs.Prelude.{◌≡◌, ◌≤◌, ◌∷◌, ◌↔◌, ℕ, List, IfSome, decimal, map, string_bytes};
ghost use Rattle.command_words.specs.Words.{IsOptional};

use itoa::Buffer;

/// The number of 32 bits that a word is, in decimal digits: no sign, and no zero before the first.
pub fn number_of(word: &str) -> Option<u32>
    ensures { (n : ℕ) → (result ≡ Some n) ↔ ((word.now ≡ decimal n) × (n ≤ 4294967295)) }
{
    match word.parse::<u32>() {
        Ok(n) => {
            if Buffer::new().format(n) == word {
                Some(n)
            } else {
                None
            }
        }
        Err(_) => None,
    }
}

/// The words after the first, where that is this one.
pub fn behind<'a>(words: &'a [String], name: &str) -> Option<&'a [String]>
    ensures some { IfSome result (λ rest. map string_bytes words.now ≡ name.now ∷ map string_bytes rest.now) }
    ensures none { result ≡ None → (rest : List (List ℕ)) → map string_bytes words.now ≡ name.now ∷ rest → ⊥ }
{
    match words {
        [word, rest @ ..] => {
            if word.as_str() == name {
                Some(rest)
            } else {
                None
            }
        }
        [] => None,
    }
}

/// The number that the first word is, and the words after it.
fn first_number(words: &[String]) -> Option<(u32, &[String])>
    ensures some { IfSome result (λ found. (map string_bytes words.now ≡ decimal found.0 ∷ map string_bytes found.1.now) × (found.0 ≤ 4294967295)) }
    ensures none { result ≡ None → (n : ℕ) (rest : List (List ℕ)) → n ≤ 4294967295 → map string_bytes words.now ≡ decimal n ∷ rest → ⊥ }
{
    match words {
        [word, rest @ ..] => match number_of(word.as_str()) {
            Some(n) => Some((n, rest)),
            None => None,
        },
        [] => None,
    }
}

/// The number that follows an option, if the first word is this one, and the words after it.
pub fn option_number<'a>(words: &'a [String], option: &str) -> Option<(u32, &'a [String])>
    ensures some { IfSome result (λ found. (map string_bytes words.now ≡ option.now ∷ decimal found.0 ∷ map string_bytes found.1.now) × (found.0 ≤ 4294967295)) }
    ensures none { result ≡ None → (n : ℕ) (rest : List (List ℕ)) → n ≤ 4294967295
        → map string_bytes words.now ≡ option.now ∷ decimal n ∷ rest → ⊥ }
{
    match behind(words, option) {
        Some(rest) => first_number(rest),
        None => None,
    }
}

/// The number that the words give by an option, at most that many; 0 where there are no words.
pub fn optional_number(words: &[String], option: &str, most: u32) -> Option<u32>
    ensures { (n : ℕ) → (result ≡ Some n) ↔ IsOptional (map string_bytes words.now) option.now most n }
{
    if words.is_empty() {
        return Some(0);
    }
    match option_number(words, option) {
        Some((n, rest)) => {
            if !rest.is_empty() {
                return None;
            }
            if n <= most { Some(n) } else { None }
        }
        None => None,
    }
}
