//! The words of an overlap: a number of a cabinet, parents as hexadecimal digits, and times. Each option is in its
//! place, and no memory is taken.

ghost use Rattle.std.specs.Prelude.{◌≡◌, ◌≤◌, ◌∷◌, ◌↔◌, ℕ, List, IfSome, Ok, codes, decimal, length, map, string_bytes};
ghost use Rattle.arrayvec.specs.ArrayVec.{ArrayVec as ArrayVecRow};
ghost use Rattle.hex.specs.Hex.{decode_of};
ghost use Rattle.command_words.specs.Words.{IsGiven, IsOverlaps};
ghost use Rattle.command_words.specs.declared.command.Overlap.{Overlap as OverlapRow};

use crate::command::Overlap;
use crate::numbers::{behind, option_number};
use arrayvec::ArrayVec;
use hex::decode_to_slice;

/// The octets that a word of hexadecimal digits gives, where they are 1 to 16.
fn octets_of(word: &str) -> Option<ArrayVec<u8, 16>>
    ensures { (octets : ArrayVecRow ℕ) → (result ≡ Some octets) ↔ ((decode_of word.now ≡ Ok octets.items) × (1 ≤ length octets.items) × (length octets.items ≤ 16)) }
{
    let count = word.len() / 2;
    if count < 1 || 16 < count {
        return None;
    }
    let mut room = [0u8; 16];
    match decode_to_slice(word, &mut room[..count]) {
        Ok(()) => {
            let mut octets = ArrayVec::new();
            let _ = octets.try_extend_from_slice(&room[..count]);
            Some(octets)
        }
        Err(_) => None,
    }
}

/// The octets that the first word gives, and the words after it.
fn first_octets(words: &[String]) -> Option<(ArrayVec<u8, 16>, &[String])>
    ensures some { IfSome result (λ found. (hex : List ℕ) × (map string_bytes words.now ≡ hex ∷ map string_bytes found.1.now)
        × (decode_of hex ≡ Ok found.0.items) × (1 ≤ length found.0.items) × (length found.0.items ≤ 16)) }
    ensures none { result ≡ None → (hex octets : List ℕ) (rest : List (List ℕ)) → decode_of hex ≡ Ok octets → 1 ≤ length octets → length octets ≤ 16
        → map string_bytes words.now ≡ hex ∷ rest → ⊥ }
{
    match words {
        [word, rest @ ..] => match octets_of(word.as_str()) {
            Some(octets) => Some((octets, rest)),
            None => None,
        },
        [] => None,
    }
}

/// The octets that the word after an option gives, where the first word is this one, and the words after it.
fn option_octets<'a>(words: &'a [String], option: &str) -> Option<(ArrayVec<u8, 16>, &'a [String])>
    ensures some { IfSome result (λ found. (hex : List ℕ) × (map string_bytes words.now ≡ option.now ∷ hex ∷ map string_bytes found.1.now)
        × (decode_of hex ≡ Ok found.0.items) × (1 ≤ length found.0.items) × (length found.0.items ≤ 16)) }
    ensures none { result ≡ None → (hex octets : List ℕ) (rest : List (List ℕ)) → decode_of hex ≡ Ok octets → 1 ≤ length octets → length octets ≤ 16
        → map string_bytes words.now ≡ option.now ∷ hex ∷ rest → ⊥ }
{
    match behind(words, option) {
        Some(rest) => first_octets(rest),
        None => None,
    }
}

/// The number from least to most after an option, where the first word is this one, and the words after it.
fn option_within<'a>(
    words: &'a [String],
    option: &str,
    least: u32,
    most: u32,
) -> Option<(u32, &'a [String])>
    ensures some { IfSome result (λ found. (map string_bytes words.now ≡ option.now ∷ decimal found.0 ∷ map string_bytes found.1.now) × (least ≤ found.0) × (found.0 ≤ most)) }
    ensures none { result ≡ None → (n : ℕ) (rest : List (List ℕ)) → least ≤ n → n ≤ most
        → map string_bytes words.now ≡ option.now ∷ decimal n ∷ rest → ⊥ }
{
    match option_number(words, option) {
        Some((n, rest)) => {
            if least <= n && n <= most {
                Some((n, rest))
            } else {
                None
            }
        }
        None => None,
    }
}

/// The overlap that the words after the name of the command give.
fn given_overlap(words: &[String]) -> Option<Overlap>
    ensures { (overlap : OverlapRow) → (result ≡ Some overlap) ↔ IsGiven (map string_bytes words.now) overlap }
{
    let (cabinet, behind_cabinet) = match option_within(words, "--cabinet", 1, 64) {
        Some(found) => found,
        None => return None,
    };
    let (parents, behind_parents) = match option_octets(behind_cabinet, "--parents") {
        Some(found) => found,
        None => return None,
    };
    let (trail, behind_trail) = match option_within(behind_parents, "--trail", 0, 255) {
        Some(found) => found,
        None => return None,
    };
    let (yellow, behind_yellow) = match option_within(behind_trail, "--yellow", 0, 255) {
        Some(found) => found,
        None => return None,
    };
    let (red, rest) = match option_within(behind_yellow, "--red", 0, 255) {
        Some(found) => found,
        None => return None,
    };
    if !rest.is_empty() {
        return None;
    }
    Some(Overlap {
        cabinet,
        parents,
        trail: trail as u8,
        yellow: yellow as u8,
        red: red as u8,
    })
}

/// The overlap that the words ask for.
pub fn overlap_of(words: &[String]) -> Option<Overlap>
    ensures { (overlap : OverlapRow) → (result ≡ Some overlap) ↔ IsOverlaps (map string_bytes words.now) overlap }
{
    match behind(words, "overlaps") {
        Some(rest) => given_overlap(rest),
        None => None,
    }
}
