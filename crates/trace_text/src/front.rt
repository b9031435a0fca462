//! Reading the first words of a line one after another, where they lie: what is left begins with the next word.

ghost use Rattle.std.specs.Prelude.{◌≡◌, ◌<◌, ◌^◌, ◌++◌, ◌∷◌, [], ℕ, MatchOption, decimal, length};
ghost use Rattle.trace_text.specs.Fronts.{words_left, ReadsFront};
ghost use Rattle.trace_text.specs.IsLine.{FitsMode};
ghost use Rattle.trace_text.specs.Texts.{colours_text, signals_text, mode_text};

use crate::numbers::word32;
use crate::pieces::around;
use crate::signs::{colours_of, mode_of, signals_of};
use sig_types::{Colour, Mode, Ped};

/// The next word, and what is left after it.
pub fn next_word(words: Option<&[u8]>) -> Option<(&[u8], Option<&[u8]>)>
    ensures { MatchOption result (words_left words.entry ≡ []) (λ taken. words_left words.entry ≡ taken.0.now ∷ words_left taken.1) }
{
    match words {
        None => None,
        Some(bytes) => match around(bytes, b' ') {
            Some((word, left)) => Some((word, Some(left))),
            None => Some((bytes, None)),
        },
    }
}

/// The number of 32 bits that the next word is, and what is left after it.
pub fn next_number(words: Option<&[u8]>) -> Option<(u32, Option<&[u8]>)>
    ensures { ReadsFront (λ n. n < 2 ^ 32) (λ n. decimal n ∷ []) (words_left words.entry) result }
{
    let (word, left) = match next_word(words) {
        Some(taken) => taken,
        None => return None,
    };
    match word32(word) {
        Some(n) => Some((n, left)),
        None => None,
    }
}

/// The colours, by phase, of the next word, and what is left after it.
pub fn next_colours(words: Option<&[u8]>) -> Option<([Colour; 16], Option<&[u8]>)>
    ensures { ReadsFront (λ veh. length veh ≡ 16) (λ veh. colours_text veh ∷ []) (words_left words.entry) result }
{
    let (word, left) = match next_word(words) {
        Some(taken) => taken,
        None => return None,
    };
    match colours_of(word) {
        Some(veh) => Some((veh, left)),
        None => None,
    }
}

/// The pedestrian signals, by phase, of the next word, and what is left after it.
pub fn next_signals(words: Option<&[u8]>) -> Option<([Ped; 16], Option<&[u8]>)>
    ensures { ReadsFront (λ ped. length ped ≡ 16) (λ ped. signals_text ped ∷ []) (words_left words.entry) result }
{
    let (word, left) = match next_word(words) {
        Some(taken) => taken,
        None => return None,
    };
    match signals_of(word) {
        Some(ped) => Some((ped, left)),
        None => None,
    }
}

/// The mode of the next word, and what is left after it.
pub fn next_mode(words: Option<&[u8]>) -> Option<(Mode, Option<&[u8]>)>
    ensures { ReadsFront FitsMode (λ mode. mode_text mode ∷ []) (words_left words.entry) result }
{
    let (word, left) = match next_word(words) {
        Some(taken) => taken,
        None => return None,
    };
    match mode_of(word) {
        Some(mode) => Some((mode, left)),
        None => None,
    }
}
