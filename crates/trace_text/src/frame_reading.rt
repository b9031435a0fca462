//! Reading a frame's line from the words after its letter.

ghost use Rattle.std.specs.Prelude.{◌≡◌, ◌∷◌, ◌<◌, ◌^◌, ℕ, [], codes, decimal, length};
ghost use Rattle.trace_text.specs.Fronts.{words_left, ReadsFront};
ghost use Rattle.trace_text.specs.IsLine.{IsWorded, FitsMode};
ghost use Rattle.trace_text.specs.Line.{line_words};
ghost use Rattle.trace_text.specs.Reads.{Reads};
ghost use Rattle.trace_text.specs.Texts.{colours_text, signals_text, mode_text};

use crate::front::{next_colours, next_mode, next_number, next_signals};
use crate::lines::Line;
use sig_types::{Colour, Mode, Ped};

/// A frame of a cabinet.
pub fn frame(words: Option<&[u8]>) -> Option<Line>
    ensures { Reads IsWorded line_words (codes "F" ∷ words_left words.entry) result }
{
    let ((cab, tick), words) = match two(words) {
        Some(read) => read,
        None => return None,
    };
    let (shown, words) = match shown(words) {
        Some(read) => read,
        None => return None,
    };
    let ((counter, (target, version)), words) = match three(words) {
        Some(read) => read,
        None => return None,
    };
    let (veh, (ped, mode)) = shown;
    match words {
        Some(_) => None,
        None => Some(Line::F {
            cab,
            tick,
            veh,
            ped,
            mode,
            counter,
            target,
            version,
        }),
    }
}

/// Two numbers, and what is left after them.
fn two(words: Option<&[u8]>) -> Option<((u32, u32), Option<&[u8]>)>
    ensures { ReadsFront (λ (n : ℕ × ℕ). (n.0 < 2 ^ 32) × (n.1 < 2 ^ 32)) (λ (n : ℕ × ℕ). decimal n.0 ∷ decimal n.1 ∷ []) (words_left words.entry) result }
{
    let (first, words) = match next_number(words) {
        Some(read) => read,
        None => return None,
    };
    let (second, words) = match next_number(words) {
        Some(read) => read,
        None => return None,
    };
    Some(((first, second), words))
}

/// Three numbers, and what is left after them.
fn three(words: Option<&[u8]>) -> Option<((u32, (u32, u32)), Option<&[u8]>)>
    ensures { ReadsFront (λ (n : ℕ × (ℕ × ℕ)). (n.0 < 2 ^ 32) × ((n.1.0 < 2 ^ 32) × (n.1.1 < 2 ^ 32)))
        (λ (n : ℕ × (ℕ × ℕ)). decimal n.0 ∷ decimal n.1.0 ∷ decimal n.1.1 ∷ []) (words_left words.entry) result }
{
    let (first, words) = match next_number(words) {
        Some(read) => read,
        None => return None,
    };
    let (others, words) = match two(words) {
        Some(read) => read,
        None => return None,
    };
    Some(((first, others), words))
}

/// What a frame shows: colours and pedestrian signals, and the mode; and what is left after them.
fn shown(words: Option<&[u8]>) -> Option<(([Colour; 16], ([Ped; 16], Mode)), Option<&[u8]>)>
    ensures { ReadsFront (λ s. (length s.0 ≡ 16) × ((length s.1.0 ≡ 16) × FitsMode s.1.1)) (λ s. colours_text s.0 ∷ signals_text s.1.0 ∷ mode_text s.1.1 ∷ []) (words_left words.entry) result }
{
    let (veh, words) = match next_colours(words) {
        Some(read) => read,
        None => return None,
    };
    let (others, words) = match signals_and_mode(words) {
        Some(read) => read,
        None => return None,
    };
    Some(((veh, others), words))
}

/// The pedestrian signals and the mode, and what is left after them.
fn signals_and_mode(words: Option<&[u8]>) -> Option<(([Ped; 16], Mode), Option<&[u8]>)>
    ensures { ReadsFront (λ s. (length s.0 ≡ 16) × FitsMode s.1) (λ s. signals_text s.0 ∷ mode_text s.1 ∷ []) (words_left words.entry) result }
{
    let (ped, words) = match next_signals(words) {
        Some(read) => read,
        None => return None,
    };
    let (mode, words) = match next_mode(words) {
        Some(read) => read,
        None => return None,
    };
    Some(((ped, mode), words))
}
