//! Reading what a frame shows: sixteen letters for the vehicles, sixteen for the pedestrians, and the word of the mode.

ghost use Rattle.std.specs.Prelude.{◌≡◌, ◌++◌, ◌∷◌, [], length, codes, decimal, ℕ, ◌<◌, ◌^◌};
ghost use Rattle.trace_text.specs.IsLine.{FitsMode};
ghost use Rattle.trace_text.specs.Reads.{Reads};
ghost use Rattle.trace_text.specs.Texts.{colour_letter, signal_letter, colours_text, signals_text, mode_text};

use crate::numbers::byte;
use sig_types::{Colour, Mode, Ped};

/// The colours, by phase, whose letters the word is.
pub fn colours_of(word: &[u8]) -> Option<[Colour; 16]>
    ensures { Reads (λ veh. length veh ≡ 16) colours_text word.now result }
{
    if word.len() != 16 {
        return None;
    }
    let mut veh = [Colour::Green; 16];
    for p in 0..16 {
        match colour_of(word[p]) {
            Some(colour) => veh[p] = colour,
            None => return None,
        }
    }
    Some(veh)
}

/// The colour of a letter.
fn colour_of(letter: u8) -> Option<Colour>
    ensures { Reads (λ _. Unit {0}) colour_letter letter result }
{
    match letter {
        b'G' => Some(Colour::Green),
        b'Y' => Some(Colour::Yellow),
        b'C' => Some(Colour::Clear),
        b'R' => Some(Colour::Red),
        _ => None,
    }
}

/// The pedestrian signals, by phase, whose letters the word is.
pub fn signals_of(word: &[u8]) -> Option<[Ped; 16]>
    ensures { Reads (λ ped. length ped ≡ 16) signals_text word.now result }
{
    if word.len() != 16 {
        return None;
    }
    let mut ped = [Ped::Walk; 16];
    for p in 0..16 {
        match signal_of(word[p]) {
            Some(signal) => ped[p] = signal,
            None => return None,
        }
    }
    Some(ped)
}

/// The pedestrian signal of a letter.
fn signal_of(letter: u8) -> Option<Ped>
    ensures { Reads (λ _. Unit {0}) signal_letter letter result }
{
    match letter {
        b'W' => Some(Ped::Walk),
        b'F' => Some(Ped::Flash),
        b'D' => Some(Ped::Dont),
        _ => None,
    }
}

/// The mode whose word it is.
pub fn mode_of(word: &[u8]) -> Option<Mode>
    ensures { Reads FitsMode mode_text word.now result }
{
    match word {
        [b'S'] => Some(Mode::Start),
        [b'F'] => Some(Mode::Free),
        [b'E'] => Some(Mode::Ending),
        [b'X'] => Some(Mode::Flash),
        [b'K', pattern @ ..] => match byte(pattern) {
            Some(pattern) => Some(Mode::Seek(pattern)),
            None => None,
        },
        [b'C', pattern @ ..] => match byte(pattern) {
            Some(pattern) => Some(Mode::Coord(pattern)),
            None => None,
        },
        [b'P', preempt @ .., stage] => stage_of(preempt, *stage),
        _ => None,
    }
}

/// The stage of the preempt with this number.
fn stage_of(preempt: &[u8], stage: u8) -> Option<Mode>
    ensures { Reads FitsMode mode_text (80 ∷ (preempt.now ++ stage ∷ [])) result }
{
    let preempt = match byte(preempt) {
        Some(preempt) => preempt,
        None => return None,
    };
    match stage {
        b'e' => Some(Mode::Entry(preempt)),
        b't' => Some(Mode::Track(preempt)),
        b'd' => Some(Mode::Dwell(preempt)),
        b'x' => Some(Mode::Exit(preempt)),
        _ => None,
    }
}
