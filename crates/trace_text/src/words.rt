//! Writing a line word by word: each word after one space, into one buffer.

ghost use Rattle.std.specs.Prelude.{◌≡◌, ◌++◌, ◌∷◌, [], OnOk, map};
ghost use Rattle.std.specs.Fmt.{signed_decimal, decimal};
ghost use Rattle.hex.specs.Hex.{encode_lower};
ghost use Rattle.trace_text.specs.Texts.{colours_text, signals_text, mode_text, run_word, colour_letter, signal_letter};
ghost use Rattle.trace_text.specs.Words.{spaced};

use crate::{digits, number, word};
use sig_types::{Colour, Mode, Ped};
use std::alloc::{AllocError, Global};

/// A space, and the letters of the colours, by phase.
pub fn colours(out: &mut Vec<u8>, veh: &[Colour; 16]) -> Result<(), AllocError>
    ensures { OnOk result (out.new.items ≡ out.old.items ++ 32 ∷ colours_text veh.now) }
{
    out.push(b' ')?;
    for colour in veh {
        out.push(colour_letter_of(*colour))?;
    }
    Ok(())
}

/// A space, and the letters of the pedestrian signals, by phase.
pub fn signals(out: &mut Vec<u8>, ped: &[Ped; 16]) -> Result<(), AllocError>
    ensures { OnOk result (out.new.items ≡ out.old.items ++ 32 ∷ signals_text ped.now) }
{
    out.push(b' ')?;
    for signal in ped {
        out.push(signal_letter_of(*signal))?;
    }
    Ok(())
}

fn colour_letter_of(colour: Colour) -> u8
    ensures { result ≡ colour_letter colour }
{
    match colour {
        Colour::Green => b'G',
        Colour::Yellow => b'Y',
        Colour::Clear => b'C',
        Colour::Red => b'R',
    }
}

fn signal_letter_of(signal: Ped) -> u8
    ensures { result ≡ signal_letter signal }
{
    match signal {
        Ped::Walk => b'W',
        Ped::Flash => b'F',
        Ped::Dont => b'D',
    }
}

/// A space, and the word of the mode.
pub fn mode(out: &mut Vec<u8>, mode: Mode) -> Result<(), AllocError>
    ensures { OnOk result (out.new.items ≡ out.old.items ++ 32 ∷ mode_text mode) }
{
    match mode {
        Mode::Start => word(out, b"S"),
        Mode::Free => word(out, b"F"),
        Mode::Seek(pattern) => numbered(out, b'K', pattern),
        Mode::Coord(pattern) => numbered(out, b'C', pattern),
        Mode::Ending => word(out, b"E"),
        Mode::Flash => word(out, b"X"),
        Mode::Entry(preempt) => stage(out, preempt, b'e'),
        Mode::Track(preempt) => stage(out, preempt, b't'),
        Mode::Dwell(preempt) => stage(out, preempt, b'd'),
        Mode::Exit(preempt) => stage(out, preempt, b'x'),
    }
}

/// A space, a letter and a number.
fn numbered(out: &mut Vec<u8>, letter: u8, n: u8) -> Result<(), AllocError>
    ensures { OnOk result (out.new.items ≡ out.old.items ++ 32 ∷ letter ∷ decimal n) }
{
    out.push(b' ')?;
    out.push(letter)?;
    digits(out, n)
}

/// A space, and a stage of a preempt.
fn stage(out: &mut Vec<u8>, preempt: u8, letter: u8) -> Result<(), AllocError>
    ensures { OnOk result (out.new.items ≡ out.old.items ++ 32 ∷ 80 ∷ (decimal preempt ++ letter ∷ [])) }
{
    numbered(out, b'P', preempt)?;
    out.push(letter)?;
    Ok(())
}

/// The runs, each after a space.
pub fn runs(out: &mut Vec<u8>, runs: &[(u32, u32)]) -> Result<(), AllocError>
    ensures { OnOk result (out.new.items ≡ out.old.items ++ spaced (map run_word runs.now)) }
{
    for run in runs {
        number(out, run.0)?;
        out.push(b'*')?;
        digits(out, run.1)?;
    }
    Ok(())
}

/// A space, and the octets in lower-case hexadecimal.
pub fn hexadecimal(alloc: Global, out: &mut Vec<u8>, octets: &[u8]) -> Result<(), AllocError>
    ensures { OnOk result (out.new.items ≡ out.old.items ++ 32 ∷ encode_lower octets.now) }
{
    out.push(b' ')?;
    crate::hexadecimal(alloc, out, octets)
}
