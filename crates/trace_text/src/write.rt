//! Writing a line: its words in order, then the newline.

ghost use Rattle.std.specs.Prelude.{◌≡◌, ◌++◌, ◌∷◌, [], OnOk, IfOk, codes, decimal};
ghost use Rattle.trace_text.specs.Line.{line_text, line_words, note_words, load_words};
ghost use Rattle.trace_text.specs.Texts.{colours_text, signals_text, mode_text};
ghost use Rattle.trace_text.specs.Words.{spaced, unended};
ghost use Rattle.trace_text.specs.FrameLines.{frame_line_words};

use crate::lines::Line;
use crate::words::{colours, hexadecimal, mode, runs, signals};
use crate::{number, word};
use sig_types::{Broken, Colour, MasterNote, Mode, NoMemory, Octets, Ped};
use std::alloc::{AllocError, Global};

/// The text of a line, with its newline; `NoMemory` where memory was refused. `read_line` gives the line back where it
/// is proper: a scenario's text holds no newline, a journal is in longest runs, a reply has 1 to 1,472 octets.
pub fn write_line(alloc: Global, line: &Line) -> Result<Vec<u8>, NoMemory>
    ensures { IfOk result (λ text. text.items ≡ line_text line.now) }
{
    match text_of(alloc, line) {
        Ok(text) => Ok(text),
        Err(_) => Err(NoMemory),
    }
}

/// The text of a line in a buffer of its own, mostly with room for all of it.
#[tactic(auto, using(crate::proofs::Endings::endings), unfolding(crate::specs::Line::line_text))]
fn text_of(alloc: Global, line: &Line) -> Result<Vec<u8>, AllocError>
    ensures { IfOk result (λ text. text.items ≡ line_text line.now) }
{
    let mut out = Vec::with_capacity(alloc, 128)?;
    words(alloc, &mut out, line)?;
    out.push(b'\n')?;
    Ok(out)
}

/// What a frame's line says about a cabinet: the signals, the mode, the counter and its target, the version of the
/// tables.
#[derive(Clone, Copy)]
struct FrameLine<'a> {
    cab: u32,
    tick: u32,
    veh: &'a [Colour; 16],
    ped: &'a [Ped; 16],
    mode: Mode,
    counter: u32,
    target: u32,
    version: u32,
}

/// The words of a line.
fn words(alloc: Global, out: &mut Vec<u8>, line: &Line) -> Result<(), AllocError>
    ensures { OnOk result (out.new.items ≡ out.old.items ++ unended (line_words line.now)) }
{
    match line {
        Line::S { json } => scenario(out, json.as_slice()),
        Line::F {
            cab,
            tick,
            veh,
            ped,
            mode,
            counter,
            target,
            version,
        } => {
            let shown = FrameLine {
                cab: *cab,
                tick: *tick,
                veh,
                ped,
                mode: *mode,
                counter: *counter,
                target: *target,
                version: *version,
            };
            frame(out, &shown)
        }
        Line::R { round } => numbered(out, b'R', *round),
        Line::M { note } => master_note(out, *note),
        Line::J { cab, runs } => journal(out, *cab, runs.as_slice()),
        Line::L { cab, id, result } => load(out, *cab, *id, *result),
        Line::A { cab, pass, hex } => reply(alloc, out, *cab, *pass, hex),
        Line::Z { rounds } => numbered(out, b'Z', *rounds),
    }
}

fn scenario(out: &mut Vec<u8>, json: &[u8]) -> Result<(), AllocError>
    ensures { OnOk result (out.new.items ≡ out.old.items ++ unended (line_words (Line.S json.now))) }
{
    out.push(b'S')?;
    word(out, json)
}

/// The words of a frame.
fn frame(out: &mut Vec<u8>, shown: &FrameLine) -> Result<(), AllocError>
    ensures { OnOk result (out.new.items ≡ out.old.items ++ unended (frame_line_words shown.now)) }
{
    numbered(out, b'F', shown.cab)?;
    number(out, shown.tick)?;
    signs(out, shown)?;
    counts(out, shown)
}

/// What a frame shows, and its mode.
fn signs(out: &mut Vec<u8>, shown: &FrameLine) -> Result<(), AllocError>
    ensures { OnOk result (out.new.items ≡ out.old.items ++ spaced (colours_text shown.now.veh.now ∷ signals_text shown.now.ped.now ∷ mode_text shown.now.mode ∷ [])) }
{
    colours(out, shown.veh)?;
    signals(out, shown.ped)?;
    mode(out, shown.mode)
}

/// A frame's counter, its target, and the version.
fn counts(out: &mut Vec<u8>, shown: &FrameLine) -> Result<(), AllocError>
    ensures { OnOk result (out.new.items ≡ out.old.items ++ spaced (decimal shown.now.counter ∷ decimal shown.now.target ∷ decimal shown.now.version ∷ [])) }
{
    number(out, shown.counter)?;
    number(out, shown.target)?;
    number(out, shown.version)
}

/// A kind's letter, and its first number.
fn numbered(out: &mut Vec<u8>, kind: u8, n: u32) -> Result<(), AllocError>
    ensures { OnOk result (out.new.items ≡ out.old.items ++ unended ((kind ∷ []) ∷ decimal n ∷ [])) }
{
    out.push(kind)?;
    number(out, n)
}

fn master_note(out: &mut Vec<u8>, note: MasterNote) -> Result<(), AllocError>
    ensures { OnOk result (out.new.items ≡ out.old.items ++ unended (note_words note)) }
{
    match note {
        MasterNote::Fail(cab) => {
            numbered(out, b'M', cab)?;
            word(out, b"fail")
        }
        MasterNote::Good(cab) => {
            numbered(out, b'M', cab)?;
            word(out, b"good")
        }
        MasterNote::Pattern(cab, pattern) => {
            numbered(out, b'M', cab)?;
            word(out, b"pattern")?;
            number(out, pattern)
        }
        MasterNote::LoadDone(cab, load) => {
            note_of_load(out, cab, load)?;
            word(out, b"done")
        }
        MasterNote::LoadRefused(cab, load, status, index) => {
            note_of_load(out, cab, load)?;
            word(out, b"refused")?;
            number(out, status)?;
            number(out, index)
        }
    }
}

/// The first words of a note of a load.
fn note_of_load(out: &mut Vec<u8>, cab: u32, load: u32) -> Result<(), AllocError>
    ensures { OnOk result (out.new.items ≡ out.old.items ++ unended (codes "M" ∷ decimal cab ∷ codes "load" ∷ decimal load ∷ [])) }
{
    numbered(out, b'M', cab)?;
    word(out, b"load")?;
    number(out, load)
}

fn journal(out: &mut Vec<u8>, cab: u32, passes: &[(u32, u32)]) -> Result<(), AllocError>
    ensures { OnOk result (out.new.items ≡ out.old.items ++ unended (line_words (Line.J cab passes.now))) }
{
    numbered(out, b'J', cab)?;
    runs(out, passes)
}

fn load(out: &mut Vec<u8>, cab: u32, id: u32, ended: Result<u32, Broken>) -> Result<(), AllocError>
    ensures { OnOk result (out.new.items ≡ out.old.items ++ unended (load_words cab id ended)) }
{
    numbered(out, b'L', cab)?;
    number(out, id)?;
    match ended {
        Ok(version) => {
            word(out, b"accepted")?;
            number(out, version)
        }
        Err(broken) => refusal(out, broken),
    }
}

/// The rule that refused a download, and the row.
fn refusal(out: &mut Vec<u8>, broken: Broken) -> Result<(), AllocError>
    ensures { OnOk result (out.new.items ≡ out.old.items ++ spaced (codes "refused" ∷ decimal broken.rule ∷ decimal broken.row ∷ [])) }
{
    word(out, b"refused")?;
    number(out, broken.rule)?;
    number(out, broken.row)
}

fn reply(
    alloc: Global,
    out: &mut Vec<u8>,
    cab: u32,
    pass: u32,
    octets: &Option<Octets>,
) -> Result<(), AllocError>
    ensures { OnOk result (out.new.items ≡ out.old.items ++ unended (line_words (Line.A cab pass octets.now))) }
{
    numbered(out, b'A', cab)?;
    number(out, pass)?;
    match octets {
        None => word(out, b"-"),
        Some(octets) => hexadecimal(alloc, out, octets.as_slice()),
    }
}
