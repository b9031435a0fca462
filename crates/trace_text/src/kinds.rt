//! Reading the lines of each kind from the words after the kind's letter.

ghost use Rattle.std.specs.Prelude.{◌≡◌, ◌∷◌, ◌<◌, ◌^◌, ℕ, [], map, codes, decimal, IfOk, length, IsTrue, ◌↔◌};
ghost use Rattle.trace_text.specs.IsLine.{IsWorded, FitsNote, FitsLoad};
ghost use Rattle.trace_text.specs.Line.{line_words, note_words, load_words};
ghost use Rattle.trace_text.specs.Reads.{Reads};

use crate::lines::Line;
use crate::numbers::{byte, signed, word16, word32};
use crate::pieces::{reply_of, runs_of};
use sig_types::{Broken, MasterNote};
use std::alloc::{AllocError, Global};

/// The round that begins.
pub fn round(words: &[&[u8]]) -> Option<Line>
    ensures { Reads IsWorded line_words (codes "R" ∷ map (λ word. word.now) words.now) result }
{
    match words {
        [round] => match word32(round) {
            Some(round) => Some(Line::R { round }),
            None => None,
        },
        _ => None,
    }
}

/// The end, with the number of rounds.
pub fn end(words: &[&[u8]]) -> Option<Line>
    ensures { Reads IsWorded line_words (codes "Z" ∷ map (λ word. word.now) words.now) result }
{
    match words {
        [rounds] => match word32(rounds) {
            Some(rounds) => Some(Line::Z { rounds }),
            None => None,
        },
        _ => None,
    }
}

/// A note of the master.
pub fn master_note(words: &[&[u8]]) -> Option<Line>
    ensures { Reads IsWorded line_words (codes "M" ∷ map (λ word. word.now) words.now) result }
{
    match note(words) {
        Some(note) => Some(Line::M { note }),
        None => None,
    }
}

fn note(words: &[&[u8]]) -> Option<MasterNote>
    ensures { Reads FitsNote note_words (codes "M" ∷ map (λ word. word.now) words.now) result }
{
    match words {
        [cab, what] => service_note(cab, what),
        [cab, what, pattern] => pattern_note(cab, what, pattern),
        [cab, what, load, ended] => done_note(cab, what, load, ended),
        [cab, what, load, ended, status, index] => refused_note(
            cab, what, load, ended, status, index,
        ),
        _ => None,
    }
}

/// Whether the word is this text.
fn is(word: &[u8], text: &[u8]) -> bool
    ensures { IsTrue result ↔ (word.now ≡ text.now) }
{
    word == text
}

/// A cabinet that no longer answers, or answers again.
fn service_note(cab: &[u8], what: &[u8]) -> Option<MasterNote>
    ensures { Reads FitsNote note_words (codes "M" ∷ cab.now ∷ what.now ∷ []) result }
{
    let cab = word32(cab)?;
    if is(what, b"fail") {
        return Some(MasterNote::Fail(cab));
    }
    if is(what, b"good") {
        return Some(MasterNote::Good(cab));
    }
    None
}

/// A pattern that was acknowledged.
fn pattern_note(cab: &[u8], what: &[u8], pattern: &[u8]) -> Option<MasterNote>
    ensures { Reads FitsNote note_words (codes "M" ∷ cab.now ∷ what.now ∷ pattern.now ∷ []) result }
{
    if !is(what, b"pattern") {
        return None;
    }
    let cab = word32(cab)?;
    let pattern = byte(pattern)?;
    Some(MasterNote::Pattern(cab, pattern))
}

/// A load that is done.
fn done_note(cab: &[u8], what: &[u8], load: &[u8], ended: &[u8]) -> Option<MasterNote>
    ensures { Reads FitsNote note_words (codes "M" ∷ cab.now ∷ what.now ∷ load.now ∷ ended.now ∷ []) result }
{
    if !is(what, b"load") {
        return None;
    }
    if !is(ended, b"done") {
        return None;
    }
    let cab = word32(cab)?;
    let load = word32(load)?;
    Some(MasterNote::LoadDone(cab, load))
}

/// A load that was refused.
fn refused_note(
    cab: &[u8],
    what: &[u8],
    load: &[u8],
    ended: &[u8],
    status: &[u8],
    index: &[u8],
) -> Option<MasterNote>
    ensures { Reads FitsNote note_words (codes "M" ∷ cab.now ∷ what.now ∷ load.now ∷ ended.now ∷ status.now ∷ index.now ∷ []) result }
{
    if !is(what, b"load") {
        return None;
    }
    if !is(ended, b"refused") {
        return None;
    }
    let cab = word32(cab)?;
    let load = word32(load)?;
    let status = signed(status)?;
    let index = signed(index)?;
    Some(MasterNote::LoadRefused(cab, load, status, index))
}

/// The end of a download.
pub fn load(words: &[&[u8]]) -> Option<Line>
    ensures { Reads IsWorded line_words (codes "L" ∷ map (λ word. word.now) words.now) result }
{
    match words {
        [cab, id, what, version] => accepted(cab, id, what, version),
        [cab, id, what, rule, row] => refused(cab, id, what, rule, row),
        _ => None,
    }
}

fn accepted(cab: &[u8], id: &[u8], what: &[u8], version: &[u8]) -> Option<Line>
    ensures { Reads IsWorded line_words (codes "L" ∷ cab.now ∷ id.now ∷ what.now ∷ version.now ∷ []) result }
{
    if !is(what, b"accepted") {
        return None;
    }
    let cab = word32(cab)?;
    let id = word32(id)?;
    let version = word32(version)?;
    Some(Line::L {
        cab,
        id,
        result: Ok(version),
    })
}

fn refused(cab: &[u8], id: &[u8], what: &[u8], rule: &[u8], row: &[u8]) -> Option<Line>
    ensures { Reads IsWorded line_words (codes "L" ∷ cab.now ∷ id.now ∷ what.now ∷ rule.now ∷ row.now ∷ []) result }
{
    if !is(what, b"refused") {
        return None;
    }
    let cab = word32(cab)?;
    let id = word32(id)?;
    let rule = byte(rule)?;
    let row = word16(row)?;
    Some(Line::L {
        cab,
        id,
        result: Err(Broken { rule, row }),
    })
}

/// The journal of a cabinet.
pub fn journal(alloc: Global, words: &[&[u8]]) -> Result<Option<Line>, AllocError>
    ensures { IfOk result (Reads IsWorded line_words (codes "J" ∷ map (λ word. word.now) words.now)) }
{
    match words {
        [cab, runs @ ..] => journal_of(alloc, cab, runs),
        [] => Ok(None),
    }
}

fn journal_of(alloc: Global, cab: &[u8], runs: &[&[u8]]) -> Result<Option<Line>, AllocError>
    ensures { IfOk result (Reads IsWorded line_words (codes "J" ∷ cab.now ∷ map (λ word. word.now) runs.now)) }
{
    let cab = match word32(cab) {
        Some(cab) => cab,
        None => return Ok(None),
    };
    match runs_of(alloc, runs)? {
        Some(runs) => Ok(Some(Line::J { cab, runs })),
        None => Ok(None),
    }
}

/// A reply.
pub fn reply(alloc: Global, words: &[&[u8]]) -> Result<Option<Line>, AllocError>
    ensures { IfOk result (Reads IsWorded line_words (codes "A" ∷ map (λ word. word.now) words.now)) }
{
    match words {
        [cab, pass, hex] => reply_line(alloc, cab, pass, hex),
        _ => Ok(None),
    }
}

fn reply_line(
    alloc: Global,
    cab: &[u8],
    pass: &[u8],
    hex: &[u8],
) -> Result<Option<Line>, AllocError>
    ensures { IfOk result (Reads IsWorded line_words (codes "A" ∷ cab.now ∷ pass.now ∷ hex.now ∷ [])) }
{
    let cab = match word32(cab) {
        Some(cab) => cab,
        None => return Ok(None),
    };
    let pass = match word32(pass) {
        Some(pass) => pass,
        None => return Ok(None),
    };
    match reply_of(alloc, hex)? {
        Some(hex) => Ok(Some(Line::A { cab, pass, hex })),
        None => Ok(None),
    }
}
