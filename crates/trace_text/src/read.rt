//! Reading a line: its newline, its words, and by its first word its kind.

ghost use Rattle.std.specs.Prelude.{◌≡◌, ◌≢◌, ◌↔◌, ◌∷◌, [], IfOk, IfSome, IsTrue, Option, Some, None, false};
ghost use Rattle.trace_text.specs.Fronts.{words_left};
ghost use Rattle.trace_text.specs.IsLine.{IsLine, IsWorded};
ghost use Rattle.trace_text.specs.Line.{line_text, line_words};
ghost use Rattle.trace_text.specs.Reads.{Reads};
ghost use Rattle.trace_text.specs.Words.{unended, Lacks};

use crate::frame_reading::frame;
use crate::front::next_word;
use crate::kinds::{end, journal, load, master_note, reply, round};
use crate::lines::{Line, Text};
use crate::pieces::words_of;
use sig_types::NoMemory;
use std::alloc::{AllocError, Global};

/// The line whose text these bytes are, to the last newline; none if they aren't a line's. `NoMemory` if memory was
/// refused. It returns what `write_line` wrote.
pub fn read_line(alloc: Global, bytes: &[u8]) -> Result<Option<Line>, NoMemory>
    ensures found { IfOk result (λ found. IfSome found (λ line. IsLine line × (bytes.now ≡ line_text line))) }
    ensures only { (line : Line) → IsLine line → bytes.now ≡ line_text line → IfOk result (λ found. found ≡ Some line) }
    ensures none { IfOk result (λ found. (found ≡ None) ↔ ((line : Line) → IsLine line → bytes.now ≢ line_text line)) }
{
    match ended_line(alloc, bytes) {
        Ok(found) => Ok(found),
        Err(_) => Err(NoMemory),
    }
}

/// The line with its newline.
fn ended_line(alloc: Global, bytes: &[u8]) -> Result<Option<Line>, AllocError>
    ensures { IfOk result (Reads IsLine line_text bytes.now) }
{
    match bytes.strip_suffix(b"\n") {
        Some(line) => unended_line(alloc, line),
        None => Ok(None),
    }
}

/// The line without its newline.
fn unended_line(alloc: Global, bytes: &[u8]) -> Result<Option<Line>, AllocError>
    ensures { IfOk result (Reads IsLine (λ line. unended (line_words line)) bytes.now) }
{
    match bytes.strip_prefix(b"S ") {
        Some(json) => scenario(alloc, json),
        None => worded_line(alloc, bytes),
    }
}

/// The scenario's line, with what follows its letter and space.
fn scenario(alloc: Global, json: &[u8]) -> Result<Option<Line>, AllocError>
    ensures { IfOk result (Reads IsLine (λ line. unended (line_words line)) (83 ∷ 32 ∷ json.now)) }
{
    if has_newline(json) {
        return Ok(None);
    }
    let bytes = json.to_vec(alloc)?;
    Ok(Some(Line::S {
        json: Text::new(bytes),
    }))
}

fn has_newline(bytes: &[u8]) -> bool
    ensures { (result ≡ false) ↔ Lacks 10 bytes.now }
{
    bytes.contains(&b'\n')
}

/// A line that isn't a scenario's, without its newline.
fn worded_line(alloc: Global, bytes: &[u8]) -> Result<Option<Line>, AllocError>
    ensures { IfOk result (Reads IsWorded (λ line. unended (line_words line)) bytes.now) }
{
    match next_word(Some(bytes)) {
        Some((kind, words)) => line_of_kind(alloc, kind, words),
        None => Ok(None),
    }
}

/// The line of a kind, by its first word and what is left after it.
fn line_of_kind(
    alloc: Global,
    kind: &[u8],
    words: Option<&[u8]>,
) -> Result<Option<Line>, AllocError>
    ensures { IfOk result (Reads IsWorded line_words (kind.now ∷ words_left words.entry)) }
{
    match kind {
        [b'F'] => Ok(frame(words)),
        [b'R'] => Ok(round(&words_of(alloc, words)?)),
        [b'M'] => Ok(master_note(&words_of(alloc, words)?)),
        [b'J'] => journal(alloc, &words_of(alloc, words)?),
        [b'L'] => Ok(load(&words_of(alloc, words)?)),
        [b'A'] => reply(alloc, &words_of(alloc, words)?),
        [b'Z'] => Ok(end(&words_of(alloc, words)?)),
        _ => Ok(None),
    }
}
