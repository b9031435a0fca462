//! The lines of an answer, appended to its text. If memory runs out, a part of them may be there already: the text is
//! then of no more use.

ghost use Rattle.std.specs.Prelude.{◌≡◌, ◌++◌, ◌∷◌, OnOk, map};
ghost use Rattle.trace_text.specs.declared.lines.Line.{Line as LineRow};
ghost use Rattle.trace_text.specs.Line.{line_text};
ghost use Rattle.trace_text.specs.Texts.{reply_text};
ghost use Rattle.safety_laws.specs.TraceText.{lines_text};
ghost use Rattle.cabinet_history.specs.Journals.{runs_of};
ghost use Rattle.cab_book.specs.Books.{journal_of};
ghost use Rattle.cab_book.specs.Happenings.{replies_in};
ghost use Rattle.run_definition.specs.Lines.{shown_line, frame_lines, reply_lines};
ghost use Rattle.run_definition.specs.SessionDialogue.{dot, answer_text};
ghost use Rattle.run_definition.specs.SessionAnswers.{NotTaken};

use crate::appender::Appender;
use cab_book::{Answered, Book};
use session_words::{Untaken, word_of};
use sig_types::{Frame, MasterNote, NoMemory, Octets};
use std::alloc::{AllocError, Global};
use trace_tell::{Teller, tell_frame, tell_frames, tell_notes, tell_replies};
use trace_text::{Line, hexadecimal, number, word, write_line};

/// Appends these bytes.
fn put(out: &mut Vec<u8>, bytes: &[u8]) -> Result<(), NoMemory>
    ensures { OnOk result (out.new.items ≡ out.old.items ++ bytes.now) }
{
    match out.extend_from_slice(bytes) {
        Ok(()) => Ok(()),
        Err(_) => Err(NoMemory),
    }
}

/// Appends a line.
pub fn put_line(alloc: Global, out: &mut Vec<u8>, line: &Line) -> Result<(), NoMemory>
    ensures { OnOk result (out.new.items ≡ out.old.items ++ line_text line.now) }
{
    let text = write_line(alloc, line)?;
    put(out, text.as_slice())
}

/// Puts a space, and the octets of an answer in hexadecimal; `-` where the cabinet was silent.
fn put_octets(alloc: Global, out: &mut Vec<u8>, text: &Option<Octets>) -> Result<(), AllocError>
    ensures { OnOk result (out.new.items ≡ out.old.items ++ 32 ∷ reply_text text.now) }
{
    match text {
        None => word(out, b"-"),
        Some(octets) => {
            out.push(b' ')?;
            hexadecimal(alloc, out, octets.as_slice())
        }
    }
}

/// Puts the line of an answer or of silence, word by word, so that the octets are not copied into a line first.
#[tactic(auto, using(trace_text::proofs::Endings::endings), unfolding(trace_text::specs::Line::line_text))]
fn put_words(
    alloc: Global,
    out: &mut Vec<u8>,
    cab: u32,
    pass: u32,
    octets: &Option<Octets>,
) -> Result<(), AllocError>
    ensures { OnOk result (out.new.items ≡ out.old.items ++ line_text (LineRow.A cab pass octets.now)) }
{
    out.push(b'A')?;
    number(out, cab)?;
    number(out, pass)?;
    put_octets(alloc, out, octets)?;
    out.push(b'\n')?;
    Ok(())
}

/// Appends the line of an answer or of silence.
pub fn put_answer(
    alloc: Global,
    out: &mut Vec<u8>,
    cab: u32,
    pass: u32,
    octets: &Option<Octets>,
) -> Result<(), NoMemory>
    ensures { OnOk result (out.new.items ≡ out.old.items ++ line_text (LineRow.A cab pass octets.now)) }
{
    match put_words(alloc, out, cab, pass, octets) {
        Ok(()) => Ok(()),
        Err(_) => Err(NoMemory),
    }
}

/// Appends the line of what a cabinet shows after N ticks.
pub fn put_frame(
    alloc: Global,
    out: &mut Vec<u8>,
    cab: u32,
    tick: u32,
    frame: &Frame,
) -> Result<(), NoMemory>
    ensures { OnOk result (out.new.items ≡ out.old.items ++ line_text (shown_line cab tick frame.now)) }
{
    let mut appender = Appender { alloc, out };
    match tell_frame(&mut appender, cab, tick, frame) {
        Ok(()) => Ok(()),
        Err(fail) => Err(fail),
    }
}

/// Appends the lines of frames with the numbers of their ticks.
pub fn put_frames(
    alloc: Global,
    out: &mut Vec<u8>,
    cab: u32,
    frames: &[(u32, Frame)],
) -> Result<(), NoMemory>
    ensures { OnOk result (out.new.items ≡ out.old.items ++ lines_text (frame_lines cab frames.now)) }
{
    let mut appender = Appender { alloc, out };
    match tell_frames(&mut appender, cab, frames) {
        Ok(()) => Ok(()),
        Err(fail) => Err(fail),
    }
}

/// Appends the lines of replies.
pub fn put_replies(
    alloc: Global,
    out: &mut Vec<u8>,
    cab: u32,
    replies: &[Answered],
) -> Result<(), NoMemory>
    ensures { OnOk result (out.new.items ≡ out.old.items ++ lines_text (reply_lines cab (replies_in replies.now))) }
{
    let mut appender = Appender { alloc, out };
    match tell_replies(&mut appender, cab, replies) {
        Ok(()) => Ok(()),
        Err(fail) => Err(fail),
    }
}

/// Appends the line of the journal of a book's round.
pub fn put_journal(alloc: Global, out: &mut Vec<u8>, cab: u32, book: &Book) -> Result<(), NoMemory>
    ensures { OnOk result (out.new.items ≡ out.old.items ++ line_text (LineRow.J cab (runs_of (journal_of book.now)))) }
{
    let mut appender = Appender { alloc, out };
    match appender.tell_journal(cab, book.runs()) {
        Ok(()) => Ok(()),
        Err(fail) => Err(fail),
    }
}

/// Appends the lines of the master's notes.
pub fn put_notes(alloc: Global, out: &mut Vec<u8>, notes: &[MasterNote]) -> Result<(), NoMemory>
    ensures { OnOk result (out.new.items ≡ out.old.items ++ lines_text (map LineRow.M notes.now)) }
{
    let mut appender = Appender { alloc, out };
    match tell_notes(&mut appender, notes) {
        Ok(()) => Ok(()),
        Err(fail) => Err(fail),
    }
}

/// Appends the line that ends an answer.
pub fn put_dot(out: &mut Vec<u8>) -> Result<(), NoMemory>
    ensures { OnOk result (out.new.items ≡ out.old.items ++ dot) }
{
    put(out, b".\n")
}

/// Appends the answer that says why a request isn't accepted.
pub fn put_refusal(out: &mut Vec<u8>, untaken: Untaken) -> Result<(), NoMemory>
    ensures { OnOk result (out.new.items ≡ out.old.items ++ answer_text (NotTaken untaken)) }
{
    put(out, b"? ")?;
    put(out, word_of(untaken).as_bytes())?;
    put(out, b"\n.\n")
}
