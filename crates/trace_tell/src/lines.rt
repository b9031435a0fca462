//! The lines of a cabinet's round for any teller: its journal, its replies and its frames in the order in which they came; and the
//! master's notes.

ghost use Rattle.std.specs.Prelude.{◌≡◌, ◌≤◌, ◌∷◌, [], drop, length, map};
ghost use Rattle.trace_text.specs.declared.lines.Line.{Line as LineRow};
ghost use Rattle.trace_tell.specs.Telling.{TellsLines};
ghost use Rattle.cab_book.specs.Books.{written_in, answered_in};
ghost use Rattle.cab_book.specs.Happenings.{AreInOrder, replies_in};
ghost use Rattle.run_definition.specs.Lines.{shown_line, frame_lines, load_lines, reply_lines};
ghost use Rattle.round_run.specs.Lines.{frames_between, answer_lines, told_lines, book_lines};

use crate::Teller;
use cab_book::{Answered, Book};
use cabinet_history::{Load, Reply};
use sig_types::{Frame, MasterNote};
use trace_text::Line;

/// Passes the line of what a cabinet shows after N ticks to the teller.
pub fn tell_frame<T: Teller>(
    teller: &mut T,
    cab: u32,
    tick: u32,
    frame: &Frame,
) -> Result<(), T::Fail>
    ensures { TellsLines T.told T.stopped result teller.old teller.new ((shown_line cab tick frame.now) ∷ []) }
{
    let line = Line::F {
        cab,
        tick,
        veh: frame.veh,
        ped: frame.ped,
        mode: frame.mode,
        counter: frame.counter,
        target: frame.target,
        version: frame.version,
    };
    teller.tell(&line)
}

/// Gives the teller the line of a frame with the number of its tick.
fn tell_shown<T: Teller>(teller: &mut T, cab: u32, shown: &(u32, Frame)) -> Result<(), T::Fail>
    ensures { TellsLines T.told T.stopped result teller.old teller.new ((shown_line cab shown.now.0 shown.now.1) ∷ []) }
{
    tell_frame(teller, cab, shown.0, &shown.1)
}

/// Gives the teller the lines of frames with the numbers of their ticks.
pub fn tell_frames<T: Teller>(
    teller: &mut T,
    cab: u32,
    frames: &[(u32, Frame)],
) -> Result<(), T::Fail>
    ensures { TellsLines T.told T.stopped result teller.old teller.new (frame_lines cab frames.now) }
{
    for shown in frames {
        match tell_shown(teller, cab, shown) {
            Ok(()) => {}
            Err(fail) => return Err(fail),
        }
    }
    Ok(())
}

/// Gives the teller the line of the end of a download, if the frame brought one.
fn tell_load<T: Teller>(teller: &mut T, cab: u32, load: &Option<Load>) -> Result<(), T::Fail>
    ensures { TellsLines T.told T.stopped result teller.old teller.new (load_lines cab load.now) }
{
    match load {
        None => Ok(()),
        Some(load) => {
            let line = Line::L {
                cab,
                id: load.id,
                result: load.result,
            };
            teller.tell(&line)
        }
    }
}

/// Gives the teller the lines of a reply: the end of a download, if the frame brought one, and then the answer or silence.
pub fn tell_reply<T: Teller>(teller: &mut T, cab: u32, reply: &Reply) -> Result<(), T::Fail>
    ensures { TellsLines T.told T.stopped result teller.old teller.new (answer_lines cab reply.now) }
{
    match tell_load(teller, cab, &reply.load) {
        Ok(()) => {}
        Err(fail) => return Err(fail),
    }
    teller.tell_answer(cab, reply.pass, &reply.text)
}

/// Gives the teller the lines of replies.
pub fn tell_replies<T: Teller>(
    teller: &mut T,
    cab: u32,
    replies: &[Answered],
) -> Result<(), T::Fail>
    ensures { TellsLines T.told T.stopped result teller.old teller.new (reply_lines cab (replies_in replies.now)) }
{
    for answered in replies {
        match tell_reply(teller, cab, &answered.reply) {
            Ok(()) => {}
            Err(fail) => return Err(fail),
        }
    }
    Ok(())
}

/// The frames from one place up to another.
fn frames_between(frames: &[(u32, Frame)], first: usize, end: usize) -> &[(u32, Frame)]
    requires order { first ≤ end }
    requires within { end ≤ length frames.now }
    ensures { result.now ≡ frames_between first end frames.now }
{
    &frames[first..end]
}

/// All frames from one place on.
fn frames_from(frames: &[(u32, Frame)], first: usize) -> &[(u32, Frame)]
    requires { first ≤ length frames.now }
    ensures { result.now ≡ drop first frames.now }
{
    &frames[first..]
}

/// Gives the teller the lines of replies, each after the frames that came before it, and then those of the frames that are left.
pub fn tell_told<T: Teller>(
    teller: &mut T,
    cab: u32,
    frames: &[(u32, Frame)],
    replies: &[Answered],
) -> Result<(), T::Fail>
    requires { AreInOrder 0 replies.now (length frames.now) }
    ensures { TellsLines T.told T.stopped result teller.old teller.new (told_lines cab 0 frames.now replies.now) }
{
    let mut next = 0;
    for answered in replies {
        let behind = answered.behind as usize;
        match tell_frames(teller, cab, frames_between(frames, next, behind)) {
            Ok(()) => {}
            Err(fail) => return Err(fail),
        }
        match tell_reply(teller, cab, &answered.reply) {
            Ok(()) => {}
            Err(fail) => return Err(fail),
        }
        next = behind;
    }
    tell_frames(teller, cab, frames_from(frames, next))
}

/// Gives the teller the lines of a cabinet's round, from its book.
pub fn tell_book<T: Teller>(teller: &mut T, cab: u32, book: &Book) -> Result<(), T::Fail>
    requires { AreInOrder 0 (answered_in book.now) (length (written_in book.now)) }
    ensures { TellsLines T.told T.stopped result teller.old teller.new (book_lines cab book.now) }
{
    match teller.tell_journal(cab, book.runs()) {
        Ok(()) => {}
        Err(fail) => return Err(fail),
    }
    tell_told(teller, cab, book.written(), book.replies())
}

/// Gives the teller the line of a note of the master.
fn tell_note<T: Teller>(teller: &mut T, note: &MasterNote) -> Result<(), T::Fail>
    ensures { TellsLines T.told T.stopped result teller.old teller.new ((LineRow.M note.now) ∷ []) }
{
    teller.tell(&Line::M { note: *note })
}

/// Gives the teller the lines of the master's notes.
pub fn tell_notes<T: Teller>(teller: &mut T, notes: &[MasterNote]) -> Result<(), T::Fail>
    ensures { TellsLines T.told T.stopped result teller.old teller.new (map LineRow.M notes.now) }
{
    for note in notes {
        match tell_note(teller, note) {
            Ok(()) => {}
            Err(fail) => return Err(fail),
        }
    }
    Ok(())
}
