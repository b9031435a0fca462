//! A cabinet's round. Its journal is read, the items that it names are brought, and the resulting lines are expected.

ghost use Rattle.std.specs.Prelude.{◌≡◌, ◌≤◌, ℕ, List, [], drop, length, map, IfOk, IfErr, OnOk};
ghost use Rattle.scenario_data.specs.Content.{ScenarioContent};
ghost use Rattle.cab_book.specs.Books.{written_in, answered_in, cabinet_history_now, ticks_by_end};
ghost use Rattle.cab_book.specs.Happenings.{AreInOrder};
ghost use Rattle.run_definition.specs.CabinetState.{CabinetState};
ghost use Rattle.round_run.specs.Lines.{told_lines};
ghost use Rattle.round_run.specs.CabinetStates.{HasRun};
ghost use Rattle.trace_laws.specs.Script.{Script, say};
ghost use Rattle.trace_check.specs.Reading.{ReadsOn};
ghost use Rattle.trace_check.specs.Cabinets.{ReadsCabinet};
ghost use Rattle.trace_check.specs.Watching.{SeesOn};

use crate::expecter::Expecter;
use crate::faults::CheckFail;
use crate::journals::journal_at;
use crate::places::Place;
use crate::watching::bring_round;
use cab_book::{Answered, Book};
use round_run::books_follow_runs;
use sig_types::Frame;
use std::alloc::Global;
use trace_laws::Seen;
use trace_tell::tell_told;

/// The lines of replies, each after the frames that came before it, and then those of the frames that are left.
fn expect_told<'a>(
    alloc: Global,
    at: Place<'a>,
    cab: u32,
    frames: &[(u32, Frame)],
    replies: &[Answered],
) -> Result<Place<'a>, CheckFail>
    requires { AreInOrder 0 replies.now (length frames.now) }
    ensures { (rest : Script) → ReadsOn (say (told_lines cab 0 frames.now replies.now) rest) at.entry rest result }
{
    let mut expecter = Expecter { alloc, at };
    match tell_told(&mut expecter, cab, frames, replies) {
        Ok(()) => Ok(expecter.at),
        Err(fail) => Err(fail),
    }
}

/// A cabinet's round, which its book has begun: the journal, all that it brings, and the lines of that. Of the watched cabinet what is
/// to be seen is kept.
pub fn check_cabinet<'a>(
    alloc: Global,
    at: Place<'a>,
    cab: u32,
    book: &mut Book,
    watched: u32,
    seen: &mut Seen,
) -> Result<Place<'a>, CheckFail>
    requires begun { (s : ScenarioContent) × (t : CabinetState) × HasRun s cab t [] book.old }
    ensures reads { (s : ScenarioContent) (t : CabinetState) → HasRun s cab t [] book.old → ReadsCabinet s cab t at.entry book.new result }
    ensures ticks { ticks_by_end book.new ≡ ticks_by_end book.old }
    ensures seen { OnOk result ((s : ScenarioContent) (t : CabinetState) → HasRun s cab t [] book.old
        → SeesOn watched cab seen.old seen.new t.cabinet_history (cabinet_history_now book.new t.cabinet_history)) }
{
    books_follow_runs();
    let (runs, next) = match journal_at(alloc, at, cab, book) {
        Ok(found) => found,
        Err(fail) => return Err(fail),
    };
    match bring_round(book, runs.as_slice(), cab == watched, seen) {
        Ok(()) => expect_told(alloc, next, cab, book.written(), book.replies()),
        Err(fail) => Err(fail),
    }
}
