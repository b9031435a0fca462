//! The lines of a round of all cabinets for any teller.

ghost use Rattle.std.specs.Prelude.{◌≡◌, ◌≤◌, ℕ, List, length, map};
ghost use Rattle.trace_text.specs.declared.lines.Line.{Line as LineRow};
ghost use Rattle.trace_tell.specs.Telling.{TellsLines};
ghost use Rattle.scenario_data.specs.Content.{ScenarioContent};
ghost use Rattle.run_definition.specs.CabinetState.{CabinetState};
ghost use Rattle.run_definition.specs.Lines.{opening_lines, notes_lines, each_lines, round_lines};
ghost use Rattle.round_run.specs.CabinetStates.{AreAt, HaveRun};

use crate::Teller;
use crate::lines::{tell_book, tell_frame, tell_notes};
use cab_book::Book;
use round_run::books_follow_runs;
use sig_types::MasterNote;
use trace_text::Line;

/// Gives the teller the frame that each cabinet shows before any tick.
pub fn tell_openings<T: Teller>(teller: &mut T, books: &Vec<Book>) -> Result<(), T::Fail>
    requires few { length books.now.items ≤ 64 }
    ensures { (ts : List CabinetState) → AreAt books.now.items ts
        → TellsLines T.told T.stopped result teller.old teller.new (opening_lines 1 ts) }
{
    for i in 0..books.len() {
        let frame = books[i].frame();
        match tell_frame(teller, i as u32 + 1, 0, &frame) {
            Ok(()) => {}
            Err(fail) => return Err(fail),
        }
    }
    Ok(())
}

/// Gives the teller the lines of the round that the books have run, one cabinet after another.
pub fn tell_books<T: Teller>(teller: &mut T, books: &Vec<Book>) -> Result<(), T::Fail>
    requires few { length books.now.items ≤ 64 }
    requires run { (s : ScenarioContent) × (ts : List CabinetState) × (journals : List (List ℕ)) × HaveRun s ts journals books.now.items }
    ensures { (s : ScenarioContent) (ts : List CabinetState) (journals : List (List ℕ)) → HaveRun s ts journals books.now.items
        → TellsLines T.told T.stopped result teller.old teller.new (each_lines s 1 ts journals) }
{
    books_follow_runs();
    for i in 0..books.len() {
        match tell_book(teller, i as u32 + 1, &books[i]) {
            Ok(()) => {}
            Err(fail) => return Err(fail),
        }
    }
    Ok(())
}

/// Gives the teller the lines of the round with this number: the number, the notes of the master at its start, and what the books have run.
pub fn tell_round<T: Teller>(
    teller: &mut T,
    round: u32,
    notes: &[MasterNote],
    books: &Vec<Book>,
) -> Result<(), T::Fail>
    requires few { length books.now.items ≤ 64 }
    requires run { (s : ScenarioContent) × (ts : List CabinetState) × (journals : List (List ℕ)) × HaveRun s ts journals books.now.items }
    ensures { (s : ScenarioContent) (ts : List CabinetState) (journals : List (List ℕ)) → map LineRow.M notes.now ≡ notes_lines s 1 ts
        → HaveRun s ts journals books.now.items
        → TellsLines T.told T.stopped result teller.old teller.new (round_lines s round ts journals) }
{
    match teller.tell(&Line::R { round }) {
        Ok(()) => {}
        Err(fail) => return Err(fail),
    }
    match tell_notes(teller, notes) {
        Ok(()) => {}
        Err(fail) => return Err(fail),
    }
    tell_books(teller, books)
}
