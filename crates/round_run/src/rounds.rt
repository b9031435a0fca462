//! The closed loop between the rounds and in them.

ghost use Rattle.std.specs.Prelude.{◌≡◌, ◌<◌, ◌+◌, ◌*◌, ℕ, List, length, IfOk, OnOk, map};
ghost use Rattle.trace_text.specs.declared.lines.Line.{Line as LineRow};
ghost use Rattle.scenario_data.specs.Content.{scenario_content};
ghost use Rattle.runnable.specs.Runnable.{Runnable};
ghost use Rattle.run_definition.specs.CabinetState.{CabinetState, opened_cabinet_states};
ghost use Rattle.run_definition.specs.Lines.{notes_lines};
ghost use Rattle.round_run.specs.CabinetStates.{AreGivenBy, HaveEnded, HaveRun, no_journals, TicksWithin};
ghost use Rattle.round_run.specs.Joined.{AreFresh, HaveFewLeft};

use crate::books::open_books;
use crate::{answers, open_rounds};
use cab_book::{Book, Engine};
use master_rounds::{Begun, MasterRounds};
use scenario_data::Scenario;
use sig_types::{MasterNote, NoMemory};
use std::alloc::Global;

/// Master and line, and the book of each cabinet.
#[derive(Drop)]
pub struct ClosedLoop {
    master_rounds: MasterRounds,
    pub books: Vec<Book>,
}

impl ClosedLoop {
    ghost use Rattle.round_run.specs.ClosedLoop.{Between, InRound};

    /// The closed loop of a scenario before its first round, in which this engine gives the frames of the cabinets.
    pub fn open(alloc: Global, engine: Engine, s: &Scenario) -> Result<ClosedLoop, NoMemory>
        requires { Runnable (scenario_content s.now) }
        ensures between { IfOk result (Between (scenario_content s.now) 0 (opened_cabinet_states (scenario_content s.now) (scenario_content s.now).cabinets)) }
        ensures engine { IfOk result (λ closed_loop. AreGivenBy engine closed_loop.books.items) }
    {
        let master_rounds = match MasterRounds::open(alloc, s) {
            Ok(master_rounds) => master_rounds,
            Err(NoMemory) => return Err(NoMemory),
        };
        match open_books(alloc, engine, s.cabinets.as_slice(), &s.community) {
            Ok(books) => Ok(ClosedLoop {
                master_rounds,
                books,
            }),
            Err(NoMemory) => Err(NoMemory),
        }
    }

    /// Begins the round after N, and gives what the master notes at its start: each book has the streams that reach its
    /// cabinet, of which nothing was brought yet. If memory runs out the closed loop is of no more use.
    pub fn begin_round(
        &mut self,
        alloc: Global,
        done: u32,
        s: &Scenario,
    ) -> Result<Vec<MasterNote>, NoMemory>
        requires runnable { Runnable (scenario_content s.now) }
        requires few { done < s.now.rounds }
        requires between { (ts : List CabinetState) × Between (scenario_content s.now) done ts self.old }
        ensures notes { IfOk result (λ notes. (ts : List CabinetState) → Between (scenario_content s.now) done ts self.old
            → map LineRow.M notes.items ≡ notes_lines (scenario_content s.now) 1 ts) }
        ensures begun { OnOk result ((ts : List CabinetState) → Between (scenario_content s.now) done ts self.old
            → InRound (scenario_content s.now) done ts self.new) }
        ensures books { OnOk result ((ts : List CabinetState) → Between (scenario_content s.now) done ts self.old
            → HaveRun (scenario_content s.now) ts (no_journals ts) self.new.books.items) }
        ensures fresh { OnOk result (AreFresh self.new.books.items) }
        ensures small { OnOk result (HaveFewLeft self.new.books.items) }
        ensures ticks { OnOk result (TicksWithin (done * 600 + 600) self.new.books.items) }
    {
        let Begun { notes, streams } = match self.master_rounds.begin(alloc, done + 1, s) {
            Ok(begun) => begun,
            Err(NoMemory) => return Err(NoMemory),
        };
        match open_rounds(alloc, &mut self.books, streams) {
            Ok(()) => Ok(notes),
            Err(NoMemory) => Err(NoMemory),
        }
    }

    /// Ends the round after N, in which the cabinets have reached other states, whatever was brought to them: what they
    /// replied goes back to the master. If memory runs out the closed loop is of no more use.
    pub fn end_round(&mut self, alloc: Global, done: u32, s: &Scenario) -> Result<(), NoMemory>
        requires few { done < 4294967295 }
        requires begun { (ts : List CabinetState) × InRound (scenario_content s.now) done ts self.old × (length self.old.books.items ≡ length ts) }
        ensures between { OnOk result ((ts next : List CabinetState) → InRound (scenario_content s.now) done ts self.old
            → HaveEnded ts next self.old.books.items → TicksWithin (done * 600 + 600) self.old.books.items
            → Between (scenario_content s.now) (done + 1) next self.new) }
        ensures books { self.new.books ≡ self.old.books }
    {
        let replies = match answers(alloc, &self.books) {
            Ok(replies) => replies,
            Err(NoMemory) => return Err(NoMemory),
        };
        match self.master_rounds.end(alloc, done + 1, replies.as_slice()) {
            Ok(()) => Ok(()),
            Err(NoMemory) => Err(NoMemory),
        }
    }
}
