//! The start of a round: each book takes the streams that arrive at its cabinet.

ghost use Rattle.std.specs.Prelude.{ℕ, ◌≡◌, ◌<◌, ◌+◌, List, length, OnOk, OnErr};
ghost use Rattle.scenario_data.specs.Content.{ScenarioContent};
ghost use Rattle.run_definition.specs.CabinetState.{CabinetState};
ghost use Rattle.round_run.specs.CabinetStates.{AreAt, HaveRun, no_journals, TicksWithin};
ghost use Rattle.round_run.specs.Joined.{AreFresh, HaveFewLeft};
ghost use Rattle.round_run.specs.Opening.{CanOpen, AreComing, TicksAtMost, BeginsSome};

use cab_book::Book;
use sig_types::{NoMemory, Streams};
use std::alloc::Global;

/// Begins a round on each book, with the streams that arrive at its cabinet; what was left of the round before is
/// dropped. All memory that the books need in the round is taken here. Where it is wanting, some of the books have
/// begun the round, and the others are as before.
pub fn open_rounds(
    alloc: Global,
    books: &mut Vec<Book>,
    streams: Vec<Streams>,
) -> Result<(), NoMemory>
    requires { CanOpen books.old.items streams.items }
    ensures many { length books.new.items ≡ length books.old.items }
    ensures run { OnOk result ((s : ScenarioContent) (ts : List CabinetState) → AreAt books.old.items ts → AreComing s ts streams.items
        → HaveRun s ts (no_journals ts) books.new.items) }
    ensures fresh { OnOk result (AreFresh books.new.items) }
    ensures small { OnOk result (TicksAtMost 2147483648 streams.items → HaveFewLeft books.new.items) }
    ensures ticks { OnOk result ((most ticks : ℕ) → TicksWithin most books.old.items → TicksAtMost ticks streams.items
        → TicksWithin (most + ticks) books.new.items) }
    ensures no_memory { OnErr result (BeginsSome books.old.items books.new.items streams.items) }
{
    let mut k = 0;
    for one in streams {
        match books[k].open_round(alloc, one) {
            Ok(()) => {}
            Err((_, NoMemory)) => return Err(NoMemory),
        }
        k += 1;
    }
    Ok(())
}
