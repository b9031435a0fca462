//! The rounds of a run in the serial order, counted as they go.

ghost use Rattle.std.specs.Prelude.{◌≡◌, ◌<◌, ℕ, List, [], IfOk, OnOk};
ghost use Rattle.scenario_data.specs.Content.{scenario_content};
ghost use Rattle.runnable.specs.Runnable.{Runnable};
ghost use Rattle.run_definition.specs.CabinetState.{CabinetState};
ghost use Rattle.run_definition.specs.Lines.{front_lines};
ghost use Rattle.run_definition.specs.Orders.{serial_journals};
ghost use Rattle.round_run.specs.ClosedLoop.{Between};
ghost use Rattle.whole_run.specs.Adding.{Adds};
ghost use Rattle.whole_run.specs.Orders.{come_to};
ghost use Rattle.whole_run.specs.Rounds.{HasRunOn};

use crate::counts::{Counts, Uncounted};
use round_run::{ClosedLoop, serial_round};
use scenario_data::Scenario;
use sig_types::{MasterNote, NoMemory};
use std::alloc::Global;
use trace_tell::{tell_openings, tell_round};

/// Runs the round after that many in the serial order, and gives what the master notes at its start. If memory is
/// refused, the closed loop is of no more use.
fn run_round(
    alloc: Global,
    closed_loop: &mut ClosedLoop,
    done: u32,
    s: &Scenario,
) -> Result<Vec<MasterNote>, NoMemory>
    requires runnable { Runnable (scenario_content s.now) }
    requires few { done < s.now.rounds }
    requires between { (ts : List CabinetState) × Between (scenario_content s.now) done ts closed_loop.old }
    ensures { IfOk result (λ notes. (ts : List CabinetState) → Between (scenario_content s.now) done ts closed_loop.old
        → HasRunOn 0 (scenario_content s.now) done ts notes.items closed_loop.new) }
{
    let notes = closed_loop.begin_round(alloc, done, s)?;
    serial_round(&mut closed_loop.books);
    closed_loop.end_round(alloc, done, s)?;
    Ok(notes)
}

/// Counts the frame that each cabinet shows before any tick; then runs all rounds in the serial order, and counts the lines of each.
pub fn count_rounds(
    alloc: Global,
    counts: &mut Counts,
    closed_loop: &mut ClosedLoop,
    s: &Scenario,
) -> Result<(), Uncounted>
    requires runnable { Runnable (scenario_content s.now) }
    requires ready { Between (scenario_content s.now) 0 (come_to (scenario_content s.now) []) closed_loop.old }
    ensures { OnOk result (Adds counts.old counts.new (front_lines (scenario_content s.now) (serial_journals (scenario_content s.now)))) }
{
    tell_openings(counts, &closed_loop.books)?;
    for done in 0..s.rounds {
        let notes = match run_round(alloc, closed_loop, done, s) {
            Ok(notes) => notes,
            Err(NoMemory) => return Err(Uncounted::NoMemory),
        };
        tell_round(counts, done + 1, notes.as_slice(), &closed_loop.books)?;
    }
    Ok(())
}
