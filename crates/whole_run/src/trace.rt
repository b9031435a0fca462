//! The trace of a run, written as it runs, round by round.

ghost use Rattle.std.specs.Prelude.{◌≡◌, ◌≤◌, ℕ, List, [], length, map};
ghost use Rattle.trace_text.specs.declared.lines.Line.{Line as LineRow};
ghost use Rattle.safety_laws.specs.TraceText.{lines_text};
ghost use Rattle.trace_writer.specs.Handing.{HandsOver, HandsWithin, Writes, WritesWithin, held_by};
ghost use Rattle.scenario_data.specs.Content.{ScenarioContent, scenario_content};
ghost use Rattle.runnable.specs.Runnable.{Runnable};
ghost use Rattle.run_definition.specs.CabinetState.{CabinetState};
ghost use Rattle.run_definition.specs.Lines.{opening_lines, notes_lines, each_lines, round_lines, front_lines, rest_lines, run_text};
ghost use Rattle.round_run.specs.CabinetStates.{AreAt, HaveRun};
ghost use Rattle.round_run.specs.ClosedLoop.{Between};
ghost use Rattle.trace_tell.specs.Telling.{TellsLines, TellsWithin};
ghost use Rattle.whole_run.specs.Orders.{come_to, closed_text, InSomeOrder};

use crate::crew::Crew;
use crate::pen::Pen;
use crate::rounds::run_round;
use cab_book::{Book, Engine};
use io_edge::{Gate, Sink};
use round_run::ClosedLoop;
use scenario_data::Scenario;
use sig_types::{MasterNote, NoMemory};
use std::alloc::Global;
use std::thread::Threads;
use trace_tell::{Teller, tell_openings, tell_round};
use trace_text::Line;
use trace_writer::{Stop, Writer};

/// Gives the teller what each cabinet shows before any tick; then runs all rounds, and gives it the lines of each.
fn tell_front<R: Threads + Sync, G: Gate + Sync, T: Teller>(
    crew: &Crew<R, G>,
    alloc: Global,
    teller: &mut T,
    closed_loop: &mut ClosedLoop,
    s: &Scenario,
) -> Result<(), T::Fail>
    requires runnable { Runnable (scenario_content s.now) }
    requires ready { Between (scenario_content s.now) 0 (come_to (scenario_content s.now) []) closed_loop.old }
    ensures { InSomeOrder crew.now.workers (scenario_content s.now) (λ journals.
        TellsLines T.told T.stopped result teller.old teller.new (front_lines (scenario_content s.now) journals))
        (λ closed left. TellsWithin T.told T.stopped result teller.old teller.new left (front_lines (scenario_content s.now) closed)) }
{
    match tell_openings(teller, &closed_loop.books) {
        Ok(()) => {}
        Err(fail) => return Err(fail),
    }
    for done in 0..s.rounds {
        let notes = match run_round(crew, alloc, closed_loop, done, s) {
            Ok(notes) => notes,
            Err(NoMemory) => return Err(T::no_memory()),
        };
        match tell_round(teller, done + 1, notes.as_slice(), &closed_loop.books) {
            Ok(()) => {}
            Err(fail) => return Err(fail),
        }
    }
    Ok(())
}

/// Gives a pen what each cabinet shows before any tick; then runs all rounds, and gives it the lines of each when it is run.
fn pen_front<R: Threads + Sync, K: Sink, G: Gate + Sync>(
    crew: &Crew<R, G>,
    alloc: Global,
    pen: &mut Pen<K>,
    closed_loop: &mut ClosedLoop,
    s: &Scenario,
) -> Result<(), Stop>
    requires runnable { Runnable (scenario_content s.now) }
    requires ready { Between (scenario_content s.now) 0 (come_to (scenario_content s.now) []) closed_loop.old }
    ensures same_writer { pen.new.writer.ghost_name ≡ pen.old.writer.ghost_name }
    ensures same_sink { pen.new.sink.ghost_name ≡ pen.old.sink.ghost_name }
    ensures hands { InSomeOrder crew.now.workers (scenario_content s.now) (λ journals.
        HandsOver K.written K.faults K.counts_exactly result pen.old.writer.now pen.new.writer.now pen.old.sink.now pen.new.sink.now (lines_text (front_lines (scenario_content s.now) journals)))
        (λ closed left. HandsWithin K.written result pen.old.writer.now pen.old.sink.now pen.new.sink.now left (lines_text (front_lines (scenario_content s.now) closed))) }
{
    tell_front(crew, alloc, pen, closed_loop, s)
}

/// Hands over what each cabinet shows before any tick; then runs all rounds, and hands over the lines of each when it is run.
fn put_front<R: Threads + Sync, K: Sink, G: Gate + Sync>(
    crew: &Crew<R, G>,
    alloc: Global,
    writer: &mut Writer,
    sink: &mut K,
    closed_loop: &mut ClosedLoop,
    s: &Scenario,
) -> Result<(), Stop>
    requires runnable { Runnable (scenario_content s.now) }
    requires ready { Between (scenario_content s.now) 0 (come_to (scenario_content s.now) []) closed_loop.old }
    ensures { InSomeOrder crew.now.workers (scenario_content s.now) (λ journals.
        HandsOver K.written K.faults K.counts_exactly result writer.old writer.new sink.old sink.new (lines_text (front_lines (scenario_content s.now) journals)))
        (λ closed left. HandsWithin K.written result writer.old sink.old sink.new left (lines_text (front_lines (scenario_content s.now) closed))) }
{
    let mut pen = Pen { writer, sink };
    pen_front(crew, alloc, &mut pen, closed_loop, s)
}

/// Hands over what comes after the line of the scenario.
fn put_rest<R: Threads + Sync, K: Sink, G: Gate + Sync>(
    crew: &Crew<R, G>,
    alloc: Global,
    writer: &mut Writer,
    sink: &mut K,
    s: &Scenario,
) -> Result<(), Stop>
    requires { Runnable (scenario_content s.now) }
    ensures { InSomeOrder crew.now.workers (scenario_content s.now) (λ journals.
        HandsOver K.written K.faults K.counts_exactly result writer.old writer.new sink.old sink.new (lines_text (rest_lines (scenario_content s.now) journals)))
        (λ closed left. HandsWithin K.written result writer.old sink.old sink.new left (lines_text (front_lines (scenario_content s.now) closed))) }
{
    let mut closed_loop = match ClosedLoop::open(alloc, Engine::Controller, s) {
        Ok(closed_loop) => closed_loop,
        Err(NoMemory) => return Err(Stop::NoMemory),
    };
    match put_front(crew, alloc, writer, sink, &mut closed_loop, s) {
        Ok(()) => {}
        Err(stop) => return Err(stop),
    }
    writer.put_line(sink, &Line::Z { rounds: s.rounds })
}

/// Hands over the whole trace of a scenario.
fn put_trace<R: Threads + Sync, K: Sink, G: Gate + Sync>(
    crew: &Crew<R, G>,
    alloc: Global,
    writer: &mut Writer,
    sink: &mut K,
    s: &Scenario,
) -> Result<(), Stop>
    requires { Runnable (scenario_content s.now) }
    ensures { InSomeOrder crew.now.workers (scenario_content s.now) (λ journals.
        HandsOver K.written K.faults K.counts_exactly result writer.old writer.new sink.old sink.new (run_text (scenario_content s.now) journals))
        (λ closed left. HandsWithin K.written result writer.old sink.old sink.new left (closed_text (scenario_content s.now) closed)) }
{
    match writer.put_scenario(sink, s.compact.as_slice()) {
        Ok(()) => {}
        Err(stop) => return Err(stop),
    }
    put_rest(crew, alloc, writer, sink, s)
}

/// Writes the whole trace of a scenario, with the journals of some order in which its items reach the cabinets; if it
/// stops short, a proper prefix of such a trace: with some journals for the rounds that were closed, beyond whose lines
/// nothing was written if rounds are left. With no worker the order is the serial one; otherwise the workers' threads
/// settle it.
pub fn write_trace<R: Threads + Sync, K: Sink, G: Gate + Sync>(
    crew: &Crew<R, G>,
    alloc: Global,
    sink: &mut K,
    s: &Scenario,
) -> Result<(), Stop>
    requires { Runnable (scenario_content s.now) }
    ensures { InSomeOrder crew.now.workers (scenario_content s.now) (λ journals.
        Writes K.written K.faults K.counts_exactly result sink.old sink.new (run_text (scenario_content s.now) journals))
        (λ closed left. WritesWithin K.written result sink.old sink.new left (closed_text (scenario_content s.now) closed)) }
{
    let mut writer = match Writer::new(alloc) {
        Ok(writer) => writer,
        Err(NoMemory) => return Err(Stop::NoMemory),
    };
    match put_trace(crew, alloc, &mut writer, sink, s) {
        Ok(()) => {}
        Err(stop) => return Err(stop),
    }
    writer.finish(sink)
}
