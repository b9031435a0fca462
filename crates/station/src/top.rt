//! All that the program does.

ghost use Rattle.std.specs.Prelude.{◌≡◌, ◌≤◌, ◌↔◌, List, ℕ, Err, IfOk, OnOk, map, string_bytes};
ghost use Rattle.io_edge.specs.Edge.{Rises, Stays};
ghost use Rattle.scenario_data.specs.Content.{scenario_content};
ghost use Rattle.scenario_data.specs.declared.refusal.Refusal.{Refusal};
ghost use Rattle.runnable.specs.Runnable.{Runnable};
ghost use Rattle.command_words.specs.Words.{IsCheck, IsCommand, AskFor};
ghost use Rattle.scenario_read.specs.Answers.{IsFirstFault};
ghost use Rattle.station.specs.Bytes.{nothing_left};
ghost use Rattle.station.specs.Io.{io_of, Counts};
ghost use Rattle.station.specs.Answers.{IsRead, IsRefused, RunAnswer};
ghost use Rattle.station.specs.Commands.{Answered, ReadsNothing, NeedsNoInput, Answers};

use crate::asking::band;
use crate::checking::check_input;
use crate::help::{HELP, VERSION};
use crate::input::{Unread, whole_input};
use crate::judging::judge;
use crate::living::live;
use crate::overlapping::overlaps;
use crate::responding::respond;
use crate::status::Status;
use crate::texts::{generate, survey, tell};
use command_words::{Command, command_of};
use io_edge::{Gate, Sink, Source};
use scenario_data::{ReadFail, Refusal, Scenario};
use scenario_file::read;
use std::alloc::Global;
use std::thread::Threads;
use trace_laws::run_texts_are_safe;
use trace_writer::Stop;
use whole_run::{Crew, write_trace};

/// Reads the whole input as a scenario. The memory of the input's bytes is given back.
fn read_scenario<S: Source>(alloc: Global, source: &mut S) -> Result<Scenario, Unread>
    ensures scenario { IfOk result (λ s. IsRead (S.left source.old) (scenario_content s)) }
    ensures runnable { IfOk result (λ s. Runnable (scenario_content s)) }
    ensures ended { OnOk result (S.left source.new ≡ nothing_left (S.left source.old)) }
    ensures fault { result ≡ Err Unread.Fault → Rises (S.faults source.old) (S.faults source.new) }
    ensures refused { (r : Refusal) → result ≡ Err (Unread.Refused r) → IsRefused IsFirstFault r (S.left source.old) (S.left source.new) }
    ensures exact { OnOk result (Stays S.counts_exactly (S.faults source.old) (S.faults source.new)) }
    ensures kept { S.faults source.old ≤ S.faults source.new }
{
    let input = whole_input(alloc, source)?;
    match read(alloc, &input) {
        Ok(scenario) => Ok(scenario),
        Err(ReadFail::Refused(refusal)) => Err(Unread::Refused(refusal)),
        Err(ReadFail::NoMemory) => Err(Unread::NoMemory),
    }
}

/// Reads a scenario, and writes its trace.
fn run<R: Threads + Sync, S: Source, K: Sink, G: Gate + Sync>(
    crew: &Crew<R, G>,
    alloc: Global,
    source: &mut S,
    sink: &mut K,
) -> Status
    ensures answered { RunAnswer crew.now.workers result
        (io_of S.left S.faults K.written K.faults source.old source.new sink.old sink.new) }
    ensures reads { Counts result S.counts_exactly (S.faults source.old) (S.faults source.new) }
    ensures writes { Counts result K.counts_exactly (K.faults sink.old) (K.faults sink.new) }
{
    let scenario = match read_scenario(alloc, source) {
        Ok(scenario) => scenario,
        Err(Unread::Fault) => return Status::ReadFault,
        Err(Unread::Refused(refusal)) => return Status::Scenario(refusal),
        Err(Unread::NoMemory) => return Status::NoMemory,
    };
    run_texts_are_safe();
    match write_trace(crew, alloc, sink, &scenario) {
        Ok(()) => Status::Done,
        Err(Stop::WriteFault) => Status::WriteFault,
        Err(Stop::NoMemory) => Status::NoMemory,
    }
}

/// Carries out a command.
fn answer<R: Threads + Sync, S: Source, K: Sink, G: Gate + Sync>(
    rt: &R,
    alloc: Global,
    command: Command,
    source: &mut S,
    sink: &mut K,
    gate: &G,
) -> Status
    requires asked { (words : List (List ℕ)) × AskFor words command }
    ensures answered { Answered command result
        (io_of S.left S.faults K.written K.faults source.old source.new sink.old sink.new) }
    ensures reads { Counts result S.counts_exactly (S.faults source.old) (S.faults source.new) }
    ensures writes { Counts result K.counts_exactly (K.faults sink.old) (K.faults sink.new) }
    ensures unread { ReadsNothing command → source.new ≡ source.old }
    ensures unwritten { command ≡ Command.Check → sink.new ≡ sink.old }
{
    match command {
        Command::Run(workers) => run(&Crew { rt, workers, gate }, alloc, source, sink),
        Command::Check => check_input(alloc, source),
        Command::Generate(from) => generate(alloc, from, sink),
        Command::Survey(from) => survey(alloc, from, sink),
        Command::Band => band(alloc, source, sink),
        Command::Respond => respond(alloc, source, sink),
        Command::Overlaps(overlap) => overlaps(alloc, overlap, source, sink),
        Command::Live => live(alloc, source, sink),
        Command::Judge(terms) => judge(alloc, terms, source, sink),
        Command::Help => tell(sink, HELP.as_bytes()),
        Command::Version => tell(sink, VERSION.as_bytes()),
    }
}

/// All that the program does: `run` reads a scenario from the source and writes its trace to the sink; `check` reads a
/// text and answers whether it is a trace; `overlaps` reads a trace, and writes what an overlap shows over it; `live`
/// reads a scenario and requests, line by line, and writes the answer to each (`Answers.live`: the bytes written are
/// exactly these answers, in order. That an answer is written before more is read is tested, not proved); `judge` reads
/// a scenario and the lines of a log, and writes what each line breaks (`Answers.judge`; a log without a breach is
/// safe); `band` reads a band file, and writes its widest bands; `respond` reads a field file, and writes the scenario
/// that its detectors and its traffic make; `generate` writes a scenario, `survey` the totals of its run, `--help` and
/// `--version` a text, and they read nothing.  The arguments are those after the program's name. `run --workers N`, N 0
/// to 8, has N workers bring the items of each round to the cabinets, each worker in a thread of its own if one can be
/// started; with 0, as without the option, they come in the serial order. Each worker calls the gate before each act,
/// but not in a round in which no other order exists: with one worker, or with items of one pass only at each cabinet.
/// A scenario, or what `band` or `respond` reads, has at most 16,777,216 bytes, as has the first line that `live` or
/// `judge` reads; a trace has at most 67,108,864. The answer may be `NoMemory` wherever memory is taken; of every other
/// answer the clauses say what it means for the input and the faults.
pub fn station<R: Threads + Sync, S: Source, K: Sink, G: Gate + Sync>(
    rt: &R,
    alloc: Global,
    words: &Vec<String>,
    source: &mut S,
    sink: &mut K,
    gate: &G,
) -> Status
    // Usage comes exactly where the words are not a command; nothing is read or written then.
    ensures usage { result ≡ Status.Usage ↔ ¬ IsCommand (map string_bytes words.now.items) }
    ensures untouched { result ≡ Status.Usage → (source.new ≡ source.old) × (sink.new ≡ sink.old) }

    // Help, version, generate and survey read nothing; check writes nothing.
    ensures unread { NeedsNoInput (map string_bytes words.now.items) → source.new ≡ source.old }
    ensures unwritten { IsCheck (map string_bytes words.now.items) → sink.new ≡ sink.old }

    // What the answer says about what was read and written, by the words: a record for each command, and the causes of
    // an answer.
    ensures answers { Answers (map string_bytes words.now.items) result
        (io_of S.left S.faults K.written K.faults source.old source.new sink.old sink.new) }

    // No count of faults falls. Done: where a count is exact, it is as it was, so that no fault was ignored.
    ensures reads { Counts result S.counts_exactly (S.faults source.old) (S.faults source.new) }
    ensures writes { Counts result K.counts_exactly (K.faults sink.old) (K.faults sink.new) }
{
    match command_of(words) {
        Some(command) => answer(rt, alloc, command, source, sink, gate),
        None => Status::Usage,
    }
}
