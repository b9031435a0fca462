//! The commands that read nothing: generated scenarios, totals, help and version.

ghost use Rattle.io_edge.specs.Edge.{Rises};
ghost use Rattle.gen_arterial.specs.Written.{CanMake, generated, generated_text};
ghost use Rattle.whole_run.specs.Counting.{surveyed_text};
ghost use Rattle.station.specs.Io.{Counts};
ghost use Rattle.station.specs.Answers.{WritesText};
ghost use Rattle.station.specs.Commands.{MakesText};

use crate::status::Status;
use command_words::Seeding;
use gen_arterial::{make, text_of};
use io_edge::{Failed, Sink};
use scenario_checked::scenarios_run;
use sig_types::NoMemory;
use std::alloc::Global;
use trace_writer::put_all;
use whole_run::survey_text;

/// Writes a text.
pub fn tell<K: Sink>(sink: &mut K, text: &[u8]) -> Status
    ensures tells { WritesText result text.now (Rises (K.faults sink.old) (K.faults sink.new)) (K.written sink.old) (K.written sink.new) }
    ensures writes { Counts result K.counts_exactly (K.faults sink.old) (K.faults sink.new) }
{
    match put_all(sink, text) {
        Ok(()) => Status::Done,
        Err(Failed) => Status::WriteFault,
    }
}

/// Writes the scenario that is generated from these numbers.
pub fn generate<K: Sink>(alloc: Global, from: Seeding, sink: &mut K) -> Status
    requires { CanMake from.cabinets from.rounds }
    ensures makes { MakesText result (generated_text from.seed from.cabinets from.rounds) (Rises (K.faults sink.old) (K.faults sink.new))
        (K.written sink.old) (K.written sink.new) }
    ensures writes { Counts result K.counts_exactly (K.faults sink.old) (K.faults sink.new) }
{
    match text_of(alloc, from.seed, from.cabinets, from.rounds) {
        Ok(text) => tell(sink, text.as_slice()),
        Err(NoMemory) => Status::NoMemory,
    }
}

/// Writes the totals of a run of the scenario that is generated from these numbers.
pub fn survey<K: Sink>(alloc: Global, from: Seeding, sink: &mut K) -> Status
    requires { CanMake from.cabinets from.rounds }
    ensures makes { MakesText result (surveyed_text (generated from.seed from.cabinets from.rounds)) (Rises (K.faults sink.old) (K.faults sink.new))
        (K.written sink.old) (K.written sink.new) }
    ensures writes { Counts result K.counts_exactly (K.faults sink.old) (K.faults sink.new) }
{
    scenarios_run();
    let scenario = match make(alloc, from.seed, from.cabinets, from.rounds) {
        Ok(scenario) => scenario,
        Err(NoMemory) => return Status::NoMemory,
    };
    match survey_text(alloc, &scenario) {
        Ok(text) => tell(sink, text.as_slice()),
        Err(NoMemory) => Status::NoMemory,
    }
}
