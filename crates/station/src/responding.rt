//! The command `respond`: it reads a field file and writes the resulting scenario.

ghost use Rattle.field_file.specs.FieldAnswer.{HasResult, TellsResult, IsFirstResultFault};
ghost use Rattle.station.specs.Io.{io_of, Counts};
ghost use Rattle.station.specs.Replied.{ReplyAnswer};

use crate::input::{Unread, whole_input};
use crate::status::Status;
use crate::texts::tell;
use field_file::{bytes_have_one_answer, limits_have_names};
use io_edge::{Sink, Source};
use scenario_data::ReadFail;
use std::alloc::Global;

/// Reads a field file, and writes the resulting scenario as compact text with a newline.
pub fn respond<S: Source, K: Sink>(alloc: Global, source: &mut S, sink: &mut K) -> Status
    ensures answered { ReplyAnswer TellsResult HasResult IsFirstResultFault result
        (io_of S.left S.faults K.written K.faults source.old source.new sink.old sink.new) }
    ensures reads { Counts result S.counts_exactly (S.faults source.old) (S.faults source.new) }
    ensures writes { Counts result K.counts_exactly (K.faults sink.old) (K.faults sink.new) }
{
    bytes_have_one_answer();
    limits_have_names();
    let input = match whole_input(alloc, source) {
        Ok(input) => input,
        Err(Unread::Fault) => return Status::ReadFault,
        Err(Unread::Refused(refusal)) => return Status::Scenario(refusal),
        Err(Unread::NoMemory) => return Status::NoMemory,
    };
    match field_file::respond(alloc, input.as_slice()) {
        Ok(text) => tell(sink, text.as_slice()),
        Err(ReadFail::Refused(refusal)) => Status::Scenario(refusal),
        Err(ReadFail::NoMemory) => Status::NoMemory,
    }
}
