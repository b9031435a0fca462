//! The command `band`: it reads a question about progression bands and writes the widest ones.

ghost use Rattle.band_report.specs.BandAnswer.{AsksOfBands, TellsBands, IsFirstBandFault};
ghost use Rattle.station.specs.Io.{io_of, Counts};
ghost use Rattle.station.specs.Replied.{ReplyAnswer};

use crate::input::{Unread, whole_input};
use crate::status::Status;
use crate::texts::tell;
use band_report::{bytes_have_one_answer, limits_have_names, report};
use io_edge::{Sink, Source};
use scenario_data::ReadFail;
use std::alloc::Global;

/// Reads a question about the bands of a street, and writes the widest ones.
pub fn band<S: Source, K: Sink>(alloc: Global, source: &mut S, sink: &mut K) -> Status
    ensures answered { ReplyAnswer TellsBands AsksOfBands IsFirstBandFault result
        (io_of S.left S.faults K.written K.faults source.old source.new sink.old sink.new) }
    ensures reads { Counts result S.counts_exactly (S.faults source.old) (S.faults source.new) }
    ensures writes { Counts result K.counts_exactly (K.faults sink.old) (K.faults sink.new) }
{
    bytes_have_one_answer();
    limits_have_names();
    let input = match whole_input(alloc, source) {
        Ok(input) => input,
        Err(Unread::Fault) => return Status::ReadFault,
        Err(Unread::Refused(refusal)) => return Status::Scenario(refusal),
        Err(Unread::NoMemory) => return Status::NoMemory,
    };
    match report(alloc, input.as_slice()) {
        Ok(text) => tell(sink, text.as_slice()),
        Err(ReadFail::Refused(refusal)) => Status::Scenario(refusal),
        Err(ReadFail::NoMemory) => Status::NoMemory,
    }
}
