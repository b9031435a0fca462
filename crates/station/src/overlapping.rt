//! What `overlaps` does: a trace is checked, and the overlap at one of its cabinets is written or refused.

ghost use Rattle.std.specs.Prelude.{◌≡◌, ◌⊎◌, IfSome};
ghost use Rattle.io_edge.specs.Edge.{Rises};
ghost use Rattle.station.specs.Overlapped.{Overlapped, IsOverlapDue};
ghost use Rattle.station.specs.Io.{io_of, Counts};

use crate::bytes::{ReadEnd, read_all};
use crate::checking::TRACE_LIMIT;
use crate::status::Status;
use crate::texts::tell;
use command_words::Overlap;
use io_edge::{Sink, Source};
use overlap_report::{ReportFail, report};
use std::alloc::Global;
use trace_check::{CheckFail, TraceFault, observe};
use trace_laws::{faults_are_determined, traces_have_no_fault};

/// Reads a text, and, if it is a trace, writes what an overlap shows over it.
pub fn overlaps<S: Source, K: Sink>(
    alloc: Global,
    overlap: Overlap,
    source: &mut S,
    sink: &mut K,
) -> Status
    ensures overlapped { Overlapped overlap result
        (io_of S.left S.faults K.written K.faults source.old source.new sink.old sink.new) }
    ensures due { ¬ Rises (S.faults source.old) (S.faults source.new)
        → IfSome (S.left source.old) (λ input. IsOverlapDue overlap result input (Rises (K.faults sink.old) (K.faults sink.new)) ⊎ (result ≡ Status.NoMemory)) }
    ensures reads { Counts result S.counts_exactly (S.faults source.old) (S.faults source.new) }
    ensures writes { Counts result K.counts_exactly (K.faults sink.old) (K.faults sink.new) }
{
    traces_have_no_fault();
    faults_are_determined();
    let text = match read_all(alloc, source, TRACE_LIMIT) {
        Ok(text) => text,
        Err(ReadEnd::Fault) => return Status::ReadFault,
        Err(ReadEnd::TooLong) => return Status::NotATrace(TraceFault { line: 0, rule: 1 }),
        Err(ReadEnd::NoMemory) => return Status::NoMemory,
    };
    let seen = match observe(alloc, text.as_slice(), overlap.cabinet) {
        Ok(seen) => seen,
        Err(CheckFail::NotATrace(fault)) => return Status::NotATrace(fault),
        Err(CheckFail::NoMemory) => return Status::NoMemory,
    };
    match report(alloc, &seen, &overlap) {
        Ok(written) => tell(sink, written.as_slice()),
        Err(ReportFail::Overlap(fault)) => Status::Overlap(fault),
        Err(ReportFail::NoMemory) => Status::NoMemory,
    }
}
