//! What `check` does: all of the input is read, and it is a trace or has its first fault.

ghost use Rattle.std.specs.Prelude.{◌≡◌, ◌⊎◌, IfSome};
ghost use Rattle.io_edge.specs.Edge.{Rises};
ghost use Rattle.station.specs.Io.{Counts};
ghost use Rattle.station.specs.Checked.{Checked, IsCheckDue};

use crate::bytes::{ReadEnd, read_all};
use crate::status::Status;
use io_edge::Source;
use std::alloc::Global;
use trace_check::{CheckFail, TraceFault, check};
use trace_laws::{bands_are_green, faults_are_determined, traces_have_no_fault};

/// The most bytes that a trace has.
pub(crate) const TRACE_LIMIT: usize = 67_108_864;

/// Reads a text, and answers whether it is a trace.
pub fn check_input<S: Source>(alloc: Global, source: &mut S) -> Status
    ensures checked { Checked result (S.left source.old) (S.left source.new) (Rises (S.faults source.old) (S.faults source.new)) }
    ensures due { ¬ Rises (S.faults source.old) (S.faults source.new)
        → IfSome (S.left source.old) (λ input. IsCheckDue result input ⊎ (result ≡ Status.NoMemory)) }
    ensures reads { Counts result S.counts_exactly (S.faults source.old) (S.faults source.new) }
{
    traces_have_no_fault();
    faults_are_determined();
    bands_are_green();
    let text = match read_all(alloc, source, TRACE_LIMIT) {
        Ok(text) => text,
        Err(ReadEnd::Fault) => return Status::ReadFault,
        Err(ReadEnd::TooLong) => return Status::NotATrace(TraceFault { line: 0, rule: 1 }),
        Err(ReadEnd::NoMemory) => return Status::NoMemory,
    };
    match check(alloc, text.as_slice()) {
        Ok(()) => Status::Done,
        Err(CheckFail::NotATrace(fault)) => Status::NotATrace(fault),
        Err(CheckFail::NoMemory) => Status::NoMemory,
    }
}
