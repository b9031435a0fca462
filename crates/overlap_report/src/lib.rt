//! An overlap over a trace: from what was seen of a cabinet of a trace to the text of the overlap, or the first rule
//! that it breaks (NEMA TS 2, overlaps). The promises are about the trace and its lines.
#![tactic(auto)]

mod reporting;
mod telling;

pub use reporting::{ReportFail, report};
