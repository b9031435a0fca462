//! What the program answers.

use judge_session::LineFault;
use overlap_run::OverlapFault;
use scenario_data::Refusal;
use trace_check::TraceFault;

/// A line of a log that can't follow the lines before it.
#[derive(Clone, Copy, PartialEq, Eq)]
pub struct LogFault {
    /// The number of the line, counted from 1; line 1 has the scenario.
    pub line: u64,
    pub fault: LineFault,
}

/// What the program answers.
#[derive(Drop)]
pub enum Status {
    /// All was read, done and written.
    Done,
    /// The words are not a command.
    Usage,
    /// The input is too long, or is not a scenario: the first fault, and nothing was written.
    Scenario(Refusal),
    /// The input is not a trace: the first line with which no trace continues, and the rule that it breaks; line 0
    /// where it is too long.
    NotATrace(TraceFault),
    /// The overlap breaks a rule at the cabinet of the trace: the first that it breaks, and nothing was written.
    Overlap(OverlapFault),
    /// The input is a log, and shows breaches: all of them were written.
    Unsafe,
    /// The input is not a log: its first line that can't follow. What the lines before it show was written.
    NotALog(LogFault),
    /// A read failed, and nothing was written; of a session or a log, a prefix of its answers.
    ReadFault,
    /// A write failed: a prefix of the text was written, and not all of it.
    WriteFault,
    /// There was not memory enough: nothing was written, or a prefix of the text and not all of it.
    NoMemory,
}
