//! A whole run of a scenario: its rounds, which workers in threads may bring to the cabinets, and its trace, written as
//! it runs: bytes go out in pieces, and at most 32 KiB of them wait to be written.  The totals of a run: the run goes
//! through in the serial order, and its lines are counted on the way. No line is kept, so this takes no more memory
//! than the run.
#![tactic(auto)]

mod counts;
mod crew;
mod pen;
mod rounds;
mod serial;
mod text;
mod trace;

pub use counts::{Counts, survey};
pub use crew::Crew;
pub use rounds::run_round;
pub use text::{survey_text, text_of};
pub use trace::write_trace;
