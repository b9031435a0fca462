//! The judge of a log: it takes the lines of a trace of any controller one after another, keeps what the judges of the cabinets keep and
//! the tables in force, and reports each breach before the next line is taken. Its memory is that of its cabinets, however long the log.
#![tactic(auto)]

mod faults;
mod laws;
mod listing;
mod loads;
mod log;
mod texts;
mod watch;

pub use faults::{LineFault, NotTaken};
pub use laws::{
    a_log_without_breaches_is_safe, a_log_without_breaches_is_safe_so_far, judged_lines_are_short,
};
pub use log::LogJudge;
