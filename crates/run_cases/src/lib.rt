//! Worked cases of the top call over sources and sinks in memory that fail or meet a gate, and of cabinets shared by
//! threads, each with its expected answer from outside. The vectors show the other answers of the top call with the
//! built program (vectors/README.md). The cases are in a crate of their own, above the parts, so that a part is proved
//! once and not again for its tests.
#![tactic(auto)]

mod acts;
#[cfg(test)]
mod answer_cases;
#[cfg(test)]
mod edge_cases;
#[cfg(test)]
mod row_cases;
mod tally;
#[cfg(test)]
mod worker_cases;

pub use acts::acts_done;
pub use tally::Tally;
