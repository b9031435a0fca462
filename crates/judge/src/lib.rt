//! The judge of one cabinet: registers of a fixed size that read a log line by line and report what each line breaks.
//! Their reports are those that looking back over all lines gives (`judge_laws`).
#![tactic(auto)]

mod cabinet;
mod colours;
mod in_force;
mod lengths;
mod lesser;
mod order;
mod phases;
mod signals;

pub use cabinet::CabinetJudge;
pub use in_force::InForce;
pub use phases::{CourseFound, PhaseFound, PhaseOverruns};
