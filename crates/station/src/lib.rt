//! All that the program does: it recognises the command in its words, reads its input, carries the command out, and
//! answers. `station` is the top call; its contract gives the cause of each answer.
#![tactic(auto)]

mod asking;
mod bytes;
mod checking;
mod help;
mod input;
mod judging;
mod living;
mod overlapping;
mod responding;
mod status;
mod texts;
mod top;

pub use judge_session::LineFault;
pub use overlap_run::OverlapFault;
pub use scenario_data::Refusal;
pub use status::{LogFault, Status};
pub use top::station;
pub use trace_check::TraceFault;
