//! The words of a command line: which command they are, and its numbers. Nothing is read or carried out here; each
//! command has one definition and one reader.
#![tactic(auto)]

mod command;
mod judges;
mod numbers;
mod overlaps;
mod telling;

pub use command::{Command, Overlap, Seeding};
pub use telling::command_of;
