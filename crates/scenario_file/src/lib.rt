//! The scenario file, read with little memory: the lists of the cabinets, of what happens in the rounds and of the
//! master's schedule, which may be most of a file, are read item by item, and only the other values become a tree.
//! `scenario_read` defines what a scenario is and what is refused. A scenario inside another file is read in the same
//! way, with its text in parts, so that further inputs and another schedule can be put in; the object around it is read
//! name by name.
#![tactic(auto)]

mod compact;
mod entries;
mod file_left;
mod found;
mod left;
mod listed;
mod lists;
mod look;
mod master;
mod members;
mod outer;
mod pieces;
mod plain;
mod reading;
mod source;
mod top;
mod trees;
mod written;

pub use file_left::FileLeft;
pub use left::Left;
pub use members::{put_in_master, put_named};
pub use outer::{OuterParts, parts_with};
pub use reading::{read, scenario_of};
pub use source::{ScenarioText, Source, scenario_at};
pub use trees::{Level, tree};
