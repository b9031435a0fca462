//! The link between the master and the cabinets, with its faults: frames that are lost, come twice, are repeated later,
//! have an octet turned, or are cut.
#![tactic(auto)]

mod agenda;
mod delivery;
mod fault_list;
mod faults;
mod items;
mod lines;
mod link;
mod lists;
mod priority;
mod stream_line;

pub use agenda::{Agenda, Due};
pub use fault_list::FaultList;
pub use lines::{Lines, StreamFrames};
pub use link::Link;
pub use lists::{Arrivals, Lists};
use scenario_data::Direction;
use sig_types::Way;
pub use stream_line::{Late, LateList, StreamLine};

/// One stream of a cabinet, towards it or from it.
#[derive(Clone, Copy, PartialEq, Eq)]
pub struct Line {
    pub cab: u32,
    pub way: Way,
    pub direction: Direction,
}
