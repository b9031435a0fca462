//! What the words can ask for.

use arrayvec::ArrayVec;
use judge_laws::Terms;

/// What a scenario is generated from: a seed, and how many cabinets and rounds it has.
#[derive(Clone, Copy, PartialEq, Eq)]
pub struct Seeding {
    pub seed: u32,
    pub cabinets: u32,
    pub rounds: u32,
}

/// An overlap that is asked for: the number of its cabinet, its parent phases, and its times, in ticks of 0.1 s.
#[derive(PartialEq, Drop)]
pub struct Overlap {
    pub cabinet: u32,
    /// One byte for each parent, of any value; by the rules each must be an enabled phase, and none may be repeated.
    pub parents: ArrayVec<u8, 16>,
    /// How long Green is held when no parent shows it any more.
    pub trail: u8,
    /// Yellow change; by the rules three seconds at least.
    pub yellow: u8,
    /// Red clearance, left out where it is 0.
    pub red: u8,
}

/// What the words can ask for.
#[derive(PartialEq, Drop)]
pub enum Command {
    /// To run a scenario by that many workers; by none in the serial order.
    Run(u32),
    /// To decide whether a text is a trace.
    Check,
    /// To write a scenario that is generated.
    Generate(Seeding),
    /// To count what a run of one comes to.
    Survey(Seeding),
    /// To report the widest bands of a street.
    Band,
    /// To write the scenario that a field file makes of its detectors and its traffic.
    Respond,
    /// To report an overlap by a trace.
    Overlaps(Overlap),
    /// To answer the requests of a session with cabinets, one by one.
    Live,
    /// To judge a log of indications on these terms.
    Judge(Terms),
    /// To write how the program is used.
    Help,
    /// To write which program this is.
    Version,
}
