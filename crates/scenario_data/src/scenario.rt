//! A scenario: all that a run is given. Rounds and cabinets are counted from 1, times are in ticks of 0.1 s where nothing
//! else is said.

use crate::octets::FrameOctets;
use arrayvec::ArrayVec;
use sig_tables::{Cell, CellValue};
use sig_types::{Field, Request, Way};

/// The tables that a cabinet begins with, before its cells: an eight-phase intersection after NEMA TS 2, with values of our
/// own: minimum recall on the main street, or maximum recall on every phase.
#[derive(Clone, Copy, PartialEq, Eq)]
pub enum Base {
    Std8,
    Max8,
}

/// One cabinet: its tables, and what it opens with.
#[derive(PartialEq, Drop)]
pub struct Cabinet {
    pub base: Base,
    /// Cells that are put over the base, in order.
    pub cells: Vec<(Cell, CellValue)>,
    /// The opening pattern command: the number of a defined pattern, 1 to 48; 255 is flash; every other number is free.
    pub pattern: u8,
    /// The opening time of day, 0 to 863,999.
    pub clock: u32,
    /// The section of the master's schedule that it follows, 1 to 8.
    pub section: u8,
    /// Its clock gains one tick in this number, 12,000 to 864,000; 0 is never.
    pub gain: u32,
    /// Its clock loses one tick in this number, 12,000 to 864,000; 0 is never.
    pub lose: u32,
}

/// One entry of the master's schedule: from a second of the day on, a section has a pattern.
#[derive(Clone, Copy, PartialEq, Eq)]
pub struct Entry {
    pub second: u32,
    pub section: u8,
    pub pattern: u8,
}

/// What the master does: every how many rounds (0 is never), how often it tries, and its schedule.
#[derive(PartialEq, Drop)]
pub struct MasterSetup {
    /// The master's opening time of day, 0 to 863,999.
    pub clock: u32,
    pub poll_every: u32,
    pub clock_every: u32,
    pub pattern_every: u32,
    pub retries: u32,
    pub schedule: Vec<Entry>,
}

/// An input from the street, in a round, at a cabinet.
#[derive(Clone, Copy, PartialEq, Eq)]
pub struct Input {
    pub round: u32,
    pub cabinet: u32,
    pub field: Field,
}

/// A download that the master begins in a round, or later where one before it still runs: the cells that it puts into a
/// cabinet's tables.
#[derive(PartialEq, Drop)]
pub struct LoadItem {
    pub round: u32,
    pub cabinet: u32,
    pub cells: Vec<(Cell, CellValue)>,
}

/// What a vehicle with priority asks: to be served (after NTCIP 1211), or that the request with this number be dropped.
#[derive(Clone, Copy, PartialEq, Eq)]
pub enum PriorityAct {
    Request(Request),
    Cancel(u8),
}

/// A priority request in a round, at a cabinet.
#[derive(Clone, Copy, PartialEq, Eq)]
pub struct PriorityItem {
    pub round: u32,
    pub cabinet: u32,
    pub act: PriorityAct,
}

/// Octets that reach a cabinet on a stream in a round, as they are.
#[derive(Drop)]
pub struct FrameItem {
    pub round: u32,
    pub cabinet: u32,
    pub stream: Way,
    pub hex: FrameOctets,
}

/// Towards a cabinet, or from it.
#[derive(Clone, Copy, PartialEq, Eq)]
pub enum Direction {
    Down,
    Up,
}

/// What a fault of the link does to a frame: it is lost, comes twice, is repeated later, has an octet changed, or is
/// cut.
#[derive(Clone, Copy, PartialEq, Eq)]
pub enum FaultKind {
    Lose,
    Repeat,
    Late,
    Flip,
    Cut,
}

/// A fault of the link: which frame of a stream in a round it meets, counted from 0, and what it does. `by` is a number of
/// rounds where the frame is late, a place where an octet is changed, a length where it is cut.
#[derive(Clone, Copy, PartialEq, Eq)]
pub struct Fault {
    pub round: u32,
    pub cabinet: u32,
    pub stream: Way,
    pub way: Direction,
    pub index: u32,
    pub kind: FaultKind,
    pub by: u32,
    pub octet: u8,
}

/// All that a run is given: `rounds` rounds of `ticks` ticks each, 1 to 64 cabinets, and what happens in each round.
#[derive(Drop)]
pub struct Scenario {
    pub version: u32,
    pub rounds: u32,
    pub ticks: u32,
    /// What a frame must say to be heard (the community of RFC 1157).
    pub community: ArrayVec<u8, 32>,
    pub cabinets: Vec<Cabinet>,
    pub master: MasterSetup,
    pub inputs: Vec<Input>,
    pub loads: Vec<LoadItem>,
    pub priority: Vec<PriorityItem>,
    pub frames: Vec<FrameItem>,
    pub faults: Vec<Fault>,
    /// The text of the JSON value that was read, without spaces, its names in the order of their bytes.
    pub compact: Vec<u8>,
}
