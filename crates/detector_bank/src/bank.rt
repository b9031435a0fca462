//! A bank's detectors and pulses, and the calls and edges that it gives, as plain data. Rounds and cabinets are counted
//! from 1.

/// A detector of a cabinet, which calls one of its phases.
#[derive(Clone, Copy, PartialEq, Eq)]
pub struct Detector {
    /// The cabinet, 1 to 64.
    pub cabinet: u32,
    /// Its number at the cabinet, 1 to 64.
    pub detector: u8,
    /// The phase that it calls, 1 to 16.
    pub phase: u8,
    /// It calls once it has been active for this many rounds and one more.
    pub delay: u8,
    /// It calls for this number of rounds longer.
    pub extend: u8,
    /// It has failed after this number of rounds in a row without a pulse; 0 is never.
    pub no_activity: u16,
    /// It has failed after this number of rounds in a row in which it is active; 0 is never.
    pub max_presence: u16,
    /// It has failed with more than this number of edges in sixty rounds; 0 is never.
    pub erratic: u8,
}

/// A detector turns on or off in a round.
#[derive(Clone, Copy, PartialEq, Eq)]
pub struct Pulse {
    pub round: u32,
    pub cabinet: u32,
    pub detector: u8,
    pub on: bool,
}

/// From a round on, a phase of a cabinet is called, or no longer.
#[derive(Clone, Copy, PartialEq, Eq)]
pub struct Call {
    pub round: u32,
    pub cabinet: u32,
    pub phase: u8,
    pub on: bool,
}

/// How often a detector turned on in a round.
#[derive(Clone, Copy, PartialEq, Eq)]
pub struct Edge {
    pub round: u32,
    pub cabinet: u32,
    pub detector: u8,
    pub count: u32,
}
