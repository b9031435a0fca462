//! Why a line of a log isn't taken.

/// Why a line can't follow those before it.
#[derive(Clone, Copy, PartialEq, Eq)]
pub enum LineFault {
    /// It isn't a line of a trace.
    NotALine,
    /// The scenario doesn't have its cabinet.
    NoCabinet,
    /// Its tick isn't later than that of the cabinet's last frame.
    NotLater,
    /// The version of a frame isn't the number of loads that its cabinet has accepted.
    FrameVersion,
    /// The version of an accepted load isn't one more than the number of those before it.
    LoadVersion,
}

/// Why a line isn't taken.
#[derive(Clone, Copy)]
pub enum NotTaken {
    /// It can't follow.
    Refused(LineFault),
    /// Memory was refused, or there are more breaches than can be counted.
    NoMemory,
}
