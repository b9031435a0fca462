//! Why a text isn't a scenario.

/// The first fault of a text. A path names a value from the top, as in `cabinets[0].cells[3]`; places in lists are counted
/// from 0, and `.` is the whole text's value.
#[derive(PartialEq, Drop)]
pub enum Refusal {
    /// The text has no reading in JSON (RFC 8259).
    Syntax,
    /// A name that is not known, a value that is missing or of the wrong kind, a cell that does not exist, or two
    /// alternatives or none where one must be.
    Field(String),
    /// A number, a length or a cell's value out of its range.
    Limit(String),
    /// The opening tables of a cabinet, counted from 1, break a consistency rule in this row.
    Broken { cab: u32, rule: u8, row: u16 },
}

/// Why a read gave no scenario.
#[derive(PartialEq, Drop)]
pub enum ReadFail {
    Refused(Refusal),
    NoMemory,
}
