//! Why an overlap is refused.

/// The first rule that an overlap breaks, and the row at which it does. Rule 1, row 0: the cabinet doesn't exist. Rule
/// 2: the row is the first parent that isn't an enabled phase, or that is repeated. Rule 3, row 0: yellow change is
/// shorter than 30 ticks. Rule 4: the row is the first parent that may clear before the overlap is over.
#[derive(Clone, Copy, PartialEq, Eq)]
pub struct OverlapFault {
    pub rule: u8,
    pub row: u8,
}
