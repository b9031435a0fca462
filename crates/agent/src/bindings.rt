//! Why the bindings of a request aren't answered.

/// The status (RFC 1157, 4.1.1) and the place, from 1, of the first binding with a fault.
#[derive(Clone, Copy, PartialEq, Eq)]
pub struct Fault {
    pub status: u8,
    pub index: u8,
}

/// RFC 1157, 4.1.1: the answer would not fit into a frame.
pub const TOO_BIG: u8 = 1;

/// RFC 1157, 4.1.1: no instance of this name can be read, or can be set.
pub const NO_SUCH_NAME: u8 = 2;

/// RFC 1157, 4.1.1: the value is of another type, or out of range.
pub const BAD_VALUE: u8 = 3;

/// RFC 1157, 4.1.1: it can't be done, for a reason that no other status says.
pub const GENERAL_ERROR: u8 = 5;
