//! What a line of a session asks, and why a line isn't accepted.

use sig_types::{Field, Octets, Way};

/// What a request asks.
#[derive(PartialEq, Drop)]
pub enum Request {
    /// Each cabinet takes that many ticks of 0.1 s.
    Tick(u32),
    /// Something happens at the street of the cabinet with this number.
    Input(u32, Field),
    /// The octets of a frame come on a stream to the cabinet with this number.
    Frame(u32, Way, Octets),
}

/// Why a request isn't accepted: the word that isn't one that is asked for. `Request` is the first word, the number of
/// words, or the length of the line; `Full` says that the round has no room for more.
#[derive(Clone, Copy, PartialEq, Eq)]
pub enum Untaken {
    Request,
    Cabinet,
    Phase,
    Number,
    On,
    Stream,
    Hex,
    Ticks,
    Full,
}
