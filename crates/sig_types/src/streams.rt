//! What passes between the master, the link and a cabinet in a round, as plain data: the frames that are sent, the
//! streams that reach the cabinet, and what it answers. It is below the link, the master and the cabinet, so that none
//! of these depends on another.
ghost use Rattle.std.specs.Prelude.{◌≡◌, ◌≤◌};
ghost use Rattle.sig_types.specs.Passes.{Brings, number_of, pass_of};

use crate::{Field, Octets, Way};

/// What the master sends to a cabinet in a round: at most one frame on each of its two streams.
#[derive(PartialEq, Drop)]
pub struct Sending {
    pub poll: Option<Octets>,
    pub load: Option<Octets>,
}

/// What reaches a cabinet in a round, each stream in order: inputs from the street, the frames of the three streams of messages,
/// and a number of ticks of 0.1 s.
#[derive(PartialEq, Drop)]
pub struct Streams {
    pub fields: Vec<Field>,
    pub polls: Vec<Octets>,
    pub loads: Vec<Octets>,
    pub prios: Vec<Octets>,
    pub ticks: u32,
}

/// What a cabinet answers in a round, or what of that arrives at the master: the replies on each stream, in order. A
/// frame that is ignored has none.
#[derive(PartialEq, Drop)]
pub struct Answers {
    pub polls: Vec<Octets>,
    pub loads: Vec<Octets>,
    pub prios: Vec<Octets>,
}

/// A stream of items that reach a cabinet in a round.
#[derive(Clone, Copy, PartialEq, Eq)]
pub enum Stream {
    /// Inputs from the street.
    Inputs,
    /// Frames of a stream of messages.
    Messages(Way),
    /// Ticks of 0.1 s.
    Ticks,
}

impl Stream {
    /// The number of a stream in a trace: 0 for inputs, 1 to 3 for the streams of messages, 4 for ticks.
    pub fn number(self) -> u32
        ensures { result ≡ number_of self }
    {
        match self {
            Stream::Inputs => 0,
            Stream::Messages(way) => pass_of(way),
            Stream::Ticks => 4,
        }
    }

    /// The stream of which a pass, 0 to 7, brings items. Where the ticks of a round are shared, passes 5 to 7 bring some of them.
    pub fn of_pass(pass: u32) -> Stream
        requires { pass ≤ 7 }
        ensures { Brings pass result }
    {
        match pass {
            0 => Stream::Inputs,
            1 => Stream::Messages(Way::Poll),
            2 => Stream::Messages(Way::Load),
            3 => Stream::Messages(Way::Prio),
            _ => Stream::Ticks,
        }
    }
}

/// The pass that brings the frames of a stream of messages to a cabinet: 1, 2 or 3.
pub fn pass_of(way: Way) -> u32
    ensures { result ≡ pass_of way }
{
    match way {
        Way::Poll => 1,
        Way::Load => 2,
        Way::Prio => 3,
    }
}
