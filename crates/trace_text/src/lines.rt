//! The lines of a trace: one variant for each kind, with the numbers that its text has.

ghost use Rattle.std.specs.Prelude.{◌≡◌, ℕ, List};

use sig_types::{Broken, Colour, MasterNote, Mode, Octets, Ped};
use std::marker::Model;

/// The text of a scenario, seen by contracts as the list of its bytes.
#[derive(Drop)]
pub struct Text {
    bytes: Vec<u8>,
}

impl Model for Text {
    ghost Value = { List ℕ };

    ghost view = { λ text. text.bytes.items };
}

impl Text {
    /// The text with these bytes.
    pub fn new(bytes: Vec<u8>) -> Text
        ensures { result ≡ bytes.items }
    {
        Text { bytes }
    }

    /// Its bytes.
    pub fn as_slice(&self) -> &[u8]
        ensures { result.now ≡ self.now }
    {
        self.bytes.as_slice()
    }

    /// Its bytes, as they were handed in.
    pub fn into_vec(self) -> Vec<u8>
        ensures { result.items ≡ self }
    {
        self.bytes
    }
}

/// The runs of a journal, each a pass and how many events in a row are that pass's, seen by contracts as their list.
#[derive(Drop)]
pub struct Runs {
    runs: Vec<(u32, u32)>,
}

impl Model for Runs {
    ghost Value = { List (ℕ × ℕ) };

    ghost view = { λ journal. journal.runs.items };
}

impl Runs {
    /// The journal of these runs.
    pub fn new(runs: Vec<(u32, u32)>) -> Runs
        ensures { result ≡ runs.items }
    {
        Runs { runs }
    }

    /// Its runs.
    pub fn as_slice(&self) -> &[(u32, u32)]
        ensures { result.now ≡ self.now }
    {
        self.runs.as_slice()
    }

    /// Its runs, as they were handed in.
    pub fn into_vec(self) -> Vec<(u32, u32)>
        ensures { result.items ≡ self }
    {
        self.runs
    }
}

/// A line of a trace. Cabinets, rounds and loads are numbered from 1, ticks from 0; a tick is 0.1 s.
#[derive(Drop)]
pub enum Line {
    /// The scenario's compact text.
    S {
        json: Text,
    },
    /// What a cabinet shows after a tick.
    F {
        cab: u32,
        tick: u32,
        veh: [Colour; 16],
        ped: [Ped; 16],
        mode: Mode,
        counter: u32,
        target: u32,
        version: u32,
    },
    /// A round begins.
    R {
        round: u32,
    },
    /// A note of the master in this round.
    M {
        note: MasterNote,
    },
    /// A cabinet's journal of this round.
    J {
        cab: u32,
        runs: Runs,
    },
    /// A download that was accepted, with the version that it made, or was refused by a rule.
    L {
        cab: u32,
        id: u32,
        result: Result<u32, Broken>,
    },
    /// The reply to the frame of a pass; none where the cabinet was silent.
    A {
        cab: u32,
        pass: u32,
        hex: Option<Octets>,
    },
    /// The end of the trace.
    Z {
        rounds: u32,
    },
}

/// A copy of the octets of a reply; none where the cabinet was silent.
pub fn same_octets(octets: &Option<Octets>) -> Option<Octets>
    ensures { result ≡ octets.now }
{
    match octets {
        None => None,
        Some(octets) => {
            let mut same = Octets::new();
            // There is room for them, as there was for those.
            let _ = same.try_extend_from_slice(octets.as_slice());
            Some(same)
        }
    }
}
