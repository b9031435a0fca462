//! The octets of a frame that a scenario gives.

ghost use Rattle.std.specs.Prelude.{◌≡◌, ◌≤◌, ℕ, List, length};

use std::marker::Model;

/// The octets of a frame, at most 1,472, in as much memory as they take. Contracts see it as their list.
#[derive(Drop)]
pub struct FrameOctets {
    octets: Vec<u8>,
}

impl Model for FrameOctets {
    ghost Value = { List ℕ };

    ghost view = { λ frame. frame.octets.items };

    ghost invariant = { λ frame. length frame.octets.items ≤ 1472 };
}

impl FrameOctets {
    /// The frame of these octets.
    pub fn new(octets: Vec<u8>) -> FrameOctets
        requires few { length octets.items ≤ 1472 }
        ensures { result ≡ octets.items }
    {
        FrameOctets { octets }
    }

    /// Its octets.
    pub fn as_slice(&self) -> &[u8]
        ensures octets { result.now ≡ self.now }
        ensures few { length result.now ≤ 1472 }
    {
        self.octets.as_slice()
    }

    /// Its octets, as they were handed in.
    pub fn into_vec(self) -> Vec<u8>
        ensures octets { result.items ≡ self }
        ensures few { length result.items ≤ 1472 }
    {
        self.octets
    }
}
