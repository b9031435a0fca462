//! What reaches a cabinet and what it reports, as definitions: its cabinet history item by item, the journal of a
//! round, the result at its controller and at its download stage, the replies, and which frames have a line. The code
//! is in the crates above.
#![tactic(auto)]

use sig_types::{Broken, Octets};

mod laws;

pub use laws::whole_downloads;

/// The end of a load, by the id of its download: the version that an accepted finish made, or the rule that refused a verify or
/// a finish, with its row.
#[derive(Clone, PartialEq, Drop)]
pub struct Load {
    pub id: u32,
    pub result: Result<u32, Broken>,
}

/// What a cabinet says about a frame: the pass that brought it, the octets of the answer, or silence, and the end of a
/// load where the frame brought one.
#[derive(PartialEq, Drop)]
pub struct Reply {
    pub pass: u32,
    pub text: Option<Octets>,
    pub load: Option<Load>,
}
