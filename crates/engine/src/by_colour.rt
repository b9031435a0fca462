//! The phases by the colour that a frame shows of them, as sets.

use sig_types::{Colour, PhaseSet, showing};

/// The phases in Green, those in Red, and those in Yellow or red clearance.
#[derive(Clone, Copy)]
pub(crate) struct ByColour {
    pub green: PhaseSet,
    pub red: PhaseSet,
    pub clearing: PhaseSet,
}

impl ByColour {
    ghost use Rattle.engine.specs.Shows.{ShowsColours};

    /// The phases by these colours.
    pub fn of(veh: &[Colour; 16]) -> ByColour
        ensures { ShowsColours result veh.now }
    {
        let clearing = showing(veh, Colour::Yellow).union(showing(veh, Colour::Clear));
        ByColour {
            green: showing(veh, Colour::Green),
            red: showing(veh, Colour::Red),
            clearing,
        }
    }
}
