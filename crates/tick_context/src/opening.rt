//! What is there before any tick.

ghost use Rattle.std.specs.Prelude.{◌≡◌};

use sig_types::{Colour, Frame, Mode, Ped};

/// What is shown before any tick: all red, in Start.
pub fn first_frame() -> Frame
    ensures { result ≡ first_frame }
{
    Frame {
        veh: [Colour::Red; 16],
        ped: [Ped::Dont; 16],
        on: [0; 2],
        mode: Mode::Start,
        counter: 0,
        target: 0,
        version: 0,
    }
}

ghost use Rattle.sig_tables.specs.Past.{first_frame};
