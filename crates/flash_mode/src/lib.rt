//! The mode of a tick: start-up and flash, which come before all else (NEMA TS 2), the pattern or the flash that is
//! commanded, and what the rings do in a mode. Preemption is decided elsewhere: its stage is handed in.
#![tactic(auto)]

ghost use Rattle.std.specs.Prelude.{◌≡◌, ℕ, List, unwrap_or};
ghost use Rattle.sig_tables.specs.declared.tables.Tables.{Tables};
ghost use Rattle.sig_tables.specs.Choosing.{mode_sought};
ghost use Rattle.sig_tables.specs.Past.{Moment};
ghost use Rattle.sig_tables.specs.Looking.{last_frame};
ghost use Rattle.sig_tables.specs.Preempts.{stage_now};
ghost use Rattle.flash_mode.specs.OwnMode.{own_mode, other_mode, CountsStart};

mod choosing;
mod reaching;
mod ring_turn;

pub use choosing::{Choice, commanded, running, sought};
pub use reaching::reached;
pub use ring_turn::{RingTurn, ring_turn_of};
use sig_types::{Frame, Mode};

/// How many frames Start lasts: 6 seconds of all red after power-up or flash.
const START_FRAMES: u32 = 60;

/// The command that asks for flash.
const FLASH_COMMAND: u8 = 255;

/// The mode that start-up and flash give a tick: Start for 60 frames, then Flash if it is commanded (255), and Flash
/// while it is commanded, then Start. None exactly if the last frame, the number of frames in Start and the command
/// give no mode: then a preempt and the command decide.
pub fn mode(shown: &Frame, start_run: u32, command: u8) -> Option<Mode>
    ensures own { result ≡ own_mode shown.now.mode start_run command }
    ensures sought { (t : Tables) (version : ℕ) (preempts : List ℕ) (past : List Moment)
        → last_frame past ≡ shown.now → CountsStart start_run past
        → mode_sought t version command preempts past
        ≡ unwrap_or result (other_mode shown.now (stage_now t preempts past) t version command) }
{
    match shown.mode {
        Mode::Start => {
            if start_run < START_FRAMES {
                Some(Mode::Start)
            } else if command == FLASH_COMMAND {
                Some(Mode::Flash)
            } else {
                None
            }
        }
        Mode::Flash => {
            if command == FLASH_COMMAND {
                Some(Mode::Flash)
            } else {
                Some(Mode::Start)
            }
        }
        _ => None,
    }
}
