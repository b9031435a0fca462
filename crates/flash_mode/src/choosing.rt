//! The mode that is commanded: a pattern, flash or none, and the whole choice of a mode before the colours are known.

ghost use Rattle.std.specs.Prelude.{◌≡◌, ℕ, List};
ghost use Rattle.sig_tables.specs.Slots.{is_defined};
ghost use Rattle.sig_tables.specs.Choosing.{is_in_step, mode_commanded, mode_running, mode_sought};
ghost use Rattle.sig_tables.specs.Past.{Moment};
ghost use Rattle.sig_tables.specs.Looking.{last_frame};
ghost use Rattle.sig_tables.specs.Preempts.{stage_now};
ghost use Rattle.flash_mode.specs.OwnMode.{other_mode, CountsStart};

use crate::{FLASH_COMMAND, mode};
use sig_tables::Tables;
use sig_types::{Frame, Mode};

/// Whether the tables define a pattern: it is 1 to 48 and has a cycle.
fn is_defined(t: &Tables, pattern: u8) -> bool
    ensures { result ≡ is_defined t.now pattern }
{
    1 <= pattern && pattern <= 48 && 1 <= t.pattern(pattern).cycle
}

/// Whether a frame is in Coord of a pattern, under the tables of this version.
fn is_in_step(shown: &Frame, version: u32, pattern: u8) -> bool
    ensures { result ≡ is_in_step shown.now version pattern }
{
    match shown.mode {
        Mode::Coord(other) => other == pattern && shown.version == version,
        _ => false,
    }
}

/// What the command asks for, apart from flash, after this frame and with the tables in force of this version: a
/// defined pattern continues if the frame is coordinated in it, and is sought if it isn't; otherwise Free.
pub fn commanded(t: &Tables, version: u32, command: u8, shown: &Frame) -> Mode
    ensures { result ≡ mode_commanded t.now version command shown.now }
{
    if !is_defined(t, command) {
        Mode::Free
    } else if is_in_step(shown, version, command) {
        Mode::Coord(command)
    } else {
        Mode::Seek(command)
    }
}

/// What the command asks for while the signals run: flash (255) is approached, and else it is what `commanded` gives.
pub fn running(t: &Tables, version: u32, command: u8, shown: &Frame) -> Mode
    ensures { result ≡ mode_running t.now version command shown.now }
{
    if command == FLASH_COMMAND {
        Mode::Ending
    } else {
        commanded(t, version, command, shown)
    }
}

/// What a mode is chosen by beside preemption: the tables in force and their version, the pattern in command, the last
/// frame, and for how many frames in a row it has been Start (looked at only where it is).
#[derive(Clone, Copy)]
pub struct Choice<'a> {
    pub tables: &'a Tables,
    pub version: u32,
    pub command: u8,
    pub shown: &'a Frame,
    pub start_run: u32,
}

/// The mode of a tick before its colours are known, where preemption asks for this stage or for none.
pub fn sought(choice: &Choice<'_>, stage: Option<Mode>) -> Mode
    ensures { (preempts : List ℕ) (past : List Moment) → last_frame past ≡ choice.now.shown.now → CountsStart choice.now.start_run past
        → stage ≡ stage_now choice.now.tables.now preempts past
        → result ≡ mode_sought choice.now.tables.now choice.now.version choice.now.command preempts past }
{
    match mode(choice.shown, choice.start_run, choice.command) {
        Some(own) => own,
        None => beside(choice, stage),
    }
}

/// The mode of a tick where start-up and flash give none.
fn beside(choice: &Choice<'_>, stage: Option<Mode>) -> Mode
    ensures { result ≡ other_mode choice.now.shown.now stage choice.now.tables.now choice.now.version choice.now.command }
{
    let shown = choice.shown;
    if shown.mode == Mode::Start {
        return commanded(choice.tables, choice.version, choice.command, shown);
    }
    match stage {
        Some(stage) => stage,
        None => running(choice.tables, choice.version, choice.command, shown),
    }
}
