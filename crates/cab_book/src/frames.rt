//! Which frames have a line in a trace: those that show something else than the one before, and local zeros.

ghost use Rattle.std.specs.Prelude.{◌≡◌, ◌==◌, ◌&&◌};
ghost use Rattle.sig_types.specs.Colour.{shows_same, same_mode, same_colours, same_signals};
ghost use Rattle.sig_tables.specs.Walking.{is_local_zero};
ghost use Rattle.cabinet_history.specs.Frames.{has_line};

use sig_types::{Colour, Frame, Mode, Ped};

/// Whether all phases show the same colours.
fn same_colours(last: &[Colour; 16], next: &[Colour; 16]) -> bool
    ensures { result ≡ same_colours last.now next.now }
{
    last == next
}

/// Whether all phases show the same to pedestrians.
fn same_signals(last: &[Ped; 16], next: &[Ped; 16]) -> bool
    ensures { result ≡ same_signals last.now next.now }
{
    last == next
}

/// Whether a frame has the mode and the version of the one before.
fn is_as_before(last: &Frame, next: &Frame) -> bool
    ensures { result ≡ (same_mode last.now.mode next.now.mode && (last.now.version == next.now.version)) }
{
    last.mode == next.mode && last.version == next.version
}

/// Whether a frame shows what the one before showed: colours, signals, mode and version. What is reported soonest is
/// looked at first.
fn shows_same(last: &Frame, next: &Frame) -> bool
    ensures { result ≡ shows_same last.now next.now }
{
    if !is_as_before(last, next) {
        return false;
    }
    same_colours(&last.veh, &next.veh) && same_signals(&last.ped, &next.ped)
}

/// Whether a frame coordinated in a pattern has the counter 0, where the one before hadn't or wasn't coordinated in it.
fn is_local_zero(last: &Frame, next: &Frame) -> bool
    ensures { result ≡ is_local_zero next.now.mode next.now.counter last.now }
{
    matches!(next.mode, Mode::Coord(_))
        && next.counter == 0
        && !(last.mode == next.mode && last.counter == 0)
}

/// Whether a frame has a line.
pub fn has_line(last: &Frame, next: &Frame) -> bool
    ensures { result ≡ has_line last.now next.now }
{
    !shows_same(last, next) || is_local_zero(last, next)
}
