//! Which colour and which pedestrian signal may follow another.

ghost use Rattle.std.specs.Prelude.{◌≡◌, ◌||◌, not, ℕ};
ghost use Rattle.sig_types.specs.Colour.{same_colour, same_signal};
ghost use Rattle.sig_types.specs.declared.frame.Mode.{Mode as ModeOf};
ghost use Rattle.sig_tables.specs.declared.tables.Tables.{Tables as TablesOf};
ghost use Rattle.sig_tables.specs.Tables.{row};
ghost use Rattle.safety_laws.specs.Safe.{makes_way_for, next_colour, next_signal};
ghost use Rattle.judge.specs.Lesser.{lesser_of};

use crate::lengths::clearance_due;
use crate::lesser::LesserTimes;
use sig_tables::PhaseTimes;
use sig_types::{Colour, Ped};

/// Whether a colour is the last one or the one that follows it.
pub fn colour_follows(last: Colour, now: Colour, times: &PhaseTimes) -> bool
    ensures { (t : TablesOf) (p : ℕ) → row t p ≡ times.now → result ≡ (same_colour now last || same_colour now (next_colour t p last)) }
{
    if now == last {
        return true;
    }
    match last {
        Colour::Green => now == Colour::Yellow,
        Colour::Yellow => {
            if times.red_clear == 0 {
                now == Colour::Red
            } else {
                now == Colour::Clear
            }
        }
        Colour::Clear => now == Colour::Red,
        Colour::Red => now == Colour::Green,
    }
}

/// Whether a pedestrian signal is the last one or the one that follows it.
pub fn signal_follows(last: Ped, now: Ped, times: &PhaseTimes, left: Option<LesserTimes>) -> bool
    ensures { (t : TablesOf) (mode : ModeOf) (p : ℕ) → row t p ≡ times.now → lesser_of (makes_way_for t mode p) ≡ left
        → result ≡ (same_signal now last || same_signal now (next_signal t mode p last)) }
{
    if now == last {
        return true;
    }
    let time = clearance_due(left, u16::from(times.pedestrian_clear) * 10);
    match last {
        Ped::Dont => now == Ped::Walk,
        Ped::Walk => {
            if time == 0 {
                now == Ped::Dont
            } else {
                now == Ped::Flash
            }
        }
        Ped::Flash => now == Ped::Dont,
    }
}

/// Whether a walk or a pedestrian clearance is shown without green.
pub fn is_off_green(colour: Colour, signal: Ped) -> bool
    ensures { result ≡ not (same_signal signal Ped.Dont || same_colour colour Colour.Green) }
{
    signal != Ped::Dont && colour != Colour::Green
}
