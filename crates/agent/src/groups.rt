//! The phase status groups (NTCIP 1202): which of eight phases show a colour or a signal, or are called, as one octet.

ghost use Rattle.std.specs.Prelude.{◌≡◌, ◌<◌, ◌≤◌, ◌+◌, ◌-◌, ◌*◌, ◌^◌};
ghost use Rattle.agent.specs.Groups.{counts_in, group_octet};

use sig_tables::Shown;
use sig_types::{Colour, Ped};

/// Whether a phase, 1 to 16, counts in a column, 2 to 10.
fn counts_in(shown: &Shown, column: u8, phase: u8) -> bool
    requires above { 0 < phase }
    requires within { phase ≤ 16 }
    ensures { result ≡ counts_in shown.now column phase }
{
    let colour = shown.frame.veh[phase as usize - 1];
    let signal = shown.frame.ped[phase as usize - 1];
    match column {
        2 => colour == Colour::Red || colour == Colour::Clear,
        3 => colour == Colour::Yellow,
        4 => colour == Colour::Green,
        5 => signal == Ped::Dont,
        6 => signal == Ped::Flash,
        7 => signal == Ped::Walk,
        8 => shown.veh_calls.has(phase),
        9 => shown.ped_calls.has(phase),
        _ => colour != Colour::Red,
    }
}

/// The octet of a column, 2 to 10, of a group, 1 to 2: its lowest phase is the lowest bit.
pub fn group_octet(shown: &Shown, column: u8, group: u8) -> u32
    requires above { 0 < group }
    requires within { group ≤ 2 }
    ensures octet { result ≡ group_octet shown.now column group }
    ensures small { result ≤ 255 }
{
    let mut octet = 0;
    for above in 0..8 {
        octet = 2 * octet + u32::from(counts_in(shown, column, 8 * group - above));
    }
    octet
}
