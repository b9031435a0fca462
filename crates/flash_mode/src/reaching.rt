//! The mode of a frame, once its colours are known.

ghost use Rattle.std.specs.Prelude.{◌≡◌};
ghost use Rattle.sig_types.specs.declared.frame.Colour.TheVariants.{Green, Red};
ghost use Rattle.sig_types.specs.Colour.{same_colour, colour_in};
ghost use Rattle.sig_tables.specs.declared.tables.Tables.{Tables};
ghost use Rattle.sig_tables.specs.Choosing.{are_all_red, mode_reached};
ghost use Rattle.flash_mode.specs.OwnMode.{AreSought};

use sig_types::{Colour, Mode};

/// Whether a phase is Green among sixteen. A phase of 0 is read as 1, and what is not a phase counts as Green.
fn is_green(veh: &[Colour; 16], phase: u8) -> bool
    ensures { result ≡ same_colour (colour_in veh.now phase) Green }
{
    match veh.get(usize::from(phase).saturating_sub(1)) {
        Some(colour) => *colour == Colour::Green,
        None => true,
    }
}

/// Whether a colour is Red.
fn is_red(colour: Colour) -> bool
    ensures { result ≡ same_colour colour Red }
{
    colour == Colour::Red
}

/// Whether every phase is Red.
fn are_all_red(veh: &[Colour; 16]) -> bool
    ensures { result ≡ are_all_red veh.now }
{
    for p in 0..16 {
        if !is_red(veh[p]) {
            return false;
        }
    }
    true
}

/// The mode of a frame with these colours, of a tick that had this mode before they were known: a pattern that is sought is
/// picked up where both coordinated phases are Green, and flash begins where every phase is Red. The coordinated phases
/// are those of the pattern that is sought, and are not looked at in any other mode.
pub fn reached(mode: Mode, coordinated: [u8; 2], veh: &[Colour; 16]) -> Mode
    ensures { (t : Tables) → AreSought mode coordinated t → result ≡ mode_reached mode t veh.now }
{
    match mode {
        Mode::Seek(pattern) => {
            if is_green(veh, coordinated[0]) && is_green(veh, coordinated[1]) {
                Mode::Coord(pattern)
            } else {
                Mode::Seek(pattern)
            }
        }
        Mode::Ending => {
            if are_all_red(veh) {
                Mode::Flash
            } else {
                Mode::Ending
            }
        }
        _ => mode,
    }
}
