//! The colours and the signals of a frame as sets of phases, one set for each colour and each
//! signal.

ghost use Rattle.std.specs.Prelude.{◌≡◌, ◌↔◌, IsTrue, length};
ghost use Rattle.sig_types.specs.declared.frame.Ped.TheVariants.{Walk};
ghost use Rattle.sig_types.specs.Colour.{same_signal};
ghost use Rattle.look_back.specs.Shown.{signal_in};
ghost use Rattle.sig_tables.specs.Layout.{Has};

use sig_types::{Colour, Ped, PhaseSet, showing};

/// The phases that show each colour and each signal.
#[derive(Clone, Copy)]
pub struct Shown {
    pub green: PhaseSet,
    pub yellow: PhaseSet,
    pub clear: PhaseSet,
    pub red: PhaseSet,
    pub walk: PhaseSet,
    pub flash: PhaseSet,
    pub dont: PhaseSet,
}

impl Shown {
    ghost use Rattle.look_back.specs.Shown.{IsShown, ShowsSame, in_colour, in_signal};

    /// What these colours and signals of sixteen phases show.
    pub fn of(veh: &[Colour; 16], ped: &[Ped; 16]) -> Shown
        ensures shown { IsShown result veh.now ped.now }
    {
        shows_sixteen(*veh);
        let green = showing(veh, Colour::Green);
        let yellow = showing(veh, Colour::Yellow);
        let clear = showing(veh, Colour::Clear);
        let red = showing(veh, Colour::Red);
        let walk = signalling(ped, Ped::Walk);
        let flash = signalling(ped, Ped::Flash);
        let dont = signalling(ped, Ped::Dont);
        Shown {
            green,
            yellow,
            clear,
            red,
            walk,
            flash,
            dont,
        }
    }

    /// Whether two frames show the same of all phases.
    pub fn is_same(&self, other: &Shown) -> bool
        ensures { IsTrue result ↔ (self.now ≡ other.now) }
    {
        self.is_same_to_vehicles(other)
            && same_set(self.walk, other.walk)
            && same_set(self.flash, other.flash)
            && same_set(self.dont, other.dont)
    }

    /// Whether two frames show the same colours.
    fn is_same_to_vehicles(&self, other: &Shown) -> bool
        ensures { IsTrue result ↔ ShowsSame self.now other.now }
    {
        same_set(self.green, other.green)
            && same_set(self.yellow, other.yellow)
            && same_set(self.clear, other.clear)
            && same_set(self.red, other.red)
    }

    /// The phases that show this colour.
    pub fn in_colour(&self, colour: Colour) -> PhaseSet
        ensures { result ≡ in_colour self.now colour }
    {
        match colour {
            Colour::Green => self.green,
            Colour::Yellow => self.yellow,
            Colour::Clear => self.clear,
            Colour::Red => self.red,
        }
    }

    /// The phases that show this signal.
    pub fn in_signal(&self, signal: Ped) -> PhaseSet
        ensures { result ≡ in_signal self.now signal }
    {
        match signal {
            Ped::Walk => self.walk,
            Ped::Flash => self.flash,
            Ped::Dont => self.dont,
        }
    }
}

/// Any colours are those of sixteen phases.
fn shows_sixteen(veh: [Colour; 16])
    ensures sixteen { length veh ≡ 16 }
{}

/// Whether all phases show the same colours.
pub fn same_colours(last: &[Colour; 16], next: &[Colour; 16]) -> bool
    ensures { IsTrue result ↔ (last.now ≡ next.now) }
{
    last == next
}

/// Whether all phases show the same to pedestrians.
pub fn same_signals(last: &[Ped; 16], next: &[Ped; 16]) -> bool
    ensures { IsTrue result ↔ (last.now ≡ next.now) }
{
    last == next
}

/// Whether two sets have the same phases.
pub fn same_set(a: PhaseSet, b: PhaseSet) -> bool
    ensures { IsTrue result ↔ (a ≡ b) }
{
    a == b
}

/// The phases that show a signal, among sixteen.
fn signalling(ped: &[Ped; 16], signal: Ped) -> PhaseSet
    ensures shown { Has result (λ p. same_signal (signal_in ped.now p) signal) }
{
    let mut shown = PhaseSet::empty();
    for p in 0..16 {
        shown = shown.with_if(p as u8 + 1, ped[p] == signal);
    }
    shown
}
