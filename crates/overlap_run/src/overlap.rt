//! The registers of an overlap. It counts down what is left of the trail, of yellow change or of red clearance, and looks at no tick but
//! the one at hand.

ghost use Rattle.std.specs.Prelude.{◌≡◌, ◌<◌, ◌≤◌, ◌∷◌, Bool, List};

use sig_types::Colour;

/// How long an overlap holds green after the last green of its parents, how long yellow change lasts, and how long red
/// clearance lasts; in ticks of 0.1 s.
#[derive(Clone, Copy, PartialEq, Eq)]
pub struct Timing {
    pub trail: u32,
    pub yellow: u32,
    pub red: u32,
}

/// An overlap at a tick: its times, what it shows, and how many ticks are left of that. Trail and red clearance last 0 to 255 ticks,
/// yellow change 1 to 255.
#[derive(Clone, Copy, PartialEq, Eq)]
pub struct Overlap {
    times: Timing,
    shown: Colour,
    left: u32,
    ghost lasting: { 0 < times.yellow },
}

impl Overlap {
    ghost use Rattle.overlap_run.specs.Overlap.{timed, colours, last_colour};
    ghost use Rattle.overlap_run.specs.OverlapStands.{OverlapStands, IsOpened};

    /// An overlap at tick 0: Red, whatever its parents show.
    pub fn open(trail: u32, yellow: u32, red: u32) -> Overlap
        requires trail { trail ≤ 255 }
        requires some { 0 < yellow }
        requires yellow { yellow ≤ 255 }
        requires red { red ≤ 255 }
        ensures { IsOpened result (timed trail yellow red) }
    {
        Overlap {
            times: Timing { trail, yellow, red },
            shown: Colour::Red,
            left: 0,
        }
    }

    /// What is shown at this tick.
    pub fn shown(&self) -> Colour
        ensures { (t : Timing) (greens : List Bool) → OverlapStands self.now t greens → result ≡ last_colour (colours t greens) }
    {
        self.shown
    }

    /// The next tick, at which some parent shows Green or none does: what the overlap shows then.
    pub fn step(&mut self, green: bool) -> Colour
        ensures shown { (t : Timing) (greens : List Bool) → OverlapStands self.old t greens → result ≡ last_colour (colours t (green ∷ greens)) }
        ensures stands { (t : Timing) (greens : List Bool) → OverlapStands self.old t greens → OverlapStands self.new t (green ∷ greens) }
    {
        match self.shown {
            Colour::Red => self.begin(green),
            Colour::Green => self.hold(green),
            Colour::Yellow => self.change(),
            Colour::Clear => self.clear(),
        }
        self.shown
    }

    /// From Red: Green where a parent is.
    fn begin(&mut self, green: bool)
        requires { self.old.shown ≡ Colour.Red }
        ensures { (t : Timing) (greens : List Bool) → OverlapStands self.old t greens → OverlapStands self.new t (green ∷ greens) }
    {
        if green {
            self.shown = Colour::Green;
            self.left = self.times.trail;
        }
    }

    /// From Green: held while a parent is Green and for the trail after it, then Yellow.
    fn hold(&mut self, green: bool)
        requires { self.old.shown ≡ Colour.Green }
        ensures { (t : Timing) (greens : List Bool) → OverlapStands self.old t greens → OverlapStands self.new t (green ∷ greens) }
    {
        if green {
            self.left = self.times.trail;
        } else if self.left > 0 {
            self.left -= 1;
        } else {
            self.shown = Colour::Yellow;
            self.left = self.times.yellow - 1;
        }
    }

    /// From Yellow: when it is over, Clear, or Red where there is no red clearance.
    fn change(&mut self)
        requires { self.old.shown ≡ Colour.Yellow }
        ensures { (t : Timing) (green : Bool) (greens : List Bool) → OverlapStands self.old t greens → OverlapStands self.new t (green ∷ greens) }
    {
        if self.left > 0 {
            self.left -= 1;
        } else if self.times.red > 0 {
            self.shown = Colour::Clear;
            self.left = self.times.red - 1;
        } else {
            self.shown = Colour::Red;
        }
    }

    /// From Clear: when it is over, Red.
    fn clear(&mut self)
        requires { self.old.shown ≡ Colour.Clear }
        ensures { (t : Timing) (green : Bool) (greens : List Bool) → OverlapStands self.old t greens → OverlapStands self.new t (green ∷ greens) }
    {
        if self.left > 0 {
            self.left -= 1;
        } else {
            self.shown = Colour::Red;
        }
    }
}
