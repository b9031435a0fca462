//! Ticks that are skipped at once: every phase continues in its colour, and quiet or opposed as it was. Only the number
//! of the step moves, since all that runs is stamped.

ghost use Rattle.std.specs.Prelude.{◌≡◌, ◌≤◌, ◌+◌, IsTrue};

use crate::Clocks;
use sig_types::PhaseSet;

impl Clocks {
    ghost use Rattle.phase_clock.specs.ClocksStand.{step_count};
    ghost use Rattle.phase_clock.specs.Passed.{IsSteady, passed};

    /// Whether the phases that were quiet at the last tick are those that are green and not active, where these are, and
    /// those that were opposed are the green ones among these.
    pub fn is_steady(&self, active: PhaseSet, opposed: PhaseSet) -> bool
        ensures { IsTrue result → IsSteady self.now active opposed }
    {
        let quiet = self.quiet.members();
        let pressed = self.opposed.members();
        if quiet == self.green.minus(active) {
            pressed == self.green.meet(opposed)
        } else {
            false
        }
    }

    /// N ticks at which nothing changes.
    pub fn pass(&mut self, ticks: u32)
        requires few { step_count self.old + ticks ≤ 4294967295 }
        ensures passed { self.new ≡ passed ticks self.old }
    {
        self.steps += ticks;
    }
}
