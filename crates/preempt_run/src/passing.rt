//! Ticks that are skipped at once, apart from all preempts: no input is on, and the mode stays. Only the number of the
//! step moves.

ghost use Rattle.std.specs.Prelude.{◌≡◌, ◌≤◌, ◌+◌, IsTrue};

use crate::Preempts;

impl Preempts {
    ghost use Rattle.preempt_run.specs.PreemptsKeep.{step_count};
    ghost use Rattle.preempt_run.specs.Passed.{IsClear, passed};

    /// Whether no input was on at the last tick, and no phase of a dwell is counted.
    pub fn is_clear(&self) -> bool
        ensures { IsTrue result → IsClear self.now }
    {
        if !self.inputs.is_clear() {
            false
        } else if !self.green.is_clear() {
            false
        } else {
            self.off.is_clear()
        }
    }

    /// N ticks at which nothing changes.
    pub fn pass(&mut self, ticks: u32)
        requires few { step_count self.old + ticks ≤ 4294967295 }
        ensures passed { self.new ≡ passed ticks self.old }
    {
        self.steps += ticks;
    }
}
