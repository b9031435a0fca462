//! Ticks that are skipped at once: at each the counter advances by one, as time does, and no cycle ends.

ghost use Rattle.std.specs.Prelude.{◌≡◌, ◌≤◌, ◌+◌};

use crate::Count;

impl Count {
    ghost use Rattle.coord_count.specs.CountStands.{counter_of};
    ghost use Rattle.coord_count.specs.Passed.{passed};

    /// N ticks, at each of which the counter advances by one.
    pub fn pass(&mut self, ticks: u32)
        requires few { counter_of self.old + ticks ≤ 4294967295 }
        ensures passed { self.new ≡ passed ticks self.old }
    {
        self.counter += ticks;
        self.changed = true;
    }
}
