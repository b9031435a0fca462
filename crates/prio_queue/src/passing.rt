//! Ticks that are skipped at once. No register moves while no request is active.

ghost use Rattle.std.specs.Prelude.{◌≡◌, ◌<◌, ℕ, IsTrue};

use crate::Queue;

impl Queue {
    ghost use Rattle.sig_types.specs.declared.frame.Mode.TheVariants.{Coord};
    ghost use Rattle.sig_tables.specs.declared.tables.Tables.{Tables};
    ghost use Rattle.sig_tables.specs.Past.{Past};
    ghost use Rattle.sig_tables.specs.Priority.{active_in};
    ghost use Rattle.prio_queue.specs.Idle.{IsIdle};
    ghost use Rattle.prio_queue.specs.QueueStands.{QueueStands};

    /// Whether no request was active at the last tick, or the one that was has been replaced since.
    pub fn is_idle(&self) -> bool
        ensures { IsTrue result → IsIdle self.now }
    {
        match self.active {
            None => true,
            Some(_) => false,
        }
    }

    /// Whether no request is active at any tick after N ticks, because all have departed.
    pub fn is_over(&self, tick: u32) -> bool
        ensures over { (past : Past) (t : Tables) (n number : ℕ) → QueueStands self.now past → IsTrue result → tick < number
            → active_in t (Coord n) number past.asked ≡ 0 }
    {
        self.until <= u64::from(tick)
    }
}
