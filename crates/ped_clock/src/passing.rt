//! Ticks that are skipped at once: every signal continues. Only the number of the step moves.

ghost use Rattle.std.specs.Prelude.{◌≡◌, ◌<◌, ◌≤◌, ◌+◌, ℕ, List};

use crate::PedClocks;
use sig_types::Ped;

impl PedClocks {
    ghost use Rattle.sig_types.specs.declared.frame.Ped.{Ped};
    ghost use Rattle.sig_types.specs.Colour.{signal_of};
    ghost use Rattle.sig_tables.specs.declared.tables.Tables.{Tables};
    ghost use Rattle.sig_tables.specs.Past.{Moment};
    ghost use Rattle.sig_tables.specs.Looking.{last_frame, signal_run, signal_latched};
    ghost use Rattle.ped_clock.specs.Signals.{signal_time};
    ghost use Rattle.ped_clock.specs.SignalsStand.{SignalsStand, step_count};
    ghost use Rattle.ped_clock.specs.Passed.{passed};
    ghost use Rattle.call_store.specs.Signals.{SignalLasts};

    /// How much of its time is left of the signal that a phase, 1 to 16, shows, in ticks.
    fn rest(&self, phase: u8) -> u32
        requires above { 0 < phase }
        requires within { phase ≤ 16 }
        requires few { step_count self.now < 4294967295 }
        ensures rest { (past : List Moment) (now : Tables) (k : ℕ) (signal : Ped) → SignalsStand self.now past
            → signal_of (last_frame past) phase ≡ signal → 0 < k → k ≤ result
            → signal_run phase signal past + k ≤ signal_time (signal_latched phase signal now past) phase signal }
    {
        let interval = self.intervals[phase as usize - 1];
        interval.time().saturating_sub(interval.run(self.steps))
    }

    /// For how many ticks more a phase, 1 to 16, shows this signal of the last frame, where its time is not cut short. Steady
    /// don't walk has no end.
    pub fn left(&self, phase: u8, shown: Ped) -> u32
        requires above { 0 < phase }
        requires within { phase ≤ 16 }
        requires few { step_count self.now < 4294967295 }
        ensures left { (past : List Moment) (now : Tables) (k : ℕ) → SignalsStand self.now past → signal_of (last_frame past) phase ≡ shown
            → 0 < k → k ≤ result → SignalLasts k phase now past shown }
    {
        match shown {
            Ped::Dont => u32::MAX,
            Ped::Walk => self.rest(phase),
            Ped::Flash => self.rest(phase),
        }
    }

    /// N ticks at which nothing changes.
    pub fn pass(&mut self, ticks: u32)
        requires few { step_count self.old + ticks ≤ 4294967295 }
        ensures passed { self.new ≡ passed ticks self.old }
    {
        self.steps += ticks;
    }
}
