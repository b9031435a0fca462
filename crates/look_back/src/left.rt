//! For how many ticks more a time has not passed for which something must be so: the time of a colour or of a signal, a gap, a
//! maximum. What is left of a time is read off the window.

ghost use Rattle.std.specs.Prelude.{◌≡◌, ◌<◌, ◌≤◌, ◌+◌, ◌-◌, ℕ, List};
ghost use Rattle.sig_types.specs.Phases.{is_in};
ghost use Rattle.sig_types.specs.Colour.{colour_of, signal_of};
ghost use Rattle.sig_tables.specs.declared.tables.Tables.{Tables};
ghost use Rattle.sig_tables.specs.Tables.{gap_time, maximum_time};
ghost use Rattle.sig_tables.specs.Past.{Moment};
ghost use Rattle.sig_tables.specs.Looking.{last_frame, in_a_row, run, latched, signal_run, signal_latched};
ghost use Rattle.look_back.specs.Latched.{colour_time, signal_time};

use crate::frame_history::FrameHistory;
use crate::sample::Look;
use crate::times::{gap_time, maximum_time};
use crate::window::Window;
use sig_tables::Tables;
use sig_types::{Colour, Ped};

impl Window {
    ghost use Rattle.look_back.specs.WindowStands.{WindowStands};

    /// For how many ticks more a phase, 1 to 16, that is green and not active at any of them has no gap.
    pub fn gap_left(&self, t: &Tables, phase: u8) -> u32
        requires above { 0 < phase }
        requires below { phase ≤ 16 }
        ensures is { (past : List Moment) → WindowStands self.now past
            → result ≡ gap_time t.now phase - 1 - in_a_row (λ m. is_in m.quiet phase) past }
        ensures left { (past : List Moment) (k : ℕ) → WindowStands self.now past → 0 < k → k ≤ result
            → in_a_row (λ m. is_in m.quiet phase) past + k < gap_time t.now phase }
    {
        let most = gap_time(t, phase).saturating_sub(1);
        most.saturating_sub(self.look(Look::Quiet { phase }, most))
    }

    /// For how many ticks more a phase, 1 to 16, that is green while an incompatible phase has demand at each of them is not at its
    /// maximum.
    pub fn maximum_left(&self, t: &Tables, phase: u8) -> u32
        requires above { 0 < phase }
        requires below { phase ≤ 16 }
        ensures is { (past : List Moment) → WindowStands self.now past
            → result ≡ maximum_time t.now phase - 1 - in_a_row (λ m. is_in m.opposed phase) past }
        ensures left { (past : List Moment) (k : ℕ) → WindowStands self.now past → 0 < k → k ≤ result
            → in_a_row (λ m. is_in m.opposed phase) past + k < maximum_time t.now phase }
    {
        let most = maximum_time(t, phase).saturating_sub(1);
        most.saturating_sub(self.look(Look::Opposed { phase }, most))
    }
}

impl FrameHistory {
    ghost use Rattle.look_back.specs.FrameHistories.{LooksOver};

    /// For how many ticks more a phase, 1 to 16, which shows this colour in the last frame, has not shown it for longer than the
    /// time that was in force when it began; of green this is the least.
    pub fn colour_left(&self, phase: u8, shown: Colour) -> u32
        requires above { 0 < phase }
        requires below { phase ≤ 16 }
        ensures is { (past : List Moment) (now : Tables) → LooksOver self.now past → shown ≡ colour_of (last_frame past) phase
            → result ≡ colour_time (latched phase shown now past) phase shown - run phase shown past }
        ensures left { (past : List Moment) (now : Tables) (k : ℕ) → LooksOver self.now past → shown ≡ colour_of (last_frame past) phase
            → 0 < k → k ≤ result → run phase shown past + k ≤ colour_time (latched phase shown now past) phase shown }
    {
        let time = self.latched().colour(phase, shown);
        time.saturating_sub(self.window().run(phase, shown, time))
    }

    /// The same of the signal that a phase, 1 to 16, shows in the last frame, where it is not cut short.
    pub fn signal_left(&self, phase: u8, shown: Ped) -> u32
        requires above { 0 < phase }
        requires below { phase ≤ 16 }
        ensures is { (past : List Moment) (now : Tables) → LooksOver self.now past → shown ≡ signal_of (last_frame past) phase
            → result ≡ signal_time (signal_latched phase shown now past) phase shown - signal_run phase shown past }
        ensures left { (past : List Moment) (now : Tables) (k : ℕ) → LooksOver self.now past → shown ≡ signal_of (last_frame past) phase
            → 0 < k → k ≤ result → signal_run phase shown past + k ≤ signal_time (signal_latched phase shown now past) phase shown }
    {
        let time = self.latched().signal(phase, shown);
        time.saturating_sub(self.window().ped_run(phase, shown, time))
    }
}
