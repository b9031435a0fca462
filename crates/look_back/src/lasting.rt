//! What decides by a time, asked of the window: a maximum, a red revert, the end of start-
//! up, of a track clearance and of a dwell. Each time of the tables is at most 2,550 ticks, so
//! that the reach of the window decides each.

ghost use Rattle.std.specs.Prelude.{◌≡◌, ◌<◌, ◌≤◌, List};
ghost use Rattle.sig_types.specs.declared.frame.Colour.TheVariants.{Red};
ghost use Rattle.sig_types.specs.Phases.{is_in};
ghost use Rattle.sig_tables.specs.declared.tables.Tables.{Tables};
ghost use Rattle.sig_tables.specs.Tables.{listed, red_revert_time};
ghost use Rattle.sig_tables.specs.Cells.{preempt_of};
ghost use Rattle.sig_tables.specs.Past.{Moment};
ghost use Rattle.sig_tables.specs.Looking.{lasts, lasts_now, shows};
ghost use Rattle.sig_tables.specs.Preempts.{is_track_over, has_dwelt, dwell_set};
ghost use Rattle.sig_tables.specs.View.{View, has_maximum};

use crate::sample::Look;
use crate::times::{maximum_time, red_revert_time, stage_time};
use crate::window::Window;
use sig_tables::{PhaseList, Tables};
use sig_types::{Colour, Mode};

impl Window {
    ghost use Rattle.look_back.specs.Look.{LooksAtPhase, is_so};
    ghost use Rattle.look_back.specs.WindowStands.{WindowStands};

    /// Whether it was so in each of the last N frames.
    pub fn lasts(&self, look: Look, frames: u32) -> bool
        requires phase { LooksAtPhase look }
        requires within { frames ≤ 4096 }
        ensures { (past : List Moment) → WindowStands self.now past → result ≡ lasts frames (is_so look) past }
    {
        self.look(look, frames) >= frames
    }

    /// Whether it is so at this tick, and was so in each of the frames before it, N in all.
    pub fn lasts_now(&self, look: Look, frames: u32, now: bool) -> bool
        requires phase { LooksAtPhase look }
        requires within { frames ≤ 4096 }
        ensures { (past : List Moment) → WindowStands self.now past → result ≡ lasts_now frames now (is_so look) past }
    {
        if frames == 0 {
            true
        } else if now {
            self.lasts(look, frames - 1)
        } else {
            false
        }
    }

    /// Whether a phase, 1 to 16, that is green while an incompatible phase has demand (`opposed`) at this tick or not is at its
    /// maximum: it was so for that time.
    pub fn has_maximum(&self, t: &Tables, phase: u8, opposed: bool) -> bool
        requires above { 0 < phase }
        requires below { phase ≤ 16 }
        ensures { (v : View) → WindowStands self.now v.past → v.tables ≡ t.now → opposed ≡ is_in v.opposed phase
            → result ≡ has_maximum v phase }
    {
        self.lasts_now(Look::Opposed { phase }, maximum_time(t, phase), opposed)
    }

    /// Whether the red revert of a phase, 1 to 16, is over: it was red for that time.
    pub fn has_reverted(&self, t: &Tables, phase: u8) -> bool
        requires above { 0 < phase }
        requires below { phase ≤ 16 }
        ensures { (past : List Moment) → WindowStands self.now past
            → result ≡ lasts (red_revert_time t.now phase) (shows phase Red) past }
    {
        let colour = Colour::Red;
        self.lasts(Look::Shows { phase, colour }, red_revert_time(t, phase))
    }

    /// Whether the track clearance of a preempt has lasted its time, N seconds.
    pub fn is_track_over(&self, number: u8, track_green: u8) -> bool
        ensures { (t : Tables) (past : List Moment) → WindowStands self.now past → track_green ≡ (preempt_of t number).track_green
            → result ≡ is_track_over t number past }
    {
        let mode = Mode::Track(number);
        self.lasts(Look::IsIn { mode }, stage_time(track_green))
    }

    /// Whether a preempt has dwelt in its phases for their time, N seconds.
    pub fn has_dwelt(&self, number: u8, dwell_green: u8, goal: &PhaseList) -> bool
        ensures { (t : Tables) (past : List Moment) → WindowStands self.now past → dwell_green ≡ (preempt_of t number).dwell_green
            → listed goal.now ≡ dwell_set t number → result ≡ has_dwelt t number past }
    {
        let goal = *goal;
        self.lasts(Look::Dwells { number, goal }, stage_time(dwell_green))
    }
}
