//! Whether a green phase may end on the way to a goal, as the last frames say.

ghost use Rattle.std.specs.Prelude.{◌≡◌, ◌<◌, ◌≤◌, List};
ghost use Rattle.sig_types.specs.declared.frame.Colour.TheVariants.{Green};
ghost use Rattle.sig_types.specs.Colour.{colour_of, signal_of};
ghost use Rattle.sig_tables.specs.declared.tables.Tables.{Tables};
ghost use Rattle.sig_tables.specs.Past.{Moment};
ghost use Rattle.sig_tables.specs.Tables.{least_green};
ghost use Rattle.sig_tables.specs.Looking.{last_frame, latched};
ghost use Rattle.sig_tables.specs.Modes.{stage_of};
ghost use Rattle.sig_tables.specs.Goals.{is_cleared, lesser_times, lesser_green};
ghost use Rattle.look_back.specs.Cuts.{lesser_of};

use crate::cuts::Cut;
use crate::frame_history::FrameHistory;
use preempt_stages::{lesser, lesser_green};
use sig_tables::Tables;
use sig_types::{Colour, Mode, Ped};

/// The cut of walks and pedestrian clearances that a mode asks for; none where no preempt is served.
fn cut_in(t: &Tables, mode: Mode) -> Option<Cut>
    ensures { lesser_of result ≡ lesser_times t.now (stage_of mode) }
{
    match lesser(t, mode) {
        None => None,
        Some((walk, clear)) => Some(Cut { walk, clear }),
    }
}

/// What a mode leaves of a minimum green of N ticks.
fn least_left(t: &Tables, mode: Mode, time: u32) -> u32
    requires { time ≤ 2550 }
    ensures least { result ≡ lesser_green t.now (stage_of mode) time }
    ensures within { result ≤ 2550 }
{
    lesser_green(t, mode, time)
}

impl FrameHistory {
    ghost use Rattle.look_back.specs.FrameHistories.{LooksOver};

    /// Whether a phase, 1 to 16, which is green and shows this signal in the last frame, may end on the way to a goal in this mode:
    /// it has been green for the least that the mode leaves it, and no walk or pedestrian clearance of it runs on.
    pub fn is_cleared(&self, t: &Tables, mode: Mode, phase: u8, signal: Ped) -> bool
        requires above { 0 < phase }
        requires below { phase ≤ 16 }
        ensures { (past : List Moment) → LooksOver self.now past → colour_of (last_frame past) phase ≡ Green
            → signal ≡ signal_of (last_frame past) phase → result ≡ is_cleared mode t.now past phase }
    {
        let least = self.least_in(t, mode, phase);
        if self.window().run(phase, Colour::Green, least) < least {
            return false;
        }
        self.signal_runs_on(t, phase, signal, cut_in(t, mode)) == Ped::Dont
    }

    /// The minimum green that the mode leaves a phase, 1 to 16, which is green in the last frame, of that which was in
    /// force when it began.
    fn least_in(&self, t: &Tables, mode: Mode, phase: u8) -> u32
        requires above { 0 < phase }
        requires below { phase ≤ 16 }
        ensures least { (past : List Moment) (now : Tables) → LooksOver self.now past → colour_of (last_frame past) phase ≡ Green
            → result ≡ lesser_green t.now (stage_of mode) (least_green (latched phase Green now past) phase) }
        ensures within { result ≤ 2550 }
    {
        least_left(t, mode, self.latched().colour(phase, Colour::Green))
    }
}
