//! The stage that preemption asks for at a tick: which preempt breaks in, or what follows the
//! stage of the last frame by itself.

ghost use Rattle.std.specs.Prelude.{◌≡◌, ◌<◌, ◌≤◌, ◌⊎◌, ℕ, List, false};
ghost use Rattle.sig_types.specs.Phases.{is_in};
ghost use Rattle.sig_types.specs.PhaseSet.{has};
ghost use Rattle.sig_tables.specs.Past.{Moment};
ghost use Rattle.sig_tables.specs.Looking.{last_frame};
ghost use Rattle.sig_tables.specs.Preempts.{is_preempt_called, is_track_over, is_dwell_over, stage_after, stage_now};

use crate::frame_history::FrameHistory;
use preempt_stages::{after_entry, after_exit, breaks_in, exit_from, row_of};
use sig_tables::Tables;
use sig_types::{Frame, Mode, PhaseSet};

impl FrameHistory {
    ghost use Rattle.look_back.specs.FrameHistories.{LooksOver};

    /// The stage or the exit that preemption asks for after the last frame, where the inputs of these preempts, 1 to 8 in a set as
    /// phases are, are on at this tick; none where it asks for nothing.
    pub fn stage(&self, t: &Tables, last: &Frame, on: PhaseSet) -> Option<Mode>
        ensures { (past : List Moment) (inputs : List ℕ) → LooksOver self.now past → last.now ≡ last_frame past
            → ((i : ℕ) → 0 < i → i ≤ 8 → has on i ≡ is_in inputs i) → ((i : ℕ) → (i ≡ 0) ⊎ (8 < i) → is_in inputs i ≡ false)
            → result ≡ stage_now t.now inputs past }
    {
        let called = self.long_counts().called(t, on);
        if breaks_in(called, last.mode) {
            Some(Mode::Entry(called))
        } else {
            self.stage_after(t, last, on)
        }
    }

    /// What follows the last frame, in a stage or an exit of a preempt, by itself.
    fn stage_after(&self, t: &Tables, last: &Frame, on: PhaseSet) -> Option<Mode>
        ensures { (past : List Moment) (inputs : List ℕ) → LooksOver self.now past → last.now ≡ last_frame past
            → ((i : ℕ) → 0 < i → i ≤ 8 → has on i ≡ is_in inputs i) → ((i : ℕ) → (i ≡ 0) ⊎ (8 < i) → is_in inputs i ≡ false)
            → result ≡ stage_after t.now last.now.mode inputs past }
    {
        match last.mode {
            Mode::Entry(number) => Some(after_entry(row_of(t, number), number, last)),
            Mode::Track(number) => {
                if self.is_track_over(t, number) {
                    Some(Mode::Dwell(number))
                } else {
                    Some(Mode::Track(number))
                }
            }
            Mode::Dwell(number) => {
                if self.is_dwell_over(t, number, on) {
                    exit_from(&row_of(t, number).exit_phases, number)
                } else {
                    Some(Mode::Dwell(number))
                }
            }
            Mode::Exit(number) => after_exit(&row_of(t, number).exit_phases, number, last),
            _ => None,
        }
    }

    /// Whether the track clearance of a preempt has lasted its time.
    fn is_track_over(&self, t: &Tables, number: u8) -> bool
        ensures { (past : List Moment) → LooksOver self.now past → result ≡ is_track_over t.now number past }
    {
        self.window()
            .is_track_over(number, row_of(t, number).track_green)
    }

    /// Whether the dwell of a preempt is over: its phases have had their time, its minimum time has passed, and it is
    /// not called.
    fn is_dwell_over(&self, t: &Tables, number: u8, on: PhaseSet) -> bool
        ensures { (past : List Moment) (inputs : List ℕ) → LooksOver self.now past
            → ((i : ℕ) → 0 < i → i ≤ 8 → has on i ≡ is_in inputs i) → ((i : ℕ) → (i ≡ 0) ⊎ (8 < i) → is_in inputs i ≡ false)
            → result ≡ is_dwell_over t.now number inputs past }
    {
        let row = row_of(t, number);
        let called = self.is_called(t, number, on);
        let dwelt = self
            .window()
            .has_dwelt(number, row.dwell_green, &row.dwell_phases);
        let lasted = self.long_counts().has_lasted(number, row.minimum_duration);
        !called && dwelt && lasted
    }

    /// Whether a preempt is called; no number but 1 to 8 is.
    fn is_called(&self, t: &Tables, number: u8, on: PhaseSet) -> bool
        ensures { (past : List Moment) (inputs : List ℕ) → LooksOver self.now past
            → ((i : ℕ) → 0 < i → i ≤ 8 → has on i ≡ is_in inputs i) → ((i : ℕ) → (i ≡ 0) ⊎ (8 < i) → is_in inputs i ≡ false)
            → result ≡ is_preempt_called t.now inputs past number }
    {
        if number == 0 || number > 8 {
            return false;
        }
        self.long_counts().is_called(t, number, on.has(number))
    }
}
