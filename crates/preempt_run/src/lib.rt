//! Preemption: which preempt is called, and for how long a cabinet has been in a stage of one (NTCIP 1202, preempt objects;
//! the stages and their rules are this project's own). Nothing is counted from tick to tick: an input that turns on and a
//! stage that begins are stamped with the number of the step, so that a tick without a preempt does little.
#![tactic(auto)]

ghost use Rattle.std.specs.Prelude.{◌≡◌, ◌<◌, ◌≤◌, ◌+◌, ◌*◌, ◌&&◌, ◌||◌, ◌==◌, ◌∷◌, [], ℕ, true, false, IsTrue};

use phase_clock::MemberRuns;
use preempt_stages::{
    after_entry, after_exit, began, breaks_in, calls, due_green, dwelling_green, dwelling_off,
    exit_from, holds_dwell, is_dwell, phases_in, row_of, same_mode, same_stage, shows_sixteen,
    ticks,
};
use sig_tables::{PhaseList, Tables};
use sig_types::{Frame, Mode, PhaseSet};

mod passing;

/// What is kept of the preempt inputs and of the frames so far. Preempts are 1 to 8; those whose input is on are a set,
/// as phases are. All times are in ticks of a tenth of a second.
#[derive(Drop)]
pub struct Preempts {
    /// How many frames have come.
    steps: u32,
    /// The preempts whose input is on.
    on: PhaseSet,
    /// For how many ticks in a row, up to the last, each input was on.
    inputs: MemberRuns,
    /// The mode of the last frame, the step at which it began, and the step at which the stages of its preempt did.
    mode: Mode,
    mode_since: u32,
    stage_since: u32,
    /// For how many last frames of dwell in a row each phase has been green, and on in no ring.
    green: MemberRuns,
    off: MemberRuns,
}

impl Preempts {
    ghost use Rattle.sig_types.specs.declared.frame.Field.TheVariants.{Preempt as PreemptInput};
    ghost use Rattle.sig_types.specs.declared.frame.Mode.TheVariants.{Track, Dwell};
    ghost use Rattle.sig_types.specs.Phases.{is_in, those};
    ghost use Rattle.sig_types.specs.PhaseSet.{has, phases_of};
    ghost use Rattle.sig_tables.specs.declared.tables.Tables.{Tables};
    ghost use Rattle.sig_tables.specs.Tables.{listed};
    ghost use Rattle.sig_tables.specs.Past.{Past, Moment, Input};
    ghost use Rattle.sig_tables.specs.Looking.{in_a_row, lasts};
    ghost use Rattle.sig_tables.specs.Modes.{same_mode, stage_of};
    ghost use Rattle.sig_tables.specs.Seen.{frame_seen};
    ghost use Rattle.sig_tables.specs.Decide.{opened, with_event, with_moment};
    ghost use Rattle.sig_tables.specs.Preempts.{all_preempts, is_preempt_called, preempt_called, has_reached, is_track_over, is_dwell_over, stage_after, stage_now};
    ghost use Rattle.preempt_stages.specs.Dwelling.{NamesPhases, is_dwell, dwells, each_green, each_off};
    ghost use Rattle.preempt_stages.specs.Inputs.{preempts_seen};
    ghost use Rattle.preempt_run.specs.PreemptsKeep.{PreemptsStand, StaysBeside, step_count};

    /// No input on, and the moment before any tick.
    pub fn new() -> Preempts
        ensures stands { (t : Tables) → PreemptsStand result (opened t) }
        ensures steps { step_count result ≡ 0 }
    {
        Preempts {
            steps: 0,
            on: PhaseSet::empty(),
            inputs: MemberRuns::new(),
            mode: Mode::Start,
            mode_since: 0,
            stage_since: 0,
            green: MemberRuns::new(),
            off: MemberRuns::new(),
        }
    }

    /// The input of a preempt, 1 to 8, turns on or off between two ticks.
    pub fn input(&mut self, number: u8, on: bool)
        requires above { 0 < number }
        requires within { number ≤ 8 }
        ensures stands { (past : Past) → PreemptsStand self.old past
            → PreemptsStand self.new (with_event (Input (PreemptInput number on)) past) }
        ensures steps { step_count self.new ≡ step_count self.old }
    {
        let lone = PhaseSet::empty().with(number);
        self.on = self.on.minus(lone).with_if(number, on);
    }

    /// The preempts whose input is on, 1 to 8 in a set as phases are.
    pub fn on(&self) -> PhaseSet
        ensures has { (past : Past) → PreemptsStand self.now past
            → (i : ℕ) → 0 < i → i ≤ 8 → has result i ≡ is_in (preempts_seen past) i }
        ensures preempts { (past : Past) → PreemptsStand self.now past → those (has result) all_preempts ≡ preempts_seen past }
    {
        self.on
    }

    /// The stage or the exit that preemption asks for at a tick, by the tables in force and the last frame; none where it
    /// asks for nothing.
    pub fn stage(&self, t: &Tables, shown: &Frame) -> Option<Mode>
        requires few { step_count self.now < 4294967295 }
        ensures stage { (past : Past) → PreemptsStand self.now past → shown.now ≡ frame_seen past
            → result ≡ stage_now t.now (preempts_seen past) past.moments }
    {
        let called = self.called(t);
        if breaks_in(called, shown.mode) {
            Some(Mode::Entry(called))
        } else {
            self.stage_after(t, shown)
        }
    }

    /// The frame that a tick gave. What its rings have on are phases, or nothing.
    pub fn step(&mut self, given: &Frame)
        requires few { step_count self.old < 4294967295 }
        ensures stands { (past : Past) (m : Moment) → PreemptsStand self.old past → m.frame ≡ given.now
            → m.preempts ≡ preempts_seen past → NamesPhases given.now → PreemptsStand self.new (with_moment past m) }
        ensures steps { step_count self.new ≡ step_count self.old + 1 }
    {
        shows_sixteen(given.veh);
        if self.is_beside(given.mode) {
            self.stay();
            return;
        }
        self.inputs.step(self.on, self.steps);
        self.green.step(dwelling_green(given), self.steps);
        self.off.step(dwelling_off(given), self.steps);
        self.steps += 1;
        let goes_on = same_stage(given.mode, self.mode);
        self.stage_since = began(self.stage_since, goes_on, self.steps);
        let goes_on = same_mode(self.mode, given.mode);
        self.mode_since = began(self.mode_since, goes_on, self.steps);
        self.mode = given.mode;
    }

    /// A frame that continues with the last one apart from all preempts.
    pub fn stay(&mut self)
        requires few { step_count self.old < 4294967295 }
        ensures stands { (past : Past) (m : Moment) → PreemptsStand self.old past → StaysBeside past m
            → PreemptsStand self.new (with_moment past m) }
        ensures steps { step_count self.new ≡ step_count self.old + 1 }
    {
        self.inputs.clear();
        self.green.clear();
        self.off.clear();
        self.steps += 1;
    }

    /// Whether a frame of this mode continues with the last one apart from all preempts: no input is on, no preempt
    /// dwells, and the mode is that of the last frame.
    fn is_beside(&self, mode: Mode) -> bool
        ensures none { IsTrue result → phases_of self.now.on ≡ [] }
        ensures dwell { IsTrue result → is_dwell mode ≡ false }
        ensures same { IsTrue result → same_mode self.now.mode mode ≡ true }
    {
        if !self.on.is_empty() {
            false
        } else if is_dwell(mode) {
            false
        } else {
            same_mode(self.mode, mode)
        }
    }

    /// The least preempt that is called, or 0.
    fn called(&self, t: &Tables) -> u8
        ensures called { (past : Past) → PreemptsStand self.now past
            → result ≡ preempt_called t.now (preempts_seen past) past.moments }
    {
        if self.on.is_empty() {
            return 0;
        }
        for number in 1..9u8 {
            if self.is_called(t, number) {
                return number;
            }
        }
        0
    }

    /// Whether a preempt is called: it is configured, and its input has been on past its delay and within its greatest
    /// presence. No number but 1 to 8 is.
    fn is_called(&self, t: &Tables, number: u8) -> bool
        ensures called { (past : Past) → PreemptsStand self.now past
            → result ≡ is_preempt_called t.now (preempts_seen past) past.moments number }
    {
        if number == 0 || number > 8 {
            return false;
        }
        if self.on.has(number) {
            calls(t.preempt(number), self.inputs.count(number, self.steps))
        } else {
            false
        }
    }

    /// What follows the last frame, in a stage or an exit of a preempt, by itself.
    fn stage_after(&self, t: &Tables, shown: &Frame) -> Option<Mode>
        requires few { step_count self.now < 4294967295 }
        ensures stage { (past : Past) → PreemptsStand self.now past → shown.now ≡ frame_seen past
            → result ≡ stage_after t.now shown.now.mode (preempts_seen past) past.moments }
    {
        match shown.mode {
            Mode::Entry(number) => Some(after_entry(row_of(t, number), number, shown)),
            Mode::Track(number) => {
                if self.is_track_over(t, number) {
                    Some(Mode::Dwell(number))
                } else {
                    Some(Mode::Track(number))
                }
            }
            Mode::Dwell(number) => {
                if self.is_dwell_over(t, number) {
                    exit_from(&row_of(t, number).exit_phases, number)
                } else {
                    Some(Mode::Dwell(number))
                }
            }
            Mode::Exit(number) => after_exit(&row_of(t, number).exit_phases, number, shown),
            _ => None,
        }
    }

    /// Whether the track clearance of a preempt has lasted its time.
    fn is_track_over(&self, t: &Tables, number: u8) -> bool
        requires few { step_count self.now < 4294967295 }
        ensures over { (past : Past) → PreemptsStand self.now past → (frame_seen past).mode ≡ Track number
            → result ≡ is_track_over t.now number past.moments }
    {
        self.mode_run() >= ticks(u16::from(row_of(t, number).track_green)).max(1)
    }

    /// Whether the dwell of a preempt is over: its phases have had their time, its least time has passed, and it is not
    /// called.
    fn is_dwell_over(&self, t: &Tables, number: u8) -> bool
        requires few { step_count self.now < 4294967295 }
        ensures over { (past : Past) → PreemptsStand self.now past → (frame_seen past).mode ≡ Dwell number
            → result ≡ is_dwell_over t.now number (preempts_seen past) past.moments }
    {
        let row = row_of(t, number);
        let least = ticks(row.minimum_duration);
        if holds_dwell(self.is_called(t, number), self.stage_run(), least) {
            return false;
        }
        self.has_dwelt(&row.dwell_phases, ticks(u16::from(row.dwell_green)).max(1))
    }

    /// Whether the goal has been reached in each of that many last frames of the dwell that the last one is of.
    fn has_dwelt(&self, goal: &PhaseList, ticks: u32) -> bool
        requires few { step_count self.now < 4294967295 }
        ensures dwelt { (past : Past) (i : ℕ) → PreemptsStand self.now past → (frame_seen past).mode ≡ Dwell i
            → result ≡ lasts ticks (λ m. dwells i m && has_reached m.frame (listed goal.now)) past.moments }
    {
        if self.mode_run() < ticks {
            return false;
        }
        self.have_been_green(goal, ticks) && self.have_been_off(goal, ticks)
    }

    /// Whether the phases of a goal have all been green in each of that many last frames, all of them frames of dwell.
    fn have_been_green(&self, goal: &PhaseList, ticks: u32) -> bool
        ensures green { (past : Past) → PreemptsStand self.now past → lasts ticks (λ m. is_dwell m.frame.mode) past.moments ≡ true
            → result ≡ each_green ticks (listed goal.now) past.moments }
    {
        let not_green = self.green.short_of(ticks, self.steps);
        due_green(goal).meet(not_green).is_empty()
    }

    /// Whether no phase but those of a goal has been on in any of that many last frames, all of them frames of dwell.
    fn have_been_off(&self, goal: &PhaseList, ticks: u32) -> bool
        ensures off { (past : Past) → PreemptsStand self.now past → result ≡ each_off ticks (listed goal.now) past.moments }
    {
        let not_off = self.off.short_of(ticks, self.steps);
        not_off.minus(phases_in(goal)).is_empty()
    }

    /// For how many last frames in a row the cabinet has been in the mode of the last one.
    fn mode_run(&self) -> u32
        requires few { step_count self.now < 4294967295 }
        ensures run { (past : Past) → PreemptsStand self.now past
            → result ≡ in_a_row (λ m. same_mode m.frame.mode self.now.mode) past.moments }
    {
        (self.steps + 1).saturating_sub(self.mode_since)
    }

    /// For how many last frames in a row the cabinet has been in stages of the preempt of the last one.
    fn stage_run(&self) -> u32
        requires few { step_count self.now < 4294967295 }
        ensures run { (past : Past) → PreemptsStand self.now past
            → result ≡ in_a_row (λ m. stage_of m.frame.mode == stage_of self.now.mode) past.moments }
    {
        (self.steps + 1).saturating_sub(self.stage_since)
    }
}
