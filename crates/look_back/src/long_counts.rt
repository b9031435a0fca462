//! What reaches further back than the window, as numbers: how long the stages of one preempt have
//! lasted, each preempt input has been on and no pattern was commanded, and which phases were
//! last on since start-up.

ghost use Rattle.std.specs.Prelude.{◌≡◌, ◌<◌, ◌≤◌, ◌+◌, ◌-◌, ◌*◌, ◌==◌, ◌∷◌, ◌++◌, [], length, ℕ, List, not, true, get_or, Bool, if◌then◌else◌};
ghost use Rattle.sig_types.specs.declared.frame.Frame.{Frame};
ghost use Rattle.sig_types.specs.Phases.{is_in};
ghost use Rattle.sig_types.specs.declared.phase_set.PhaseSet.{PhaseSet};
ghost use Rattle.sig_types.specs.PhaseSet.{has};
ghost use Rattle.sig_types.specs.Colour.{on_in, is_start};
ghost use Rattle.sig_tables.specs.declared.tables.Tables.{Tables};
ghost use Rattle.sig_tables.specs.Cells.{preempt_of};
ghost use Rattle.sig_tables.specs.Modes.{stage_of};
ghost use Rattle.sig_tables.specs.Past.{Moment};
ghost use Rattle.sig_tables.specs.Looking.{last_on, latest_on};
ghost use Rattle.sig_tables.specs.Preempts.{has_lasted, has_been_on};
ghost use Rattle.look_back.specs.Rows.{RowSteps, StagesStep, no_row};
ghost use Rattle.look_back.specs.LastOn.{on_after, latest_after};

use crate::row::Row;
use crate::sample::stage_of;
use sig_types::{Frame, Mode, PhaseSet};

/// What is kept as numbers. Preempt i is at place i - 1.
#[derive(Drop)]
pub struct LongCounts {
    /// The preempt that the last frame serves, or 0, and for how many frames in a row it was that one.
    stage: u8,
    stages: Row,
    /// For how many last ticks in a row each preempt input was on.
    inputs: [Row; 8],
    /// The phase that was last on in each ring since start-up, and a phase of the latest frame since it that has one on.
    last_on: [u8; 2],
    latest_on: u8,
}

/// Whether the mode is start-up.
fn is_start(mode: Mode) -> bool
    ensures { result ≡ is_start mode }
{
    match mode {
        Mode::Start => true,
        _ => false,
    }
}

/// The phase that is last on in a ring after this frame.
fn on_after(before: u8, starts: bool, on: u8) -> u8
    ensures { result ≡ on_after before starts on }
{
    if starts {
        0
    } else if on == 0 {
        before
    } else {
        on
    }
}

/// A phase of the latest frame that has one on, after this frame.
fn latest_after(before: u8, starts: bool, first: u8, second: u8) -> u8
    ensures { result ≡ latest_after before starts first second }
{
    if starts {
        0
    } else if first != 0 {
        first
    } else {
        on_after(before, false, second)
    }
}

/// The row of the stages of one preempt, after a frame in such a stage or in another's.
fn stages_after(stages: Row, goes_on: bool) -> Row
    ensures { StagesStep stages result goes_on }
{
    if goes_on {
        stages.step(true)
    } else {
        Row::new().step(true)
    }
}

/// The rows of the preempt inputs after a tick at which these are on.
fn step_inputs(inputs: &mut [Row; 8], on: PhaseSet)
    ensures { (k : ℕ) → k < 8 → RowSteps (get_or inputs.old k no_row) (get_or inputs.new k no_row) (has on (k + 1)) }
{
    for i in 0..8 {
        inputs[i] = inputs[i].step(on.has(i as u8 + 1));
    }
}

impl LongCounts {
    ghost use Rattle.look_back.specs.LongCounts.{LongCountsStands};
    ghost use Rattle.look_back.specs.Again.{AllGoOn};

    /// Before any frame.
    pub fn new() -> LongCounts
        ensures { LongCountsStands result [] }
    {
        LongCounts {
            stage: 0,
            stages: Row::new(),
            inputs: [Row::new(); 8],
            last_on: [0; 2],
            latest_on: 0,
        }
    }

    /// One more frame, and the preempt inputs that were on at its tick, 1 to 8 in a set as phases are.
    pub fn step(&mut self, shown: &Frame, preempts: PhaseSet)
        ensures { (past : List Moment) (m : Moment) → LongCountsStands self.old past → m.frame ≡ shown.now
            → ((i : ℕ) → 0 < i → i ≤ 8 → has preempts i ≡ is_in m.preempts i)
            → LongCountsStands self.new (m ∷ past) }
    {
        let stage = stage_of(shown.mode);
        self.stages = stages_after(self.stages, stage == self.stage);
        self.stage = stage;
        step_inputs(&mut self.inputs, preempts);
        let starts = is_start(shown.mode);
        let [first, second] = shown.on;
        self.latest_on = latest_after(self.latest_on, starts, first, second);
        self.last_on = [
            on_after(self.last_on[0], starts, first),
            on_after(self.last_on[1], starts, second),
        ];
    }

    /// N more frames, one at least, that continue the last one.
    pub fn step_again(&mut self, ticks: u32)
        requires { 0 < ticks }
        ensures { (active pressed : PhaseSet) (past ms : List Moment) → LongCountsStands self.old past → length ms ≡ ticks
            → AllGoOn active pressed ms past → LongCountsStands self.new (ms ++ past) }
    {
        self.stages = self.stages.more(ticks);
        self.inputs = [Row::new(); 8];
    }

    /// Whether a preempt has been served for its minimum time, N seconds.
    pub fn has_lasted(&self, number: u8, seconds: u16) -> bool
        ensures { (t : Tables) (past : List Moment) → LongCountsStands self.now past → seconds ≡ (preempt_of t number).minimum_duration
            → result ≡ has_lasted t number past }
    {
        let least = u32::from(seconds) * 10;
        if number == self.stage {
            self.stages.lasts(least)
        } else {
            least == 0
        }
    }

    /// Whether the input of a preempt, 1 to 8, that is on at this tick or not has been on for N ticks, this one
    /// included.
    pub fn has_been_on(&self, ticks: u32, number: u8, on: bool) -> bool
        requires above { 0 < number }
        requires below { number ≤ 8 }
        ensures { (inputs : List ℕ) (past : List Moment) → LongCountsStands self.now past → on ≡ is_in inputs number
            → result ≡ has_been_on ticks number inputs past }
    {
        self.inputs[number as usize - 1].lasts_now(ticks, on)
    }

    /// The phase that was last on in a ring, 1 or 2, since start-up; 0 where there is none.
    pub fn last_on(&self, ring: u8) -> u8
        requires above { 0 < ring }
        requires below { ring ≤ 2 }
        ensures { (past : List Moment) → LongCountsStands self.now past → result ≡ last_on ring past }
    {
        if ring == 1 {
            self.last_on[0]
        } else {
            self.last_on[1]
        }
    }

    /// A phase of the latest frame since start-up that has one on; 0 where there is none.
    pub fn latest_on(&self) -> u8
        ensures { (past : List Moment) → LongCountsStands self.now past → result ≡ latest_on past }
    {
        self.latest_on
    }
}
