//! What the tables say of a preempt's stages: the phases that a mode brings to green, and the smaller times of those
//! that are in a preempt's way.

ghost use Rattle.std.specs.Prelude.{◌≡◌, ◌<◌, ◌≤◌, ◌||◌, ◌&&◌, ◌==◌, ◌*◌, ℕ, length};
ghost use Rattle.sig_types.specs.Phases.{is_in, or_else};
ghost use Rattle.sig_types.specs.PhaseSet.{has, phases_of};
ghost use Rattle.sig_tables.specs.Tables.{listed};
ghost use Rattle.sig_tables.specs.Cells.{preempt_of};
ghost use Rattle.sig_tables.specs.Layout.{Has};
ghost use Rattle.sig_tables.specs.Modes.{stage_of};
ghost use Rattle.sig_tables.specs.Goals.{goal_in, lesser_times, lesser_green};
ghost use Rattle.preempt_stages.specs.Goals.{AreSought, ticks_of, SameStages};

use sig_tables::{PhaseList, Preempt, Tables};
use sig_types::{Mode, PhaseSet};

/// What is read where there is no list.
const NO_LIST: PhaseList = PhaseList {
    octets: [0; 16],
    count: 0,
};

/// What is read where there is no preempt.
const NO_PREEMPT: Preempt = Preempt {
    delay: 0,
    minimum_duration: 0,
    minimum_green: 0,
    minimum_walk: 0,
    enter_pedestrian_clear: 0,
    track_green: 0,
    dwell_green: 0,
    maximum_presence: 0,
    track_phases: NO_LIST,
    dwell_phases: NO_LIST,
    dwell_pedestrians: NO_LIST,
    exit_phases: NO_LIST,
};

/// The row of a preempt. 0 is read as 1; past the last, 8, there is none: no list has a phase, and each time is 0.
pub fn row_of(t: &Tables, number: u8) -> &Preempt
    ensures row { SameStages result.now (preempt_of t.now number) }
{
    if number == 0 {
        t.preempt(1)
    } else if number <= 8 {
        t.preempt(number)
    } else {
        no_row(t, number)
    }
}

/// What is read past the last preempt.
fn no_row(t: &Tables, number: u8) -> &Preempt
    requires past { 8 < number }
    ensures row { SameStages result.now (preempt_of t.now number) }
{
    has_eight_preempts(*t);
    &NO_PREEMPT
}

/// Any tables have eight preempts.
fn has_eight_preempts(t: Tables)
    ensures eight { length t.preempts ≡ 8 }
{}

/// Seconds in ticks.
pub fn ticks(seconds: u16) -> u32
    ensures { result ≡ 10 * seconds }
{
    u32::from(seconds) * 10
}

/// The preempt whose stage (entry, track or dwell) the mode is, or 0.
pub fn stage_of(mode: Mode) -> u8
    ensures { result ≡ stage_of mode }
{
    match mode {
        Mode::Entry(number) => number,
        Mode::Track(number) => number,
        Mode::Dwell(number) => number,
        _ => 0,
    }
}

/// The phases among the octets of a list.
pub fn phases_in(list: &PhaseList) -> PhaseSet
    ensures has { Has result (is_in (listed list.now)) }
{
    let mut set = PhaseSet::empty();
    for octet in list.phases() {
        if 0 < *octet && *octet <= 16 {
            set = set.with(*octet);
        }
    }
    set
}

/// The list of the phases that a preempt serves first: those of its track, or where it has none those in which it dwells.
pub fn entry_list(row: &Preempt) -> &PhaseList
    ensures { listed result.now ≡ or_else (listed row.now.track_phases) (listed row.now.dwell_phases) }
{
    if row.track_phases.phases().is_empty() {
        &row.dwell_phases
    } else {
        &row.track_phases
    }
}

/// The phases that a mode brings to green, as the tables in force list them; `coordinated` are those of the pattern that is
/// sought. None on the way to flash, and where the rings have no goal.
pub fn goal(t: &Tables, mode: Mode, coordinated: PhaseSet) -> PhaseSet
    ensures has { AreSought coordinated t.now mode → Has result (is_in (goal_in t.now mode)) }
    ensures phases { AreSought coordinated t.now mode → phases_of result ≡ goal_in t.now mode }
{
    match mode {
        Mode::Seek(_) => coordinated,
        Mode::Entry(number) => phases_in(entry_list(row_of(t, number))),
        Mode::Track(number) => phases_in(entry_list(row_of(t, number))),
        Mode::Dwell(number) => phases_in(&row_of(t, number).dwell_phases),
        Mode::Exit(number) => phases_in(&row_of(t, number).exit_phases),
        _ => PhaseSet::empty(),
    }
}

/// The ticks to which walk and pedestrian clearance of a phase outside the goal are cut short in this mode; none where
/// no preempt is served.
pub fn lesser(t: &Tables, mode: Mode) -> Option<(u32, u32)>
    ensures { result ≡ ticks_of (lesser_times t.now (stage_of mode)) }
{
    let number = stage_of(mode);
    if number == 0 {
        None
    } else {
        let row = row_of(t, number);
        let walk = ticks(u16::from(row.minimum_walk));
        Some((walk, ticks(u16::from(row.enter_pedestrian_clear))))
    }
}

/// What is left in this mode of a minimum green of N ticks, of a phase outside the goal; all of it if no preempt is
/// served.
pub fn lesser_green(t: &Tables, mode: Mode, time: u32) -> u32
    ensures { result ≡ lesser_green t.now (stage_of mode) time }
{
    let number = stage_of(mode);
    if number == 0 {
        time
    } else {
        let green = ticks(u16::from(row_of(t, number).minimum_green));
        green.min(time).max(1)
    }
}
