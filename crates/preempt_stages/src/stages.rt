//! What the row of a preempt, the last frame and runs of ticks say of its stages, one question each.

ghost use Rattle.std.specs.Prelude.{◌≡◌, ◌+◌, ◌*◌, ◌&&◌, ◌||◌, ◌==◌, nat_le, nat_lt, if◌then◌else◌, None};
ghost use Rattle.sig_types.specs.declared.frame.Mode.TheVariants.{Entry, Track, Dwell, Exit};
ghost use Rattle.sig_types.specs.Phases.{has_some, or_else};
ghost use Rattle.sig_tables.specs.Modes.{same_mode, stage_of};
ghost use Rattle.sig_tables.specs.Tables.{listed};
ghost use Rattle.sig_tables.specs.Preempts.{has_reached, breaks_in, exit_from};

use crate::goals::{entry_list, stage_of};
use crate::reached::has_reached;
use sig_tables::{PhaseList, Preempt};
use sig_types::{Frame, Mode};

/// Whether a preempt calls whose input has been on for N ticks in a row before this one, and is on at it: the preempt
/// is configured, the delay has passed, and the maximum presence has not.
pub fn calls(row: &Preempt, ticks: u32) -> bool
    ensures { result ≡ (has_some (listed row.now.dwell_phases) && nat_le (10 * row.now.delay) ticks
        && (row.now.maximum_presence == 0 || nat_lt ticks (10 * (row.now.delay + row.now.maximum_presence)))) }
{
    let delay = u32::from(row.delay) * 10;
    let presence = u32::from(row.maximum_presence) * 10;
    if row.dwell_phases.phases().is_empty() {
        false
    } else {
        ticks >= delay && (presence == 0 || ticks < delay + presence)
    }
}

/// Whether preempt `called`, or 0 for none, breaks into a frame of this mode: a lower-numbered one into a stage, any
/// one into a mode that isn't a stage.
pub fn breaks_in(called: u8, mode: Mode) -> bool
    ensures { result ≡ breaks_in called mode }
{
    let served = stage_of(mode);
    called >= 1 && (served == 0 || called < served)
}

/// Whether two modes are the same, with the same pattern or preempt.
pub fn same_mode(a: Mode, b: Mode) -> bool
    ensures { result ≡ same_mode a b }
{
    a == b
}

/// Whether two modes are stages of one preempt, or both of none.
pub fn same_stage(a: Mode, b: Mode) -> bool
    ensures { result ≡ (stage_of a == stage_of b) }
{
    stage_of(a) == stage_of(b)
}

/// Whether a dwell continues whatever its phases have shown: its preempt is called, or has been served for less than
/// its least time.
pub fn holds_dwell(called: bool, served: u32, least: u32) -> bool
    ensures { result ≡ (called || nat_lt served least) }
{
    called || served < least
}

/// When a run began that continues, or begins now.
pub fn began(since: u32, goes_on: bool, now: u32) -> u32
    ensures { result ≡ (if goes_on then since else now) }
{
    if goes_on { since } else { now }
}

/// What follows a frame of a preempt's entry by itself: entry until its goal is reached, and then the track or the dwell.
pub fn after_entry(row: &Preempt, number: u8, shown: &Frame) -> Mode
    ensures { result ≡ (if has_reached shown.now (or_else (listed row.now.track_phases) (listed row.now.dwell_phases))
        then (if has_some (listed row.now.track_phases) then Track number else Dwell number) else Entry number) }
{
    if !has_reached(shown, entry_list(row)) {
        Mode::Entry(number)
    } else if row.track_phases.phases().is_empty() {
        Mode::Dwell(number)
    } else {
        Mode::Track(number)
    }
}

/// The exit from a preempt, where it has phases to leave by.
pub fn exit_from(exits: &PhaseList, number: u8) -> Option<Mode>
    ensures { result ≡ exit_from (listed exits.now) number }
{
    if exits.phases().is_empty() {
        None
    } else {
        Some(Mode::Exit(number))
    }
}

/// What follows a frame of a preempt's exit by itself: the exit until its goal is reached, or has no phase any more.
pub fn after_exit(exits: &PhaseList, number: u8, shown: &Frame) -> Option<Mode>
    ensures { result ≡ (if has_reached shown.now (listed exits.now) then None else exit_from (listed exits.now) number) }
{
    if has_reached(shown, exits) {
        None
    } else {
        exit_from(exits, number)
    }
}
