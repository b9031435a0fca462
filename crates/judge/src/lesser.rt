//! What a preempt leaves of the times of the phases that it does not serve.

ghost use Rattle.std.specs.Prelude.{◌≡◌, ◌<◌, ◌≤◌, ℕ, true};
ghost use Rattle.sig_types.specs.Phases.{is_phase, is_in, or_else};
ghost use Rattle.sig_tables.specs.Tables.{listed};
ghost use Rattle.sig_tables.specs.Layout.{Has};
ghost use Rattle.safety_laws.specs.Safe.{makes_way_for};

use preempt_stages::{phases_in, row_of};
use sig_tables::{Preempt, Tables};
use sig_types::{Mode, PhaseSet};

/// What a preempt leaves of the times of a phase that makes way for it, in seconds.
#[derive(Clone, Copy)]
pub struct LesserTimes {
    pub green: u8,
    pub walk: u8,
    pub clearance: u8,
}

/// The preempt of a mode: the phases that it serves, and what it leaves to the others.
#[derive(Clone, Copy)]
pub struct Way {
    served: PhaseSet,
    times: LesserTimes,
}

/// The phases that a preempt serves first: those of its track, or those in which it dwells if it has no track.
fn first_phases(row: &Preempt) -> PhaseSet
    ensures { Has result (is_in (or_else (listed row.now.track_phases) (listed row.now.dwell_phases))) }
{
    if row.track_phases.phases().is_empty() {
        phases_in(&row.dwell_phases)
    } else {
        phases_in(&row.track_phases)
    }
}

impl Way {
    ghost use Rattle.judge.specs.Lesser.{left_by, lesser_of};

    /// The preempt that is served in a mode, if one is.
    pub fn of(tables: &Tables, mode: Mode) -> Option<Way>
        ensures { (p : ℕ) → is_phase p ≡ true → left_by result p ≡ lesser_of (makes_way_for tables.now mode p) }
    {
        match mode {
            Mode::Entry(number) => {
                let row = row_of(tables, number);
                Some(Way::by(row, first_phases(row)))
            }
            Mode::Track(number) => {
                let row = row_of(tables, number);
                Some(Way::by(row, first_phases(row)))
            }
            Mode::Dwell(number) => {
                let row = row_of(tables, number);
                Some(Way::by(row, phases_in(&row.dwell_phases)))
            }
            _ => None,
        }
    }

    /// The way of a preempt that serves these phases.
    fn by(row: &Preempt, served: PhaseSet) -> Way
        ensures served { result.served ≡ served }
        ensures green { result.times.green ≡ row.now.minimum_green }
        ensures walk { result.times.walk ≡ row.now.minimum_walk }
        ensures clearance { result.times.clearance ≡ row.now.enter_pedestrian_clear }
    {
        Way {
            served,
            times: LesserTimes {
                green: row.minimum_green,
                walk: row.minimum_walk,
                clearance: row.enter_pedestrian_clear,
            },
        }
    }

    /// What is left to a phase, 1 to 16; none if all of its time must last.
    pub fn left(way: Option<Way>, phase: u8) -> Option<LesserTimes>
        requires above { 0 < phase }
        requires within { phase ≤ 16 }
        ensures { result ≡ left_by way phase }
    {
        match way {
            None => None,
            Some(way) => {
                if way.served.has(phase) {
                    None
                } else {
                    Some(way.times)
                }
            }
        }
    }
}
