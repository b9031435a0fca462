//! What a frame shows of a goal: a set of phases, listed by the tables in force, that must be green and nothing else
//! on.

ghost use Rattle.std.specs.Prelude.{◌≡◌, ◌<◌, ◌≤◌, ◌||◌, ◌&&◌, ◌==◌, not, ℕ, get_or, length};
ghost use Rattle.sig_types.specs.Phases.{is_in, every};
ghost use Rattle.sig_types.specs.PhaseSet.{has};
ghost use Rattle.sig_tables.specs.Tables.{listed};
ghost use Rattle.sig_tables.specs.Calls.{is_green};
ghost use Rattle.sig_tables.specs.Preempts.{has_reached};
ghost use Rattle.preempt_stages.specs.Dwelling.{is_dwell, is_off};

use crate::goals::phases_in;
use sig_tables::PhaseList;
use sig_types::{Colour, Frame, Mode, PhaseSet, showing};

/// The phases of a list that are to be green. The octet 0 is read as phase 1, and an octet past 16 asks for nothing.
pub fn due_green(list: &PhaseList) -> PhaseSet
    ensures { (p : ℕ) → 0 < p → p ≤ 16 → has result p ≡ (is_in (listed list.now) p || (p == 1 && is_in (listed list.now) 0)) }
{
    phases_in(list).with_if(1, list.names(0))
}

/// Whether a frame has reached a goal: its phases are all green, and no other is on.
pub fn has_reached(shown: &Frame, goal: &PhaseList) -> bool
    ensures { result ≡ has_reached shown.now (listed goal.now) }
{
    are_green(shown, goal) && is_of(goal, shown.on[0]) && is_of(goal, shown.on[1])
}

/// Whether all phases of a goal are green.
fn are_green(shown: &Frame, goal: &PhaseList) -> bool
    ensures { result ≡ every (is_green shown.now) (listed goal.now) }
{
    shows_sixteen(shown.veh);
    let green = showing(&shown.veh, Colour::Green);
    due_green(goal).minus(green).is_empty()
}

/// Any frame shows sixteen phases.
pub fn shows_sixteen(veh: [Colour; 16])
    ensures sixteen { length veh ≡ 16 }
{}

/// Whether what a ring has on is nothing, or of the goal.
fn is_of(goal: &PhaseList, on: u8) -> bool
    ensures { result ≡ (on == 0 || is_in (listed goal.now) on) }
{
    on == 0 || goal.names(on)
}

/// Whether a mode is the dwell of some preempt.
pub fn is_dwell(mode: Mode) -> bool
    ensures { result ≡ is_dwell mode }
{
    match mode {
        Mode::Dwell(_) => true,
        _ => false,
    }
}

/// The phases that are green in a frame of dwell; none in other frames.
pub fn dwelling_green(shown: &Frame) -> PhaseSet
    ensures { (p : ℕ) → 0 < p → p ≤ 16 → has result p ≡ (is_dwell shown.now.mode && is_green shown.now p) }
{
    match shown.mode {
        Mode::Dwell(_) => showing(&shown.veh, Colour::Green),
        _ => PhaseSet::empty(),
    }
}

/// The phases that are on in no ring in a frame of dwell; none in other frames.
pub fn dwelling_off(shown: &Frame) -> PhaseSet
    ensures { (p : ℕ) → 0 < p → p ≤ 16 → has result p ≡ (is_dwell shown.now.mode && is_off shown.now p) }
{
    match shown.mode {
        Mode::Dwell(_) => off_of(shown.on),
        _ => PhaseSet::empty(),
    }
}

/// The phases that are on in neither ring.
fn off_of(on: [u8; 2]) -> PhaseSet
    ensures { (p : ℕ) → 0 < p → p ≤ 16 → has result p ≡ (not (get_or on 0 0 == p) && not (get_or on 1 0 == p)) }
{
    let mut off = PhaseSet::empty();
    for phase in 1..17u8 {
        off = off.with_if(phase, on[0] != phase && on[1] != phase);
    }
    off
}
