//! What one frame shows and what its tick saw, as far as a look back asks for it; and what is
//! asked of it.

ghost use Rattle.std.specs.Prelude.{◌≡◌, ◌↔◌, ◌||◌, ◌==◌, IsTrue};
ghost use Rattle.sig_types.specs.Phases.{is_in, every};
ghost use Rattle.sig_tables.specs.Tables.{listed};
ghost use Rattle.sig_tables.specs.Modes.{same_mode, stage_of};

use crate::shown::{Shown, same_set};
use sig_tables::PhaseList;
use sig_types::{Colour, Mode, Ped, PhaseSet};

/// What a frame shows of all phases, what is on in its rings and its mode; and of the phases that were green before its tick
/// those that were not active at it, and those to which an incompatible phase had demand.
#[derive(Clone, Copy)]
pub struct Sample {
    pub shown: Shown,
    /// The phase that is on in the first ring, and in the second; 0 where there is none.
    pub first: u8,
    pub second: u8,
    pub mode: Mode,
    pub quiet: PhaseSet,
    pub opposed: PhaseSet,
}

/// What may have been so in each of the last frames. Phases are 1 to 16.
#[derive(Clone, Copy)]
pub enum Look {
    /// The phase shows this colour.
    Shows { phase: u8, colour: Colour },
    /// The phase shows this signal.
    Signals { phase: u8, signal: Ped },
    /// The phase was green before the tick, and not active at it.
    Quiet { phase: u8 },
    /// The phase was green before the tick, and an incompatible phase had demand.
    Opposed { phase: u8 },
    /// The frame is in this mode.
    IsIn { mode: Mode },
    /// The frame is in a stage of this preempt; 0 for a frame in none.
    Serves { number: u8 },
    /// The preempt dwells, the listed phases are green, and nothing else is on.
    Dwells { number: u8, goal: PhaseList },
}

impl Sample {
    ghost use Rattle.look_back.specs.Look.{LooksAtPhase, IsAsSeen, is_told};

    /// Whether it is so in this frame.
    pub fn tells(&self, look: Look) -> bool
        requires { LooksAtPhase look }
        ensures { result ≡ is_told look self.now }
    {
        match look {
            Look::Shows { phase, colour } => self.shown.in_colour(colour).has(phase),
            Look::Signals { phase, signal } => self.shown.in_signal(signal).has(phase),
            Look::Quiet { phase } => self.quiet.has(phase),
            Look::Opposed { phase } => self.opposed.has(phase),
            Look::IsIn { mode } => same_mode(self.mode, mode),
            Look::Serves { number } => stage_of(self.mode) == number,
            Look::Dwells { number, goal } => self.dwells(number, &goal),
        }
    }

    /// Whether the preempt dwells, these phases are green, and nothing else is on.
    fn dwells(&self, number: u8, goal: &PhaseList) -> bool
        ensures { result ≡ is_told (Look.Dwells number goal.now) self.now }
    {
        same_mode(self.mode, Mode::Dwell(number))
            && (are_due(self.shown.green, goal)
                && is_of(goal, self.first)
                && is_of(goal, self.second))
    }

    /// Whether the same is kept of two frames.
    pub fn is_same(&self, other: &Sample) -> bool
        ensures { IsTrue result ↔ (self.now ≡ other.now) }
    {
        self.shown.is_same(&other.shown) && self.is_as_seen(other)
    }

    /// Whether of two frames the same is kept in addition to what they show of the phases.
    fn is_as_seen(&self, other: &Sample) -> bool
        ensures { IsTrue result ↔ IsAsSeen self.now other.now }
    {
        self.first == other.first
            && self.second == other.second
            && same_mode(self.mode, other.mode)
            && same_set(self.quiet, other.quiet)
            && same_set(self.opposed, other.opposed)
    }
}

ghost use Rattle.look_back.specs.Look.{is_due};

/// Whether the octet of a list is a phase of the set. The octet 0 is read as phase 1, and an octet past 16 asks for nothing.
fn is_due(set: PhaseSet, octet: u8) -> bool
    ensures { result ≡ is_due set octet }
{
    octet > 16 || set.has(octet.max(1))
}

/// Whether all phases of a list are in the set.
fn are_due(set: PhaseSet, goal: &PhaseList) -> bool
    ensures { result ≡ every (is_due set) (listed goal.now) }
{
    let octets = goal.phases();
    for octet in octets {
        if !is_due(set, *octet) {
            return false;
        }
    }
    true
}

/// Whether what a ring has on is nothing, or of the list.
fn is_of(goal: &PhaseList, on: u8) -> bool
    ensures { result ≡ (on == 0 || is_in (listed goal.now) on) }
{
    on == 0 || goal.names(on)
}

/// Whether two modes are the same, with the same pattern or preempt.
pub fn same_mode(a: Mode, b: Mode) -> bool
    ensures { result ≡ same_mode a b }
{
    a == b
}

/// The preempt whose stage (entry, track or dwell) the mode is, or 0.
pub fn stage_of(mode: Mode) -> u8
    ensures { result ≡ stage_of mode }
{
    match mode {
        Mode::Entry(number) => number,
        Mode::Track(number) => number,
        Mode::Dwell(number) => number,
        _ => 0,
    }
}
