//! What the rings do in a mode.

ghost use Rattle.std.specs.Prelude.{◌≡◌, List};
ghost use Rattle.sig_types.specs.Phases.{is_in};
ghost use Rattle.sig_tables.specs.declared.tables.Tables.{Tables};
ghost use Rattle.sig_tables.specs.Tables.{starts_up};
ghost use Rattle.sig_tables.specs.Past.{Moment};
ghost use Rattle.sig_tables.specs.Looking.{last_frame};
ghost use Rattle.sig_tables.specs.Goals.{goal_in};
ghost use Rattle.sig_tables.specs.TickState.{ring_turn_in, ring_turn_from_start, ring_turn_of};
ghost use Rattle.sig_tables.specs.Layout.{Has};
ghost use Rattle.flash_mode.specs.RingTurns.{ring_turn_meant};

use sig_types::{Frame, Mode, PhaseSet};

/// Nothing, as in Start and Flash; the start-up phases begin; both rings follow the rules of actuated control; or they
/// bring these phases to Green.
#[derive(Clone, Copy, PartialEq, Eq)]
pub enum RingTurn {
    Rest,
    StartUp,
    Rings,
    Goal(PhaseSet),
}

/// What the rings do in a mode, of which these phases are the goal.
fn ring_turn_in(mode: Mode, goal: PhaseSet) -> RingTurn
    ensures { (t : Tables) → Has goal (is_in (goal_in t mode)) → ring_turn_meant result ≡ ring_turn_in t mode }
{
    match mode {
        Mode::Start | Mode::Flash => RingTurn::Rest,
        Mode::Free | Mode::Coord(_) => RingTurn::Rings,
        _ => RingTurn::Goal(goal),
    }
}

/// The same at the tick after Start, at which these phases start up: they begin, where there are any.
fn ring_turn_from_start(mode: Mode, starting: PhaseSet, goal: PhaseSet) -> RingTurn
    ensures { (t : Tables) → Has starting (starts_up t) → Has goal (is_in (goal_in t mode))
        → ring_turn_meant result ≡ ring_turn_from_start t mode }
{
    match mode {
        Mode::Start | Mode::Flash => RingTurn::Rest,
        _ => {
            if starting.is_empty() {
                ring_turn_in(mode, goal)
            } else {
                RingTurn::StartUp
            }
        }
    }
}

/// What the rings do at a tick of this mode, after this frame. The phases that start up begin at the tick after Start. The
/// goal is that of the mode: none where the mode has none.
pub fn ring_turn_of(shown: &Frame, mode: Mode, starting: PhaseSet, goal: PhaseSet) -> RingTurn
    ensures { (t : Tables) (past : List Moment) → last_frame past ≡ shown.now → Has starting (starts_up t)
        → Has goal (is_in (goal_in t mode)) → ring_turn_meant result ≡ ring_turn_of t past mode }
{
    if shown.mode == Mode::Start {
        ring_turn_from_start(mode, starting, goal)
    } else {
        ring_turn_in(mode, goal)
    }
}
