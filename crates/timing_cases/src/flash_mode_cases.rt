//! Modes and turns case by case, from the rules of start-up, flash and command.

use flash_mode::{RingTurn, commanded, mode, reached, ring_turn_of, running};
use sig_tables::Tables;
use sig_types::{Colour, Frame, Mode, Ped, PhaseSet};

/// A frame of this mode, all red, under the tables of this version.
fn shown(mode: Mode, version: u32) -> Frame {
    Frame {
        veh: [Colour::Red; 16],
        ped: [Ped::Dont; 16],
        on: [0; 2],
        mode,
        counter: 0,
        target: 0,
        version,
    }
}

/// What start-up and flash give after a frame of this mode.
fn own(last: Mode, start_run: u32, command: u8) -> Option<Mode> {
    mode(&shown(last, 0), start_run, command)
}

#[test]
fn start_lasts_sixty_frames_and_flash_as_long_as_it_is_commanded(rt: HostRuntime) {
    assert!(rt; own(Mode::Start, 1, 0) == Some(Mode::Start));
    assert!(rt; own(Mode::Start, 59, 255) == Some(Mode::Start));
    assert!(rt; own(Mode::Start, 60, 255) == Some(Mode::Flash));
    assert!(rt; own(Mode::Start, 60, 1).is_none());
    assert!(rt; own(Mode::Flash, 60, 255) == Some(Mode::Flash));
    assert!(rt; own(Mode::Flash, 60, 254) == Some(Mode::Start));
    assert!(rt; own(Mode::Coord(1), 60, 255).is_none());
    assert!(rt; own(Mode::Dwell(1), 60, 255).is_none());
}

#[test]
fn a_defined_pattern_is_sought_until_it_is_in_step(rt: HostRuntime) {
    let tables = Tables::std8();
    assert!(rt; commanded(&tables, 0, 1, &shown(Mode::Free, 0)) == Mode::Seek(1));
    assert!(rt; commanded(&tables, 0, 1, &shown(Mode::Coord(1), 0)) == Mode::Coord(1));
    assert!(rt; commanded(&tables, 1, 1, &shown(Mode::Coord(1), 0)) == Mode::Seek(1));
    assert!(rt; commanded(&tables, 0, 1, &shown(Mode::Coord(2), 0)) == Mode::Seek(1));
    assert!(rt; commanded(&tables, 0, 0, &shown(Mode::Coord(1), 0)) == Mode::Free);
    assert!(rt; commanded(&tables, 0, 49, &shown(Mode::Free, 0)) == Mode::Free);
    assert!(rt; running(&tables, 0, 255, &shown(Mode::Coord(1), 0)) == Mode::Ending);
    assert!(rt; running(&tables, 0, 1, &shown(Mode::Free, 0)) == Mode::Seek(1));
}

#[test]
fn a_pattern_begins_at_both_greens_and_flash_at_all_red(rt: HostRuntime) {
    let mut veh = [Colour::Red; 16];
    assert!(rt; reached(Mode::Ending, [0; 2], &veh) == Mode::Flash);
    veh[1] = Colour::Green;
    veh[5] = Colour::Clear;
    assert!(rt; reached(Mode::Ending, [0; 2], &veh) == Mode::Ending);
    assert!(rt; reached(Mode::Seek(1), [2, 6], &veh) == Mode::Seek(1));
    veh[5] = Colour::Green;
    assert!(rt; reached(Mode::Seek(1), [2, 6], &veh) == Mode::Coord(1));
    assert!(rt; reached(Mode::Entry(1), [2, 6], &veh) == Mode::Entry(1));
}

#[test]
fn start_up_comes_before_a_goal_and_not_before_flash(rt: HostRuntime) {
    let up = PhaseSet::empty().with(2);
    let goal = PhaseSet::empty().with(4);
    let start = shown(Mode::Start, 0);
    let none = PhaseSet::empty();
    assert!(rt; ring_turn_of(&start, Mode::Start, up, none) == RingTurn::Rest);
    assert!(rt; ring_turn_of(&start, Mode::Flash, up, none) == RingTurn::Rest);
    assert!(rt; ring_turn_of(&start, Mode::Seek(1), up, goal) == RingTurn::StartUp);
    assert!(rt; ring_turn_of(&start, Mode::Seek(1), none, goal) == RingTurn::Goal(goal));
    assert!(rt;
        ring_turn_of(&shown(Mode::Free, 0), Mode::Ending, up, none) == RingTurn::Goal(none)
    );
    assert!(rt; ring_turn_of(&shown(Mode::Free, 0), Mode::Coord(1), up, none) == RingTurn::Rings);
}
