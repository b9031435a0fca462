//! The stages of preemption tick by tick, from its rules, worked by hand.

ghost use Rattle.std.specs.Prelude.{◌≡◌, ◌<◌, ◌≤◌, ◌-◌};
ghost use Rattle.preempt_run.specs.PreemptsKeep.{step_count};

use arrayvec::ArrayVec;
use preempt_run::Preempts;
use preempt_stages::{goal, lesser, lesser_green};
use sig_tables::{Cell, CellValue, Tables};
use sig_types::{Colour, Frame, Mode, Ped, PhaseSet};

/// What happens at a cabinet from a tick on: an input of a preempt, other phases that are green and on, in each ring one
/// or 0, or a download of other phases in which preempt 1 dwells.
#[derive(Drop)]
enum Event {
    On(u8),
    Off(u8),
    Green([u8; 2]),
    Dwell([u8; 2]),
}

/// A frame of this mode in which these phases are green and on, in each ring one or 0.
fn street(on: [u8; 2], mode: Mode) -> Frame {
    let mut veh = [Colour::Red; 16];
    for phase in on {
        if 0 < phase && phase <= 16 {
            veh[phase as usize - 1] = Colour::Green;
        }
    }
    Frame {
        veh,
        ped: [Ped::Dont; 16],
        on,
        mode,
        counter: 0,
        target: 0,
        version: 0,
    }
}

/// Puts a number into a column of preempt 1.
fn put(tables: &mut Tables, column: u8, number: u32)
    requires above { 4 ≤ column }
    requires within { column ≤ 15 }
{
    let cell = Cell::Preempt { preempt: 1, column };
    let _ = tables.put(cell, CellValue::Number(number));
}

/// Puts phases into a list of a preempt, 1 to 8: column 12 its track, 13 its dwell, 15 its exit.
fn put_list(tables: &mut Tables, preempt: u8, column: u8, phases: [u8; 2])
    requires least { 0 < preempt }
    requires most { preempt ≤ 8 }
    requires above { 4 ≤ column }
    requires within { column ≤ 15 }
{
    let mut octets = ArrayVec::new();
    let _ = octets.try_extend_from_slice(&phases);
    let cell = Cell::Preempt { preempt, column };
    let _ = tables.put(cell, CellValue::Octets(octets));
}

/// What happens before a tick.
fn happens(preempts: &mut Preempts, tables: &mut Tables, on: &mut [u8; 2], event: &Event)
    ensures steps { step_count preempts.new ≡ step_count preempts.old }
{
    match *event {
        Event::On(number) => preempts.input(number.max(1).min(8), true),
        Event::Off(number) => preempts.input(number.max(1).min(8), false),
        Event::Green(phases) => *on = phases,
        Event::Dwell(phases) => put_list(tables, 1, 13, phases),
    }
}

/// The mode that preemption requires at a tick, each event listed with the tick that it precedes; free operation if it
/// requires none.
fn mode_at(tick: u32, tables: &Tables, events: &[(u32, Event)]) -> Mode {
    let mut tables = tables.copy();
    let mut preempts = Preempts::new();
    let mut on = [0, 0];
    let mut shown = street(on, Mode::Start);
    for before in 0..tick {
        for event in events {
            if event.0 == before + 1 {
                happens(&mut preempts, &mut tables, &mut on, &event.1);
            }
        }
        let stage = preempts.stage(&tables, &shown);
        shown = street(on, stage.unwrap_or(Mode::Free));
        preempts.step(&shown);
    }
    shown.mode
}

/// The standard tables with a preempt 1 that dwells in phases 2 and 6.
pub fn railroad() -> Tables {
    let mut tables = Tables::std8();
    put(&mut tables, 5, 10);
    put(&mut tables, 6, 5);
    put(&mut tables, 7, 4);
    put(&mut tables, 8, 8);
    put(&mut tables, 10, 5);
    put_list(&mut tables, 1, 13, [2, 6]);
    tables
}

#[test]
fn a_preempt_is_entered_dwells_and_is_left(rt: HostRuntime) {
    use Event::{Green, Off, On};
    let tables = railroad();
    let events = [
        (215, Green([4, 8])),
        (285, On(1)),
        (400, Off(1)),
        (420, Green([2, 6])),
    ];
    for (tick, mode) in [
        (284, Mode::Free),
        (285, Mode::Entry(1)),
        (420, Mode::Entry(1)),
        (421, Mode::Dwell(1)),
        (470, Mode::Dwell(1)),
        (471, Mode::Free),
    ] {
        assert!(rt; mode_at(tick, &tables, &events) == mode);
    }
    let later = [(215, Green([4, 8])), (315, On(1))];
    assert!(rt; mode_at(314, &tables, &later) == Mode::Free);
    assert!(rt; mode_at(315, &tables, &later) == Mode::Entry(1));
    // a walk is cut to 4 seconds, its clearance to 8, a green of phase 4 to 5
    assert!(rt; lesser(&tables, Mode::Entry(1)) == Some((40, 80)));
    assert!(rt; lesser(&tables, Mode::Exit(1)).is_none());
    assert!(rt; lesser_green(&tables, Mode::Dwell(1), 100) == 50);
    assert!(rt; lesser_green(&tables, Mode::Free, 100) == 100);
    let both = PhaseSet::empty().with(2).with(6);
    assert!(rt; goal(&tables, Mode::Track(1), PhaseSet::empty()) == both);
    assert!(rt; goal(&tables, Mode::Seek(1), both) == both);
}

#[test]
fn an_input_calls_past_its_delay(rt: HostRuntime) {
    use Event::{Off, On};
    // a delay of 2 seconds
    let mut tables = railroad();
    put(&mut tables, 4, 2);
    let events = [(10, On(1))];
    assert!(rt; mode_at(29, &tables, &events) == Mode::Free);
    assert!(rt; mode_at(30, &tables, &events) == Mode::Entry(1));
    // one tick off begins the delay again; off and on between two ticks does not
    let broken = [(10, On(1)), (29, Off(1)), (30, On(1))];
    assert!(rt; mode_at(49, &tables, &broken) == Mode::Free);
    assert!(rt; mode_at(50, &tables, &broken) == Mode::Entry(1));
    let whole = [(10, On(1)), (29, Off(1)), (29, On(1))];
    assert!(rt; mode_at(30, &tables, &whole) == Mode::Entry(1));
}

#[test]
fn a_track_is_cleared_before_the_dwell_and_the_exit_served_after_it(rt: HostRuntime) {
    use Event::{Green, On};
    // 3 seconds of track clearance in phases 1 and 5, at least 1 of dwell, a presence of 9; left by phases 4 and 8
    let mut tables = railroad();
    put(&mut tables, 5, 0);
    put(&mut tables, 9, 3);
    put(&mut tables, 10, 1);
    put(&mut tables, 11, 9);
    put_list(&mut tables, 1, 12, [1, 5]);
    put_list(&mut tables, 1, 15, [4, 8]);
    let events = [
        (10, On(1)),
        (20, Green([1, 5])),
        (60, Green([2, 6])),
        (110, Green([4, 8])),
    ];
    for (tick, mode) in [
        (20, Mode::Entry(1)),
        (21, Mode::Track(1)),
        (50, Mode::Track(1)),
        (51, Mode::Dwell(1)),
        (99, Mode::Dwell(1)),
        (100, Mode::Exit(1)),
        (110, Mode::Exit(1)),
        (111, Mode::Free),
    ] {
        assert!(rt; mode_at(tick, &tables, &events) == mode);
    }
}

#[test]
fn a_dwell_counts_by_the_phases_in_force(rt: HostRuntime) {
    use Event::{Dwell, Green, Off, On};
    // other phases to dwell in are put in force, which have never been green, and then the first ones again
    let tables = railroad();
    let events = [
        (10, On(1)),
        (20, Green([2, 6])),
        (80, Dwell([4, 8])),
        (150, Off(1)),
        (170, Dwell([2, 6])),
    ];
    assert!(rt; mode_at(169, &tables, &events) == Mode::Dwell(1));
    assert!(rt; mode_at(170, &tables, &events) == Mode::Free);
}

#[test]
fn the_least_preempt_that_is_called_is_served(rt: HostRuntime) {
    use Event::On;
    let mut tables = railroad();
    put_list(&mut tables, 3, 13, [4, 8]);
    let events = [(10, On(3)), (20, On(1))];
    assert!(rt; mode_at(19, &tables, &events) == Mode::Entry(3));
    assert!(rt; mode_at(20, &tables, &events) == Mode::Entry(1));
    assert!(rt; mode_at(30, &tables, &[(10, On(1)), (20, On(3))]) == Mode::Entry(1));
    // preempt 2 has no phases to dwell in
    assert!(rt; mode_at(30, &tables, &[(10, On(2))]) == Mode::Free);
}
