//! A frame history that receives the frames of a cabinet, one by one and many at once; expected values are
//! hand-computed.

ghost use Rattle.std.specs.Prelude.{◌<◌, ◌≤◌};

use crate::preempt_run_cases::railroad;
use look_back::{FrameHistory, Seen};
use sig_tables::Tables;
use sig_types::{Colour, Frame, Mode, Ped, PhaseSet};
use std::test::Fail;

/// What is seen of a frame of this mode in which only phases 2 and 6 show a colour and are on; nothing was active or
/// opposed.
fn seen(colour: Colour, mode: Mode, counter: u32) -> Seen {
    let mut veh = [Colour::Red; 16];
    veh[1] = colour;
    veh[5] = colour;
    Seen {
        frame: Frame {
            veh,
            ped: [Ped::Dont; 16],
            on: [2, 6],
            mode,
            counter,
            target: 0,
            version: 0,
        },
        active: PhaseSet::empty(),
        opposed: PhaseSet::empty(),
    }
}

/// One frame, and that many more that continue with it, at whose ticks no preempt input was on.
fn push(frame_history: &mut FrameHistory, t: &Tables, seen: &Seen, more: u32) {
    frame_history.push(seen, t, PhaseSet::empty());
    frame_history.push_again(seen.active, seen.opposed, more);
}

/// Only one phase.
fn alone(phase: u8) -> PhaseSet
    requires above { 0 < phase }
    requires within { phase ≤ 16 }
{
    PhaseSet::empty().with(phase)
}

#[test]
fn a_green_clears_after_its_least_and_a_red_reverts(rt: HostRuntime) -> Result<(), Fail> {
    let t = railroad();
    let nothing = PhaseSet::empty();
    let green = seen(Colour::Green, Mode::Free, 0);
    let mut frame_history = FrameHistory::open(rt.alloc())?;
    push(
        &mut frame_history,
        &t,
        &seen(Colour::Red, Mode::Start, 0),
        18,
    );
    assert!(rt; frame_history.start_run() == 19);
    assert!(rt; !frame_history.window().has_reverted(&t, 2));
    push(
        &mut frame_history,
        &t,
        &seen(Colour::Red, Mode::Start, 0),
        0,
    );
    assert!(rt; frame_history.window().has_reverted(&t, 2));
    assert!(rt; frame_history.window().has_reverted(&t, 6));
    push(&mut frame_history, &t, &green, 48);
    assert!(rt; frame_history.start_run() == 0);
    assert!(rt; !frame_history.window().has_reverted(&t, 2));
    assert!(rt; !frame_history.is_cleared(&t, Mode::Entry(1), 2, Ped::Dont));
    push(&mut frame_history, &t, &green, 0);
    assert!(rt; frame_history.is_cleared(&t, Mode::Entry(1), 2, Ped::Dont));
    assert!(rt; frame_history.is_cleared(&t, Mode::Entry(1), 6, Ped::Dont));
    frame_history.push_again(nothing, nothing, 49);
    assert!(rt; !frame_history.is_cleared(&t, Mode::Free, 2, Ped::Dont));
    frame_history.push_again(nothing, nothing, 1);
    assert!(rt; frame_history.is_cleared(&t, Mode::Free, 2, Ped::Dont));
    assert!(rt; frame_history.is_cleared(&t, Mode::Free, 6, Ped::Dont));
    frame_history.push_again(nothing, nothing, 4_000_000_000);
    assert!(rt; frame_history.window().run(2, Colour::Green, 4096) == 4096);
    Ok(())
}

#[test]
fn a_preempt_is_looked_back_for(rt: HostRuntime) -> Result<(), Fail> {
    let t = railroad();
    let nothing = PhaseSet::empty();
    let free = seen(Colour::Green, Mode::Free, 0);
    let entry = seen(Colour::Green, Mode::Entry(1), 0);
    let dwell = seen(Colour::Green, Mode::Dwell(1), 0);
    let mut frame_history = FrameHistory::open(rt.alloc())?;
    push(&mut frame_history, &t, &free, 1000);
    assert!(rt; frame_history.stage(&t, &free.frame, nothing).is_none());
    assert!(rt; frame_history.stage(&t, &free.frame, alone(2)).is_none());
    assert!(rt; frame_history.stage(&t, &free.frame, alone(1)) == Some(Mode::Entry(1)));
    push(&mut frame_history, &t, &entry, 0);
    assert!(rt; frame_history.stage(&t, &entry.frame, alone(1)) == Some(Mode::Dwell(1)));
    push(&mut frame_history, &t, &dwell, 97);
    assert!(rt; frame_history.stage(&t, &dwell.frame, nothing) == Some(Mode::Dwell(1)));
    push(&mut frame_history, &t, &dwell, 0);
    assert!(rt; frame_history.stage(&t, &dwell.frame, alone(1)) == Some(Mode::Dwell(1)));
    assert!(rt; frame_history.stage(&t, &dwell.frame, nothing).is_none());
    Ok(())
}

#[test]
fn a_counter_goes_on_for_many_ticks(rt: HostRuntime) -> Result<(), Fail> {
    let t = Tables::std8();
    let mut frame_history = FrameHistory::open(rt.alloc())?;
    push(
        &mut frame_history,
        &t,
        &seen(Colour::Green, Mode::Coord(1), 0),
        41,
    );
    assert!(rt; frame_history.counting().count().counter() == 41);
    Ok(())
}
