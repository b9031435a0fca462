//! A window that is pushed more frames than it reaches over.

use look_back::{Look, Seen, Window};
use sig_types::{Colour, Frame, Mode, Ped, PhaseSet};
use std::test::Fail;

/// What is seen of a frame in which only phase 2 is not red, opposed by another phase or not.
fn seen(second: Colour, is_opposed: bool) -> Seen {
    let mut veh = [Colour::Red; 16];
    veh[1] = second;
    let nothing = PhaseSet::empty();
    Seen {
        frame: Frame {
            veh,
            ped: [Ped::Dont; 16],
            on: [2, 0],
            mode: Mode::Free,
            counter: 0,
            target: 0,
            version: 0,
        },
        active: nothing,
        opposed: if is_opposed { nothing.with(2) } else { nothing },
    }
}

#[test]
fn counts_a_green_as_far_as_it_reaches(rt: HostRuntime) -> Result<(), Fail> {
    let mut window = Window::open(rt.alloc())?;
    assert!(rt; window.run(2, Colour::Green, 4096) == 0);
    for _frame in 0..5000 {
        window.push(&seen(Colour::Green, false));
    }
    assert!(rt; window.run(2, Colour::Green, 4096) == 4096);
    assert!(rt; window.run(2, Colour::Green, 100) == 100);
    assert!(rt; window.look(Look::Quiet { phase: 2 }, 4096) == 4096);
    window.push(&seen(Colour::Yellow, false));
    assert!(rt; window.run(2, Colour::Green, 4096) == 0);
    assert!(rt; window.run(2, Colour::Yellow, 4096) == 1);
    assert!(rt; window.ped_run(2, Ped::Dont, 4096) == 4096);
    Ok(())
}

#[test]
fn counts_a_green_over_frames_that_differ(rt: HostRuntime) -> Result<(), Fail> {
    let mut window = Window::open(rt.alloc())?;
    for frame in 0..5000u32 {
        window.push(&seen(Colour::Green, frame % 2 == 1));
    }
    assert!(rt; window.run(2, Colour::Green, 4096) == 4096);
    assert!(rt; window.look(Look::Opposed { phase: 2 }, 4096) == 1);
    window.push(&seen(Colour::Green, true));
    assert!(rt; window.look(Look::Opposed { phase: 2 }, 4096) == 2);
    Ok(())
}
