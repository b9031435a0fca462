//! A green and the yellow after it, timed tick by tick.

use phase_clock::Clocks;
use sig_tables::Tables;
use sig_types::{Colour, Frame, Mode, Ped, PhaseSet};

/// A frame in which only phase 2 is not red.
fn street(second: Colour) -> Frame {
    let mut veh = [Colour::Red; 16];
    veh[1] = second;
    Frame {
        veh,
        ped: [Ped::Dont; 16],
        on: [2, 0],
        mode: Mode::Free,
        counter: 0,
        target: 0,
        version: 0,
    }
}

#[test]
fn times_a_green_and_the_yellow_after_it(rt: HostRuntime) {
    let tables = Tables::std8();
    let nothing = PhaseSet::empty();
    let second = nothing.with(2);
    let mut clocks = Clocks::new();
    clocks.step(&street(Colour::Green), false, nothing, nothing, &tables);
    clocks.step(&street(Colour::Green), false, second, second, &tables);
    clocks.step(&street(Colour::Green), true, nothing, second, &tables);
    assert!(rt; clocks.run(2) == 3);
    assert!(rt; clocks.run(4) == 4);
    assert!(rt; clocks.latched_least(2) == 100);
    assert!(rt; clocks.quiet(2) == 1);
    assert!(rt; clocks.pressed(2) == 2);
    clocks.step(&street(Colour::Yellow), false, nothing, second, &tables);
    assert!(rt; clocks.run(2) == 1);
    assert!(rt; clocks.latched_least(2) == 0);
    assert!(rt; clocks.latched_yellow(2) == 40);
    clocks.step(&street(Colour::Clear), false, second, nothing, &tables);
    assert!(rt; clocks.latched_clear(2) == 15);
    assert!(rt; clocks.pressed(2) == 0);
}
