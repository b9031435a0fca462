//! The standard tables' pattern 1, by hand: a cycle of 90 seconds, of which a turn has 15 and a through phase 30. Local zero
//! is where phases 2 and 6 begin, 15 seconds into the sequence. Turns clear for 4.5 seconds and are served in 5; phases 4
//! and 8 clear for 5.5 and are served in 19.

ghost use Rattle.std.specs.Prelude.{◌<◌, ◌≤◌};

use coord_gate::{Gate, filled, fits, released};
use sig_tables::Plan;
use sig_types::PhaseSet;

/// What is taken for each of eight phases of sixteen: one number for both turns before the barrier, and so on.
fn sixteen(first: u32, second: u32, third: u32, fourth: u32) -> [u32; 16] {
    let four = [first, second, third, fourth];
    let mut numbers = [0; 16];
    for place in 0..8usize {
        numbers[place] = four[place % 4];
    }
    numbers
}

fn plan(floating: bool) -> Plan {
    Plan {
        cycle: 900,
        offset: 0,
        sequence: 1,
        coordinated: [2, 6],
        force: sixteen(855, 245, 405, 695),
        permissive: sixteen(805, 0, 355, 505),
        window: 245,
        float: sixteen(150, 300, 150, 300),
        floating,
        shift: 0,
    }
}

/// The phases of a pair, one of each ring, in the same place of their rings.
fn pair(phase: u8) -> PhaseSet
    requires above { 0 < phase }
    requires few { phase ≤ 4 }
{
    PhaseSet::empty().with(phase).with(phase + 4)
}

#[test]
fn phases_have_room_until_their_least_service_would_pass_the_force_point(rt: HostRuntime) {
    let plan = plan(false);
    let services = sixteen(50, 190, 50, 190);
    let gate = Gate {
        plan: &plan,
        coordinated: pair(2),
        services: &services,
    };
    let all = pair(1).union(pair(2)).union(pair(3)).union(pair(4));
    let others = pair(1).union(pair(2)).union(pair(4));
    for (counter, k, want) in [
        (244, 0, pair(2)),
        (245, 55, all),
        (245, 110, all),
        (245, 111, others),
        (355, 0, all),
        (356, 0, others),
        (505, 0, others),
        (506, 0, pair(1).union(pair(2))),
        (806, 0, pair(2)),
        (4294967295, 4294967295, pair(2)),
    ] {
        assert!(rt; gate.with_room(counter, k, all) == want);
    }
    assert!(rt; gate.with_room(245, 55, pair(3)) == pair(3));
    assert!(rt; fits(&plan, 245, 55, 190, 8) && fits(&plan, 505, 0, 190, 4));
    assert!(rt; !fits(&plan, 244, 55, 190, 8) && !fits(&plan, 506, 0, 190, 4));
}

#[test]
fn force_points_force_off_and_release(rt: HostRuntime) {
    let plan = plan(false);
    let services = [0; 16];
    let gate = Gate {
        plan: &plan,
        coordinated: pair(2),
        services: &services,
    };
    for (counter, asked, want) in [
        (404, pair(3), PhaseSet::empty()),
        (405, pair(3), pair(3)),
        (694, pair(4), PhaseSet::empty()),
        (695, pair(4), pair(4)),
        (899, pair(2), PhaseSet::empty()),
    ] {
        assert!(rt; gate.forced(counter, asked) == want);
    }
    // a priority request holds phases 2 and 6 for six seconds
    for (counter, held, ends) in [
        (244, 0, false),
        (245, 0, true),
        (304, 60, false),
        (305, 60, true),
    ] {
        assert!(rt; released(&plan, counter, held, 6) == ends);
        assert!(rt; gate.released(counter, held, pair(2)).is_empty() != ends);
    }
}

#[test]
fn a_split_is_filled_by_the_green_with_its_clearance(rt: HostRuntime) {
    assert!(rt; filled(&plan(true), 245, 55, 4) && filled(&plan(true), 4294967295, 55, 4));
    assert!(rt; !filled(&plan(true), 244, 55, 4) && !filled(&plan(false), 245, 55, 4));
}
