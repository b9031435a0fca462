//! What the counter does over many cycles, and in how many it comes onto the offset, as worked by hand.

ghost use Rattle.std.specs.Prelude.{◌<◌};

use coord_count::{Count, Limits, needed};
use sig_tables::{Plan, Tables};

/// A plan of which only the cycle and the window count here.
fn plan(cycle: u32, window: u32) -> Plan {
    Plan {
        cycle,
        offset: 0,
        sequence: 1,
        coordinated: [2, 6],
        force: [0; 16],
        permissive: [0; 16],
        window,
        float: [0; 16],
        floating: false,
        shift: 0,
    }
}

/// Limits of at least one tick.
fn limits(mode: u8, dwell: u32, add: u32, subtract: u32) -> Limits
    ensures dwell { 0 < result.dwell }
    ensures add { 0 < result.add }
    ensures subtract { 0 < result.subtract }
{
    Limits {
        mode,
        dwell: dwell.max(1),
        add: add.max(1),
        subtract: subtract.max(1),
    }
}

/// Lets a count run on for that many ticks, from a frame with this target.
fn run(count: &mut Count, plan: &Plan, limits: Limits, target: u32, ticks: u32)
    requires add { 0 < limits.add }
    requires subtract { 0 < limits.subtract }
{
    let mut target = target;
    for _ in 0..ticks {
        target = if target < plan.cycle.saturating_sub(1) {
            target + 1
        } else {
            0
        };
        if count.counter() < plan.cycle && target < plan.cycle {
            count.step(plan, limits, target);
        }
    }
}

#[test]
fn comes_onto_the_offset_as_worked_by_hand(rt: HostRuntime) {
    // cycle, mode, dwell, add, subtract
    let dwell = (900, 2, 100, 50, 30);
    let shortway = (900, 3, 100, 30, 30);
    let add_only = (900, 4, 100, 20, 30);
    let midnight = (700, 2, 100, 50, 30);
    // the target at the pickup, ticks since, the counter then
    let rows = [
        // one tick late: eight local zeros, 1,000 ticks apart, then 99 more waits
        (dwell, 1, 100, 0),
        (dwell, 1, 101, 1),
        (dwell, 1, 999, 899),
        (dwell, 1, 1000, 0),
        (dwell, 1, 8000, 0),
        (dwell, 1, 8099, 0),
        (dwell, 1, 8100, 1),
        (dwell, 1, 8999, 0),
        // half a cycle off: both ways take 15 cycles, so it adds
        (shortway, 450, 1, 0),
        (shortway, 450, 2, 1),
        (shortway, 450, 3, 1),
        (shortway, 450, 60, 30),
        (shortway, 450, 930, 0),
        (shortway, 450, 13079, 29),
        (shortway, 450, 13080, 30),
        // 30 ticks ahead: one cycle of 30 skips
        (shortway, 30, 29, 58),
        (shortway, 30, 30, 60),
        (shortway, 30, 31, 61),
        // 20 ticks short of local zero: one cycle of 20 waits, at every second tick
        (add_only, 880, 38, 19),
        (add_only, 880, 39, 19),
        (add_only, 880, 40, 20),
        // a midnight has moved the target: two cycles, of 100 waits each
        (midnight, 500, 799, 699),
        (midnight, 500, 800, 0),
        (midnight, 500, 900, 0),
        (midnight, 500, 901, 1),
    ];
    for ((cycle, mode, dwell, add, subtract), target, ticks, counter) in rows {
        let within = limits(mode, dwell, add, subtract);
        let mut count = Count::new();
        count.pickup();
        run(&mut count, &plan(cycle, 200), within, target, ticks);
        assert!(rt; count.counter() == counter);
    }
}

#[test]
fn needs_as_many_cycles_as_worked_by_hand(rt: HostRuntime) {
    // mode, cycle, target, cycles
    let rows = [
        (2, 900, 0, 0),
        (2, 900, 1, 9),
        (2, 900, 800, 1),
        (2, 900, 799, 2),
        (2, 700, 500, 2),
        (3, 900, 450, 15),
        (3, 900, 30, 1),
        (3, 900, 31, 2),
        (3, 900, 870, 1),
        (4, 900, 30, 29),
        (4, 900, 0, 0),
    ];
    for (mode, cycle, target, cycles) in rows {
        let within = limits(2, 100, 30, 30);
        assert!(rt; target < cycle);
        assert!(rt; needed(mode, within, cycle, target) == cycles);
    }
}

#[test]
fn takes_the_limits_of_the_tables(rt: HostRuntime) {
    let within = Limits::of(&Tables::std8());
    assert!(rt; within == limits(2, 100, 50, 30));
}
