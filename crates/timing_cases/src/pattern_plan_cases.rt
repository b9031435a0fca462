//! Pattern 1 of the standard tables, and of tables that differ from them in a few cells, worked out by hand.

use pattern_plan::plan;
use sig_tables::{Cell, CellValue, Plan, Tables};

/// The numbers of eight phases, those of the two rings in turn, and 0 for the other eight.
fn sixteen(first: [u32; 4], second: [u32; 4]) -> [u32; 16] {
    let mut numbers = [0; 16];
    for place in 0..4usize {
        numbers[place] = first[place];
        numbers[place + 4] = second[place];
    }
    numbers
}

fn standard() -> Plan {
    Plan {
        cycle: 900,
        offset: 0,
        sequence: 1,
        coordinated: [2, 6],
        force: sixteen([855, 245, 405, 695], [855, 245, 405, 695]),
        permissive: sixteen([805, 0, 355, 505], [805, 0, 355, 505]),
        window: 245,
        float: sixteen([150, 300, 150, 300], [150, 300, 150, 300]),
        floating: false,
        shift: 0,
    }
}

fn yellow(phase: u8) -> Cell {
    Cell::Phase { phase, column: 8 }
}

fn split(phase: u8, column: u8) -> Cell {
    Cell::Split {
        split: 1,
        phase,
        column,
    }
}

#[test]
fn the_standard_pattern_has_the_plan_worked_out_by_hand(rt: HostRuntime) {
    assert!(rt; plan(&Tables::std8(), 1) == standard());
}

#[test]
fn offsets_from_the_end_of_green_count_from_the_window(rt: HostRuntime) {
    let mut tables = Tables::std8();
    tables.put_each(&[
        (Cell::Unit(7), CellValue::Number(2)),
        (Cell::Unit(8), CellValue::Number(2)),
        (
            Cell::Pattern {
                pattern: 1,
                column: 3,
            },
            CellValue::Number(7),
        ),
    ]);
    let mut want = standard();
    want.offset = 70;
    want.floating = true;
    want.shift = 245;
    assert!(rt; plan(&tables, 1) == want);
}

#[test]
fn a_phase_before_the_barrier_clears_with_the_longest_of_its_side(rt: HostRuntime) {
    let mut tables = Tables::std8();
    tables.put_each(&[(yellow(1), CellValue::Number(60))]);
    let plan = plan(&tables, 1);
    // phase 1 clears for 7 seconds: it ends 80 ticks into the sequence, and phases 2 and 6 at 380
    assert!(rt; plan.force == sixteen([830, 230, 405, 695], [855, 230, 405, 695]));
    assert!(rt; plan.permissive == sixteen([780, 0, 355, 505], [805, 0, 355, 505]));
    assert!(rt; plan.window == 230);
}

#[test]
fn an_omitted_phase_has_a_force_point_and_no_permissive_end(rt: HostRuntime) {
    let mut tables = Tables::std8();
    tables.put_each(&[
        (split(1, 3), CellValue::Number(0)),
        (split(1, 4), CellValue::Number(7)),
        (split(2, 3), CellValue::Number(45)),
    ]);
    let plan = plan(&tables, 1);
    // 4.5 seconds before the sequence starts, which is 15 seconds before local zero
    assert!(rt; plan.force[0] == 705 && plan.permissive[0] == 0);
    assert!(rt; plan.float[0] == 0 && plan.float[1] == 450);
    assert!(rt; plan.window == 245);
}
