//! What a split asks of each phase, mode by mode (splitMode of NTCIP 1202).

use pattern_plan::SplitOptions;
use sig_tables::{Cell, CellValue, Tables};
use sig_types::PhaseSet;

/// The set of these phases.
fn set_of(phases: &[u8]) -> PhaseSet {
    let mut set = PhaseSet::empty();
    for phase in phases {
        set = set.with((*phase).max(1).min(16));
    }
    set
}

/// Puts a number into a cell.
fn put(tables: &mut Tables, cell: Cell, number: u32) {
    if Tables::is_cell(cell) {
        let _ = tables.put(cell, CellValue::Number(number));
    }
}

#[test]
fn each_mode_of_a_split_asks_its_own(rt: HostRuntime) {
    let mut tables = Tables::std8();
    // pattern 2 has split 3: phases 1 to 7 in modes 1 to 7 (0 is not a mode, so 8 keeps its own), phases 2 and 9 marked
    // as coordinated
    for (column, number) in [(2, 90), (4, 3), (5, 1)] {
        put(&mut tables, Cell::Pattern { pattern: 2, column }, number);
    }
    for phase in 1..9u8 {
        let cell = Cell::Split {
            split: 3,
            phase,
            column: 4,
        };
        put(&mut tables, cell, u32::from(phase) % 8);
    }
    for phase in [2, 9] {
        put(
            &mut tables,
            Cell::Split {
                split: 3,
                phase,
                column: 5,
            },
            1,
        );
    }
    let options = SplitOptions::of(&tables, 2);
    // phase 9 is disabled
    assert!(rt; options.coordinated == set_of(&[2]));
    assert!(rt; options.minimum == set_of(&[3]));
    assert!(rt; options.maximum == set_of(&[4, 6]));
    assert!(rt; options.pedestrian == set_of(&[5, 6]));
    assert!(rt; options.omitted == set_of(&[7]));
    // the standard split holds phases 2 and 6, and asks nothing else
    let standard = SplitOptions::of(&tables, 1);
    assert!(rt; standard.coordinated == set_of(&[2, 6]));
    assert!(rt; standard.minimum == PhaseSet::empty());
    assert!(rt; standard.maximum == PhaseSet::empty());
    assert!(rt; standard.pedestrian == PhaseSet::empty());
    assert!(rt; standard.omitted == PhaseSet::empty());
}
