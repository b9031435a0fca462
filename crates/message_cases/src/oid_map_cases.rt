//! Names and walks by hand from the table of the objects.

ghost use Rattle.ber_code.specs.Names.{IsWritable};

use ber_code::Oid;
use oid_map::*;
use sig_tables::Cell;

/// Where the objects of NTCIP 1202 (asc) and those of the project (own) are.
#[derive(Clone, Copy)]
pub(crate) enum Root {
    Asc,
    Own,
}

use Root::{Asc, Own};

/// A name of two parts.
fn joined(front: &[u32], rest: &[u32]) -> Oid
    ensures { IsWritable front.now → IsWritable result.items }
{
    let mut name = Oid::new();
    let _ = name.try_extend_from_slice(front);
    let _ = name.try_extend_from_slice(rest);
    name
}

/// A name under a root.
pub(crate) fn oid(root: Root, rest: &[u32]) -> Oid
    ensures { IsWritable result.items }
{
    match root {
        Asc => joined(&[1, 3, 6, 1, 4, 1, 1206, 4, 2, 1], rest),
        Own => joined(&[1, 3, 6, 1, 4, 1, 32473, 1], rest),
    }
}

/// A name under a root, and the next one.
const STEPS: [(Root, &[u32], Root, &[u32]); 31] = [
    (Asc, &[], Asc, &[1, 2, 1, 1, 1]),
    (Asc, &[1, 2, 1, 0, 99], Asc, &[1, 2, 1, 1, 1]),
    (Asc, &[1, 2, 1, 1, 1], Asc, &[1, 2, 1, 1, 2]),
    (Asc, &[1, 2, 1, 1, 1, 0, 0, 7], Asc, &[1, 2, 1, 1, 2]),
    (Asc, &[1, 2, 1, 1, 16], Asc, &[1, 2, 1, 2, 1]),
    (Asc, &[1, 2, 1, 1, u32::MAX], Asc, &[1, 2, 1, 2, 1]),
    (Asc, &[1, 2, 1, 23], Asc, &[1, 2, 1, 23, 1]),
    (Asc, &[1, 2, 1, 23, 16], Asc, &[1, 4, 1, 1, 1]),
    (Asc, &[1, 2, 1, 24], Asc, &[1, 4, 1, 1, 1]),
    (Asc, &[1, 4, 1, 10, 2], Asc, &[4, 2, 0]),
    (Asc, &[4, 2, 0], Asc, &[4, 7, 1, 1, 1]),
    (Asc, &[4, 7, 1, 5, 48], Asc, &[4, 9, 1, 1, 1, 1]),
    (Asc, &[4, 9, 1, 3, 1, 16], Asc, &[4, 9, 1, 3, 2, 1]),
    (Asc, &[4, 9, 1, 3, 32, 16], Asc, &[4, 9, 1, 4, 1, 1]),
    (Asc, &[4, 9, 1, 5, 32, 16], Asc, &[4, 10, 0]),
    (Asc, &[4, 10, 0], Asc, &[4, 14, 0]),
    (Asc, &[4, 14, 0], Asc, &[6, 2, 1, 1, 1]),
    (Asc, &[6, 2, 1, 1, 8], Asc, &[6, 2, 1, 4, 1]),
    (Asc, &[6, 2, 1, 15, 8], Asc, &[7, 3, 1, 1, 1, 1]),
    (Asc, &[7, 3, 1, 1, 1, 1], Asc, &[7, 3, 1, 1, 1, 2]),
    (Asc, &[7, 3, 1, 1, 1, 2], Asc, &[7, 3, 1, 1, 2, 1]),
    (Asc, &[7, 3, 1, 3, 16, 2], Own, &[1, 1, 0]),
    (Own, &[1, 1, 0], Own, &[1, 7, 0]),
    (Own, &[1, 3, 0], Own, &[1, 7, 0]),
    (Own, &[1, 9, 0], Own, &[1, 10, 0]),
    (Own, &[1, 10, 0], Own, &[2, 1, 0]),
    (Own, &[2, 4, 0], Own, &[3, 1, 0]),
    (Own, &[3, 5, 0], Own, &[3, 6, 0]),
    (Own, &[3, 7, 0], Own, &[4, 3, 1, 1]),
    (Own, &[4, 1, 0], Own, &[4, 3, 1, 1]),
    (Own, &[4, 3, 1, 9], Own, &[4, 3, 1, 10]),
];

#[test]
fn next_goes_on_in_the_order_of_the_table(rt: HostRuntime) {
    for (root, rest, next_root, next_rest) in STEPS {
        let found = next(&oid(root, rest));
        assert!(rt; found == Some(oid(next_root, next_rest)));
    }
    for before in [
        [].as_slice(),
        &[0, 39],
        &[1, 3],
        &[1, 3, 6, 1, 4, 1, 1206, 4, 2],
    ] {
        assert!(rt; next(&joined(before, &[])) == Some(oid(Asc, &[1, 2, 1, 1, 1])));
    }
    assert!(rt; next(&oid(Own, &[4, 3, 1, 10])).is_none());
    assert!(rt; next(&oid(Own, &[4, 3, 1, 10, 1])).is_none());
    assert!(rt; next(&joined(&[1, 3, 6, 1, 4, 1, 32473, 2], &[])).is_none());
    assert!(rt; next(&joined(&[2, 5], &[])).is_none());
}

#[test]
fn a_walk_meets_each_readable_instance_once(rt: HostRuntime) {
    // columns times rows: phases, groups, correction mode, patterns, splits, the two scalars of the
    // pattern command, preempts (column 1 and 4 to 15), sequences
    let street = 23 * 16 + 10 * 2 + 1 + 5 * 48 + 5 * 32 * 16 + 2 + 13 * 8 + 3 * 16 * 2;
    assert!(rt; street == 3391);
    // stage and outcome with the version, clock to mode code, units, requests
    let own = 5 + 4 + 7 + 10;
    let mut name = Oid::new();
    let mut ended = false;
    for visited in 0..4000u32 {
        let found = match next(&name) {
            Some(found) => found,
            None => {
                assert!(rt; visited == street + own);
                ended = true;
                break;
            }
        };
        assert!(rt; name.as_slice() < found.as_slice());
        match cell_of(&found) {
            Some(known) => {
                assert!(rt; known.is_readable());
                assert!(rt; oid_of(known) == found);
            }
            None => assert!(rt; false),
        }
        name = found;
    }
    assert!(rt; ended);
}

/// Whether this is the name of the instance, read and written.
fn is_named(root: Root, rest: &[u32], want: Name) -> bool {
    let name = oid(root, rest);
    match cell_of(&name) {
        Some(known) => known == want && oid_of(known) == name,
        None => false,
    }
}

/// An index of a table.
fn index(table: TableName, column: u8, row: u8, sub: u8) -> Name {
    Name::Index {
        table,
        column,
        row,
        sub,
    }
}

#[test]
fn index_columns_have_names(rt: HostRuntime) {
    for (rest, want) in [
        (
            [1, 2, 1, 1, 16].as_slice(),
            index(TableName::Phase, 1, 16, 0),
        ),
        (&[1, 4, 1, 1, 2], index(TableName::Group, 1, 2, 0)),
        (&[4, 7, 1, 1, 48], index(TableName::Pattern, 1, 48, 0)),
        (&[4, 9, 1, 1, 32, 7], index(TableName::Split, 1, 32, 7)),
        (&[4, 9, 1, 2, 32, 7], index(TableName::Split, 2, 32, 7)),
        (&[6, 2, 1, 1, 8], index(TableName::Preempt, 1, 8, 0)),
        (&[7, 3, 1, 2, 16, 1], index(TableName::Sequence, 2, 16, 1)),
    ] {
        assert!(rt; is_named(Asc, rest, want));
    }
}

#[test]
fn cells_have_names(rt: HostRuntime) {
    let phase = Cell::Phase {
        phase: 2,
        column: 23,
    };
    let pattern = Cell::Pattern {
        pattern: 3,
        column: 5,
    };
    let split = Cell::Split {
        split: 32,
        phase: 7,
        column: 5,
    };
    let preempt = Cell::Preempt {
        preempt: 8,
        column: 15,
    };
    let sequence = Cell::Sequence {
        sequence: 16,
        ring: 1,
    };
    for (root, rest, want) in [
        (Asc, [1, 2, 1, 23, 2].as_slice(), phase),
        (Asc, &[4, 2, 0], Cell::Unit(1)),
        (Asc, &[4, 7, 1, 5, 3], pattern),
        (Asc, &[4, 9, 1, 5, 32, 7], split),
        (Asc, &[6, 2, 1, 15, 8], preempt),
        (Asc, &[7, 3, 1, 3, 16, 1], sequence),
        (Own, &[3, 1, 0], Cell::Unit(2)),
        (Own, &[3, 5, 0], Cell::Unit(6)),
        (Own, &[3, 7, 0], Cell::Unit(8)),
    ] {
        assert!(rt; is_named(root, rest, Name::Cell(want)));
    }
}

#[test]
fn what_is_shown_and_taken_has_names(rt: HostRuntime) {
    let phases_on = Name::Group {
        column: 10,
        group: 1,
    };
    for (root, rest, want) in [
        (Asc, [1, 4, 1, 10, 1].as_slice(), phases_on),
        (Asc, &[4, 10, 0], Name::PatternStatus),
        (Asc, &[4, 14, 0], Name::PatternControl),
        (Own, &[1, 10, 0], Name::Txn(10)),
        (Own, &[2, 1, 0], Name::Clock),
        (Own, &[2, 2, 0], Name::Counter),
        (Own, &[2, 3, 0], Name::Target),
        (Own, &[2, 4, 0], Name::ModeCode),
        (Own, &[4, 1, 0], Name::Request),
        (Own, &[4, 2, 0], Name::Cancel),
        (Own, &[4, 3, 1, 10], Name::RequestState(10)),
    ] {
        assert!(rt; is_named(root, rest, want));
    }
}

/// Names in addition to those of objects: a column or a row too many or too few, an arc too many or too few, and arcs
/// that would be good if only their last eight bits counted.
const NO_OBJECTS: [(Root, &[u32]); 26] = [
    (Asc, &[]),
    (Asc, &[1, 2, 1]),
    (Asc, &[1, 2, 1, 0, 1]),
    (Asc, &[1, 2, 1, 24, 1]),
    (Asc, &[1, 2, 1, 257, 1]),
    (Asc, &[1, 2, 1, 1, 0]),
    (Asc, &[1, 2, 1, 1, 17]),
    (Asc, &[1, 2, 1, 1, 257]),
    (Asc, &[1, 2, 1, 1, 1, 0]),
    (Asc, &[1, 4, 1, 1, 3]),
    (Asc, &[4, 2]),
    (Asc, &[4, 2, 1]),
    (Asc, &[4, 7, 1, 6, 1]),
    (Asc, &[4, 9, 1, 1, 33, 1]),
    (Asc, &[6, 2, 1, 2, 1]),
    (Asc, &[6, 2, 1, 3, 1]),
    (Asc, &[6, 2, 1, 16, 1]),
    (Asc, &[7, 3, 1, 3, 1, 3]),
    (Asc, &[7, 3, 1, 4, 1, 1]),
    (Own, &[1, 0, 0]),
    (Own, &[1, 11, 0]),
    (Own, &[2, 5, 0]),
    (Own, &[3, 8, 0]),
    (Own, &[4, 3, 0]),
    (Own, &[4, 3, 1, 11]),
    (Own, &[1, 7, 0, 0]),
];

#[test]
fn names_beside_the_objects_are_unknown(rt: HostRuntime) {
    for (root, rest) in NO_OBJECTS {
        assert!(rt; cell_of(&oid(root, rest)).is_none());
    }
    assert!(rt; cell_of(&Oid::new()).is_none());
}

#[test]
fn what_can_only_be_written_has_a_name(rt: HostRuntime) {
    for rest in [
        [1, 2, 0],
        [1, 3, 0],
        [1, 4, 0],
        [1, 5, 0],
        [1, 6, 0],
        [4, 1, 0],
        [4, 2, 0],
    ] {
        let name = cell_of(&oid(Own, &rest));
        assert!(rt; matches!(name, Some(known) if !known.is_readable()));
    }
}
