//! What an instance is the name of, and the arcs of each name. The tables are after NTCIP 1202: a name is the entry,
//! the column, and one or two indices. A scalar's instance ends in 0.

ghost use Rattle.std.specs.Prelude.{◌≡◌, ◌+◌, ◌≤◌, ◌↔◌, ◌++◌, ◌∷◌, [], length, IsTrue};
ghost use Rattle.oid_map.specs.Names.{IsName, IsReadable, arcs_of, cell_arcs, index_arcs};
ghost use Rattle.oid_map.specs.Objects.{asc, own};
ghost use Rattle.ber_code.specs.Names.{IsWritable};
ghost use Rattle.sig_tables.specs.Cells.{IsCell};

use ber_code::Oid;
use sig_tables::Cell;

/// The objects of actuated controllers (after NTCIP 1202).
pub const ASC: [u32; 10] = [1, 3, 6, 1, 4, 1, 1206, 4, 2, 1];

/// Objects of our own, under the enterprise number for examples (RFC 5612).
pub const OWN: [u32; 8] = [1, 3, 6, 1, 4, 1, 32473, 1];

/// A table of objects with indices.
#[derive(Clone, Copy, PartialEq, Eq)]
pub enum TableName {
    Phase,
    Group,
    Pattern,
    Split,
    Preempt,
    Sequence,
}

/// What an instance is: a cell of the tables, an index of one of them, or something that the cabinet shows or takes.
#[derive(Clone, Copy, PartialEq, Eq)]
pub enum Name {
    /// A cell of the tables.
    Cell(Cell),
    /// The number of a row, from 1. `sub` is the second index of splits (the phase) and sequences (the ring), else 0.
    Index {
        table: TableName,
        column: u8,
        row: u8,
        sub: u8,
    },
    /// A column, 2 to 10, of a group of eight phases, 1 to 2.
    Group {
        column: u8,
        group: u8,
    },
    /// The pattern that is run, or a number for no pattern.
    PatternStatus,
    /// The pattern that is commanded. It can be set directly.
    PatternControl,
    /// A value of the download: 1 is its state, 2 to 6 can only be written (begin, id, part, total, finish), 7 to 9 are
    /// the last outcome, its rule or the part that was expected, and its row, and 10 is the version.
    Txn(u8),
    /// The tick of the day. It can be set directly.
    Clock,
    /// The coordination counter, in ticks.
    Counter,
    /// The counter that the correction goes toward, in ticks.
    Target,
    /// The mode of the controller as a number.
    ModeCode,
    /// Where a priority request is written.
    Request,
    /// Where the number of a priority request is written that is to end.
    Cancel,
    /// The state of a priority request, 1 to 10.
    RequestState(u8),
}

impl Name {
    /// Whether the instance can be read: begin, id, part, total and finish of a download, requests and cancels can't.
    pub fn is_readable(self) -> bool
        ensures { IsTrue result ↔ IsReadable self }
    {
        match self {
            Name::Txn(number) => number < 2 || 6 < number,
            Name::Request | Name::Cancel => false,
            _ => true,
        }
    }
}

/// The name of a prefix and the arcs after it.
fn joined(prefix: &[u32], rest: &[u32]) -> Oid
    requires { length prefix.now + length rest.now ≤ 32 }
    ensures { result.items ≡ prefix.now ++ rest.now }
{
    let mut name = Oid::new();
    let _ = name.try_extend_from_slice(prefix);
    let _ = name.try_extend_from_slice(rest);
    name
}

/// A name of NTCIP's objects.
fn under_asc(rest: &[u32]) -> Oid
    requires { length rest.now ≤ 6 }
    ensures { result.items ≡ asc ++ rest.now }
{
    joined(&ASC, rest)
}

/// A name of our own objects.
fn under_own(rest: &[u32]) -> Oid
    requires { length rest.now ≤ 6 }
    ensures { result.items ≡ own ++ rest.now }
{
    joined(&OWN, rest)
}

/// The name of a column of a table with one index. The arcs of a table's entry are its group, its number and 1.
fn by_one(group: u32, table: u32, column: u8, row: u8) -> Oid
    ensures { result.items ≡ asc ++ group ∷ table ∷ 1 ∷ column ∷ row ∷ [] }
{
    under_asc(&[group, table, 1, u32::from(column), u32::from(row)])
}

/// The name of a column of a table with two indices.
fn by_two(group: u32, table: u32, column: u8, row: u8, sub: u8) -> Oid
    ensures { result.items ≡ asc ++ group ∷ table ∷ 1 ∷ column ∷ row ∷ sub ∷ [] }
{
    let (row, sub) = (u32::from(row), u32::from(sub));
    under_asc(&[group, table, 1, u32::from(column), row, sub])
}

/// The name of a cell.
fn cell_oid(cell: Cell) -> Oid
    requires { IsCell cell }
    ensures { result.items ≡ cell_arcs cell }
{
    match cell {
        Cell::Phase { phase, column } => by_one(1, 2, column, phase),
        Cell::Sequence { sequence, ring } => by_two(7, 3, 3, sequence, ring),
        Cell::Split {
            split,
            phase,
            column,
        } => by_two(4, 9, column, split, phase),
        Cell::Pattern { pattern, column } => by_one(4, 7, column, pattern),
        Cell::Preempt { preempt, column } => by_one(6, 2, column, preempt),
        Cell::Unit(1) => under_asc(&[4, 2, 0]),
        Cell::Unit(number) => under_own(&[3, u32::from(number) - 1, 0]),
    }
}

/// The name of an index.
fn index_oid(table: TableName, column: u8, row: u8, sub: u8) -> Oid
    ensures { result.items ≡ index_arcs table column row sub }
{
    match table {
        TableName::Phase => by_one(1, 2, column, row),
        TableName::Group => by_one(1, 4, column, row),
        TableName::Pattern => by_one(4, 7, column, row),
        TableName::Split => by_two(4, 9, column, row, sub),
        TableName::Preempt => by_one(6, 2, column, row),
        TableName::Sequence => by_two(7, 3, column, row, sub),
    }
}

/// The name of an instance.
pub fn oid_of(name: Name) -> Oid
    requires name { IsName name }
    ensures arcs { result.items ≡ arcs_of name }
    ensures writable { IsWritable result.items }
{
    match name {
        Name::Cell(cell) => cell_oid(cell),
        Name::Index {
            table,
            column,
            row,
            sub,
        } => index_oid(table, column, row, sub),
        Name::Group { column, group } => by_one(1, 4, column, group),
        Name::PatternStatus => under_asc(&[4, 10, 0]),
        Name::PatternControl => under_asc(&[4, 14, 0]),
        Name::Txn(number) => under_own(&[1, u32::from(number), 0]),
        Name::Clock => under_own(&[2, 1, 0]),
        Name::Counter => under_own(&[2, 2, 0]),
        Name::Target => under_own(&[2, 3, 0]),
        Name::ModeCode => under_own(&[2, 4, 0]),
        Name::Request => under_own(&[4, 1, 0]),
        Name::Cancel => under_own(&[4, 2, 0]),
        Name::RequestState(number) => under_own(&[4, 3, 1, u32::from(number)]),
    }
}
