//! Which instance a name is the name of: first the root, then the group and the entry, then the column and the indices,
//! each within its range.

ghost use Rattle.std.specs.Prelude.{◌≡◌, ◌≢◌, ◌≤◌, ◌↔◌, ◌++◌, ◌∷◌, [], Some, IfSome, IfNone, IsTrue};
ghost use Rattle.ber_code.specs.Reading.{Gives};
ghost use Rattle.oid_map.specs.Objects.{asc, own};
ghost use Rattle.oid_map.specs.Names.{IsName, IsReadable, arcs_of};
ghost use Rattle.oid_map.specs.Reading.{under, is_between, phase_name, group_name, pattern_name, preempt_name, split_name, sequence_name, asc_scalar, asc_by_one, asc_by_two, asc_name, status_name, unit_name, own_scalar, own_name, name_at, is_entry};

use crate::names::{ASC, Name, OWN, TableName};
use ber_code::Oid;
use sig_tables::Cell;

/// The arcs that follow the prefix, where the name begins with it.
fn arcs_under<'a>(prefix: &[u32], name: &'a [u32]) -> Option<&'a [u32]>
    ensures { Gives (λ r. r.now) result (under prefix.now name.now) }
{
    name.strip_prefix(prefix)
}

/// Whether a number lies in a range.
fn is_between(number: u32, least: u32, most: u32) -> bool
    ensures { result ≡ is_between number least most }
{
    least <= number && number <= most
}

/// The name of a phase's column, 1 to 23.
fn phase_at(column: u32, phase: u32) -> Option<Name>
    ensures reads { result ≡ phase_name column phase }
    ensures found { IfSome result (λ n. IsName n × (asc ++ 1 ∷ 2 ∷ 1 ∷ column ∷ phase ∷ [] ≡ arcs_of n)) }
{
    if !(is_between(column, 1, 23) && is_between(phase, 1, 16)) {
        return None;
    }
    let (column, phase) = (column as u8, phase as u8);
    if column == 1 {
        return Some(index(TableName::Phase, 1, phase, 0));
    }
    Some(Name::Cell(Cell::Phase { phase, column }))
}

/// The name of a group's column, 1 to 10.
fn group_at(column: u32, group: u32) -> Option<Name>
    ensures reads { result ≡ group_name column group }
    ensures found { IfSome result (λ n. IsName n × (asc ++ 1 ∷ 4 ∷ 1 ∷ column ∷ group ∷ [] ≡ arcs_of n)) }
{
    if !(is_between(column, 1, 10) && is_between(group, 1, 2)) {
        return None;
    }
    let (column, group) = (column as u8, group as u8);
    if column == 1 {
        return Some(index(TableName::Group, 1, group, 0));
    }
    Some(Name::Group { column, group })
}

/// The name of a pattern's column, 1 to 5.
fn pattern_at(column: u32, pattern: u32) -> Option<Name>
    ensures reads { result ≡ pattern_name column pattern }
    ensures found { IfSome result (λ n. IsName n × (asc ++ 4 ∷ 7 ∷ 1 ∷ column ∷ pattern ∷ [] ≡ arcs_of n)) }
{
    if !(is_between(column, 1, 5) && is_between(pattern, 1, 48)) {
        return None;
    }
    let (column, pattern) = (column as u8, pattern as u8);
    if column == 1 {
        return Some(index(TableName::Pattern, 1, pattern, 0));
    }
    Some(Name::Cell(Cell::Pattern { pattern, column }))
}

/// The name of a preempt's column, 1 or 4 to 15.
fn preempt_at(column: u32, preempt: u32) -> Option<Name>
    ensures reads { result ≡ preempt_name column preempt }
    ensures found { IfSome result (λ n. IsName n × (asc ++ 6 ∷ 2 ∷ 1 ∷ column ∷ preempt ∷ [] ≡ arcs_of n)) }
{
    if !is_between(preempt, 1, 8) {
        return None;
    }
    let preempt = preempt as u8;
    if column == 1 {
        return Some(index(TableName::Preempt, 1, preempt, 0));
    }
    if !is_between(column, 4, 15) {
        return None;
    }
    let column = column as u8;
    Some(Name::Cell(Cell::Preempt { preempt, column }))
}

/// The name of a column, 1 to 5, of a split's phase.
fn split_at(column: u32, split: u32, phase: u32) -> Option<Name>
    ensures reads { result ≡ split_name column split phase }
    ensures found { IfSome result (λ n. IsName n × (asc ++ 4 ∷ 9 ∷ 1 ∷ column ∷ split ∷ phase ∷ [] ≡ arcs_of n)) }
{
    if !(is_between(column, 1, 5) && is_between(split, 1, 32) && is_between(phase, 1, 16)) {
        return None;
    }
    let (column, split, phase) = (column as u8, split as u8, phase as u8);
    if column <= 2 {
        return Some(index(TableName::Split, column, split, phase));
    }
    Some(Name::Cell(Cell::Split {
        split,
        phase,
        column,
    }))
}

/// The name of a column, 1 to 3, of a sequence's ring.
fn sequence_at(column: u32, sequence: u32, ring: u32) -> Option<Name>
    ensures reads { result ≡ sequence_name column sequence ring }
    ensures found { IfSome result (λ n. IsName n × (asc ++ 7 ∷ 3 ∷ 1 ∷ column ∷ sequence ∷ ring ∷ [] ≡ arcs_of n)) }
{
    if !(is_between(column, 1, 3) && is_between(sequence, 1, 16) && is_between(ring, 1, 2)) {
        return None;
    }
    let (column, sequence, ring) = (column as u8, sequence as u8, ring as u8);
    if column <= 2 {
        return Some(index(TableName::Sequence, column, sequence, ring));
    }
    Some(Name::Cell(Cell::Sequence { sequence, ring }))
}

/// An index of a table.
fn index(table: TableName, column: u8, row: u8, sub: u8) -> Name
    ensures { result ≡ Name.Index table column row sub }
{
    Name::Index {
        table,
        column,
        row,
        sub,
    }
}

/// The name of a scalar under asc.
fn scalar_at(group: u32, number: u32, last: u32) -> Option<Name>
    ensures reads { result ≡ asc_scalar group number last }
    ensures found { IfSome result (λ n. IsName n × (asc ++ group ∷ number ∷ last ∷ [] ≡ arcs_of n)) }
{
    match (group, number, last) {
        (4, 2, 0) => Some(Name::Cell(Cell::Unit(1))),
        (4, 10, 0) => Some(Name::PatternStatus),
        (4, 14, 0) => Some(Name::PatternControl),
        _ => None,
    }
}

/// The name of a table's column with one index.
fn by_one_at(entry: (u32, u32, u32), column: u32, row: u32) -> Option<Name>
    ensures reads { result ≡ asc_by_one entry.0 entry.1 entry.2 column row }
    ensures found { IfSome result (λ n. IsName n × (asc ++ entry.0 ∷ entry.1 ∷ entry.2 ∷ column ∷ row ∷ [] ≡ arcs_of n)) }
{
    match entry {
        (1, 2, 1) => phase_at(column, row),
        (1, 4, 1) => group_at(column, row),
        (4, 7, 1) => pattern_at(column, row),
        (6, 2, 1) => preempt_at(column, row),
        _ => None,
    }
}

/// The name of a table's column with two indices.
fn by_two_at(entry: (u32, u32, u32), column: u32, row: u32, sub: u32) -> Option<Name>
    ensures reads { result ≡ asc_by_two entry.0 entry.1 entry.2 column row sub }
    ensures found { IfSome result (λ n. IsName n × (asc ++ entry.0 ∷ entry.1 ∷ entry.2 ∷ column ∷ row ∷ sub ∷ [] ≡ arcs_of n)) }
{
    match entry {
        (4, 9, 1) => split_at(column, row, sub),
        (7, 3, 1) => sequence_at(column, row, sub),
        _ => None,
    }
}

/// The name of arcs under asc.
#[tactic(auto, unfolding(crate::specs::Reading::asc_name))]
fn asc_at(arcs: &[u32]) -> Option<Name>
    ensures reads { result ≡ asc_name arcs.now }
    ensures found { IfSome result (λ n. IsName n × (asc ++ arcs.now ≡ arcs_of n)) }
{
    match arcs {
        [group, number, last] => scalar_at(*group, *number, *last),
        [group, table, entry, column, row] => by_one_at((*group, *table, *entry), *column, *row),
        [group, table, entry, column, row, sub] => {
            by_two_at((*group, *table, *entry), *column, *row, *sub)
        }
        _ => None,
    }
}

/// The name of a value that a cabinet shows: clock, counter, target and mode code.
fn status_at(number: u32) -> Option<Name>
    ensures reads { result ≡ status_name number }
    ensures found { IfSome result (λ n. IsName n × (own ++ 2 ∷ number ∷ 0 ∷ [] ≡ arcs_of n)) }
{
    match number {
        1 => Some(Name::Clock),
        2 => Some(Name::Counter),
        3 => Some(Name::Target),
        4 => Some(Name::ModeCode),
        _ => None,
    }
}

/// The name of a limit, a time or a mode of the unit, 1 to 7: cells 2 to 8.
fn unit_at(number: u32) -> Option<Name>
    ensures reads { result ≡ unit_name number }
    ensures found { IfSome result (λ n. IsName n × (own ++ 3 ∷ number ∷ 0 ∷ [] ≡ arcs_of n)) }
{
    if is_between(number, 1, 7) {
        Some(Name::Cell(Cell::Unit(number as u8 + 1)))
    } else {
        None
    }
}

/// The name of a scalar under own.
fn own_scalar_at(group: u32, number: u32) -> Option<Name>
    ensures reads { result ≡ own_scalar group number }
    ensures found { IfSome result (λ n. IsName n × (own ++ group ∷ number ∷ 0 ∷ [] ≡ arcs_of n)) }
{
    match (group, number) {
        (1, 1..=10) => Some(Name::Txn(number as u8)),
        (2, _) => status_at(number),
        (3, _) => unit_at(number),
        (4, 1) => Some(Name::Request),
        (4, 2) => Some(Name::Cancel),
        _ => None,
    }
}

/// The name of arcs under own.
#[tactic(auto, unfolding(crate::specs::Reading::own_name))]
fn own_at(arcs: &[u32]) -> Option<Name>
    ensures reads { result ≡ own_name arcs.now }
    ensures found { IfSome result (λ n. IsName n × (own ++ arcs.now ≡ arcs_of n)) }
{
    match arcs {
        [group, number, 0] => own_scalar_at(*group, *number),
        [4, 3, 1, number] if is_between(*number, 1, 10) => Some(Name::RequestState(*number as u8)),
        _ => None,
    }
}

/// The instance that has a name of these arcs.
fn name_of(arcs: &[u32]) -> Option<Name>
    ensures reads { result ≡ name_at arcs.now }
    ensures found { IfSome result (λ n. IsName n × (arcs.now ≡ arcs_of n)) }
{
    if let Some(rest) = arcs_under(&ASC, arcs) {
        return asc_at(rest);
    }
    match arcs_under(&OWN, arcs) {
        Some(rest) => own_at(rest),
        None => None,
    }
}

/// The instance that has this name. None exactly where no object has it.
pub fn cell_of(name: &Oid) -> Option<Name>
    ensures found { IfSome result (λ n. IsName n × (name.now.items ≡ arcs_of n)) }
    ensures none { IfNone result ((n : Name) → IsName n → name.now.items ≢ arcs_of n) }
    ensures each { (n : Name) → IsName n → name.now.items ≡ arcs_of n → result ≡ Some n }
    ensures reads { result ≡ name_at name.now.items }
{
    name_of(name.as_slice())
}
