//! The value of each instance that can be read.

ghost use Rattle.std.specs.Prelude.{◌≡◌, ◌≤◌, ◌<◌, IfSome, Option, Some};
ghost use Rattle.oid_map.specs.Names.{IsName};
ghost use Rattle.sig_tables.specs.Cells.{IsShort, content_of};
ghost use Rattle.snmp_msg.specs.Shortest.{IsWritableValue};
ghost use Rattle.agent.specs.Seen.{IsWithin, seen};
ghost use Rattle.agent.specs.Values.{content_value, pattern_status, mode_code, outcome_code, outcome_detail, outcome_row, download_number, number_of, value_of, value_named};

use crate::cabinet::Cabinet;
use crate::groups::group_octet;
use arrayvec::ArrayVec;
use ber_code::Oid;
use oid_map::{Name, cell_of};
use sig_tables::CellValue;
use sig_types::{Mode, StageAnswer};
use snmp_msg::Value;

/// What is in a cell, as a value.
fn content_value(content: &CellValue) -> Value
    requires { IsShort (content_of content.now) }
    ensures { result ≡ content_value (content_of content.now) }
{
    match content {
        CellValue::Number(number) => Value::Int(*number as i32),
        CellValue::Octets(octets) => {
            let mut held = ArrayVec::new();
            let _ = held.try_extend_from_slice(octets.as_slice());
            Value::Octets(held)
        }
    }
}

/// The number of the pattern that is run; 255 is flash, 254 everything else.
fn pattern_status(mode: Mode) -> u8
    ensures { result ≡ pattern_status mode }
{
    match mode {
        Mode::Seek(pattern) | Mode::Coord(pattern) => pattern,
        Mode::Flash => 255,
        _ => 254,
    }
}

/// The mode as a number, 1 to 10.
fn mode_code(mode: Mode) -> u8
    ensures { result ≡ mode_code mode }
{
    match mode {
        Mode::Start => 1,
        Mode::Free => 2,
        Mode::Seek(_) => 3,
        Mode::Coord(_) => 4,
        Mode::Ending => 5,
        Mode::Flash => 6,
        Mode::Entry(_) => 7,
        Mode::Track(_) => 8,
        Mode::Dwell(_) => 9,
        Mode::Exit(_) => 10,
    }
}

/// The last outcome of the download stage as a number, 0 to 8.
fn outcome_code(last: Option<StageAnswer>) -> u8
    ensures { result ≡ outcome_code last }
{
    match last {
        None => 0,
        Some(StageAnswer::Staged) => 1,
        Some(StageAnswer::Repeated) => 2,
        Some(StageAnswer::Verified) => 3,
        Some(StageAnswer::Accepted) => 4,
        Some(StageAnswer::WrongToken) => 5,
        Some(StageAnswer::WrongPart(_)) => 6,
        Some(StageAnswer::NotVerified) => 7,
        Some(StageAnswer::Refused(_)) => 8,
    }
}

/// The part that was expected, or the rule that is broken; else 0.
fn outcome_detail(last: Option<StageAnswer>) -> u16
    ensures { result ≡ outcome_detail last }
{
    match last {
        Some(StageAnswer::WrongPart(due)) => due,
        Some(StageAnswer::Refused(broken)) => u16::from(broken.rule),
        _ => 0,
    }
}

/// The row at which a rule is broken; else 0.
fn outcome_row(last: Option<StageAnswer>) -> u16
    ensures { result ≡ outcome_row last }
{
    match last {
        Some(StageAnswer::Refused(broken)) => broken.row,
        _ => 0,
    }
}

/// A value of the download: 1 its state, 7 to 9 the last outcome, 10 the version. None for those that are only written.
fn download_number(cabinet: &Cabinet, number: u8) -> Option<u32>
    requires within { IsWithin cabinet.now.shown.now }
    ensures number { result ≡ download_number (seen cabinet.now) number }
    ensures small { IfSome result (λ number. number ≤ 2147483647) }
{
    match number {
        1 => Some(u32::from(cabinet.state)),
        7 => Some(u32::from(outcome_code(cabinet.last))),
        8 => Some(u32::from(outcome_detail(cabinet.last))),
        9 => Some(u32::from(outcome_row(cabinet.last))),
        10 => Some(cabinet.shown.version),
        _ => None,
    }
}

/// The number that an instance holds which is not a cell. None where it can only be written.
fn number_of(cabinet: &Cabinet, name: Name) -> Option<u32>
    requires name { IsName name }
    requires within { IsWithin cabinet.now.shown.now }
    ensures number { result ≡ number_of (seen cabinet.now) name }
    ensures small { IfSome result (λ number. number ≤ 2147483647) }
{
    let shown = cabinet.shown;
    match name {
        Name::Index {
            column,
            row,
            sub,
            ..
        } => Some(u32::from(if column == 2 { sub } else { row })),
        Name::Group { column, group } => Some(group_octet(shown, column, group)),
        Name::PatternStatus => Some(u32::from(pattern_status(shown.frame.mode))),
        Name::PatternControl => Some(u32::from(shown.command)),
        Name::Txn(number) => download_number(cabinet, number),
        Name::Clock => Some(shown.clock),
        Name::Counter => Some(shown.frame.counter),
        Name::Target => Some(shown.frame.target),
        Name::ModeCode => Some(u32::from(mode_code(shown.frame.mode))),
        Name::RequestState(number) => Some(u32::from(shown.requests[number as usize - 1])),
        Name::Cell(_) | Name::Request | Name::Cancel => None,
    }
}

/// The value of an instance. None where it can only be written.
fn value_of(cabinet: &Cabinet, name: Name) -> Option<Value>
    requires name { IsName name }
    requires within { IsWithin cabinet.now.shown.now }
    ensures value { result ≡ value_of (seen cabinet.now) name }
    ensures writable { IfSome result IsWritableValue }
{
    match name {
        Name::Cell(cell) => Some(content_value(&cabinet.tables.get(cell))),
        _ => {
            let number = number_of(cabinet, name)?;
            Some(Value::Int(number as i32))
        }
    }
}

/// The value of the instance that has this name. None where there is none that can be read.
pub fn value_named(cabinet: &Cabinet, name: &Oid) -> Option<Value>
    requires within { IsWithin cabinet.now.shown.now }
    ensures value { result ≡ value_named (seen cabinet.now) name.now.items }
    ensures writable { IfSome result IsWritableValue }
{
    let name = cell_of(name)?;
    value_of(cabinet, name)
}
