//! The bindings of a request (RFC 1157, 4.1.6): an instance with a number, with the value of a cell, or only named.

ghost use Rattle.std.specs.Prelude.{◌≡◌, ◌<◌};
ghost use Rattle.snmp_msg.specs.Shortest.{IsWritableBind, IsWritableValue};
ghost use Rattle.oid_map.specs.Names.{IsName};
ghost use Rattle.oid_map.specs.declared.names.Name.{Name};
ghost use Rattle.sig_tables.specs.Cells.{IsCell, IsShort, content_of};
ghost use Rattle.requests.specs.Requests.{bound, number_at, value_of};

use arrayvec::ArrayVec;
use oid_map::{Name, oid_of};
use sig_tables::{Cell, CellValue};
use snmp_msg::{Bind, Value};

/// An instance with a value.
fn bound(name: Name, value: Value) -> Bind
    requires name { IsName name }
    requires value { IsWritableValue value }
    ensures bound { result ≡ bound name value }
    ensures writable { IsWritableBind result }
{
    Bind {
        name: oid_of(name),
        value,
    }
}

/// An instance with a number, an INTEGER of 32 bits that is not negative.
pub fn number_at(name: Name, number: u32) -> Bind
    requires name { IsName name }
    requires number { number < 2147483648 }
    ensures bound { result ≡ number_at name number }
    ensures writable { IsWritableBind result }
{
    bound(name, Value::Int(number as i32))
}

/// What is in a cell, as a value.
fn cell_value(content: &CellValue) -> Value
    requires short { IsShort (content_of content.now) }
    ensures value { result ≡ value_of (content_of content.now) }
    ensures writable { IsWritableValue result }
{
    match content {
        CellValue::Number(number) => Value::Int(*number as i32),
        CellValue::Octets(octets) => {
            let mut held = ArrayVec::new();
            let _ = held.try_extend_from_slice(octets.as_slice());
            Value::Octets(held)
        }
    }
}

/// A cell of the tables with its new value.
pub fn cell_at(cell: Cell, content: &CellValue) -> Bind
    requires cell { IsCell cell }
    requires short { IsShort (content_of content.now) }
    ensures bound { result ≡ bound (Name.Cell cell) (value_of (content_of content.now)) }
    ensures writable { IsWritableBind result }
{
    bound(Name::Cell(cell), cell_value(content))
}
