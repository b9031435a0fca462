//! What a Set wishes of the download stage: that a download begins, that a part is taken, a verify, or a finish.

ghost use Rattle.std.specs.Prelude.{◌≡◌, ◌≤◌, length, All, IfOk};
ghost use Rattle.sig_tables.specs.Cells.{IsCell};
ghost use Rattle.agent.specs.Bindings.{each_gives, listed};
ghost use Rattle.agent.specs.Downloads.{number_in, id_in, cell_value, put_into, put_of, begin_wish, with_puts, part_wish, verify_wish, finish_wish, step_wish, IsId, IsPut};
ghost use Rattle.agent.specs.Asks.{CanBeCarriedOut};

use crate::ask::Wish;
use crate::bindings::{BAD_VALUE, Fault, NO_SUCH_NAME};
use arrayvec::ArrayVec;
use oid_map::{Name, cell_of};
use sig_tables::{Cell, CellValue, Tables};
use snmp_msg::{Bind, Value};

/// The number from the least to the most that a value is, or the status of its fault.
fn number_in(least: u32, most: u32, value: &Value) -> Result<u32, u8>
    ensures number { result ≡ number_in least most value.now }
    ensures within { IfOk result (λ number. (least ≤ number) × (number ≤ most)) }
{
    match value {
        Value::Int(number) if 0 <= *number => {
            let number = *number as u32;
            if least <= number && number <= most {
                Ok(number)
            } else {
                Err(BAD_VALUE)
            }
        }
        _ => Err(BAD_VALUE),
    }
}

/// The id of a download.
fn id_in(value: &Value) -> Result<u32, u8>
    ensures id { result ≡ id_in value.now }
    ensures fit { IfOk result IsId }
{
    number_in(1, 2147483647, value)
}

/// What a value puts into a cell: a number from 0 on, or at most 16 octets.
fn cell_value(value: &Value) -> Option<CellValue>
    ensures { result ≡ cell_value value.now }
{
    match value {
        Value::Int(number) if 0 <= *number => Some(CellValue::Number(*number as u32)),
        Value::Octets(octets) if octets.len() <= 16 => {
            let mut held = ArrayVec::new();
            let _ = held.try_extend_from_slice(octets.as_slice());
            Some(CellValue::Octets(held))
        }
        _ => None,
    }
}

/// A cell with what is put into it, where that is allowed there; else the status of the fault.
fn put_into(cell: Cell, value: &Value) -> Result<(Cell, CellValue), u8>
    requires { IsCell cell }
    ensures put { result ≡ put_into cell (cell_value value.now) }
    ensures fit { IfOk result IsPut }
{
    match cell_value(value) {
        Some(value) if Tables::fits(cell, &value).is_ok() => Ok((cell, value)),
        _ => Err(BAD_VALUE),
    }
}

/// What one binding of a part puts into a cell, or the status of its fault.
fn put_in(bind: &Bind) -> Result<(Cell, CellValue), u8>
    ensures put { result ≡ put_of bind.now }
    ensures fit { IfOk result IsPut }
{
    match cell_of(&bind.name) {
        Some(Name::Cell(cell)) => put_into(cell, &bind.value),
        _ => Err(NO_SUCH_NAME),
    }
}

/// What the bindings of a part put into cells, in order, or the first fault. The first is at place 3.
fn puts_in(binds: &[Bind]) -> Result<ArrayVec<(Cell, CellValue), 30>, Fault>
    requires { length binds.now ≤ 30 }
    ensures puts { listed result ≡ each_gives put_of 3 binds.now }
    ensures fit { IfOk result (λ puts. All IsPut puts.items) }
{
    let mut puts = ArrayVec::new();
    for bind in binds {
        match put_in(bind) {
            Ok(put) => puts.push(put),
            Err(status) => {
                let index = puts.len() as u8 + 3;
                return Err(Fault { status, index });
            }
        }
    }
    Ok(puts)
}

/// What a Set wishes whose first binding begins a download.
pub fn begin_wish(value: &Value, others: &[Bind]) -> Wish
    ensures wish { result ≡ begin_wish (id_in value.now) others.now }
    ensures fit { CanBeCarriedOut result }
{
    match id_in(value) {
        Ok(id) if others.is_empty() => Wish::Begin(id),
        Ok(_) => Wish::Bad {
            status: NO_SUCH_NAME,
            index: 2,
        },
        Err(status) => Wish::Bad { status, index: 1 },
    }
}

/// A part of the download of an id: its number, and cells.
fn part_wish(id: u32, value: &Value, cells: &[Bind]) -> Wish
    requires id { IsId id }
    requires few { length cells.now ≤ 30 }
    ensures wish { result ≡ part_wish id (number_in 1 60000 value.now) cells.now }
    ensures fit { CanBeCarriedOut result }
{
    let number = match number_in(1, 60000, value) {
        Ok(number) => number as u16,
        Err(status) => return Wish::Bad { status, index: 2 },
    };
    match puts_in(cells) {
        Ok(puts) => Wish::Part(id, number, puts),
        Err(Fault { status, index }) => Wish::Bad { status, index },
    }
}

/// The number of all parts of the download of an id, and nothing more.
fn verify_wish(id: u32, value: &Value, others: &[Bind]) -> Wish
    requires id { IsId id }
    ensures wish { result ≡ verify_wish id (number_in 0 60000 value.now) others.now }
    ensures fit { CanBeCarriedOut result }
{
    match number_in(0, 60000, value) {
        Ok(total) if others.is_empty() => Wish::Verify(id, total as u16),
        Ok(_) => Wish::Bad {
            status: NO_SUCH_NAME,
            index: 3,
        },
        Err(status) => Wish::Bad { status, index: 2 },
    }
}

/// The end of the download of an id, and nothing more.
fn finish_wish(id: u32, value: &Value, others: &[Bind]) -> Wish
    requires id { IsId id }
    ensures wish { result ≡ finish_wish id (number_in 1 1 value.now) others.now }
    ensures fit { CanBeCarriedOut result }
{
    match number_in(1, 1, value) {
        Ok(_) if others.is_empty() => Wish::Finish(id),
        Ok(_) => Wish::Bad {
            status: NO_SUCH_NAME,
            index: 3,
        },
        Err(status) => Wish::Bad { status, index: 2 },
    }
}

/// What a Set wishes whose first binding is the id of a download.
pub fn step_wish(value: &Value, others: &[Bind]) -> Wish
    requires { length others.now ≤ 31 }
    ensures wish { result ≡ step_wish (id_in value.now) others.now }
    ensures fit { CanBeCarriedOut result }
{
    let id = match id_in(value) {
        Ok(id) => id,
        Err(status) => return Wish::Bad { status, index: 1 },
    };
    let [second, others @ ..] = others else {
        return Wish::Bad {
            status: NO_SUCH_NAME,
            index: 1,
        };
    };
    match cell_of(&second.name) {
        Some(Name::Txn(4)) => part_wish(id, &second.value, others),
        Some(Name::Txn(5)) => verify_wish(id, &second.value, others),
        Some(Name::Txn(6)) => finish_wish(id, &second.value, others),
        _ => Wish::Bad {
            status: NO_SUCH_NAME,
            index: 2,
        },
    }
}
