//! Sets: each binding is tested in order, first by its name and then by its value; the first fault counts.

ghost use Rattle.std.specs.Prelude.{◌≡◌, ◌≤◌, length, All, IfOk};
ghost use Rattle.sig_tables.specs.Cells.{lies};
ghost use Rattle.sig_tables.specs.Slots.{is_defined};
ghost use Rattle.agent.specs.Bindings.{each_gives, listed};
ghost use Rattle.agent.specs.Orders.{can_command, pattern_order, clock_order, request_in, is_in_range, request_order, cancel_order, order_of, IsFit};
ghost use Rattle.agent.specs.Asks.{direct_wish, set_wish, CanBeCarriedOut};

use crate::ask::{Order, Wish};
use crate::bindings::{BAD_VALUE, Fault, NO_SUCH_NAME};
use crate::downloads::{begin_wish, step_wish};
use arrayvec::ArrayVec;
use oid_map::{Name, cell_of};
use sig_tables::Tables;
use sig_types::Request;
use snmp_msg::{Bind, Value};

/// Whether the tables define a pattern: there is such a pattern, and it has a cycle.
fn is_defined(tables: &Tables, pattern: u8) -> bool
    ensures { result ≡ is_defined tables.now pattern }
{
    1 <= pattern && pattern <= 48 && 1 <= tables.pattern(pattern).cycle
}

/// Whether a pattern can be commanded: 0 and 254 are free operation, 255 is flash.
fn can_command(tables: &Tables, pattern: u8) -> bool
    ensures { result ≡ can_command tables.now pattern }
{
    pattern == 0 || 254 <= pattern || is_defined(tables, pattern)
}

/// Commanding a pattern.
fn pattern_to(tables: &Tables, value: &Value) -> Result<Order, u8>
    ensures order { result ≡ pattern_order tables.now value.now }
    ensures fit { IfOk result IsFit }
{
    match value {
        Value::Int(number) if 0 <= *number && *number < 256 => {
            let pattern = *number as u8;
            if can_command(tables, pattern) {
                Ok(Order::Pattern(pattern))
            } else {
                Err(BAD_VALUE)
            }
        }
        _ => Err(BAD_VALUE),
    }
}

/// Setting the clock, to 0 to 863,999.
fn clock_to(value: &Value) -> Result<Order, u8>
    ensures order { result ≡ clock_order value.now }
    ensures fit { IfOk result IsFit }
{
    match value {
        Value::Int(tick) if 0 <= *tick && *tick < 864000 => Ok(Order::Clock(*tick as u32)),
        _ => Err(BAD_VALUE),
    }
}

/// Whether a number is one of 1 to 10.
fn is_one_to_ten(number: u8) -> bool
    ensures { result ≡ lies number 1 10 }
{
    1 <= number && number <= 10
}

/// The priority request that octets are: number, class, level and phase, then arrival and departure, high octet first.
fn request_in(octets: &[u8]) -> Option<Request>
    ensures { result ≡ request_in octets.now }
{
    match octets {
        [
            number,
            class,
            level,
            phase,
            arrival,
            low_arrival,
            departure,
            low_departure,
        ] => {
            Some(Request {
                number: *number,
                class: *class,
                level: *level,
                phase: *phase,
                arrival: 256 * u16::from(*arrival) + u16::from(*low_arrival),
                departure: 256 * u16::from(*departure) + u16::from(*low_departure),
            })
        }
        _ => None,
    }
}

/// Whether the fields of a request are in their ranges, with an arrival that isn't after the departure.
fn is_in_range(request: &Request) -> bool
    ensures { result ≡ is_in_range request.now }
{
    is_one_to_ten(request.number)
        && is_one_to_ten(request.class)
        && is_one_to_ten(request.level)
        && 1 <= request.phase
        && request.phase <= 16
        && request.arrival <= request.departure
}

/// A priority request.
fn request_to(value: &Value) -> Result<Order, u8>
    ensures order { result ≡ request_order value.now }
    ensures fit { IfOk result IsFit }
{
    let Value::Octets(octets) = value else {
        return Err(BAD_VALUE);
    };
    match request_in(octets.as_slice()) {
        Some(request) if is_in_range(&request) => Ok(Order::Request(request)),
        _ => Err(BAD_VALUE),
    }
}

/// The end of a priority request, 1 to 10.
fn cancel_to(value: &Value) -> Result<Order, u8>
    ensures order { result ≡ cancel_order value.now }
    ensures fit { IfOk result IsFit }
{
    match value {
        Value::Int(number) if 1 <= *number && *number <= 10 => Ok(Order::Cancel(*number as u8)),
        _ => Err(BAD_VALUE),
    }
}

/// What one binding of a Set orders, or the status of its fault.
fn order_in(tables: &Tables, bind: &Bind) -> Result<Order, u8>
    ensures order { result ≡ order_of tables.now bind.now }
    ensures fit { IfOk result IsFit }
{
    match cell_of(&bind.name) {
        Some(Name::PatternControl) => pattern_to(tables, &bind.value),
        Some(Name::Clock) => clock_to(&bind.value),
        Some(Name::Request) => request_to(&bind.value),
        Some(Name::Cancel) => cancel_to(&bind.value),
        _ => Err(NO_SUCH_NAME),
    }
}

/// What the bindings of a Set order, in order, or the first fault.
fn orders_in(tables: &Tables, binds: &[Bind]) -> Result<ArrayVec<Order, 32>, Fault>
    requires { length binds.now ≤ 32 }
    ensures orders { listed result ≡ each_gives (order_of tables.now) 1 binds.now }
    ensures fit { IfOk result (λ orders. All IsFit orders.items) }
{
    let mut orders = ArrayVec::new();
    for bind in binds {
        match order_in(tables, bind) {
            Ok(order) => orders.push(order),
            Err(status) => {
                let index = orders.len() as u8 + 1;
                return Err(Fault { status, index });
            }
        }
    }
    Ok(orders)
}

/// What a Set wishes whose bindings are orders.
fn direct_wish(tables: &Tables, binds: &[Bind]) -> Wish
    requires { length binds.now ≤ 32 }
    ensures wish { result ≡ direct_wish (each_gives (order_of tables.now) 1 binds.now) }
    ensures fit { CanBeCarriedOut result }
{
    match orders_in(tables, binds) {
        Ok(orders) => Wish::Direct(orders),
        Err(Fault { status, index }) => Wish::Bad { status, index },
    }
}

/// What a Set with these bindings wishes: its first name says whether it is of a download.
pub fn set_wish(tables: &Tables, binds: &[Bind]) -> Wish
    requires { length binds.now ≤ 32 }
    ensures wish { result ≡ set_wish tables.now binds.now }
    ensures fit { CanBeCarriedOut result }
{
    let [first, others @ ..] = binds else {
        return direct_wish(tables, binds);
    };
    match cell_of(&first.name) {
        Some(Name::Txn(2)) => begin_wish(&first.value, others),
        Some(Name::Txn(3)) => step_wish(&first.value, others),
        _ => direct_wish(tables, binds),
    }
}
