//! The answer to what was asked: the values, or the status and index of the first fault with the request's bindings.

ghost use Rattle.std.specs.Prelude.{◌≡◌, ◌≤◌, ◌<◌, ◌&&◌, [], length, All, IfSome};
ghost use Rattle.ber_code.specs.Names.{IsWritable};
ghost use Rattle.snmp_msg.specs.Parts.{message_in};
ghost use Rattle.snmp_msg.specs.Shortest.{shortest, IsWritableBind, IsWritableMessage, IsWritableValue};
ghost use Rattle.agent.specs.Asks.{IsAsked};
ghost use Rattle.agent.specs.Bindings.{each_gives};
ghost use Rattle.agent.specs.Written.{Puts, Written};
ghost use Rattle.agent.specs.Seen.{IsWithin, seen};
ghost use Rattle.agent.specs.Replies.{with_value, given, response, repeated, with_values, stage_status, stage_index, told, HasOutcome, reply};

use crate::ask::{Ask, Wish};
use crate::bindings::{BAD_VALUE, Fault, GENERAL_ERROR, NO_SUCH_NAME, TOO_BIG};
use crate::cabinet::Cabinet;
use crate::values::value_named;
use ber_code::Oid;
use oid_map::next;
use sig_tables::{Shown, Tables};
use sig_types::{Octets, StageAnswer};
use snmp_msg::{
    Bind, Message, Parts, Pdu, TooLong, Value, write_around_into, write_bind, write_parts,
};

/// Which instances a request is about.
#[derive(Clone, Copy, PartialEq, Eq)]
pub enum Reach {
    /// Those that it names.
    Named,
    /// Those that come next after the names.
    Following,
}

/// Appends the text of the instance of a name with its value, if it has one, and says whether that found room; else the status of
/// the fault.
fn put_valued(name: &Oid, value: Option<Value>, list: &mut Octets) -> Result<bool, u8>
    requires name { IsWritable name.now.items }
    requires value { IfSome value IsWritableValue }
    ensures puts { Puts result list.old.items list.new.items (with_value name.now.items value) }
{
    match value {
        Some(value) => Ok(write_bind(name, &value, list).is_ok()),
        None => Err(NO_SUCH_NAME),
    }
}

/// Appends the text of the instance that a binding asks for, with its value.
fn put_given(cabinet: &Cabinet, reach: Reach, bind: &Bind, list: &mut Octets) -> Result<bool, u8>
    requires writable { IsWritableBind bind.now }
    requires within { IsWithin cabinet.now.shown.now }
    ensures puts { Puts result list.old.items list.new.items (given reach (seen cabinet.now) bind.now) }
{
    match reach {
        Reach::Named => put_valued(&bind.name, value_named(cabinet, &bind.name), list),
        Reach::Following => match next(&bind.name) {
            Some(name) => put_valued(&name, value_named(cabinet, &name), list),
            None => Err(NO_SUCH_NAME),
        },
    }
}

/// Whether all so far found room, and one more.
fn both(fits: bool, found: bool) -> bool
    ensures { result ≡ (fits && found) }
{
    fits && found
}

/// Writes the texts of the instances that the bindings ask for, with their values, up to the first fault; says whether they found room.
fn values_into(
    cabinet: &Cabinet,
    reach: Reach,
    binds: &[Bind],
    list: &mut Octets,
) -> Result<bool, Fault>
    requires few { length binds.now ≤ 32 }
    requires empty { list.old.items ≡ [] }
    requires writable { All IsWritableBind binds.now }
    requires within { IsWithin cabinet.now.shown.now }
    ensures written { Written result list.new.items (each_gives (given reach (seen cabinet.now)) 1 binds.now) }
{
    let mut fits = true;
    let mut index = 0;
    for bind in binds {
        index += 1;
        match put_given(cabinet, reach, bind, list) {
            Ok(found) => fits = both(fits, found),
            Err(status) => return Err(Fault { status, index }),
        }
    }
    Ok(fits)
}

/// The parts of the Response with the request's community and id.
fn response<'a>(m: &'a Message, status: u8, index: u8, binds: &'a [Bind]) -> Parts<'a>
    ensures message { message_in result ≡ response m.now status index binds.now }
    ensures binds { result.binds.now ≡ binds.now }
{
    Parts {
        community: &m.community,
        pdu: Pdu::Response,
        id: m.id,
        status: i32::from(status),
        index: i32::from(index),
        binds,
    }
}

/// The Response that repeats the request's bindings. It fits into a frame, as the request did.
fn repeated(m: &Message, status: u8, index: u8) -> Octets
    requires writable { IsWritableMessage m.now }
    requires fits { length (shortest m.now) ≤ 1472 }
    requires few_statuses { status < 128 }
    requires few_places { index < 128 }
    ensures { result.items ≡ shortest (repeated m.now status index) }
{
    match write_parts(&response(m, status, index, m.binds.as_slice())) {
        Ok(octets) => octets,
        Err(TooLong) => unreachable!(),
    }
}

/// The answer to a Get or a GetNext: the Response with the values, or with the request's bindings where one has a fault or the
/// values find no room.
fn reached(cabinet: &Cabinet, reach: Reach, m: &Message) -> Octets
    requires writable { IsWritableMessage m.now }
    requires fits { length (shortest m.now) ≤ 1472 }
    requires within { IsWithin cabinet.now.shown.now }
    ensures { result.items ≡ shortest (with_values m.now (each_gives (given reach (seen cabinet.now)) 1 m.now.binds.items)) }
{
    let mut list = Octets::new();
    match values_into(cabinet, reach, m.binds.as_slice(), &mut list) {
        Ok(true) => {
            let mut text = Octets::new();
            match write_around_into(&response(m, 0, 0, &[]), &list, &mut text) {
                Ok(()) => text,
                Err(TooLong) => repeated(m, TOO_BIG, 0),
            }
        }
        Ok(false) => repeated(m, TOO_BIG, 0),
        Err(Fault { status, index }) => repeated(m, status, index),
    }
}

/// The status that says what the download stage answered (RFC 1157, 4.1.1).
fn stage_status(answer: StageAnswer) -> u8
    ensures status { result ≡ stage_status answer }
    ensures small { result < 128 }
{
    match answer {
        StageAnswer::WrongToken | StageAnswer::WrongPart(_) => BAD_VALUE,
        StageAnswer::NotVerified | StageAnswer::Refused(_) => GENERAL_ERROR,
        _ => 0,
    }
}

/// The place of the binding at fault in what the download stage answered: the id, or what follows it.
fn stage_index(answer: StageAnswer) -> u8
    ensures place { result ≡ stage_index answer }
    ensures small { result < 128 }
{
    match answer {
        StageAnswer::WrongToken => 1,
        StageAnswer::WrongPart(_) | StageAnswer::NotVerified | StageAnswer::Refused(_) => 2,
        _ => 0,
    }
}

/// The Response to a Set, which says what the download stage answered where it was called.
fn told(m: &Message, outcome: Option<StageAnswer>) -> Octets
    requires writable { IsWritableMessage m.now }
    requires fits { length (shortest m.now) ≤ 1472 }
    ensures { result.items ≡ shortest (told m.now outcome) }
{
    match outcome {
        Some(answer) => repeated(m, stage_status(answer), stage_index(answer)),
        None => repeated(m, 0, 0),
    }
}

/// The answer to what was asked, as octets in their shortest form. `state` and `last` are those of the cabinet's download
/// stage; `outcome` is what the stage answered, where what was asked is for it.
#[tactic(auto, using(crate::proofs::Asked::asked_fits, crate::proofs::Asked::asked_writable))]
pub fn answer(
    ask: &Ask,
    tables: &Tables,
    shown: &Shown,
    state: u8,
    last: Option<StageAnswer>,
    outcome: Option<StageAnswer>,
) -> Octets
    requires asked { IsAsked ask.now }
    requires within { IsWithin shown.now }
    requires outcome { HasOutcome ask.now.wish outcome }
    ensures { result.items ≡ shortest (reply (record { tables = tables.now; shown = shown.now; state = state; last = last }) ask.now.message ask.now.wish outcome) }
{
    let cabinet = Cabinet {
        tables,
        shown,
        state,
        last,
    };
    let m = &ask.message;
    match &ask.wish {
        Wish::Get => reached(&cabinet, Reach::Named, m),
        Wish::Next => reached(&cabinet, Reach::Following, m),
        Wish::Bad { status, index } => repeated(m, *status, *index),
        _ => told(m, outcome),
    }
}
