//! Reading a message: once over the octets, field by field, into the one message that is returned. A
//! call that reads a part returns the octets after it; where it returns nothing, so does `read`, and
//! what was read up to there is dropped.

ghost use Rattle.std.specs.Prelude.{◌≡◌, ◌≤◌, List, [], length, IfSome, IfNone, OnSome, Some};
ghost use Rattle.arrayvec.specs.ArrayVec.{array_vec_len};
ghost use Rattle.ber_code.specs.Reading.{Gives, all_at};
ghost use Rattle.snmp_msg.specs.Messages.{IsMessage};
ghost use Rattle.snmp_msg.specs.Shortest.{IsWritableMessage, shortest};
ghost use Rattle.snmp_msg.specs.declared.message.Message.{Message};
ghost use Rattle.snmp_msg.specs.Reading.{octets_at, null_at, value_at, binding_at, kind_of, fields_at, pdu_at, content_of, message_of};

use crate::message::{Bind, Message, Pdu, SEQUENCE, Value, tag};
use arrayvec::ArrayVec;
use ber_code::{Oid, read_int, read_octets, read_oid_into, read_tagged};

#[tactic(auto, unfolding(crate::specs::Reading::octets_at))]
fn octets_into<'a>(bytes: &'a [u8], value: &mut Value) -> Option<&'a [u8]>
    ensures { Gives (λ rest. (value.new, rest.now)) result (octets_at bytes.now) }
{
    let (octets, rest) = read_octets(bytes)?;
    if octets.len() > 64 {
        return None;
    }
    let mut held = ArrayVec::new();
    let _ = held.try_extend_from_slice(octets);
    *value = Value::Octets(held);
    Some(rest)
}

#[tactic(auto, unfolding(crate::specs::Reading::null_at))]
fn null_into<'a>(bytes: &'a [u8], value: &mut Value) -> Option<&'a [u8]>
    ensures { Gives (λ rest. (value.new, rest.now)) result (null_at bytes.now) }
{
    let (nothing, rest) = read_tagged(5, bytes)?;
    if !nothing.is_empty() {
        return None;
    }
    *value = Value::Null;
    Some(rest)
}

#[tactic(auto, unfolding(crate::specs::Reading::value_at))]
fn value_into<'a>(bytes: &'a [u8], value: &mut Value) -> Option<&'a [u8]>
    ensures { Gives (λ rest. (value.new, rest.now)) result (value_at bytes.now) }
{
    match bytes {
        [2, ..] => {
            let (number, rest) = read_int(bytes)?;
            *value = Value::Int(number);
            Some(rest)
        }
        [4, ..] => octets_into(bytes, value),
        [5, ..] => null_into(bytes, value),
        [6, ..] => {
            let mut name = Oid::new();
            let rest = read_oid_into(bytes, &mut name)?;
            *value = Value::Name(name);
            Some(rest)
        }
        _ => None,
    }
}

#[tactic(auto, unfolding(crate::specs::Reading::binding_at))]
pub(crate) fn binding_into<'a>(bytes: &'a [u8], bind: &mut Bind) -> Option<&'a [u8]>
    ensures { Gives (λ rest. (bind.new, rest.now)) result (binding_at bytes.now) }
{
    let (content, after) = read_tagged(SEQUENCE, bytes)?;
    let rest = read_oid_into(content, &mut bind.name)?;
    let rest = value_into(rest, &mut bind.value)?;
    if rest.is_empty() { Some(after) } else { None }
}

/// Reads the bindings of a list, up to its end.
fn bindings_into(bytes: &[u8], binds: &mut ArrayVec<Bind, 32>) -> Option<()>
    requires { array_vec_len binds.old ≡ 0 }
    ensures { Gives (λ _. binds.new.items) result (all_at binding_at 32 bytes.now) }
{
    let mut rest = bytes;
    for _ in 0..32u8 {
        if rest.is_empty() {
            return Some(());
        }
        let mut bind = Bind::default();
        rest = binding_into(rest, &mut bind)?;
        binds.push(bind);
    }
    if rest.is_empty() { Some(()) } else { None }
}

/// The kind that a tag names.
#[tactic(auto, unfolding(crate::specs::Reading::kind_of))]
pub(crate) fn kind_of_tag(tag: u8) -> Option<Pdu>
    ensures { result ≡ kind_of tag }
{
    match tag {
        160 => Some(Pdu::Get),
        161 => Some(Pdu::Next),
        162 => Some(Pdu::Response),
        163 => Some(Pdu::Set),
        _ => None,
    }
}

/// Reads the PDU, of the kind that the message has, and the bindings of an empty list.
#[tactic(auto, unfolding(crate::specs::Reading::fields_at))]
fn fields_into<'a>(bytes: &'a [u8], m: &mut Message) -> Option<&'a [u8]>
    requires { array_vec_len m.old.binds ≡ 0 }
    ensures { Gives (λ rest. (m.new, rest.now)) result (fields_at m.old.community.items m.old.pdu bytes.now) }
{
    let (content, after) = read_tagged(tag(m.pdu), bytes)?;
    let (id, rest) = read_int(content)?;
    let (status, rest) = read_int(rest)?;
    let (index, rest) = read_int(rest)?;
    let (list, rest) = read_tagged(SEQUENCE, rest)?;
    bindings_into(list, &mut m.binds)?;
    m.id = id;
    m.status = status;
    m.index = index;
    if rest.is_empty() { Some(after) } else { None }
}

/// Reads the PDU of any kind.
#[tactic(auto, unfolding(crate::specs::Reading::pdu_at))]
fn pdu_into<'a>(bytes: &'a [u8], m: &mut Message) -> Option<&'a [u8]>
    requires { array_vec_len m.old.binds ≡ 0 }
    ensures { Gives (λ rest. (m.new, rest.now)) result (pdu_at m.old.community.items bytes.now) }
{
    match bytes {
        [] => None,
        [tag, ..] => {
            m.pdu = kind_of_tag(*tag)?;
            fields_into(bytes, m)
        }
    }
}

/// Reads what is under the message's tag.
#[tactic(auto, unfolding(crate::specs::Reading::content_of))]
fn content_into(content: &[u8], m: &mut Message) -> Option<()>
    requires community { array_vec_len m.old.community ≡ 0 }
    requires binds { array_vec_len m.old.binds ≡ 0 }
    ensures { Gives (λ _. m.new) result (content_of content.now) }
{
    let (version, rest) = read_int(content)?;
    let (octets, rest) = read_octets(rest)?;
    if version != 0 || octets.len() > 32 {
        return None;
    }
    let _ = m.community.try_extend_from_slice(octets);
    let rest = pdu_into(rest, m)?;
    if rest.is_empty() { Some(()) } else { None }
}

#[tactic(auto, unfolding(crate::specs::Reading::message_of, crate::specs::Reading::framed_at))]
fn message_into(bytes: &[u8], m: &mut Message) -> Option<()>
    requires community { array_vec_len m.old.community ≡ 0 }
    requires binds { array_vec_len m.old.binds ≡ 0 }
    ensures { Gives (λ _. m.new) result (message_of bytes.now) }
{
    if bytes.len() > 1472 {
        return None;
    }
    let (content, rest) = read_tagged(SEQUENCE, bytes)?;
    if !rest.is_empty() {
        return None;
    }
    content_into(content, m)
}

/// Reads the message that all of the octets are into a blank one. Where they are none, what was read of it is left there.
pub fn read_into(bytes: &[u8], m: &mut Message) -> Option<()>
    requires community { array_vec_len m.old.community ≡ 0 }
    requires binds { array_vec_len m.old.binds ≡ 0 }
    // What is read was there.
    ensures found { OnSome result (IsMessage bytes.now m.new) }
    // Nothing is read only where no message is.
    ensures none { IfNone result ((other : Message) → IsMessage bytes.now other → ⊥) }
    ensures reads { Gives (λ _. m.new) result (message_of bytes.now) }
    // What is read can be written, and `write` finds room for it.
    ensures writable { OnSome result (IsWritableMessage m.new) }
    ensures fits { OnSome result (length (shortest m.new) ≤ 1472) }
{
    message_into(bytes, m)
}

/// Reads the message that all of the octets are.
pub fn read(bytes: &[u8]) -> Option<Message>
    // What is read was there.
    ensures found { IfSome result (λ m. IsMessage bytes.now m) }
    // Nothing is read only where no message is.
    ensures none { IfNone result ((m : Message) → IsMessage bytes.now m → ⊥) }
    // Each message is read as itself, as is what `write` made of it.
    ensures each { (m : Message) → IsMessage bytes.now m → result ≡ Some m }
    // What is read can be written, and `write` finds room for it.
    ensures writable { IfSome result IsWritableMessage }
    ensures fits { IfSome result (λ m. length (shortest m) ≤ 1472) }
{
    let mut m = Message::blank();
    message_into(bytes, &mut m)?;
    Some(m)
}
