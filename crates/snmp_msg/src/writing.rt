//! Writing a message in its shortest form: the sizes first, then once over the frame. A piece that
//! finds no room shows that the whole text is too long.

ghost use Rattle.std.specs.Prelude.{◌≡◌, ◌+◌, ◌*◌, ◌≤◌, ◌<◌, ◌^◌, ◌↔◌, ◌++◌, length, All, IsOk, IfOk, OnOk, OnErr};
ghost use Rattle.std.specs.List.{flat_map};
ghost use Rattle.arrayvec.specs.ArrayVec.{array_vec_len};
ghost use Rattle.ber_code.specs.Fields.{AreTexts};
ghost use Rattle.ber_code.specs.Integers.{IsInteger, integer_text};
ghost use Rattle.snmp_msg.specs.Parts.{message_in};
ghost use Rattle.snmp_msg.specs.Values.{IsValue, IsBinding};
ghost use Rattle.ber_code.specs.Names.{name_text};
ghost use Rattle.ber_code.specs.Lengths.{tagged_text};
ghost use Rattle.snmp_msg.specs.Messages.{IsPdu, IsFramed, IsMessage, tag_of};
ghost use Rattle.snmp_msg.specs.Shortest.{value_text, binding_content, binding_text, ids_text, pdu_content, message_content, shortest, IsWritableValue, IsWritableBind, IsWritableMessage};

use crate::message::{Bind, Message, Parts, SEQUENCE, TooLong, Value, tag};
use ber_code::{
    Full, int_size, oid_size, tagged_size, write_head, write_int, write_octets, write_oid,
};
use sig_types::Octets;

#[tactic(auto, unfolding(crate::specs::Shortest::value_text))]
pub(crate) fn value_size(value: &Value) -> usize
    requires { IsWritableValue value.now }
    ensures size { result ≡ length (value_text value.now) }
    ensures small { result ≤ 157 }
    ensures text { IsValue (value_text value.now) value.now }
{
    match value {
        Value::Int(number) => int_size(*number),
        Value::Octets(octets) => tagged_size(octets.len()),
        Value::Null => tagged_size(0),
        Value::Name(name) => oid_size(name),
    }
}

#[tactic(auto, unfolding(crate::specs::Shortest::value_text))]
pub(crate) fn put_value(value: &Value, out: &mut Octets) -> Result<(), Full>
    requires { IsWritableValue value.now }
    ensures ok { OnOk result (out.new.items ≡ out.old.items ++ value_text value.now) }
    ensures full { OnErr result (1472 < array_vec_len out.old + length (value_text value.now)) }
{
    match value {
        Value::Int(number) => write_int(*number, out),
        Value::Octets(octets) => write_octets(octets.as_slice(), out),
        Value::Null => write_head(5, 0, out),
        Value::Name(name) => write_oid(name, out),
    }
}

/// The size of what is under a binding's tag.
#[tactic(auto, unfolding(crate::specs::Shortest::binding_text))]
fn binding_size(bind: &Bind) -> usize
    requires { IsWritableBind bind.now }
    ensures size { result ≡ length (binding_content bind.now) }
    ensures small { result ≤ 314 }
    ensures text { IsBinding (binding_text bind.now) bind.now }
{
    oid_size(&bind.name) + value_size(&bind.value)
}

#[tactic(auto, unfolding(crate::specs::Shortest::binding_text))]
fn put_binding(bind: &Bind, out: &mut Octets) -> Result<(), Full>
    requires { IsWritableBind bind.now }
    ensures ok { OnOk result (out.new.items ≡ out.old.items ++ binding_text bind.now) }
    ensures full { OnErr result (1472 < array_vec_len out.old + length (binding_text bind.now)) }
{
    write_head(SEQUENCE, binding_size(bind), out)?;
    write_oid(&bind.name, out)?;
    put_value(&bind.value, out)
}

#[tactic(auto, unfolding(crate::specs::Shortest::binding_text))]
fn bindings_size(binds: &[Bind]) -> usize
    requires few { length binds.now ≤ 32 }
    requires writable { All IsWritableBind binds.now }
    ensures size { result ≡ length (flat_map binding_text binds.now) }
    ensures small { result ≤ 10240 }
    ensures texts { AreTexts IsBinding (flat_map binding_text binds.now) binds.now }
{
    let mut size = 0;
    for bind in binds {
        size += tagged_size(binding_size(bind));
    }
    size
}

fn put_bindings(binds: &[Bind], out: &mut Octets) -> Result<(), Full>
    requires { All IsWritableBind binds.now }
    ensures ok { OnOk result (out.new.items ≡ out.old.items ++ flat_map binding_text binds.now) }
    ensures full { OnErr result (1472 < array_vec_len out.old + length (flat_map binding_text binds.now)) }
{
    for bind in binds {
        put_binding(bind, out)?;
    }
    Ok(())
}

#[tactic(auto, unfolding(crate::specs::Shortest::ids_text))]
pub(crate) fn ids_size(id: i32, status: i32, index: i32) -> usize
    ensures size { result ≡ length (ids_text id status index) }
    ensures small { result ≤ 18 }
{
    int_size(id) + int_size(status) + int_size(index)
}

#[tactic(auto, unfolding(crate::specs::Shortest::ids_text))]
fn put_ids(id: i32, status: i32, index: i32, out: &mut Octets) -> Result<(), Full>
    ensures ok { OnOk result (out.new.items ≡ out.old.items ++ ids_text id status index) }
    ensures full { OnErr result (1472 < array_vec_len out.old + length (ids_text id status index)) }
{
    write_int(id, out)?;
    write_int(status, out)?;
    write_int(index, out)
}

/// Puts id, status and index of the message.
pub(crate) fn put_ids_of(m: &Parts, out: &mut Octets) -> Result<(), Full>
    ensures ok { OnOk result (out.new.items ≡ out.old.items ++ ids_text m.now.id m.now.status m.now.index) }
    ensures full { OnErr result (1472 < array_vec_len out.old + length (ids_text m.now.id m.now.status m.now.index)) }
{
    put_ids(m.id, m.status, m.index, out)
}

/// The size of what is under a PDU's tag, with the size of its list of bindings.
#[tactic(auto, unfolding(crate::specs::Shortest::pdu_content))]
fn pdu_size(m: &Parts, list: usize) -> usize
    requires size { list ≡ length (flat_map binding_text m.now.binds.now) }
    requires small { list ≤ 10240 }
    requires few { length m.now.binds.now ≤ 32 }
    requires texts { AreTexts IsBinding (flat_map binding_text m.now.binds.now) m.now.binds.now }
    ensures size { result ≡ length (pdu_content (message_in m.now)) }
    ensures small { result ≤ 10264 }
    ensures text { IsPdu (tagged_text (tag_of m.now.pdu) (pdu_content (message_in m.now))) (message_in m.now) }
{
    ids_size(m.id, m.status, m.index) + tagged_size(list)
}

/// Puts what is under a PDU's tag, with the size of its list of bindings.
#[tactic(auto, unfolding(crate::specs::Shortest::pdu_content))]
fn put_pdu(m: &Parts, list: usize, out: &mut Octets) -> Result<(), Full>
    requires writable { All IsWritableBind m.now.binds.now }
    requires size { list ≡ length (flat_map binding_text m.now.binds.now) }
    requires small { list ≤ 10240 }
    ensures ok { OnOk result (out.new.items ≡ out.old.items ++ pdu_content (message_in m.now)) }
    ensures full { OnErr result (1472 < array_vec_len out.old + length (pdu_content (message_in m.now))) }
{
    put_ids_of(m, out)?;
    write_head(SEQUENCE, list, out)?;
    put_bindings(m.binds, out)
}

/// Puts what is under the message's tag, with the sizes of the PDU's content and of its list.
#[tactic(auto, unfolding(crate::specs::Shortest::message_content))]
fn put_content(m: &Parts, pdu: usize, list: usize, out: &mut Octets) -> Result<(), Full>
    requires writable { All IsWritableBind m.now.binds.now }
    requires pdu { pdu ≡ length (pdu_content (message_in m.now)) }
    requires pdu_small { pdu ≤ 10264 }
    requires size { list ≡ length (flat_map binding_text m.now.binds.now) }
    requires small { list ≤ 10240 }
    ensures ok { OnOk result (out.new.items ≡ out.old.items ++ message_content (message_in m.now)) }
    ensures full { OnErr result (1472 < array_vec_len out.old + length (message_content (message_in m.now))) }
{
    write_int(0, out)?;
    write_octets(m.community.as_slice(), out)?;
    write_head(tag(m.pdu), pdu, out)?;
    put_pdu(m, list, out)
}

/// The size of what is under the message's tag, with the size of the PDU's content.
#[tactic(auto, unfolding(crate::specs::Shortest::message_content))]
fn content_size(m: &Parts, pdu: usize) -> usize
    requires pdu { pdu ≡ length (pdu_content (message_in m.now)) }
    requires small { pdu ≤ 10264 }
    requires text { IsPdu (tagged_text (tag_of m.now.pdu) (pdu_content (message_in m.now))) (message_in m.now) }
    ensures size { result ≡ length (message_content (message_in m.now)) }
    ensures small { result ≤ 10320 }
    ensures text { IsFramed (shortest (message_in m.now)) (message_in m.now) }
{
    int_size(0) + tagged_size(m.community.len()) + tagged_size(pdu)
}

#[tactic(auto, unfolding(crate::specs::Shortest::shortest))]
fn put_message(m: &Parts, out: &mut Octets) -> Result<(), Full>
    requires few { length m.now.binds.now ≤ 32 }
    requires writable { All IsWritableBind m.now.binds.now }
    ensures text { IsFramed (shortest (message_in m.now)) (message_in m.now) }
    ensures ok { OnOk result (out.new.items ≡ out.old.items ++ shortest (message_in m.now)) }
    ensures full { OnErr result (1472 < array_vec_len out.old + length (shortest (message_in m.now))) }
{
    let list = bindings_size(m.binds);
    let pdu = pdu_size(m, list);
    write_head(SEQUENCE, content_size(m, pdu), out)?;
    put_content(m, pdu, list, out)
}

/// Writes a message of these parts in its shortest form.
pub fn write_parts(m: &Parts) -> Result<Octets, TooLong>
    requires few { length m.now.binds.now ≤ 32 }
    requires writable { All IsWritableBind m.now.binds.now }
    ensures variant { IsOk result ↔ (length (shortest (message_in m.now)) ≤ 1472) }
    ensures ok { IfOk result (λ text. text.items ≡ shortest (message_in m.now)) }
    // It is a text of the message, so `read` gives the message.
    ensures again { IfOk result (λ text. IsMessage text.items (message_in m.now)) }
{
    let mut out = Octets::new();
    match put_message(m, &mut out) {
        Ok(()) => {
            prove!(out.len() <= 1472);
            Ok(out)
        }
        Err(Full) => Err(TooLong),
    }
}

/// Writes the message in its shortest form.
pub fn write(m: &Message) -> Result<Octets, TooLong>
    requires { IsWritableMessage m.now }
    ensures variant { IsOk result ↔ (length (shortest m.now) ≤ 1472) }
    ensures ok { IfOk result (λ text. text.items ≡ shortest m.now) }
    // It is a text of the message, so `read` gives the message again.
    ensures again { IfOk result (λ text. IsMessage text.items m.now) }
{
    write_parts(&Parts {
        community: &m.community,
        pdu: m.pdu,
        id: m.id,
        status: m.status,
        index: m.index,
        binds: m.binds.as_slice(),
    })
}
