//! Writing a message whose bindings were written before, one by one, so that no list of them is held.

ghost use Rattle.std.specs.Prelude.{◌≡◌, ◌+◌, ◌≤◌, ◌<◌, ◌↔◌, ◌++◌, [], length, IsOk, IfOk, OnOk, OnErr};
ghost use Rattle.arrayvec.specs.ArrayVec.{array_vec_len};
ghost use Rattle.ber_code.specs.Names.{name_octets, name_text};
ghost use Rattle.ber_code.specs.Lengths.{tagged_text};
ghost use Rattle.snmp_msg.specs.Parts.{message_in};
ghost use Rattle.snmp_msg.specs.Around.{pdu_around, content_around, message_around};
ghost use Rattle.snmp_msg.specs.Shortest.{value_text, binding_text, IsWritableBind};

use crate::message::{Parts, SEQUENCE, TooLong, Value, tag};
use crate::writing::{ids_size, put_ids_of, put_value, value_size};
use ber_code::{
    Full, Oid, int_size, oid_contents_size, tagged_size, write_head, write_int, write_octets,
    write_oid_sized,
};
use sig_types::Octets;

/// How many octets the contents of a binding's name take, and all that is under the binding's tag.
fn bound_sizes(name: &Oid, value: &Value) -> (usize, usize)
    requires { IsWritableBind (record { name = name.now; value = value.now }) }
    ensures contents { result.0 ≡ length (name_octets name.now.items) }
    ensures few { result.0 ≤ 151 }
    ensures size { result.1 ≡ length (name_text name.now.items ++ value_text value.now) }
    ensures small { result.1 ≤ 314 }
{
    let contents = oid_contents_size(name);
    (contents, tagged_size(contents) + value_size(value))
}

/// Appends the shortest text of a binding of this name and value.
#[tactic(auto, unfolding(crate::specs::Shortest::binding_text))]
pub fn write_bind(name: &Oid, value: &Value, out: &mut Octets) -> Result<(), Full>
    requires { IsWritableBind (record { name = name.now; value = value.now }) }
    ensures ok { OnOk result (out.new.items ≡ out.old.items ++ binding_text (record { name = name.now; value = value.now })) }
    ensures full { OnErr result (1472 < array_vec_len out.old + length (binding_text (record { name = name.now; value = value.now }))) }
{
    let (contents, size) = bound_sizes(name, value);
    write_head(SEQUENCE, size, out)?;
    write_oid_sized(name, contents, out)?;
    put_value(value, out)
}

/// Puts a text of bindings under its tag.
fn put_list(list: &[u8], out: &mut Octets) -> Result<(), Full>
    requires { length list.now ≤ 1472 }
    ensures ok { OnOk result (out.new.items ≡ out.old.items ++ tagged_text 48 list.now) }
    ensures full { OnErr result (1472 < array_vec_len out.old + length (tagged_text 48 list.now)) }
{
    write_head(SEQUENCE, list.len(), out)?;
    match out.try_extend_from_slice(list) {
        Ok(()) => Ok(()),
        Err(_) => Err(Full),
    }
}

/// The size of what is under a PDU's tag.
fn pdu_size(m: &Parts, list: &[u8]) -> usize
    requires { length list.now ≤ 1472 }
    ensures size { result ≡ length (pdu_around (message_in m.now) list.now) }
    ensures small { result ≤ 1496 }
{
    ids_size(m.id, m.status, m.index) + tagged_size(list.len())
}

/// Puts what is under a PDU's tag.
#[tactic(auto, unfolding(crate::specs::Around::pdu_around))]
fn put_pdu(m: &Parts, list: &[u8], out: &mut Octets) -> Result<(), Full>
    requires { length list.now ≤ 1472 }
    ensures ok { OnOk result (out.new.items ≡ out.old.items ++ pdu_around (message_in m.now) list.now) }
    ensures full { OnErr result (1472 < array_vec_len out.old + length (pdu_around (message_in m.now) list.now)) }
{
    put_ids_of(m, out)?;
    put_list(list, out)
}

/// The size of what is under the message's tag, with the size of the PDU's content.
fn content_size(m: &Parts, list: &[u8], pdu: usize) -> usize
    requires pdu { pdu ≡ length (pdu_around (message_in m.now) list.now) }
    requires small { pdu ≤ 1496 }
    ensures size { result ≡ length (content_around (message_in m.now) list.now) }
    ensures small { result ≤ 1600 }
{
    int_size(0) + tagged_size(m.community.len()) + tagged_size(pdu)
}

/// Puts what is under the message's tag, with the size of the PDU's content.
#[tactic(auto, unfolding(crate::specs::Around::content_around))]
fn put_content(m: &Parts, list: &[u8], pdu: usize, out: &mut Octets) -> Result<(), Full>
    requires pdu { pdu ≡ length (pdu_around (message_in m.now) list.now) }
    requires small { pdu ≤ 1496 }
    requires list { length list.now ≤ 1472 }
    ensures ok { OnOk result (out.new.items ≡ out.old.items ++ content_around (message_in m.now) list.now) }
    ensures full { OnErr result (1472 < array_vec_len out.old + length (content_around (message_in m.now) list.now)) }
{
    write_int(0, out)?;
    write_octets(m.community.as_slice(), out)?;
    write_head(tag(m.pdu), pdu, out)?;
    put_pdu(m, list, out)
}

#[tactic(auto, unfolding(crate::specs::Around::message_around))]
fn put_message(m: &Parts, list: &[u8], out: &mut Octets) -> Result<(), Full>
    requires { length list.now ≤ 1472 }
    ensures ok { OnOk result (out.new.items ≡ out.old.items ++ message_around (message_in m.now) list.now) }
    ensures full { OnErr result (1472 < array_vec_len out.old + length (message_around (message_in m.now) list.now)) }
{
    let pdu = pdu_size(m, list);
    write_head(SEQUENCE, content_size(m, list, pdu), out)?;
    put_content(m, list, pdu, out)
}

/// Writes into an empty frame. Where the text is too long the frame is left empty.
fn put_around(m: &Parts, list: &[u8], out: &mut Octets) -> Result<(), TooLong>
    requires list { length list.now ≤ 1472 }
    requires empty { array_vec_len out.old ≡ 0 }
    ensures variant { IsOk result ↔ (length (message_around (message_in m.now) list.now) ≤ 1472) }
    ensures ok { OnOk result (out.new.items ≡ message_around (message_in m.now) list.now) }
    ensures too_long { OnErr result (out.new.items ≡ []) }
{
    match put_message(m, list, out) {
        Ok(()) => {
            prove!(out.len() <= 1472);
            Ok(())
        }
        Err(Full) => {
            out.clear();
            Err(TooLong)
        }
    }
}

/// Writes a message of these parts in its shortest form into an empty frame, with bindings whose texts, one after
/// another, are `list`, in place of its own. If the text is too long, the frame is left empty.
pub fn write_around_into(m: &Parts, list: &Octets, out: &mut Octets) -> Result<(), TooLong>
    requires { array_vec_len out.old ≡ 0 }
    ensures variant { IsOk result ↔ (length (message_around (message_in m.now) list.now.items) ≤ 1472) }
    ensures ok { OnOk result (out.new.items ≡ message_around (message_in m.now) list.now.items) }
    ensures too_long { OnErr result (out.new.items ≡ []) }
{
    put_around(m, list.as_slice(), out)
}

/// Writes a message of these parts in its shortest form, with bindings whose texts, one after another, are `list`, in place of its
/// own.
pub fn write_around_slice(m: &Parts, list: &[u8]) -> Result<Octets, TooLong>
    requires { length list.now ≤ 1472 }
    ensures variant { IsOk result ↔ (length (message_around (message_in m.now) list.now) ≤ 1472) }
    ensures ok { IfOk result (λ text. text.items ≡ message_around (message_in m.now) list.now) }
{
    let mut out = Octets::new();
    put_around(m, list, &mut out)?;
    Ok(out)
}
