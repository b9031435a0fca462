//! Reading the head of a message: once over the octets, as `read` does, but its bindings are only looked at. So no room for them
//! is made.

ghost use Rattle.std.specs.Prelude.{◌≡◌, is_some};
ghost use Rattle.std.specs.Option.{option_map};
ghost use Rattle.ber_code.specs.Reading.{Gives, all_at};
ghost use Rattle.snmp_msg.specs.Reading.{binding_at, message_of};
ghost use Rattle.snmp_msg.specs.Heads.{head_of, head_fields_at, head_pdu_at, head_content_of, head_at};

use crate::message::{Bind, Head, Pdu, SEQUENCE, tag};
use crate::reading::{binding_into, kind_of_tag};
use ber_code::{read_int, read_octets, read_tagged};

/// Whether octets are a list of at most 32 bindings, up to its end.
fn are_bindings(bytes: &[u8]) -> bool
    ensures { result ≡ is_some (all_at binding_at 32 bytes.now) }
{
    let mut bind = Bind::default();
    let mut rest = bytes;
    for _ in 0..32u8 {
        if rest.is_empty() {
            return true;
        }
        match binding_into(rest, &mut bind) {
            Some(after) => rest = after,
            None => return false,
        }
    }
    rest.is_empty()
}

/// Reads a PDU of a kind.
#[tactic(auto, unfolding(crate::specs::Heads::head_fields_at))]
fn fields_of(bytes: &[u8], pdu: Pdu) -> Option<(Head, &[u8])>
    ensures { Gives (λ r. (r.0, r.1.now)) result (head_fields_at pdu bytes.now) }
{
    let (content, after) = read_tagged(tag(pdu), bytes)?;
    let (id, rest) = read_int(content)?;
    let (status, rest) = read_int(rest)?;
    let (index, rest) = read_int(rest)?;
    let (list, rest) = read_tagged(SEQUENCE, rest)?;
    if !are_bindings(list) || !rest.is_empty() {
        return None;
    }
    let head = Head {
        pdu,
        id,
        status,
        index,
    };
    Some((head, after))
}

/// Reads a PDU of any kind.
#[tactic(auto, unfolding(crate::specs::Heads::head_pdu_at))]
fn pdu_of(bytes: &[u8]) -> Option<(Head, &[u8])>
    ensures { Gives (λ r. (r.0, r.1.now)) result (head_pdu_at bytes.now) }
{
    match bytes {
        [] => None,
        [tag, ..] => {
            let pdu = kind_of_tag(*tag)?;
            fields_of(bytes, pdu)
        }
    }
}

/// Reads what is under the message's tag.
#[tactic(auto, unfolding(crate::specs::Heads::head_content_of))]
fn content_of(content: &[u8]) -> Option<Head>
    ensures { result ≡ head_content_of content.now }
{
    let (version, rest) = read_int(content)?;
    let (octets, rest) = read_octets(rest)?;
    if version != 0 || octets.len() > 32 {
        return None;
    }
    let (head, rest) = pdu_of(rest)?;
    if rest.is_empty() { Some(head) } else { None }
}

#[tactic(auto, unfolding(crate::specs::Heads::head_at))]
fn head_in(bytes: &[u8]) -> Option<Head>
    ensures { result ≡ head_at bytes.now }
{
    if bytes.len() > 1472 {
        return None;
    }
    let (content, rest) = read_tagged(SEQUENCE, bytes)?;
    if !rest.is_empty() {
        return None;
    }
    content_of(content)
}

/// Reads the head of the message that all of the octets are.
pub fn read_head(bytes: &[u8]) -> Option<Head>
    ensures { result ≡ option_map head_of (message_of bytes.now) }
{
    head_in(bytes)
}
