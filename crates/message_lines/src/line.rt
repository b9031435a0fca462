//! The line that answers a line of digits.

ghost use Rattle.std.specs.Prelude.{◌≡◌, ◌≤◌, ◌++◌, ◌∷◌, [], IfOk, OnOk, length};
ghost use Rattle.std.specs.Fmt.{signed_decimal};
ghost use Rattle.hex.specs.Hex.{encode_lower};
ghost use Rattle.snmp_msg.specs.declared.message.Message.{Message};
ghost use Rattle.snmp_msg.specs.Messages.{IsMessage};
ghost use Rattle.snmp_msg.specs.Shortest.{shortest, IsWritableMessage};
ghost use Rattle.message_lines.specs.Words.{each_behind, pdu_word};
ghost use Rattle.message_lines.specs.Line.{Write, message_line, field_words, none_line};

use crate::words::{bindings, pdu};
use hex::FromHexError;
use sig_types::NoMemory;
use snmp_msg::{Message, Pdu, read, write};
use std::alloc::{AllocError, Global};
use trace_text::{hexadecimal, number};

/// The line of the message whose octets the hexadecimal digits, of either case, write: its shortest text and its
/// fields, without a newline. `none` if the octets aren't a message (RFC 1157, 4), or if these aren't only digits and
/// an even number of them. `NoMemory` if memory was refused.
pub fn line_of(alloc: Global, digits: &[u8]) -> Result<Vec<u8>, NoMemory>
    // Digits that write a message give its line.
    ensures message { IfOk result (λ line. (m : Message) → Write digits.now m → line.items ≡ message_line m) }
    // All others give `none`,
    ensures none { IfOk result (λ line. ((m : Message) → Write digits.now m → ⊥) → line.items ≡ none_line) }
    // and only they.
    ensures only { IfOk result (λ line. line.items ≡ none_line → (m : Message) → Write digits.now m → ⊥) }
{
    match line_of_digits(alloc, digits) {
        Ok(line) => Ok(line),
        Err(_) => Err(NoMemory),
    }
}

fn line_of_digits(alloc: Global, digits: &[u8]) -> Result<Vec<u8>, AllocError>
    ensures message { IfOk result (λ line. (m : Message) → Write digits.now m → line.items ≡ message_line m) }
    ensures none { IfOk result (λ line. ((m : Message) → Write digits.now m → ⊥) → line.items ≡ none_line) }
{
    match hex::decode(alloc, digits) {
        Ok(octets) => line_of_octets(alloc, &octets),
        Err(FromHexError::OutOfMemory) => Err(AllocError),
        Err(_) => none(alloc),
    }
}

/// The line of the message that all of the octets are.
fn line_of_octets(alloc: Global, octets: &[u8]) -> Result<Vec<u8>, AllocError>
    ensures message { IfOk result (λ line. (m : Message) → IsMessage octets.now m → line.items ≡ message_line m) }
    ensures none { IfOk result (λ line. ((m : Message) → IsMessage octets.now m → ⊥) → line.items ≡ none_line) }
{
    match read(octets) {
        Some(m) => line_of_message(alloc, &m),
        None => none(alloc),
    }
}

fn none(alloc: Global) -> Result<Vec<u8>, AllocError>
    ensures { IfOk result (λ line. line.items ≡ none_line) }
{
    b"none".to_vec(alloc)
}

#[tactic(auto, unfolding(crate::specs::Line::message_line))]
fn line_of_message(alloc: Global, m: &Message) -> Result<Vec<u8>, AllocError>
    requires writable { IsWritableMessage m.now }
    requires fits { length (shortest m.now) ≤ 1472 }
    ensures { IfOk result (λ line. line.items ≡ message_line m.now) }
{
    let Ok(text) = write(m) else { unreachable!() };
    let mut out = Vec::with_capacity(alloc, 512)?;
    hexadecimal(alloc, &mut out, text.as_slice())?;
    fields(alloc, &mut out, m)?;
    Ok(out)
}

/// The words of the fields, each after a space.
fn fields(alloc: Global, out: &mut Vec<u8>, m: &Message) -> Result<(), AllocError>
    ensures { OnOk result (out.new.items ≡ out.old.items ++ each_behind 32 (field_words m.now)) }
{
    heading(alloc, out, m.community.as_slice(), m.pdu)?;
    ids(out, m)?;
    bindings(alloc, out, m.binds.as_slice())
}

/// Community and kind, each after a space.
fn heading(alloc: Global, out: &mut Vec<u8>, community: &[u8], kind: Pdu) -> Result<(), AllocError>
    ensures { OnOk result (out.new.items ≡ out.old.items ++ each_behind 32 (encode_lower community.now ∷ pdu_word kind ∷ [])) }
{
    out.push(b' ')?;
    hexadecimal(alloc, out, community)?;
    pdu(out, kind)
}

/// Id, status and index, each after a space.
fn ids(out: &mut Vec<u8>, m: &Message) -> Result<(), AllocError>
    ensures { OnOk result (out.new.items ≡ out.old.items ++ each_behind 32 (signed_decimal m.now.id ∷ signed_decimal m.now.status ∷ signed_decimal m.now.index ∷ [])) }
{
    numbers(out, m.id, m.status, m.index)
}

/// Three numbers, each after a space.
fn numbers(out: &mut Vec<u8>, first: i32, second: i32, third: i32) -> Result<(), AllocError>
    ensures { OnOk result (out.new.items ≡ out.old.items ++ each_behind 32 (signed_decimal first ∷ signed_decimal second ∷ signed_decimal third ∷ [])) }
{
    number(out, first)?;
    number(out, second)?;
    number(out, third)
}
