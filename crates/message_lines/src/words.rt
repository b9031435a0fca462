//! Writing the fields of a message word by word at the end of one buffer.

ghost use Rattle.std.specs.Prelude.{◌≡◌, ◌++◌, ◌∷◌, OnOk, map, decimal};
ghost use Rattle.hex.specs.Hex.{encode_lower};
ghost use Rattle.message_lines.specs.Words.{each_behind, pdu_word, name_word, value_word, binding_word};

use snmp_msg::{Bind, Pdu, Value};
use std::alloc::{AllocError, Global};
use trace_text::{digits, hexadecimal, word};

/// A space, and the word of a kind.
pub fn pdu(out: &mut Vec<u8>, pdu: Pdu) -> Result<(), AllocError>
    ensures { OnOk result (out.new.items ≡ out.old.items ++ 32 ∷ pdu_word pdu) }
{
    match pdu {
        Pdu::Get => word(out, b"get"),
        Pdu::Next => word(out, b"next"),
        Pdu::Response => word(out, b"response"),
        Pdu::Set => word(out, b"set"),
    }
}

/// The arcs of a name, with dots between them.
fn name(out: &mut Vec<u8>, arcs: &[u32]) -> Result<(), AllocError>
    ensures { OnOk result (out.new.items ≡ out.old.items ++ name_word arcs.now) }
{
    let Some((first, later)) = arcs.split_first() else {
        return Ok(());
    };
    digits(out, *first)?;
    later_arcs(out, later)
}

/// Arcs, each after a dot.
fn later_arcs(out: &mut Vec<u8>, arcs: &[u32]) -> Result<(), AllocError>
    ensures { OnOk result (out.new.items ≡ out.old.items ++ each_behind 46 (map decimal arcs.now)) }
{
    for arc in arcs {
        out.push(b'.')?;
        digits(out, *arc)?;
    }
    Ok(())
}

/// The kind of a value, and what it holds.
fn value(alloc: Global, out: &mut Vec<u8>, value: &Value) -> Result<(), AllocError>
    ensures { OnOk result (out.new.items ≡ out.old.items ++ value_word value.now) }
{
    match value {
        Value::Int(n) => {
            out.extend_from_slice(b"int:")?;
            digits(out, *n)
        }
        Value::Octets(octets) => {
            out.extend_from_slice(b"octets:")?;
            hexadecimal(alloc, out, octets.as_slice())
        }
        Value::Null => out.extend_from_slice(b"null"),
        Value::Name(arcs) => {
            out.extend_from_slice(b"name:")?;
            name(out, arcs.as_slice())
        }
    }
}

/// The name of a binding, an equals sign, and the value.
fn binding(alloc: Global, out: &mut Vec<u8>, bind: &Bind) -> Result<(), AllocError>
    ensures { OnOk result (out.new.items ≡ out.old.items ++ binding_word bind.now) }
{
    name(out, bind.name.as_slice())?;
    out.push(b'=')?;
    value(alloc, out, &bind.value)
}

/// The bindings, each after a space.
pub fn bindings(alloc: Global, out: &mut Vec<u8>, binds: &[Bind]) -> Result<(), AllocError>
    ensures { OnOk result (out.new.items ≡ out.old.items ++ each_behind 32 (map binding_word binds.now)) }
{
    for bind in binds {
        out.push(b' ')?;
        binding(alloc, out, bind)?;
    }
    Ok(())
}
