//! A message as its fields.

ghost use Rattle.std.specs.Prelude.{◌≡◌, []};
ghost use Rattle.snmp_msg.specs.Messages.{tag_of};

use arrayvec::ArrayVec;
use ber_code::Oid;

/// The kind of a PDU (RFC 1157, 4.1.2 to 4.1.5).
#[derive(Clone, Copy, PartialEq, Eq)]
pub enum Pdu {
    /// GetRequest, tag A0.
    Get,
    /// GetNextRequest, tag A1.
    Next,
    /// GetResponse, tag A2.
    Response,
    /// SetRequest, tag A3.
    Set,
}

/// The value of a binding.
#[derive(Clone, PartialEq, Eq, Drop)]
pub enum Value {
    /// An INTEGER.
    Int(i32),
    /// An OCTET STRING of at most 64 octets.
    Octets(ArrayVec<u8, 64>),
    /// NULL, as a request carries it in place of a value.
    Null,
    /// An OBJECT IDENTIFIER.
    Name(Oid),
}

impl Default for Value {
    fn default() -> Value {
        Value::Null
    }
}

/// A name and its value (RFC 1157, 4.1.6: VarBind).
#[derive(Clone, Default, PartialEq, Eq, Drop)]
pub struct Bind {
    pub name: Oid,
    pub value: Value,
}

/// A message (RFC 1157, 4): community, kind, request id, error status, error index and at most 32
/// bindings.
#[derive(Clone, PartialEq, Eq, Drop)]
pub struct Message {
    pub community: ArrayVec<u8, 32>,
    pub pdu: Pdu,
    pub id: i32,
    pub status: i32,
    pub index: i32,
    pub binds: ArrayVec<Bind, 32>,
}

/// A message without its community and its bindings.
#[derive(Clone, Copy, PartialEq, Eq)]
pub struct Head {
    pub pdu: Pdu,
    pub id: i32,
    pub status: i32,
    pub index: i32,
}

impl Message {
    /// A Get without community and bindings, for `read_into`.
    pub fn blank() -> Message
        ensures community { result.community.items ≡ [] }
        ensures binds { result.binds.items ≡ [] }
    {
        Message {
            community: ArrayVec::new(),
            pdu: Pdu::Get,
            id: 0,
            status: 0,
            index: 0,
            binds: ArrayVec::new(),
        }
    }
}

/// A message to be written, whose community and bindings, at most 32, are elsewhere.
#[derive(Clone, Copy)]
pub struct Parts<'a> {
    pub community: &'a ArrayVec<u8, 32>,
    pub pdu: Pdu,
    pub id: i32,
    pub status: i32,
    pub index: i32,
    pub binds: &'a [Bind],
}

/// The shortest text of the message has more than 1,472 octets.
#[derive(Clone, Copy, PartialEq, Eq)]
pub struct TooLong;

/// The tag of SEQUENCE, and of SEQUENCE OF.
pub(crate) const SEQUENCE: u8 = 48;

/// The tag of a kind.
pub(crate) fn tag(pdu: Pdu) -> u8
    ensures { result ≡ tag_of pdu }
{
    match pdu {
        Pdu::Get => 160,
        Pdu::Next => 161,
        Pdu::Response => 162,
        Pdu::Set => 163,
    }
}
