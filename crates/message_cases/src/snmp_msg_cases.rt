//! A message too long for a frame. Which octets are a message, and how it is written, is shown next to the program
//! `message_lines`.

ghost use Rattle.ber_code.specs.Names.{IsWritable};
ghost use Rattle.snmp_msg.specs.Shortest.{IsWritableBind, IsWritableMessage};

use arrayvec::ArrayVec;
use ber_code::Oid;
use snmp_msg::*;

/// A Get of one instance, of the community `public`.
pub(crate) fn get_of(name: Oid) -> Message
    requires { IsWritable name.items }
    ensures { IsWritableMessage result }
{
    let mut community = ArrayVec::new();
    let _ = community.try_extend_from_slice(b"public");
    let mut binds = ArrayVec::new();
    binds.push(Bind {
        name,
        value: Value::Null,
    });
    Message {
        community,
        pdu: Pdu::Get,
        id: 1,
        status: 0,
        index: 0,
        binds,
    }
}

fn longest_binding() -> Bind
    ensures { IsWritableBind result }
{
    Bind {
        name: Oid::from_array_in((), [1; 32]),
        value: Value::Octets(ArrayVec::from_array_in((), [0; 64])),
    }
}

/// A Response with 32 bindings, each a name of 32 arcs and 64 octets.
fn response_without_room() -> Message
    ensures { IsWritableMessage result }
{
    let mut binds = ArrayVec::new();
    for _ in 0..32u8 {
        binds.push(longest_binding());
    }
    Message {
        community: ArrayVec::new(),
        pdu: Pdu::Response,
        id: 1,
        status: 0,
        index: 0,
        binds,
    }
}

#[test]
fn text_above_a_frame_is_too_long(rt: HostRuntime) {
    assert!(rt; matches!(write(&response_without_room()), Err(TooLong)));
}
