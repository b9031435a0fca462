//! The octets of requests.

ghost use Rattle.std.specs.Prelude.{◌≡◌, ◌≤◌, List, length};
ghost use Rattle.std.specs.List.{flat_map};
ghost use Rattle.snmp_msg.specs.Shortest.{IsWritableMessage, binding_text, shortest};
ghost use Rattle.snmp_msg.specs.declared.message.Bind.{Bind};
ghost use Rattle.snmp_msg.specs.declared.message.Pdu.TheVariants.{Set};
ghost use Rattle.requests.specs.Requests.{get_text, request, set_text};

use arrayvec::ArrayVec;
use sig_types::Octets;
use snmp_msg::{Bind, Parts, Pdu, TooLong, write_around_slice, write_parts};

/// The octets of a request of these bindings.
fn write_request(pdu: Pdu, community: &ArrayVec<u8, 32>, id: i32, binds: &[Bind]) -> Octets
    requires few { length binds.now ≤ 32 }
    requires writable { IsWritableMessage (request pdu community.now.items id binds.now) }
    requires fits { length (shortest (request pdu community.now.items id binds.now)) ≤ 1472 }
    ensures { result.items ≡ shortest (request pdu community.now.items id binds.now) }
{
    match write_parts(&Parts {
        community,
        pdu,
        id,
        status: 0,
        index: 0,
        binds,
    }) {
        Ok(octets) => octets,
        Err(TooLong) => Octets::new(),
    }
}

/// The octets of a Set of these bindings.
pub fn write_set(community: &ArrayVec<u8, 32>, id: i32, binds: &[Bind]) -> Octets
    requires few { length binds.now ≤ 32 }
    requires writable { IsWritableMessage (request Set community.now.items id binds.now) }
    requires fits { length (set_text community.now.items id binds.now) ≤ 1472 }
    ensures { result.items ≡ set_text community.now.items id binds.now }
{
    write_request(Pdu::Set, community, id, binds)
}

/// The octets of a Get of bindings whose texts, one after another, are `list`.
pub fn write_get_around(community: &ArrayVec<u8, 32>, id: i32, list: &[u8]) -> Octets
    requires small { length list.now ≤ 1472 }
    ensures { (binds : List Bind) → list.now ≡ flat_map binding_text binds → length (get_text community.now.items id binds) ≤ 1472
        → result.items ≡ get_text community.now.items id binds }
{
    match write_around_slice(
        &Parts {
            community,
            pdu: Pdu::Get,
            id,
            status: 0,
            index: 0,
            binds: &[],
        },
        list,
    ) {
        Ok(octets) => octets,
        Err(TooLong) => Octets::new(),
    }
}
