//! The priority requests of a scenario as the frames that carry them (after NTCIP 1211).

ghost use Rattle.std.specs.Prelude.{ℕ, pos, ◌≡◌, ◌≤◌, ◌++◌, ◌∷◌, [], length, slice_get, OnOk};
ghost use Rattle.sig_types.specs.Items.{texts_of};
ghost use Rattle.requests.specs.Requests.{bound, number_at, set_text};
ghost use Rattle.link_sim.specs.Agenda.{made, made_at};
ghost use Rattle.link_sim.specs.Made.{request_made};
ghost use Rattle.link_sim.specs.Priority.{act_bind, request_octets};

use crate::Due;
use arrayvec::ArrayVec;
use oid_map::{Name, oid_of};
use requests::write_set;
use scenario_data::{PriorityAct, PriorityItem};
use sig_types::{Octets, Request};
use snmp_msg::{Bind, Value};
use std::alloc::AllocError;

/// A request as eight octets.
fn request_octets(request: Request) -> ArrayVec<u8, 64>
    ensures { result.items ≡ request_octets request }
{
    let octets = [
        request.number,
        request.class,
        request.level,
        request.phase,
        (request.arrival / 256) as u8,
        (request.arrival % 256) as u8,
        (request.departure / 256) as u8,
        (request.departure % 256) as u8,
    ];
    let mut copy = ArrayVec::new();
    let _ = copy.try_extend_from_slice(octets.as_slice());
    copy
}

/// What a request or a cancel sets.
fn act_bind(act: PriorityAct) -> Bind
    ensures { result ≡ act_bind act }
{
    match act {
        PriorityAct::Request(request) => Bind {
            name: oid_of(Name::Request),
            value: Value::Octets(request_octets(request)),
        },
        PriorityAct::Cancel(number) => Bind {
            name: oid_of(Name::Cancel),
            value: Value::Int(i32::from(number)),
        },
    }
}

/// The one binding of the frame of a request or a cancel.
fn act_binds(act: PriorityAct) -> [Bind; 1]
    ensures { result ≡ act_bind act ∷ [] }
{
    [act_bind(act)]
}

/// The frame that carries a request or a cancel under an id.
fn act_text(community: &ArrayVec<u8, 32>, id: i32, act: PriorityAct) -> Octets
    ensures { result.items ≡ set_text community.now.items id (act_bind act ∷ []) }
{
    let binds = act_binds(act);
    prove!(community.len() <= 32);
    write_set(community, id, &binds)
}

/// Appends the frame of the request at a place of the scenario's list.
fn push_request(
    out: &mut Vec<Octets>,
    community: &ArrayVec<u8, 32>,
    items: &[PriorityItem],
    place: usize,
) -> Result<(), AllocError>
    requires few { length items.now ≤ 100000 }
    ensures { OnOk result (texts_of out.new.items ≡ texts_of out.old.items ++ made_at (request_made community.now.items) place (slice_get items.now place)) }
{
    if items.len() <= place {
        return Ok(());
    }
    let id = 2_000_000_000 + place as i32;
    out.push(act_text(community, id, items[place].act))?;
    Ok(())
}

/// Appends the frames of these requests of the scenario's list.
pub(crate) fn push_requests(
    out: &mut Vec<Octets>,
    community: &ArrayVec<u8, 32>,
    items: &[PriorityItem],
    dues: &[Due],
) -> Result<(), AllocError>
    requires few { length items.now ≤ 100000 }
    ensures { OnOk result (texts_of out.new.items ≡ texts_of out.old.items ++ made (request_made community.now.items) items.now dues.now) }
{
    for due in dues {
        push_request(out, community, items, due.place)?;
    }
    Ok(())
}
