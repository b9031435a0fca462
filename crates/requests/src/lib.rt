//! The messages between the master and the cabinets, and the Responses that end a request of the master (RFC 1157).
//! Nothing here takes memory.
#![tactic(auto)]

mod bindings;
mod writing;

ghost use Rattle.std.specs.Prelude.{◌≡◌};
ghost use Rattle.std.specs.List.{find};
ghost use Rattle.snmp_msg.specs.Reading.{message_of};
ghost use Rattle.sig_types.specs.Items.{texts_of};
ghost use Rattle.requests.specs.Requests.{answers, messages, status_of};
ghost use Rattle.requests.specs.Heads.{answers_by_head, status_at};

pub use bindings::{cell_at, number_at};
use sig_types::Octets;
use snmp_msg::{Head, Message, Pdu, read_head};
pub use writing::{write_get_around, write_set};

/// Whether a message is the Response to what was sent under an id.
pub fn answers(id: i32, m: &Message) -> bool
    ensures { result ≡ answers id m.now }
{
    m.pdu == Pdu::Response && m.id == id
}

/// The message that the octets of a frame are, if they are one.
pub fn message(octets: &Octets) -> Option<Message>
    ensures { result ≡ message_of octets.now.items }
{
    snmp_msg::read(octets.as_slice())
}

/// Whether a head is that of the Response to what was sent under an id.
fn is_answer(id: i32, head: Head) -> bool
    ensures { result ≡ answers_by_head id head }
{
    head.pdu == Pdu::Response && head.id == id
}

/// The status of a frame, where that is the Response to what was sent under an id.
fn status_in(octets: &Octets, id: i32) -> Option<i32>
    ensures { result ≡ status_at id octets.now.items }
{
    let head = read_head(octets.as_slice())?;
    if is_answer(id, head) {
        Some(head.status)
    } else {
        None
    }
}

/// The status of the first Response with an id among frames that have arrived.
pub fn first_status(arrived: &[Octets], id: i32) -> Option<i32>
    ensures { result ≡ status_of (find (answers id) (messages (texts_of arrived.now))) }
{
    for octets in arrived {
        if let Some(status) = status_in(octets, id) {
            return Some(status);
        }
    }
    None
}
