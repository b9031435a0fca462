//! What a frame asks: a Get, a GetNext, or a Set that gives orders or continues with a download. A Set with a fault is
//! answered with the first one.

ghost use Rattle.std.specs.Prelude.{◌≡◌, ◌↔◌, [], IsTrue, IfSome, IfNone, OnSome, Some};
ghost use Rattle.arrayvec.specs.ArrayVec.{array_vec_len};
ghost use Rattle.ber_code.specs.Reading.{Gives};
ghost use Rattle.agent.specs.Asks.{wish_of, ask_of, Asks, IsAsked, CanBeCarriedOut};

use crate::sets::set_wish;
use arrayvec::ArrayVec;
use sig_tables::{Cell, CellValue, Tables};
use sig_types::Request;
use snmp_msg::{Message, Pdu, read_into};

/// What a Set orders of the cabinet.
#[derive(Clone, Copy, PartialEq, Eq)]
pub enum Order {
    /// Run the pattern of this number, which the tables define; 0 and 254 are free operation, 255 is flash.
    Pattern(u8),
    /// Set the clock to this tick of the day, 0 to 863,999.
    Clock(u32),
    /// A priority request.
    Request(Request),
    /// End the priority request of this number, 1 to 10.
    Cancel(u8),
}

impl Default for Order {
    fn default() -> Order
        ensures { result ≡ Order.Pattern 0 }
    {
        Order::Pattern(0)
    }
}

/// What a message wishes.
#[derive(Clone, PartialEq, Eq, Drop)]
pub enum Wish {
    /// The values of instances.
    Get,
    /// The values of the instances that come next.
    Next,
    /// Orders, to be carried out in order.
    Direct(ArrayVec<Order, 32>),
    /// That a download begins under this id, 1 to 2,147,483,647.
    Begin(u32),
    /// That this part, 1 to 60,000, of the download of this id is taken: the cells with what is put into them.
    Part(u32, u16, ArrayVec<(Cell, CellValue), 30>),
    /// That the download with this id, which has this number of parts, 0 to 60,000, is verified.
    Verify(u32, u16),
    /// That the download of this id is put in force.
    Finish(u32),
    /// Nothing that can be carried out: the status and the index of the first fault (RFC 1157, 4.1.1).
    Bad { status: u8, index: u8 },
}

/// A message and what it wishes.
#[derive(Clone, PartialEq, Eq, Drop)]
pub struct Ask {
    pub message: Message,
    pub wish: Wish,
}

/// What the message wishes. None exactly for a Response.
fn wish_in(tables: &Tables, m: &Message) -> Option<Wish>
    ensures wish { result ≡ wish_of tables.now m.now.pdu m.now.binds.items }
    ensures fit { IfSome result CanBeCarriedOut }
{
    match m.pdu {
        Pdu::Get => Some(Wish::Get),
        Pdu::Next => Some(Wish::Next),
        Pdu::Set => Some(set_wish(tables, m.binds.as_slice())),
        Pdu::Response => None,
    }
}

/// Whether the message is of this community.
fn is_of(message: &Message, community: &[u8]) -> bool
    ensures { IsTrue result ↔ (message.now.community.items ≡ community.now) }
{
    message.community.as_slice() == community
}

impl Ask {
    /// A Get of nothing, for `decode_into`.
    pub fn blank() -> Ask
        ensures community { result.message.community.items ≡ [] }
        ensures binds { result.message.binds.items ≡ [] }
    {
        Ask {
            message: Message::blank(),
            wish: Wish::Get,
        }
    }
}

/// Reads what a frame asks of a cabinet of this community with these tables in force into a blank ask. None exactly if
/// the frame isn't a message, is of another community, or is a Response; what was read of it is then left there.
pub fn decode_into(frame: &[u8], community: &[u8], tables: &Tables, ask: &mut Ask) -> Option<()>
    requires community { array_vec_len ask.old.message.community ≡ 0 }
    requires binds { array_vec_len ask.old.message.binds ≡ 0 }
    ensures found { OnSome result (Asks frame.now community.now tables.now ask.new) }
    ensures none { IfNone result ((other : Ask) → Asks frame.now community.now tables.now other → ⊥) }
    ensures reads { Gives (λ _. ask.new) result (ask_of frame.now community.now tables.now) }
    ensures asked { OnSome result (IsAsked ask.new) }
    // What it wishes, the cabinet can carry out.
    ensures fit { OnSome result (CanBeCarriedOut ask.new.wish) }
{
    read_into(frame, &mut ask.message)?;
    if !is_of(&ask.message, community) {
        return None;
    }
    ask.wish = wish_in(tables, &ask.message)?;
    Some(())
}

/// What a frame asks of a cabinet of this community with these tables in force. None exactly if the frame isn't a
/// message, is of another community, or is a Response.
/// Here only tests call it; it is part of the public interface.
pub fn decode(frame: &[u8], community: &[u8], tables: &Tables) -> Option<Ask>
    ensures found { IfSome result (λ ask. Asks frame.now community.now tables.now ask) }
    ensures none { IfNone result ((ask : Ask) → Asks frame.now community.now tables.now ask → ⊥) }
    ensures each { (ask : Ask) → Asks frame.now community.now tables.now ask → result ≡ Some ask }
    ensures reads { result ≡ ask_of frame.now community.now tables.now }
    ensures asked { IfSome result IsAsked }
    // What it wishes, the cabinet can carry out.
    ensures fit { IfSome result (λ ask. CanBeCarriedOut ask.wish) }
{
    let mut ask = Ask::blank();
    decode_into(frame, community, tables, &mut ask)?;
    Some(ask)
}
