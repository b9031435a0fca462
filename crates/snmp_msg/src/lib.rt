//! The messages of SNMP version 1 (RFC 1157), read and written: exactly the grammar is read, and
//! the shortest text is written. Nothing here takes memory.
#![tactic(auto)]

mod around;
mod heads;
mod laws;
mod message;
mod reading;
mod writing;

pub use around::{write_around_into, write_around_slice, write_bind};
pub use heads::read_head;
pub use laws::{messages_stand_alone, shortest_text_is_least};
pub use message::{Bind, Head, Message, Parts, Pdu, TooLong, Value};
pub use reading::{read, read_into};
pub use writing::{write, write_parts};
