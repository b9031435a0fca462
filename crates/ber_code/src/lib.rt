//! The fields of an SNMP message as octets (ITU-T X.690, basic encoding rules): lengths, INTEGER, OCTET STRING and
//! OBJECT IDENTIFIER, each read from the beginning of some octets and written at the end of a frame. Nothing here takes
//! memory.
#![tactic(auto)]

mod integers;
mod laws;
mod lengths;
mod names;
mod room;

pub use integers::{int_size, read_int, write_int};
pub use laws::{fields_stand_alone, shortest_texts_are_texts};
pub use lengths::{
    read_len, read_octets, read_tagged, tagged_size, write_head, write_len, write_octets,
};
pub use names::{
    Oid, oid_contents_size, oid_size, read_oid, read_oid_into, write_oid, write_oid_sized,
};
pub use room::Full;
