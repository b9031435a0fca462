//! The agent of a cabinet: what a message of management software asks (SNMP version 1, RFC 1157), and what is answered.
//! An answer is a function of the tables in force, of what the cabinet shows, and of its download stage. Frames that
//! aren't messages, are of another community, or are Responses are ignored. Nothing here takes memory.
#![tactic(auto)]

mod ask;
mod bindings;
mod cabinet;
mod downloads;
mod groups;
mod laws;
mod reply;
mod sets;
mod values;

pub use ask::{Ask, Order, Wish, decode, decode_into};
pub use laws::{
    frames_ask_one_thing, instances_have_values, other_frames_ask_nothing, repeated_bindings_fit,
};
pub use reply::answer;
