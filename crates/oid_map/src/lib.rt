//! The names of a cabinet's objects (OBJECT IDENTIFIER, RFC 1155), each the name of one instance, and the order in
//! which a walk by GetNext (RFC 1157) meets the instances that can be read. The objects are modelled on NTCIP 1202.
//! Nothing here takes memory.
#![tactic(auto)]

mod laws;
mod names;
mod objects;
mod reading;
mod walk;

pub use laws::{
    names_differ, next_is_least, readable_instances, walk_meets_each, write_only_instances,
};
pub use names::{Name, TableName, oid_of};
pub use reading::cell_of;
pub use walk::next;
