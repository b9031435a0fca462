//! What a scenario says, as plain data: the cabinets and their tables, the master's setup, and what happens in each
//! round; and why a text isn't a scenario. Nothing here reads or runs.
#![tactic(auto)]

mod octets;
mod opening;
mod refusal;
mod scenario;

pub use octets::FrameOctets;
pub use opening::{opening_tables, opening_tables_in_range};
pub use refusal::{ReadFail, Refusal};
pub use scenario::{
    Base, Cabinet, Direction, Entry, Fault, FaultKind, FrameItem, Input, LoadItem, MasterSetup,
    PriorityAct, PriorityItem, Scenario,
};
