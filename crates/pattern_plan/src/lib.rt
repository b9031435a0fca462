//! A pattern laid out over its cycle, once for all ticks that follow it: slots, force points, permissive ends, the
//! window and the offset; and what its split requires of each phase (FHWA Signal Timing Manual: cycle, split, offset,
//! force-off, permissive period; NTCIP 1202, split modes). No memory is taken.
#![tactic(auto)]

mod forcing;
mod holding;
mod laying;
mod planning;
mod ring_layout;
mod side;
mod split_options;
mod standard;

pub use holding::coordinated;
pub use laying::services;
pub use planning::{plan, plan_on};
pub use ring_layout::RingLayout;
pub use split_options::SplitOptions;
pub use standard::standard_plan;
