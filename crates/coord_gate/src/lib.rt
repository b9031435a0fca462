//! What a coordinated tick needs from the plan of its pattern: which phases have room before their force points, which
//! the plan forces off, when a coordinated phase may end, and whether a floating split is filled (FHWA Signal Timing
//! Manual: force-off, permissive period, yield point). The answers of `Gate` are sets of phases, and only the phases in
//! question are examined.
#![tactic(auto)]

mod gate;
mod members;

pub use gate::{Gate, filled, fits, released};
