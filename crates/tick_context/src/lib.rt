//! What a tick uses in addition to what is kept of the frames: commands and requests, the pattern laid out, the state
//! of a tick, and what is seen of the last frame. A controller, which keeps registers, and an observer, which looks
//! back, both use it.
#![tactic(auto)]

mod active_pattern;
mod at_rest;
mod context;
mod context_frame;
mod context_lasting;
mod context_moves;
mod context_rings;
mod context_state;
mod context_waiting;
mod modes;
mod opening;
mod seeing;
mod telling;
mod tick_state;
mod unit_commands;

pub use active_pattern::{ActivePattern, is_defined};
pub use at_rest::{are_both_on, is_resting, no_changes, shows_sixteen};
pub use context::TickContext;
pub use context_rings::RingState;
pub use modes::{has_pattern, is_coord, is_coord_of, is_flash, is_free};
pub use opening::first_frame;
pub use seeing::TickInputs;
pub use telling::has_line;
pub use tick_state::{TickState, greens, is_asked};
pub use unit_commands::UnitCommands;
