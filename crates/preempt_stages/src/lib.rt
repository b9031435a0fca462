//! Stages of preemption, as the tables in force and the last frame give them: the row of a preempt, the phases that a
//! stage brings to green, the smaller times of the others, and what follows a stage by itself (NTCIP 1202, preempt
//! objects; the stages and their rules are this project's own). Nothing is kept here from tick to tick.
#![tactic(auto)]

mod goals;
mod reached;
mod stages;

pub use goals::{goal, lesser, lesser_green, phases_in, row_of, stage_of, ticks};
pub use reached::{due_green, dwelling_green, dwelling_off, is_dwell, shows_sixteen};
pub use stages::{
    after_entry, after_exit, began, breaks_in, calls, exit_from, holds_dwell, same_mode, same_stage,
};
