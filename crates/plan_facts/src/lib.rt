//! What is known about the goals, the times and the plans of consistent tables, only as definitions: the laws of safety
//! require these facts of the tables in force, and `rule_facts` shows that consistent tables have them.
#![tactic(auto)]

mod disturbances;

pub use disturbances::{disturbed, early_by_ten, late_by_one, one_tick_apart};
