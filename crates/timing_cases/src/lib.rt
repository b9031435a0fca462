//! Worked cases of the parts of a controller and of the rules of a street, each with its expected values from outside.
//! They are in a crate of their own, above the parts, so that a part is proved once and not again for its tests.
#![tactic(auto)]

#[cfg(test)]
mod call_store_cases;
#[cfg(test)]
mod controller_cases;
#[cfg(test)]
mod coord_count_cases;
#[cfg(test)]
mod coord_gate_cases;
#[cfg(test)]
mod flash_mode_cases;
#[cfg(test)]
mod frame_history_cases;
#[cfg(test)]
mod look_back_cases;
#[cfg(test)]
mod pattern_plan_cases;
#[cfg(test)]
mod ped_clock_cases;
#[cfg(test)]
mod phase_clock_cases;
#[cfg(test)]
mod preempt_run_cases;
#[cfg(test)]
mod prio_queue_cases;
#[cfg(test)]
mod rule_book_cases;
#[cfg(test)]
mod sig_tables_cases;
#[cfg(test)]
mod split_options_cases;
