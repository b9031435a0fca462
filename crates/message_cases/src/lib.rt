//! Worked cases of messages, of what a cabinet answers to them, of the lines of a trace, of the master and its link, of
//! the reading of a scenario and of the lines of a session, each with its expected values from outside. They are in a
//! crate of their own, above the parts, so that a part is proved once and not again for its tests. Cases that the
//! program or `message_lines` shows are in `vectors/` and `corpora/snmp`, where they need no proof.
#![tactic(auto)]

#[cfg(test)]
mod agent_cases;
#[cfg(test)]
mod agent_set_cases;
#[cfg(test)]
mod ber_code_cases;
#[cfg(test)]
mod link_sim_cases;
#[cfg(test)]
mod master_poll_cases;
#[cfg(test)]
mod master_rounds_cases;
#[cfg(test)]
mod oid_map_cases;
#[cfg(test)]
mod scenario_data_cases;
#[cfg(test)]
mod scenario_file_cases;
#[cfg(test)]
mod scenario_read_cases;
#[cfg(test)]
mod session_words_cases;
#[cfg(test)]
mod snmp_msg_cases;
#[cfg(test)]
mod stage_txn_cases;
#[cfg(test)]
mod trace_text_cases;
