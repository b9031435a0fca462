//! A bank of vehicle detectors: from the raw pulses of loops to the calls of phases that a controller sees, with delays,
//! extensions and the detector diagnostics of NTCIP 1202 (no activity, maximum presence, erratic counts). All times are in
//! rounds.
#![tactic(auto)]

mod bank;
mod changes;
mod detector_state;
mod order;
mod pulses;
mod rounds;
mod walk;
mod watch;

pub use bank::{Call, Detector, Edge, Pulse};
pub use rounds::{bank_calls, edges};
