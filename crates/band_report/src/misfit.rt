//! What prevents any band along a section.

ghost use Rattle.std.specs.Prelude.{◌≡◌, ◌≤◌, IfOk, length};
ghost use Rattle.scenario_data.specs.Content.{scenario_content};
ghost use Rattle.band_report.specs.Street.{misfit_of};
ghost use Rattle.band_report.specs.Arcs.{misfit_read};

use crate::signals::{Signal, all_define, all_have_cycle, signals};
use scenario_data::Scenario;
use sig_types::NoMemory;
use std::alloc::Global;

/// Why there can be no band along a section.
#[derive(Clone, Copy, PartialEq, Eq)]
pub enum Misfit {
    /// The section has no cabinet.
    NoCabinet,
    /// A cabinet of it doesn't define the pattern.
    Undefined,
    /// The pattern has two cycles among them.
    Cycles,
    /// The travel times are not one fewer than the cabinets.
    Legs,
}

/// The first reason against a band along these cabinets.
fn misfit_read(signals: &Vec<Signal>, legs: usize) -> Option<Misfit>
    ensures { result ≡ misfit_read legs signals.now.items }
{
    if signals.is_empty() {
        return Some(Misfit::NoCabinet);
    }
    if !all_define(signals) {
        return Some(Misfit::Undefined);
    }
    if !all_have_cycle(signals, signals[0].cycle) {
        return Some(Misfit::Cycles);
    }
    if legs == signals.len() - 1 {
        None
    } else {
        Some(Misfit::Legs)
    }
}

/// The first reason against a band in a pattern along a section of a scenario of at most 64 cabinets, with this number
/// of travel times; none if there can be one.
pub fn misfit_of(
    alloc: Global,
    s: &Scenario,
    section: u8,
    pattern: u8,
    legs: usize,
) -> Result<Option<Misfit>, NoMemory>
    requires few { length s.now.cabinets.items ≤ 64 }
    ensures { IfOk result (λ found. found ≡ misfit_of (scenario_content s.now).cabinets section pattern legs) }
{
    match signals(alloc, s, section, pattern, false) {
        Ok(signals) => Ok(misfit_read(&signals, legs)),
        Err(fail) => Err(fail),
    }
}
