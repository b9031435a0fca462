//! The rounds of a bank, each taken once: the calls and the edges that it gives.

ghost use Rattle.std.specs.Prelude.{◌≡◌, ◌≤◌, length, IfOk};
ghost use Rattle.detector_bank.specs.Lists.{EachStands, calls_until, in_order, edges_until};

use crate::bank::{Call, Detector, Edge, Pulse};
use crate::changes::{Calling, push_changes};
use crate::order::in_order;
use crate::walk::{call_round, edge_round, start};
use sig_types::NoMemory;
use std::alloc::Global;

/// The calls of a bank in N rounds: one for each round, cabinet and phase at which the phase is called and was not in
/// the round before, or the other way round, by round, cabinet and phase. A pulse whose detector is not in the bank
/// counts for none. A detector is examined only in rounds in which it has a pulse or may call otherwise.
pub fn bank_calls(
    alloc: Global,
    bank: &Vec<Detector>,
    pulses: &Vec<Pulse>,
    rounds: u32,
) -> Result<Vec<Call>, NoMemory>
    requires stands { EachStands bank.now.items }
    requires few { length pulses.now.items ≤ 1000000 }
    requires short { rounds ≤ 86400 }
    ensures { IfOk result (λ calls. calls.items ≡ calls_until bank.now.items pulses.now.items rounds) }
{
    let mut walk = start(alloc, bank, pulses)?;
    let mut calling = Calling::new();
    let mut before = calling.sets;
    let mut calls = Vec::new(alloc);
    for done in 0..rounds {
        call_round(&mut walk, &mut calling, bank, done + 1);
        push_changes(&mut calls, done + 1, &calling.sets, &before)?;
        before = calling.sets;
    }
    Ok(calls)
}

/// How often each detector turned on in each of N rounds in which it had not failed, if it did, by round, cabinet and
/// number.
pub fn edges(
    alloc: Global,
    bank: &Vec<Detector>,
    pulses: &Vec<Pulse>,
    rounds: u32,
) -> Result<Vec<Edge>, NoMemory>
    requires few { length pulses.now.items ≤ 1000000 }
    requires short { rounds ≤ 86400 }
    ensures { IfOk result (λ edges. edges.items ≡ edges_until (in_order bank.now.items) pulses.now.items rounds) }
{
    let ordered = in_order(alloc, bank)?;
    let mut walk = start(alloc, &ordered, pulses)?;
    let mut edges = Vec::new(alloc);
    for done in 0..rounds {
        edge_round(&mut walk, &mut edges, &ordered, done + 1)?;
    }
    Ok(edges)
}
