//! What the plan of a pattern says of the cabinets of a section.

ghost use Rattle.std.specs.Prelude.{◌≡◌, ◌≤◌, ◌*◌, ◌==◌, ℕ, IfOk, length, map};
ghost use Rattle.std.specs.List.{list_all};
ghost use Rattle.sig_tables.specs.declared.tables.Tables.{Tables};
ghost use Rattle.sig_tables.specs.Slots.{is_defined, cycle_time, coordinated_phase, force_point};
ghost use Rattle.sig_tables.specs.Plan.{plan_of};
ghost use Rattle.scenario_data.specs.Content.{cabinet_content, scenario_content};
ghost use Rattle.scenario_data.specs.Opening.{opening_tables};
ghost use Rattle.band_report.specs.Street.{members, ring_driven};
ghost use Rattle.band_report.specs.Arcs.{signal_of};

use pattern_plan::plan;
use scenario_data::{Cabinet, Scenario, opening_tables};
use sig_tables::{Plan, Tables};
use sig_types::NoMemory;
use std::alloc::Global;

/// A cabinet in a pattern, for a vehicle that drives one way: its number in the scenario, counted from 1, whether it defines
/// the pattern, and in ticks the cycle, the offset, what the offset counts from, and the force point of the coordinated phase
/// that the vehicle meets.
#[derive(Clone, Copy)]
pub struct Signal {
    pub number: u32,
    pub defined: bool,
    pub cycle: u32,
    pub offset: u32,
    pub shift: u32,
    pub green: u32,
}

/// Whether tables define a pattern: it is 1 to 48 and has a cycle.
fn is_defined(tables: &Tables, pattern: u8) -> bool
    ensures { result ≡ is_defined tables.now pattern }
{
    1 <= pattern && pattern <= 48 && 1 <= tables.pattern(pattern).cycle
}

/// The force point of a phase by a plan; 0 for what is not a phase.
fn force_of(plan: &Plan, phase: u8) -> u32
    ensures { (t : Tables) (n : ℕ) → plan.now ≡ plan_of t n → result ≡ force_point t n phase }
{
    if 1 <= phase && phase <= 16 {
        plan.force[phase as usize - 1]
    } else {
        0
    }
}

/// The coordinated phase that a vehicle meets: that of ring 1 outbound, that of ring 2 inbound.
fn phase_met(plan: &Plan, inbound: bool) -> u8
    ensures { (t : Tables) (n : ℕ) → plan.now ≡ plan_of t n → result ≡ coordinated_phase t n (ring_driven inbound) }
{
    if inbound {
        plan.coordinated[1]
    } else {
        plan.coordinated[0]
    }
}

/// A cabinet of this number as its opening tables say.
fn signal_at(number: u32, cabinet: &Cabinet, pattern: u8, inbound: bool) -> Signal
    ensures { result ≡ signal_of pattern inbound (record { number = number; tables = opening_tables (cabinet_content cabinet.now) }) }
{
    let tables = opening_tables(cabinet);
    let plan = plan(&tables, pattern);
    Signal {
        number,
        defined: is_defined(&tables, pattern),
        cycle: plan.cycle,
        offset: plan.offset,
        shift: plan.shift,
        green: force_of(&plan, phase_met(&plan, inbound)),
    }
}

/// The cabinets of a section, in the order of the scenario.
#[tactic(auto, using(crate::proofs::Reading::gathered_in, crate::proofs::Reading::gathered_out, crate::proofs::Reading::gathered_all))]
pub(crate) fn signals(
    alloc: Global,
    s: &Scenario,
    section: u8,
    pattern: u8,
    inbound: bool,
) -> Result<Vec<Signal>, NoMemory>
    requires few { length s.now.cabinets.items ≤ 64 }
    ensures { IfOk result (λ found. found.items ≡ map (signal_of pattern inbound) (members (scenario_content s.now).cabinets section)) }
{
    let mut found = Vec::new(alloc);
    for place in 0..s.cabinets.len() {
        let cabinet = &s.cabinets[place];
        if cabinet.section == section {
            match found.push(signal_at(place as u32 + 1, cabinet, pattern, inbound)) {
                Ok(()) => {}
                Err(_) => return Err(NoMemory),
            }
        }
    }
    Ok(found)
}

/// Whether each cabinet defines the pattern.
pub(crate) fn all_define(signals: &Vec<Signal>) -> bool
    ensures { result ≡ list_all (λ s. s.defined) signals.now.items }
{
    signals.iter().all(|s| s.defined)
}

/// Whether the pattern has this cycle, in ticks, at each cabinet.
pub(crate) fn all_have_cycle(signals: &Vec<Signal>, cycle: u32) -> bool
    ensures { result ≡ list_all (λ s. s.cycle == cycle) signals.now.items }
{
    signals.iter().all(|s| s.cycle == cycle)
}
