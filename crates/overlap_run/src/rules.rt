//! The rules in their order.

ghost use Rattle.std.specs.Prelude.{◌≡◌, ◌<◌, ◌≤◌, ◌+◌, [], ℕ, List, Ok, Err, None, Some, IfOk, IfErr, IfSome, OnOk, length, true};
ghost use Rattle.sig_types.specs.Phases.{is_in};
ghost use Rattle.sig_types.specs.PhaseSet.{has};
ghost use Rattle.sig_tables.specs.Tables.{yellow_time, red_clear_time};
ghost use Rattle.overlap_run.specs.Rules.{least, least_clearance, first_faulty, first_short, verdict};

use crate::faults::OverlapFault;
use sig_tables::{Tables, enabled_phases, holds};
use sig_types::PhaseSet;

/// The parents as a set; or the first octet that is not an enabled phase of the opening tables, or that appears twice.
fn enabled_parents(opening: &Tables, parents: &[u8]) -> Result<PhaseSet, u8>
    ensures ok { OnOk result (first_faulty opening.now [] parents.now ≡ None) }
    ensures set { IfOk result (λ set. (p : ℕ) → 0 < p → p ≤ 16 → has set p ≡ is_in parents.now p) }
    ensures err { IfErr result (λ p. first_faulty opening.now [] parents.now ≡ Some p) }
{
    let enabled = enabled_phases(opening);
    let mut set = PhaseSet::empty();
    for parent in parents {
        let phase = *parent;
        if !holds(enabled, phase) || holds(set, phase) {
            return Err(phase);
        }
        set = set.with(phase);
    }
    Ok(set)
}

/// The least yellow change of a phase over these tables, in ticks.
fn least_yellow(tables: &[Tables], phase: u8) -> u8
    requires some { 0 < length tables.now }
    requires above { 0 < phase }
    requires within { phase ≤ 16 }
    ensures { result ≡ least (λ t. yellow_time t phase) tables.now }
{
    let mut least = tables[0].phase(phase).yellow_change;
    for k in 1..tables.len() {
        least = least.min(tables[k].phase(phase).yellow_change);
    }
    least
}

/// Its least red clearance, in ticks.
fn least_red(tables: &[Tables], phase: u8) -> u8
    requires some { 0 < length tables.now }
    requires above { 0 < phase }
    requires within { phase ≤ 16 }
    ensures { result ≡ least (λ t. red_clear_time t phase) tables.now }
{
    let mut least = tables[0].phase(phase).red_clear;
    for k in 1..tables.len() {
        least = least.min(tables[k].phase(phase).red_clear);
    }
    least
}

/// The first parent that may clear in less than a time.
fn short_parent(tables: &[Tables], time: u32, parents: &[u8]) -> Option<u8>
    requires some { 0 < length tables.now }
    requires phases { (p : ℕ) → is_in parents.now p ≡ true → (0 < p) × (p ≤ 16) }
    ensures { result ≡ first_short tables.now time parents.now }
{
    for parent in parents {
        let phase = *parent;
        let clearance = u32::from(least_yellow(tables, phase))
            + u32::from(least_red(tables, phase));
        if clearance < time {
            return Some(phase);
        }
    }
    None
}

/// The parents of an overlap with these times, in ticks of 0.1 s, as a set; or the first rule that it breaks. The
/// tables are those that were in force at the cabinet, the opening ones first; there are none if the cabinet doesn't
/// exist.
pub fn judge(
    tables: &[Tables],
    parents: &[u8],
    trail: u8,
    yellow: u8,
    red: u8,
) -> Result<PhaseSet, OverlapFault>
    ensures ok { OnOk result (verdict tables.now parents.now trail yellow red ≡ Ok tt) }
    ensures set { IfOk result (λ set. (p : ℕ) → 0 < p → p ≤ 16 → has set p ≡ is_in parents.now p) }
    ensures err { IfErr result (λ f. verdict tables.now parents.now trail yellow red ≡ Err f) }
{
    let Some(opening) = tables.first() else {
        return Err(OverlapFault { rule: 1, row: 0 });
    };
    let set = match enabled_parents(opening, parents) {
        Ok(set) => set,
        Err(row) => return Err(OverlapFault { rule: 2, row }),
    };
    if yellow < 30 {
        return Err(OverlapFault { rule: 3, row: 0 });
    }
    let time = u32::from(trail) + u32::from(yellow) + u32::from(red);
    match short_parent(tables, time, parents) {
        None => Ok(set),
        Some(row) => Err(OverlapFault { rule: 4, row }),
    }
}
