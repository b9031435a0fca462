//! The volumes of sections in periods, from the edges of a bank.

ghost use Rattle.std.specs.Prelude.{ℕ, ◌≡◌, ◌≢◌, ◌<◌, ◌≤◌, ◌*◌, ◌+◌, List, map, take, length, get_or, IfOk};
ghost use Rattle.scenario_data.specs.Content.{scenario_content};
ghost use Rattle.detector_bank.specs.declared.bank.Edge.{Edge as EdgeRow};
ghost use Rattle.field_file.specs.Schedule.{Counted, section_of, period_of};
ghost use Rattle.field_file.specs.Counting.{kept, HasVolumes};

use detector_bank::Edge;
use scenario_data::Scenario;
use sig_types::NoMemory;
use std::alloc::Global;

/// The section of a cabinet, which is counted from 1; 0 where there is no such cabinet.
fn section_of(scenario: &Scenario, cabinet: u32) -> u8
    ensures { result ≡ section_of (map (λ c. c.section) (scenario_content scenario.now).cabinets) cabinet }
{
    let place = cabinet.saturating_sub(1) as usize;
    if place < scenario.cabinets.len() {
        scenario.cabinets[place].section
    } else {
        0
    }
}

/// The period in which a round lies, where periods have that many rounds.
pub(crate) fn period_of(period: u32, round: u32) -> u32
    requires { 0 < period }
    ensures { result ≡ period_of period round }
{
    round.saturating_sub(1) / period
}

/// Adds a count at a place of a table, up to the greatest number of 32 bits.
fn add_at(table: &mut Vec<u32>, place: usize, count: u32)
    requires { place < length table.old.items }
    ensures same { length table.new.items ≡ length table.old.items }
    ensures here { get_or table.new.items place 0 ≡ kept (get_or table.old.items place 0 + count) }
    ensures others { (k : ℕ) → k ≢ place → get_or table.new.items k 0 ≡ get_or table.old.items k 0 }
{
    table[place] = table[place].saturating_add(count);
}

/// Counts an edge into the table of that many periods, where it is of one of the eight sections and of a period of the
/// table.
fn count_edge(table: &mut Vec<u32>, scenario: &Scenario, period: u32, periods: u32, edge: Edge)
    requires some { 0 < period }
    requires count { length table.old.items ≡ periods * 8 }
    ensures count { length table.new.items ≡ periods * 8 }
    ensures counted { (c : Counted) (edges : List EdgeRow) (i : ℕ) → c.sections ≡ map (λ x. x.section) (scenario_content scenario.now).cabinets → c.period ≡ period
        → i < length edges → edge ≡ get_or edges i edge → HasVolumes table.old.items c periods (take i edges) → HasVolumes table.new.items c periods (take (i + 1) edges) }
{
    let section = section_of(scenario, edge.cabinet);
    let n = period_of(period, edge.round);
    if section < 1 {
        return;
    }
    if section > 8 {
        return;
    }
    if n >= periods {
        return;
    }
    let place = n as usize * 8 + (section as usize - 1);
    add_at(table, place, edge.count);
}

/// The volumes of the sections 1 to 8 in each of that many periods, from edges: eight numbers for each period.
pub(crate) fn volumes_of(
    alloc: Global,
    scenario: &Scenario,
    period: u32,
    periods: u32,
    edges: &Vec<Edge>,
) -> Result<Vec<u32>, NoMemory>
    requires some { 0 < period }
    requires few { periods ≤ 86400 }
    ensures count { IfOk result (λ table. length table.items ≡ periods * 8) }
    ensures volumes { IfOk result (λ table. (c : Counted) → c.sections ≡ map (λ x. x.section) (scenario_content scenario.now).cabinets → c.period ≡ period → HasVolumes table.items c periods edges.now.items) }
{
    let mut table = match vec![in alloc; 0u32; periods as usize * 8] {
        Ok(table) => table,
        Err(_) => return Err(NoMemory),
    };
    for i in 0..edges.len() {
        count_edge(&mut table, scenario, period, periods, edges[i]);
    }
    Ok(table)
}
