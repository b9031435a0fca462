//! A scenario of what was drawn.

ghost use Rattle.std.specs.Prelude.{◌≡◌, ℕ, [], ◌∷◌, codes, map, IfOk};
ghost use Rattle.serde_json.specs.Written.{compact_text};
ghost use Rattle.scenario_data.specs.Content.{cabinet_content, load_content, master_content, scenario_content};
ghost use Rattle.scenario_read.specs.Answers.{IsScenario};
ghost use Rattle.gen_arterial.specs.Generated.{cabinet_with, load_with, master_made};
ghost use Rattle.gen_arterial.specs.Written.{CanMake, generated, generated_text, scenario_value};
ghost use Rattle.gen_arterial.specs.Drawing.{AreDrawn, setup_cabinet, setup_load};

use crate::drawing::{Drawn, Setup, draw_all};
use crate::values::compact_of;
use arrayvec::ArrayVec;
use scenario_data::{Base, Cabinet, Entry, LoadItem, MasterSetup, Scenario};
use sig_tables::{Cell, CellValue};
use sig_types::NoMemory;
use std::alloc::Global;

/// A list of one cell.
fn one_cell(alloc: Global, cell: Cell, number: u32) -> Result<Vec<(Cell, CellValue)>, NoMemory>
    ensures { IfOk result (λ v. v.items ≡ (cell, CellValue.Number number) ∷ []) }
{
    let mut cells = Vec::new(alloc);
    if cells.push((cell, CellValue::Number(number))).is_err() {
        return Err(NoMemory);
    }
    Ok(cells)
}

/// A cabinet.
fn cabinet_of(alloc: Global, setup: &Setup) -> Result<Cabinet, NoMemory>
    ensures { IfOk result (λ c. cabinet_content c ≡ cabinet_with setup.now.offset setup.now.correction) }
{
    let offset = Cell::Pattern {
        pattern: 1,
        column: 3,
    };
    let mut cells = match one_cell(alloc, offset, setup.offset) {
        Ok(cells) => cells,
        Err(NoMemory) => return Err(NoMemory),
    };
    if cells
        .push((Cell::Unit(1), CellValue::Number(setup.correction)))
        .is_err()
    {
        return Err(NoMemory);
    }
    Ok(Cabinet {
        base: Base::Std8,
        cells,
        pattern: 1,
        clock: 0,
        section: 1,
        gain: 0,
        lose: 0,
    })
}

/// The load of a cabinet.
fn load_of(alloc: Global, setup: &Setup) -> Result<LoadItem, NoMemory>
    ensures { IfOk result (λ l. load_content l ≡ load_with setup.now.load_round setup.now.cabinet setup.now.load_maximum) }
{
    let green = Cell::Phase {
        phase: 2,
        column: 6,
    };
    match one_cell(alloc, green, setup.load_maximum) {
        Ok(cells) => Ok(LoadItem {
            round: setup.load_round,
            cabinet: setup.cabinet,
            cells,
        }),
        Err(NoMemory) => Err(NoMemory),
    }
}

/// The cabinets.
fn cabinets_of(alloc: Global, setups: &[Setup]) -> Result<Vec<Cabinet>, NoMemory>
    ensures { IfOk result (λ v. map cabinet_content v.items ≡ map setup_cabinet setups.now) }
{
    let mut cabinets = Vec::new(alloc);
    for setup in setups {
        let cabinet = match cabinet_of(alloc, setup) {
            Ok(cabinet) => cabinet,
            Err(NoMemory) => return Err(NoMemory),
        };
        if cabinets.push(cabinet).is_err() {
            return Err(NoMemory);
        }
    }
    Ok(cabinets)
}

/// The loads.
fn loads_of(alloc: Global, setups: &[Setup]) -> Result<Vec<LoadItem>, NoMemory>
    ensures { IfOk result (λ v. map load_content v.items ≡ map setup_load setups.now) }
{
    let mut loads = Vec::new(alloc);
    for setup in setups {
        let load = match load_of(alloc, setup) {
            Ok(load) => load,
            Err(NoMemory) => return Err(NoMemory),
        };
        if loads.push(load).is_err() {
            return Err(NoMemory);
        }
    }
    Ok(loads)
}

/// What the master does.
fn master_of(alloc: Global) -> Result<MasterSetup, NoMemory>
    ensures { IfOk result (λ m. master_content m ≡ master_made) }
{
    let mut schedule = Vec::new(alloc);
    let always = Entry {
        second: 0,
        section: 1,
        pattern: 1,
    };
    if schedule.push(always).is_err() {
        return Err(NoMemory);
    }
    Ok(MasterSetup {
        clock: 0,
        poll_every: 1,
        clock_every: 0,
        pattern_every: 60,
        retries: 3,
        schedule,
    })
}

/// The community of a scenario that names none.
fn usual_community() -> ArrayVec<u8, 32>
    ensures { result.items ≡ codes "public" }
{
    let mut community = ArrayVec::new();
    // There is room for it.
    let _ = community.try_extend_from_slice(b"public");
    community
}

/// The scenario of all that was drawn for that many rounds, with this compact text.
fn scenario_of(
    alloc: Global,
    drawn: Drawn,
    rounds: u32,
    compact: Vec<u8>,
) -> Result<Scenario, NoMemory>
    ensures content { IfOk result (λ s. (seed cabinets : ℕ) → AreDrawn drawn seed cabinets rounds
        → compact.items ≡ compact_text (scenario_value seed cabinets rounds) → scenario_content s ≡ generated seed cabinets rounds) }
    ensures compact { IfOk result (λ s. s.compact ≡ compact) }
{
    let cabinets = match cabinets_of(alloc, drawn.setups.as_slice()) {
        Ok(cabinets) => cabinets,
        Err(NoMemory) => return Err(NoMemory),
    };
    let loads = match loads_of(alloc, drawn.setups.as_slice()) {
        Ok(loads) => loads,
        Err(NoMemory) => return Err(NoMemory),
    };
    let master = match master_of(alloc) {
        Ok(master) => master,
        Err(NoMemory) => return Err(NoMemory),
    };
    Ok(Scenario {
        version: 1,
        rounds,
        ticks: 100,
        community: usual_community(),
        cabinets,
        master,
        inputs: drawn.rounds.inputs,
        loads,
        priority: Vec::new(alloc),
        frames: Vec::new(alloc),
        faults: drawn.rounds.faults,
        compact,
    })
}

/// The scenario of a seed, for 1 to 64 cabinets and 1 to 86,400 rounds, cabinets times rounds at most 100,000: the same
/// at every call. Each cabinet has the standard tables, its pattern 1 with an offset and a correction of its own, and
/// one load that gives phase 2 another maximum green; detectors continue and off, the push button of phase 2 is
/// pressed, and a poll is lost now and then, while the master polls in each round. A round has 100 ticks of 0.1 s. The
/// reader takes its compact text for this scenario.
pub fn make(alloc: Global, seed: u32, cabinets: u32, rounds: u32) -> Result<Scenario, NoMemory>
    requires { CanMake cabinets rounds }
    ensures made { IfOk result (λ s. scenario_content s ≡ generated seed cabinets rounds) }
    ensures reads_back { IfOk result (λ s. IsScenario s.compact.items (scenario_content s)) }
{
    let drawn = match draw_all(alloc, seed, cabinets, rounds) {
        Ok(drawn) => drawn,
        Err(NoMemory) => return Err(NoMemory),
    };
    let compact = match compact_of(alloc, &drawn, rounds) {
        Ok(compact) => compact,
        Err(NoMemory) => return Err(NoMemory),
    };
    match scenario_of(alloc, drawn, rounds, compact) {
        Ok(scenario) => Ok(scenario),
        Err(NoMemory) => Err(NoMemory),
    }
}

/// What is written for the scenario of a seed: its compact text and a newline.
pub fn text_of(alloc: Global, seed: u32, cabinets: u32, rounds: u32) -> Result<Vec<u8>, NoMemory>
    requires { CanMake cabinets rounds }
    ensures { IfOk result (λ text. text.items ≡ generated_text seed cabinets rounds) }
{
    let drawn = match draw_all(alloc, seed, cabinets, rounds) {
        Ok(drawn) => drawn,
        Err(NoMemory) => return Err(NoMemory),
    };
    let mut text = match compact_of(alloc, &drawn, rounds) {
        Ok(text) => text,
        Err(NoMemory) => return Err(NoMemory),
    };
    if text.push(b'\n').is_err() {
        return Err(NoMemory);
    }
    Ok(text)
}
