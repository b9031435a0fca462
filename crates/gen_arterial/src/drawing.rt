//! What is drawn for each cabinet, and then round by round.

ghost use Rattle.std.specs.Prelude.{◌≡◌, ◌<◌, ◌≤◌, ◌+◌, ◌*◌, ◌++◌, ℕ, IfOk, OnOk};
ghost use Rattle.gen_arterial.specs.Generated.{cabinet_inputs, round_inputs, round_faults, place_behind, round_place, each_below};
ghost use Rattle.gen_arterial.specs.Drawing.{IsAt, setup_made, AreRounds, AreDrawn};

use crate::draws::Draws;
use scenario_data::{Direction, Fault, FaultKind, Input};
use sig_types::{Field, NoMemory, Way};
use std::alloc::Global;

/// What is drawn for the cabinet with this number: the offset of its pattern 1 in seconds, its correction (2 dwell, 3 shortway, 4 add only), the round of
/// its load, and the maximum green in seconds that this load gives phase 2.
#[derive(Clone, Copy)]
pub struct Setup {
    pub cabinet: u32,
    pub offset: u32,
    pub correction: u32,
    pub load_round: u32,
    pub load_maximum: u32,
}

/// What happens in the rounds.
#[derive(Drop)]
pub struct Rounds {
    pub inputs: Vec<Input>,
    pub faults: Vec<Fault>,
}

/// All that is drawn.
#[derive(Drop)]
pub struct Drawn {
    pub setups: Vec<Setup>,
    pub rounds: Rounds,
}

/// Draws what the cabinet after that many is set up with.
fn draw_setup(draws: &mut Draws, before: u32, rounds: u32) -> Setup
    requires some { 0 < rounds }
    requires short { rounds ≤ 86400 }
    requires few { before < 64 }
    ensures setup { (seed : ℕ) → IsAt draws.old seed (4 * before) → result ≡ setup_made seed rounds before }
    ensures next { (seed : ℕ) → IsAt draws.old seed (4 * before) → IsAt draws.new seed (4 * (before + 1)) }
{
    let offset = draws.draw(90);
    let correction = 2 + draws.draw(3);
    let load_round = 1 + draws.draw(rounds);
    let load_maximum = 30 + draws.draw(30);
    Setup {
        cabinet: 1 + before,
        offset,
        correction,
        load_round,
        load_maximum,
    }
}

/// Draws what all cabinets are set up with.
fn draw_setups(
    alloc: Global,
    draws: &mut Draws,
    cabinets: u32,
    rounds: u32,
) -> Result<Vec<Setup>, NoMemory>
    requires some { 0 < rounds }
    requires short { rounds ≤ 86400 }
    requires few { cabinets ≤ 64 }
    ensures setups { IfOk result (λ v. (seed : ℕ) → IsAt draws.old seed 0 → v.items ≡ each_below (setup_made seed rounds) cabinets) }
    ensures next { OnOk result ((seed : ℕ) → IsAt draws.old seed 0 → IsAt draws.new seed (4 * cabinets)) }
{
    let mut setups = Vec::new(alloc);
    for before in 0..cabinets {
        if setups.push(draw_setup(draws, before, rounds)).is_err() {
            return Err(NoMemory);
        }
    }
    Ok(setups)
}

/// Draws the inputs of the cabinet after that many, in a round.
fn draw_inputs(
    draws: &mut Draws,
    inputs: &mut Vec<Input>,
    round: u32,
    before: u32,
) -> Result<(), NoMemory>
    requires { before < 64 }
    ensures inputs { OnOk result ((seed place : ℕ) → IsAt draws.old seed place → inputs.new.items ≡ inputs.old.items ++ cabinet_inputs seed round place before) }
    ensures next { OnOk result ((seed place : ℕ) → IsAt draws.old seed place → IsAt draws.new seed (place + 3)) }
{
    let cabinet = 1 + before;
    let phase = (1 + draws.draw(8)) as u8;
    let on = draws.draw(2) == 1;
    let detector = Input {
        round,
        cabinet,
        field: Field::Veh { phase, on },
    };
    if inputs.push(detector).is_err() {
        return Err(NoMemory);
    }
    if draws.draw(4) == 0 {
        let button = Input {
            round,
            cabinet,
            field: Field::Ped { phase: 2 },
        };
        if inputs.push(button).is_err() {
            return Err(NoMemory);
        }
    }
    Ok(())
}

/// Draws the inputs of all cabinets in a round.
fn draw_all_inputs(
    draws: &mut Draws,
    inputs: &mut Vec<Input>,
    round: u32,
    cabinets: u32,
) -> Result<(), NoMemory>
    requires { cabinets ≤ 64 }
    ensures inputs { OnOk result ((seed place : ℕ) → IsAt draws.old seed place → inputs.new.items ≡ inputs.old.items ++ round_inputs seed round place cabinets) }
    ensures next { OnOk result ((seed place : ℕ) → IsAt draws.old seed place → IsAt draws.new seed (place + 3 * cabinets)) }
{
    for before in 0..cabinets {
        match draw_inputs(draws, inputs, round, before) {
            Ok(()) => {}
            Err(NoMemory) => return Err(NoMemory),
        }
    }
    Ok(())
}

/// Draws whether a poll of a round is lost, and which.
fn draw_fault(
    draws: &mut Draws,
    faults: &mut Vec<Fault>,
    round: u32,
    cabinets: u32,
) -> Result<(), NoMemory>
    requires some { 0 < cabinets }
    requires few { cabinets ≤ 64 }
    ensures faults { OnOk result ((seed place : ℕ) → IsAt draws.old seed place → faults.new.items ≡ faults.old.items ++ round_faults seed cabinets round place) }
    ensures next { OnOk result ((seed place : ℕ) → IsAt draws.old seed place → IsAt draws.new seed (place_behind seed place)) }
{
    if draws.draw(5) == 0 {
        let lost = Fault {
            round,
            cabinet: 1 + draws.draw(cabinets),
            stream: Way::Poll,
            way: Direction::Down,
            index: 0,
            kind: FaultKind::Lose,
            by: 1,
            octet: 1,
        };
        if faults.push(lost).is_err() {
            return Err(NoMemory);
        }
    }
    Ok(())
}

/// Draws what happens in all rounds.
fn draw_rounds(
    alloc: Global,
    draws: &mut Draws,
    cabinets: u32,
    rounds: u32,
) -> Result<Rounds, NoMemory>
    requires some { 0 < cabinets }
    requires few { cabinets ≤ 64 }
    requires short { rounds ≤ 86400 }
    ensures { IfOk result (λ made. (seed : ℕ) → IsAt draws.old seed (4 * cabinets) → AreRounds made seed cabinets rounds) }
{
    let mut inputs = Vec::new(alloc);
    let mut faults = Vec::new(alloc);
    for done in 0..rounds {
        match draw_all_inputs(draws, &mut inputs, 1 + done, cabinets) {
            Ok(()) => {}
            Err(NoMemory) => return Err(NoMemory),
        }
        match draw_fault(draws, &mut faults, 1 + done, cabinets) {
            Ok(()) => {}
            Err(NoMemory) => return Err(NoMemory),
        }
    }
    Ok(Rounds { inputs, faults })
}

/// Draws all that a seed gives for this number of cabinets and rounds.
pub fn draw_all(alloc: Global, seed: u32, cabinets: u32, rounds: u32) -> Result<Drawn, NoMemory>
    requires some { 0 < cabinets }
    requires few { cabinets ≤ 64 }
    requires one { 0 < rounds }
    requires short { rounds ≤ 86400 }
    ensures { IfOk result (λ made. AreDrawn made seed cabinets rounds) }
{
    let mut draws = Draws::new(seed);
    let setups = match draw_setups(alloc, &mut draws, cabinets, rounds) {
        Ok(setups) => setups,
        Err(NoMemory) => return Err(NoMemory),
    };
    match draw_rounds(alloc, &mut draws, cabinets, rounds) {
        Ok(rounds) => Ok(Drawn { setups, rounds }),
        Err(NoMemory) => Err(NoMemory),
    }
}
