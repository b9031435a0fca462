//! What holds for every scenario that was read without a fault: its numbers are in range, its tables are consistent,
//! its cabinets are numbered from 1. A run needs nothing else of a scenario, and nothing of its JSON. The crate has no
//! code.
#![tactic(auto)]

ghost use Rattle.std.specs.Prelude.{◌≤◌, ℕ, length};
ghost use Rattle.scenario_data.specs.Content.{CabinetContent, ScenarioContent};
ghost use Rattle.runnable.specs.Cabinets.{IsCabinet};
ghost use Rattle.runnable.specs.Runnable.{AllOpen, CanOpen};

/// Each cabinet of a scenario has a number from 1 to the number of cabinets, and can open where all can.
pub fn cabinets_are_numbered()
    ensures from_1 { (s : ScenarioContent) (cab : ℕ) (c : CabinetContent) → IsCabinet s cab c → 1 ≤ cab }
    ensures to_last { (s : ScenarioContent) (cab : ℕ) (c : CabinetContent) → IsCabinet s cab c → cab ≤ length s.cabinets }
    ensures opens { (s : ScenarioContent) (cab : ℕ) (c : CabinetContent) → AllOpen s.cabinets → IsCabinet s cab c → CanOpen c }
{}
