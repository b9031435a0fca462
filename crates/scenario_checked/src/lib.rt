//! Every scenario that is read without a fault can be run, also one inside another object, as in a field file or a band
//! file. The proofs need both the reading of JSON and what a run requires of a scenario.
#![tactic(auto)]

mod inside;

ghost use Rattle.std.specs.Prelude.{ℕ, List};
ghost use Rattle.scenario_data.specs.Content.{ScenarioContent};
ghost use Rattle.scenario_read.specs.Answers.{IsScenario};
ghost use Rattle.runnable.specs.Runnable.{Runnable};

pub use inside::inner_fail;

/// A scenario that was read without a fault can be run: its numbers are in range, the tables of each cabinet are consistent, each input
/// has its place and reaches a round and a cabinet, each load has cells that there are, and its compact text is one line.
pub fn scenarios_run()
    ensures { (bytes : List ℕ) (s : ScenarioContent) → IsScenario bytes s → Runnable s }
{}
