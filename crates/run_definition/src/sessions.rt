//! What a session with cabinets is: its requests, its answers, and that it is a run, by its own journals, of the
//! scenario that results. The functions have no bodies: their contracts are the laws.

ghost use Rattle.std.specs.Prelude.{◌≤◌, ℕ, List};
ghost use Rattle.scenario_data.specs.Content.{ScenarioContent};
ghost use Rattle.runnable.specs.Runnable.{AllOpen};
ghost use Rattle.run_definition.specs.SessionDialogue.{IsByRounds};
ghost use Rattle.run_definition.specs.SessionLaws.{SessionIsRun, NeedsNoMore};

use crate::any_order_is_safe;

/// A session is a run: whatever is asked in it, its answers are the run of the scenario that results, by the journals
/// of the session. The scenario has rounds and ticks, its cabinets open with consistent tables and slow drifts, and its
/// loads and priority requests are ordered by rounds. The law holds for any number of requests.
pub fn sessions_are_runs()
    ensures { (s : ScenarioContent) → IsByRounds s → 1 ≤ s.rounds → 1 ≤ s.ticks → AllOpen s.cabinets
        → (lines : List (List ℕ)) (compact : List ℕ) → SessionIsRun s lines compact }
{
    any_order_is_safe();
}

/// An answer depends on no later request: whatever is asked later, the answers to the scenario and to these requests
/// are first.
pub fn answers_need_no_more()
    ensures { (s : ScenarioContent) (lines : List (List ℕ)) (more : List (List ℕ)) → NeedsNoMore s lines more }
{}
