//! The lines of a run are lines that a trace may have, for any journals, so its text is that of no other lines. It has
//! no code: the contracts of the functions are the laws.
ghost use Rattle.std.specs.Prelude.{ℕ, List};
ghost use Rattle.scenario_data.specs.Content.{ScenarioContent};
ghost use Rattle.safety_laws.specs.TraceText.{AreLines};
ghost use Rattle.runnable.specs.Runnable.{Runnable};
ghost use Rattle.run_definition.specs.Lines.{run_lines};
ghost use Rattle.run_definition.specs.Orders.{AreJournals};

use cabinet_laws::{cabinet_histories_are_admitted, downloads_end_as_judged, tables_stay_in_range};
use master_rounds::rounds_are_short;

/// For every order in which the items of a run arrive at its cabinets, each of its lines is one that a trace may have:
/// journals are in longest runs, replies are 1 to 1,472 octets, and every number is within its type.
pub fn lines_are_proper()
    ensures { (s : ScenarioContent) → Runnable s → (journals : List (List (List ℕ))) → AreJournals s journals
        → AreLines (run_lines s journals) }
{
    cabinet_histories_are_admitted();
    tables_stay_in_range();
    downloads_end_as_judged();
    rounds_are_short();
}
