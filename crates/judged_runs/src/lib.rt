//! The judge of indications finds nothing in a run: no line of a run is refused by it, and none shows a breach. The judge knows the
//! scenario and the lines, and takes the tables of each version from the loads that the `L` lines name. The functions have no
//! bodies: their contracts are the laws.
#![tactic(auto)]

ghost use Rattle.std.specs.Prelude.{◌≡◌, ℕ, Bool, false, true, List, [], ◌∷◌, reverse};
ghost use Rattle.scenario_data.specs.Content.{ScenarioContent};
ghost use Rattle.runnable.specs.Runnable.{Runnable};
ghost use Rattle.run_definition.specs.Lines.{rest_lines, run_lines};
ghost use Rattle.run_definition.specs.Orders.{AreJournals, serial_journals};
ghost use Rattle.trace_laws.specs.Traces.{IsTrace};
ghost use Rattle.judge_laws.specs.declared.Clause.{Clause};
ghost use Rattle.judge_laws.specs.Breaches.{exact, breach_at};
ghost use Rattle.judge_session.specs.Report.{log_found};
ghost use Rattle.run_definition.specs.Smallest.{smallest};
ghost use Rattle.stage_txn.specs.Answers.{answered};
ghost use Rattle.judged_runs.specs.Loads.{brought, LoadsAreOwn, AllAreLoads};
ghost use Rattle.judged_runs.specs.Messages.{IsPlainLink, MessagesAreOwn};
ghost use Rattle.judged_runs.specs.Rows.{yellow, one_download, both_green, seventh, disguised};
ghost use Rattle.judged_runs.specs.Faultless.{IsFaultless, TraceIsFaultless};

use agent::frames_ask_one_thing;
use rule_book::standard_consistent;
use run_definition::any_order_is_safe;
use stage_txn::{installs_what_keeps_the_rules, parts_come_in_order};
use trace_laws::{lines_are_proper, traces_are_safe};

/// For every order in which the items of a run arrive at its cabinets: after the first line, which has the scenario, its lines are a log
/// that the judge accepts, since at each cabinet the ticks rise and the versions are whole. No line shows a breach, to the tick, as far
/// as the loads that the lines name are loads of the scenario, if no download came under the number of a load with other cells, as a
/// message of `frames` or a changed octet can bring it. If each download was a load, the tables are known throughout.
pub fn runs_show_no_breach()
    ensures { (s : ScenarioContent) → Runnable s → (journals : List (List (List ℕ))) → AreJournals s journals
        → IsFaultless s journals (run_lines s journals) }
{
    any_order_is_safe();
    lines_are_proper();
}

/// The same holds for the lines of every text that a check accepts.
pub fn traces_show_no_breach()
    ensures { (text : List ℕ) → IsTrace text → TraceIsFaultless text }
{
    traces_are_safe();
    runs_show_no_breach();
    lines_are_proper();
}

/// The condition holds if each message that reaches a cabinet, and names the number of a load, asks for a part of that load or for its
/// number of parts: however messages are lost, repeated, delayed or mixed with others. If they finish only loads, each download was a
/// load.
pub fn own_messages_bring_own_loads()
    ensures own { (s : ScenarioContent) (journals : List (List (List ℕ))) → MessagesAreOwn false s journals → LoadsAreOwn s journals }
    ensures loads { (s : ScenarioContent) (journals : List (List (List ℕ))) → MessagesAreOwn true s journals → AllAreLoads s journals }
{
    parts_come_in_order();
    installs_what_keeps_the_rules();
}

/// It holds for every run of a scenario whose link changes no octet of a message to a cabinet, and whose messages of other software ask
/// for no other cells under the number of a load: so no line of such a run shows a breach. If they finish no other download, the tables
/// are known throughout.
pub fn plain_links_bring_own_loads()
    ensures messages { (only : Bool) (s : ScenarioContent) → Runnable s → IsPlainLink only s → (journals : List (List (List ℕ))) → MessagesAreOwn only s journals }
    ensures own { (s : ScenarioContent) → Runnable s → IsPlainLink false s → (journals : List (List (List ℕ))) → LoadsAreOwn s journals }
    ensures loads { (s : ScenarioContent) → Runnable s → IsPlainLink true s → (journals : List (List (List ℕ))) → AllAreLoads s journals }
{
    frames_ask_one_thing();
    own_messages_bring_own_loads();
}

/// What a download brings: its number and its cells. And what the judge finds: a conflict, but not after a load that the scenario does
/// not have.
pub fn small_cases()
    ensures brought { brought (answered one_download) ≡ (1, yellow) ∷ [] }
    ensures known { log_found smallest exact (both_green 0 0 ∷ []) ≡ breach_at 1 0 Clause.Apart 1 2 ∷ [] }
    ensures unknown { log_found smallest exact (both_green 9 1 ∷ seventh ∷ []) ≡ [] }
{}

/// Without its condition the law is false. In a run of this scenario, other software downloads a yellow of phase 2 under the number of
/// a load that disables phase 2: so, to the judge, phase 2 is lit while it is disabled.
pub fn a_load_can_be_disguised()
    ensures runs { Runnable disguised }
    ensures found { log_found disguised exact (reverse (rest_lines disguised (serial_journals disguised))) ≡ breach_at 1 60 Clause.Apart 2 0 ∷ [] }
{
    standard_consistent();
}
