//! What a run writes, for any journals: the journal of each round and cabinet says which pass brought the next item,
//! item by item, and everything else follows from the scenario. The laws hold for every order, including the serial
//! one. The functions have no bodies: their contracts are the laws.
//! The module `sessions` has the laws of a session: it is a run of the scenario that results.
#![tactic(auto)]

mod sessions;

ghost use Rattle.std.specs.Prelude.{◌≡◌, ◌+◌, ◌++◌, ℕ, List, length};
ghost use Rattle.scenario_data.specs.Content.{ScenarioContent};
ghost use Rattle.runnable.specs.Runnable.{AllOpen};
ghost use Rattle.run_definition.specs.CabinetState.{opened_cabinet_states, cabinet_states_after};
ghost use Rattle.run_definition.specs.Lines.{front_lines, rounds_lines, run_lines};
ghost use Rattle.run_definition.specs.Orders.{AreJournals, BeginJournals, Continues, serial_journals};
ghost use Rattle.run_definition.specs.Safe.{AllKept};
ghost use Rattle.run_definition.specs.Smallest.{smallest, one_tick, smallest_lines};

use cabinet_laws::{
    cabinet_histories_are_safe, cabinet_histories_keep_to_plan,
    cabinet_histories_meet_coordination, downloads_are_whole, downloads_end_as_judged,
};
pub use sessions::{answers_need_no_more, sessions_are_runs};

/// The smallest run: one cabinet with the standard tables and one tick shows all red throughout.
pub fn smallest_run()
    ensures { run_lines smallest one_tick ≡ smallest_lines }
{}

/// The serial journals are journals of a run.
pub fn serial_is_an_order()
    ensures { (s : ScenarioContent) → AreJournals s (serial_journals s) }
{}

/// For every order in which the items of a run reach its cabinets: if these open with consistent tables and slow
/// drifts, the lines of each cabinet by themselves show that its street is safe at every tick of 0.1 s and in every
/// mode, with the tables of each version, and that its versions are whole. These tables are the opening ones with the
/// whole content of each download that the rules accepted; and the cabinet's history meets what coordination promises
/// (FHWA Signal Timing Manual: offset, transition), and each frame of a pattern keeps to its plan: a coordinated phase
/// is green wherever the counter is below its force point.
pub fn any_order_is_safe()
    ensures { (s : ScenarioContent) → AllOpen s.cabinets → (journals : List (List (List ℕ))) → AreJournals s journals
        → AllKept s journals (run_lines s journals) }
{
    cabinet_histories_are_safe();
    downloads_are_whole();
    downloads_end_as_judged();
    cabinet_histories_meet_coordination();
    cabinet_histories_keep_to_plan();
}

/// The lines of fewer rounds are the beginning of those of more: later rounds only add theirs. And any journals of the
/// first rounds can be continued to those of a whole run.
pub fn rounds_only_add()
    ensures adds { (s : ScenarioContent) (journals : List (List (List ℕ))) (later : List (List (List ℕ)))
        → front_lines s (journals ++ later)
        ≡ front_lines s journals ++ rounds_lines s (length journals + 1) (cabinet_states_after s (opened_cabinet_states s s.cabinets) journals) later }
    ensures continued { (s : ScenarioContent) (journals : List (List (List ℕ))) → BeginJournals s journals → Continues s journals }
{}

/// The lines of a run determine its journals: no other journals give the same lines.
pub fn journals_are_told()
    ensures { (s : ScenarioContent) (journals : List (List (List ℕ))) (others : List (List (List ℕ)))
        → AreJournals s journals → AreJournals s others → run_lines s journals ≡ run_lines s others → journals ≡ others }
{}
