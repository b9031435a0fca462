//! What holds for every history of a cabinet: for any messages, inputs and ticks in any order, the laws of the street
//! and of coordination apply to its history, its tables are those of whole downloads, and its lines show what happened.
//! The functions have no bodies: their contracts are the laws.
#![tactic(auto)]

ghost use Rattle.std.specs.Prelude.{◌≡◌, ℕ, List, ◌+◌, ◌++◌, drop, length, None, IfSome, true};
ghost use Rattle.sig_tables.specs.declared.tables.Tables.{Tables};
ghost use Rattle.sig_tables.specs.Decide.{past_at, since_opening};
ghost use Rattle.sig_tables.specs.Putting.{EachFits, with_cells};
ghost use Rattle.sig_tables.specs.Standard.{std8};
ghost use Rattle.rule_book.specs.Rules.{Consistent};
ghost use Rattle.rule_facts.specs.Admitted.{Admitted};
ghost use Rattle.tick_laws.specs.InStep.{EachCoordinated};
ghost use Rattle.trace_text.specs.declared.lines.Line.{Line};
ghost use Rattle.safety_laws.specs.Safe.{Safe, intersection_of};
ghost use Rattle.safety_laws.specs.Whole.{Whole};
ghost use Rattle.safety_laws.specs.Written.{tables_of};
ghost use Rattle.safety_laws.specs.CabinetTold.{told_in, history_told};
ghost use Rattle.plan_facts.specs.Disturbances.{Drift, IsSlow, drift_of, no_drift};
ghost use Rattle.plan_facts.specs.Meets.{Meets};
ghost use Rattle.coordination_laws.specs.Ranged.{EachInRange};
ghost use Rattle.agent.specs.Asks.{AsksNothing};
ghost use Rattle.stage_txn.specs.Answers.{answered, staged, taken};
ghost use Rattle.sig_types.specs.Items.{Came};
ghost use Rattle.cabinet_history.specs.CabinetHistory.{CabinetHistory, after, with_item};
ghost use Rattle.cabinet_history.specs.Journals.{Act, items_in};
ghost use Rattle.cabinet_history.specs.Coming.{coming, history_of, in_force};
ghost use Rattle.cabinet_history.specs.Downloads.{accepted_by, content_by, deeds_of, is_under_way, with_downloads};
ghost use Rattle.cabinet_history.specs.Frames.{has_line};
ghost use Rattle.cabinet_history.specs.CabinetAnswers.{reply_to, load_end};
ghost use Rattle.cabinet_laws.specs.Openings.{IsOpening};
ghost use Rattle.cabinet_laws.specs.Parts.{numbers, up_to};
ghost use Rattle.cabinet_laws.specs.Judging.{IsVerdict};
ghost use Rattle.cabinet_laws.specs.Telling.{acts_told, cabinet_history_told};

use agent::other_frames_ask_nothing;
use coordination_laws::coordination_is_met;
use rule_book::standard_consistent;
use safety_laws::admitted_streets_are_safe;
use stage_txn::{installs_what_keeps_the_rules, parts_come_in_order};
use tick_laws::keeps_to_plan;

/// Whatever reaches a cabinet that opened with consistent tables, each download that is put in force broke no rule with
/// regard to the tables that it replaces. The clock keeps the drift that it opened with: no frame changes it.
pub fn cabinet_histories_are_admitted()
    ensures admitted { (cabinet_history : CabinetHistory) (t : Tables) (d : Drift) → IsOpening t d cabinet_history.opening → Consistent t
        → Admitted (history_of cabinet_history).tables (since_opening (history_of cabinet_history)) }
    ensures tables { (cabinet_history : CabinetHistory) (t : Tables) (d : Drift) → IsOpening t d cabinet_history.opening → (history_of cabinet_history).tables ≡ t }
    ensures drift { (cabinet_history : CabinetHistory) (t : Tables) (d : Drift) → IsOpening t d cabinet_history.opening → drift_of (past_at (history_of cabinet_history)) ≡ d }
{
    installs_what_keeps_the_rules();
}

/// If each cell of the opening tables holds an allowed value, so does each cell of the tables in force after any
/// cabinet history, and the rows of all tables that were ever put in force are in range.
pub fn tables_stay_in_range()
    ensures now { (cabinet_history : CabinetHistory) (t : Tables) (d : Drift) → IsOpening t d cabinet_history.opening → EachFits t → EachFits (in_force (coming cabinet_history)) }
    ensures each { (cabinet_history : CabinetHistory) (t : Tables) (d : Drift) → IsOpening t d cabinet_history.opening → EachFits t
        → EachInRange (history_of cabinet_history).tables (since_opening (history_of cabinet_history)) }
{}

/// Coordination is met in every cabinet history: of a cabinet whose clock keeps time, and of one whose clock drifts as slowly as clocks may.
pub fn cabinet_histories_meet_coordination()
    ensures even { (cabinet_history : CabinetHistory) (t : Tables) → IsOpening t no_drift cabinet_history.opening → Consistent t → Meets (history_of cabinet_history) }
    ensures drifting { (cabinet_history : CabinetHistory) (t : Tables) (d : Drift) → IsOpening t d cabinet_history.opening → Consistent t → EachFits t → IsSlow d
        → Meets (history_of cabinet_history) }
{
    installs_what_keeps_the_rules();
    coordination_is_met();
}

/// In every cabinet history each frame of a pattern keeps to its plan, by the tables in force at its tick: before its force point a coordinated phase is
/// green, so a vehicle that comes while the counter is there meets green; at each local zero both are.
pub fn cabinet_histories_keep_to_plan()
    ensures { (cabinet_history : CabinetHistory) (t : Tables) (d : Drift) → IsOpening t d cabinet_history.opening → Consistent t → EachCoordinated (past_at (history_of cabinet_history)).moments }
{
    installs_what_keeps_the_rules();
    keeps_to_plan();
}

/// The premises can be met: coordination is met in every history of a cabinet that opens with the standard tables, whose clock drifts slowly
/// or not at all.
pub fn standard_cabinet_histories_meet_coordination()
    ensures { (cabinet_history : CabinetHistory) (d : Drift) → IsOpening std8 d cabinet_history.opening → IsSlow d → Meets (history_of cabinet_history) }
{
    standard_consistent();
    cabinet_histories_meet_coordination();
}

/// Downloads are whole: the tables in force are the opening ones with the whole content of each download whose finish was accepted, put
/// in order, and nothing else has a part in them. The version is the number of these downloads, and the tables of a version, by which
/// the street is judged, are made by all but the later ones. For while a download is under way nothing else is put in force: the staged
/// tables are those in force with the cells of its parts so far, which are the parts from 1 to the number taken, in order.
pub fn downloads_are_whole()
    ensures in_force { (cabinet_history : CabinetHistory) (t : Tables) (d : Drift) → IsOpening t d cabinet_history.opening
        → in_force (coming cabinet_history) ≡ with_downloads t (accepted_by (deeds_of (coming cabinet_history))) }
    ensures version { (cabinet_history : CabinetHistory) (t : Tables) (d : Drift) → IsOpening t d cabinet_history.opening
        → (past_at (history_of cabinet_history)).version ≡ length (accepted_by (deeds_of (coming cabinet_history))) }
    ensures versions { (cabinet_history : CabinetHistory) (t : Tables) (d : Drift) (version later : ℕ) → IsOpening t d cabinet_history.opening
        → version + later ≡ length (accepted_by (deeds_of (coming cabinet_history)))
        → tables_of (history_of cabinet_history) version ≡ with_downloads t (drop later (accepted_by (deeds_of (coming cabinet_history)))) }
    ensures staged { (cabinet_history : CabinetHistory) → is_under_way (deeds_of (coming cabinet_history)) ≡ true
        → staged (answered (coming cabinet_history).calls) ≡ with_cells (in_force (coming cabinet_history)) (content_by (deeds_of (coming cabinet_history))) }
    ensures parts { (cabinet_history : CabinetHistory)
        → numbers (answered (coming cabinet_history).calls) ≡ up_to (taken (answered (coming cabinet_history).calls)) }
{
    parts_come_in_order();
}

/// A download that ends says what the rules say then: if a finish is accepted, the staged tables broke no rule with
/// regard to those in force, and the version that is reported is the cabinet's from then on; if a verify or a finish is
/// refused, the rule that is reported, with its row, is the first that they broke.
pub fn downloads_end_as_judged()
    ensures { (cabinet_history : CabinetHistory) (octets : List ℕ)
        → IfSome (load_end cabinet_history octets) (λ load. IsVerdict (coming cabinet_history) (coming (with_item cabinet_history (Came octets))) load.result) }
{
    installs_what_keeps_the_rules();
}

/// What the items of a cabinet history show one after another is what its history must show. So anyone that writes the
/// lines of each item as it comes has a street that is safe at every tick, and versions that are whole.
pub fn cabinet_histories_are_safe()
    ensures told { (cabinet_history : CabinetHistory) (t : Tables) (d : Drift) → IsOpening t d cabinet_history.opening
        → cabinet_history_told cabinet_history ≡ history_told has_line (history_of cabinet_history) }
    ensures acts { (cabinet_history : CabinetHistory) (acts : List Act)
        → cabinet_history_told (after cabinet_history (items_in acts)) ≡ cabinet_history_told cabinet_history ++ acts_told cabinet_history acts }
    ensures safe { (cabinet_history : CabinetHistory) (t : Tables) (d : Drift) (cab : ℕ) (lines : List Line)
        → IsOpening t d cabinet_history.opening → Consistent t → told_in cab lines ≡ cabinet_history_told cabinet_history
        → Safe (intersection_of cab (tables_of (history_of cabinet_history)) lines) }
    ensures whole { (cabinet_history : CabinetHistory) (t : Tables) (d : Drift) (cab : ℕ) (lines : List Line)
        → IsOpening t d cabinet_history.opening → told_in cab lines ≡ cabinet_history_told cabinet_history
        → Whole cab lines }
{
    installs_what_keeps_the_rules();
    admitted_streets_are_safe();
}

/// A frame that asks nothing, because it isn't a message, is of another community, or is a Response, changes nothing at
/// the cabinet, is answered by silence and ends no download (RFC 1157, 4.1).
pub fn other_frames_change_nothing()
    ensures nothing { (cabinet_history : CabinetHistory) (octets : List ℕ) → AsksNothing octets cabinet_history.community
        → coming (with_item cabinet_history (Came octets)) ≡ coming cabinet_history }
    ensures silence { (cabinet_history : CabinetHistory) (octets : List ℕ) → AsksNothing octets cabinet_history.community → reply_to cabinet_history octets ≡ None }
    ensures no_end { (cabinet_history : CabinetHistory) (octets : List ℕ) → AsksNothing octets cabinet_history.community → load_end cabinet_history octets ≡ None }
{
    other_frames_ask_nothing();
}
