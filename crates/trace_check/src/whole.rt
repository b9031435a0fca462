//! The whole text: its scenario, what each cabinet shows at first, the rounds, and the end.

ghost use Rattle.std.specs.Prelude.{◌≡◌, ◌≢◌, ◌≤◌, ◌⊎◌, ◌↔◌, IsTrue, ℕ, List, [], Ok, Err, length, IfOk, IfErr, OnOk};
ghost use Rattle.trace_text.specs.declared.lines.Line.{Line as LineRow};
ghost use Rattle.scenario_data.specs.Content.{scenario_content};
ghost use Rattle.runnable.specs.Runnable.{Runnable};
ghost use Rattle.run_definition.specs.CabinetState.{CabinetState, opened_cabinet_states};
ghost use Rattle.run_definition.specs.Lines.{opening_lines};
ghost use Rattle.cab_book.specs.declared.control.Engine.{Engine};
ghost use Rattle.round_run.specs.CabinetStates.{AreAt, AreGivenBy};
ghost use Rattle.round_run.specs.ClosedLoop.{Between};
ghost use Rattle.trace_laws.specs.Traces.{Opens, IsTrace, IsCheckable};
ghost use Rattle.trace_laws.specs.Faults.{FirstFault};
ghost use Rattle.trace_laws.specs.Laws.{TellsOfRun};
ghost use Rattle.trace_laws.specs.Script.{Script, say, rounds_script, script_of};
ghost use Rattle.trace_laws.specs.Script.Script.{Ends};
ghost use Rattle.trace_check.specs.Reading.{ReadsOn, ReadsWhole};
ghost use Rattle.trace_check.specs.Rounds.{RoundsSeen};
ghost use Rattle.trace_laws.specs.Seen.{HasSeen};
ghost use Rattle.trace_check.specs.Checked.{TellsNone, Tells, RestSeen, TextSeen};

use crate::expect::expect;
use crate::expecter::Expecter;
use crate::faults::{CheckFail, TraceFault};
use crate::pieces::{cut, fault_at};
use crate::places::Place;
use crate::rounds::check_round;
use crate::watching::{first_seen, nothing_seen};
use cab_book::{Book, Engine};
use round_run::ClosedLoop;
use scenario_checked::scenarios_run;
use scenario_data::{ReadFail, Scenario};
use scenario_file::read;
use sig_types::NoMemory;
use std::alloc::Global;
use trace_laws::{
    Seen, faults_are_determined, run_texts_are_safe, traces_are_safe, traces_have_no_fault,
};
use trace_tell::tell_openings;
use trace_text::{Line, read_line};

/// What each cabinet shows before any tick.
fn expect_openings<'a>(
    alloc: Global,
    at: Place<'a>,
    books: &Vec<Book>,
) -> Result<Place<'a>, CheckFail>
    requires few { length books.now.items ≤ 64 }
    ensures { (ts : List CabinetState) → AreAt books.now.items ts → (rest : Script) → ReadsOn (say (opening_lines 1 ts) rest) at.entry rest result }
{
    let mut expecter = Expecter { alloc, at };
    match tell_openings(&mut expecter, books) {
        Ok(()) => Ok(expecter.at),
        Err(fail) => Err(fail),
    }
}

/// All rounds, one after another, of cabinets whose frames an observer gives.
fn check_rounds<'a>(
    alloc: Global,
    start: Place<'a>,
    s: &Scenario,
    closed_loop: &mut ClosedLoop,
    watched: u32,
    seen: &mut Seen,
) -> Result<Place<'a>, CheckFail>
    requires runnable { Runnable (scenario_content s.now) }
    requires between { Between (scenario_content s.now) 0 (opened_cabinet_states (scenario_content s.now) (scenario_content s.now).cabinets) closed_loop.old }
    requires observed { AreGivenBy Engine.Observer closed_loop.old.books.items }
    ensures reads { ReadsOn
        (rounds_script (scenario_content s.now) 1 s.now.rounds (opened_cabinet_states (scenario_content s.now) (scenario_content s.now).cabinets))
        start.entry (Script.Says (LineRow.Z s.now.rounds) Ends) result }
    ensures seen { IfOk result (λ next. RoundsSeen (scenario_content s.now) (opened_cabinet_states (scenario_content s.now) (scenario_content s.now).cabinets)
        start.entry next watched seen.old seen.new) }
{
    let mut at = start;
    for done in 0..s.rounds {
        match check_round(alloc, at, done, s, closed_loop, watched, seen) {
            Ok(next) => at = next,
            Err(fail) => return Err(fail),
        }
    }
    Ok(at)
}

/// Nothing is left after the end.
fn expect_nothing(at: Place) -> Result<(), CheckFail>
    ensures { ReadsWhole Ends at.entry result }
{
    if at.left.is_empty() {
        Ok(())
    } else {
        Err(fault_at(at, 11))
    }
}

/// What comes after the line of the scenario.
fn check_rest(
    alloc: Global,
    start: Place,
    s: &Scenario,
    watched: u32,
    seen: &mut Seen,
) -> Result<(), CheckFail>
    requires { Runnable (scenario_content s.now) }
    ensures reads { ReadsWhole (script_of (scenario_content s.now)) start.entry result }
    ensures seen { OnOk result (RestSeen (scenario_content s.now) start.entry.left.now watched seen.new) }
{
    let mut closed_loop = match ClosedLoop::open(alloc, Engine::Observer, s) {
        Ok(closed_loop) => closed_loop,
        Err(NoMemory) => return Err(CheckFail::NoMemory),
    };
    match first_seen(alloc, &closed_loop.books, watched) {
        Ok(first) => *seen = first,
        Err(fail) => return Err(fail),
    }
    let rounds = match expect_openings(alloc, start, &closed_loop.books) {
        Ok(rounds) => rounds,
        Err(fail) => return Err(fail),
    };
    let end = match check_rounds(alloc, rounds, s, &mut closed_loop, watched, seen) {
        Ok(end) => end,
        Err(fail) => return Err(fail),
    };
    match expect(alloc, end, &Line::Z { rounds: s.rounds }) {
        Ok(behind) => expect_nothing(behind),
        Err(fail) => Err(fail),
    }
}

/// The fault of a text by its first line.
fn first_fault(rule: u8) -> CheckFail
    ensures { result ≡ CheckFail.NotATrace (record { line = 1; rule = rule }) }
{
    CheckFail::NotATrace(TraceFault { line: 1, rule })
}

/// Whether the bytes are the same.
fn are_same(bytes: &[u8], others: &[u8]) -> bool
    ensures { IsTrue result ↔ (bytes.now ≡ others.now) }
{
    bytes == others
}

/// The scenario that a text gives by its compact text.
fn scenario_told(alloc: Global, json: &[u8]) -> Result<Scenario, CheckFail>
    ensures told { IfOk result (λ s. Opens (LineRow.S json.now) (scenario_content s)) }
    ensures runnable { IfOk result (λ s. Runnable (scenario_content s)) }
    ensures none { IfErr result (TellsNone (LineRow.S json.now)) }
{
    scenarios_run();
    match read(alloc, json) {
        Ok(scenario) => {
            if are_same(scenario.compact.as_slice(), json) {
                Ok(scenario)
            } else {
                Err(first_fault(3))
            }
        }
        Err(ReadFail::Refused(_)) => Err(first_fault(3)),
        Err(ReadFail::NoMemory) => Err(CheckFail::NoMemory),
    }
}

/// The scenario that a first line has.
fn scenario_of(alloc: Global, line: &Line) -> Result<Scenario, CheckFail>
    ensures told { IfOk result (λ s. Opens line.now (scenario_content s)) }
    ensures runnable { IfOk result (λ s. Runnable (scenario_content s)) }
    ensures none { IfErr result (TellsNone line.now) }
{
    match line {
        Line::S { json } => scenario_told(alloc, json.as_slice()),
        _ => Err(first_fault(3)),
    }
}

/// A text that is not empty and not too long.
fn check_text(alloc: Global, text: &[u8], watched: u32, seen: &mut Seen) -> Result<(), CheckFail>
    requires some { text.now ≢ [] }
    requires short { IsCheckable text.now }
    ensures tells { Tells text.now result }
    ensures seen { OnOk result (TextSeen text.now watched seen.new) }
{
    let (piece, left) = cut(text);
    let line = match read_line(alloc, piece) {
        Ok(Some(line)) => line,
        Ok(None) => return Err(first_fault(2)),
        Err(NoMemory) => return Err(CheckFail::NoMemory),
    };
    match scenario_of(alloc, &line) {
        Ok(scenario) => { check_rest(alloc, Place { left, line: 2 }, &scenario, watched, seen) },
        Err(fail) => Err(fail),
    }
}

/// The answer to a text.
fn answer(alloc: Global, text: &[u8], watched: u32, seen: &mut Seen) -> Result<(), CheckFail>
    ensures tells { Tells text.now result }
    ensures seen { OnOk result (TextSeen text.now watched seen.new) }
{
    if text.len() > 67_108_864 {
        return Err(CheckFail::NotATrace(TraceFault { line: 0, rule: 1 }));
    }
    if text.is_empty() {
        return Err(first_fault(10));
    }
    check_text(alloc, text, watched, seen)
}

/// Whether a text is a trace: that of a run of the scenario in its first line, in the order that its journals give. A
/// text has at most 67,108,864 bytes. It is read line by line while the run is computed, which is at most one round
/// ahead; the fault is the first line with which no trace continues. If memory runs out, there is no answer. By a trace
/// the street of each cabinet is safe at every tick of 0.1 s, its versions are whole, and coordination is met (FHWA
/// Signal Timing Manual: offset, transition).
pub fn check(alloc: Global, text: &[u8]) -> Result<(), CheckFail>
    ensures tells { Tells text.now result }
    ensures trace { IsTrace text.now → IsCheckable text.now → (result ≡ Ok tt) ⊎ (result ≡ Err CheckFail.NoMemory) }
    ensures fault { (f : TraceFault) → FirstFault text.now f.line f.rule
        → (result ≡ Err (CheckFail.NotATrace f)) ⊎ (result ≡ Err CheckFail.NoMemory) }
    ensures kept { OnOk result (TellsOfRun text.now) }
{
    traces_have_no_fault();
    faults_are_determined();
    traces_are_safe();
    let mut unseen = nothing_seen(alloc);
    answer(alloc, text, 0, &mut unseen)
}

/// The same for a text, and what was seen of the cabinet with this number while it was checked: the frames that have a line, the tables of
/// each version, and how many ticks of 0.1 s it had. Where the trace has no such cabinet no tables were seen.
pub fn observe(alloc: Global, text: &[u8], cab: u32) -> Result<Seen, CheckFail>
    ensures told { IfErr result (λ fail. Tells text.now (Err fail)) }
    ensures short { OnOk result (IsCheckable text.now) }
    ensures trace { IsTrace text.now → IsCheckable text.now → IfErr result (λ fail. fail ≡ CheckFail.NoMemory) }
    ensures fault { (f : TraceFault) → FirstFault text.now f.line f.rule
        → (result ≡ Err (CheckFail.NotATrace f)) ⊎ (result ≡ Err CheckFail.NoMemory) }
    ensures seen { IfOk result (λ seen. HasSeen text.now cab seen) }
{
    traces_have_no_fault();
    faults_are_determined();
    run_texts_are_safe();
    let mut seen = nothing_seen(alloc);
    match answer(alloc, text, cab, &mut seen) {
        Ok(()) => Ok(seen),
        Err(fail) => Err(fail),
    }
}
