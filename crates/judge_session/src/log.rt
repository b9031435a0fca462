//! The judge of a log: the cabinets of its scenario, and what is reported of each line.

ghost use Rattle.std.specs.Prelude.{◌≡◌, ◌≤◌, ◌<◌, ◌+◌, ◌++◌, ◌∷◌, ℕ, List, [], Bool, true, false, length, map, get_or, not, IfOk, OnOk, MatchOption, IfSome, Option, Some, None, Ok, Err};
ghost use Rattle.trace_text.specs.declared.lines.Line.{Line as LineRow};
ghost use Rattle.scenario_data.specs.Content.{ScenarioContent, scenario_content};
ghost use Rattle.judge_laws.specs.declared.Terms.{Terms as TermsRow};
ghost use Rattle.judge_session.specs.declared.faults.LineFault.{LineFault as FaultRow};
ghost use Rattle.judge_session.specs.declared.faults.NotTaken.{NotTaken as NotTakenRow};
ghost use Rattle.judge_session.specs.Told.{has_cabinet};
ghost use Rattle.judge_session.specs.Log.{IsRead, IsFault, fault_of};
ghost use Rattle.judge_session.specs.Report.{log_found, line_report, end_report};

use crate::faults::{LineFault, NotTaken};
use crate::loads::load_of;
use crate::texts::put_total;
use crate::watch::CabinetWatch;
use judge_laws::Terms;
use scenario_data::{Scenario, opening_tables};
use sig_types::{Colour, Mode, NoMemory, Ped};
use std::alloc::Global;
use trace_text::{Line, read_line};

/// How many bytes the longest line has that is taken, with its newline.
const LONGEST: usize = 4097;

/// A judge of a log.
#[derive(Drop)]
pub struct LogJudge {
    scenario: Scenario,
    cabinets: Vec<CabinetWatch>,
    terms: Terms,
    last: u32,
    breaches: u64,
    line: Vec<u8>,
}

impl LogJudge {
    ghost use Rattle.judge_session.specs.Standing.{JudgeStands, Takes, Follows};

    /// The judge of a log of the cabinets of a scenario, before any line.
    pub fn open(alloc: Global, scenario: Scenario, terms: Terms) -> Result<LogJudge, NoMemory>
        requires few { length scenario.cabinets.items ≤ 64 }
        ensures { IfOk result (λ judge. JudgeStands judge (scenario_content scenario) terms []) }
    {
        let Ok(mut cabinets) = Vec::with_capacity(alloc, scenario.cabinets.len()) else {
            return Err(NoMemory);
        };
        for cabinet in &scenario.cabinets {
            let watch = CabinetWatch::new(&opening_tables(cabinet), terms.joined);
            match cabinets.push(watch) {
                Ok(()) => {}
                Err(_) => return Err(NoMemory),
            }
        }
        let Ok(line) = Vec::with_capacity(alloc, LONGEST) else {
            return Err(NoMemory);
        };
        Ok(LogJudge {
            scenario,
            cabinets,
            terms,
            last: 0,
            breaches: 0,
            line,
        })
    }

    /// Takes the next line, which is given without its newline, and appends what is reported of it. A line that is refused changes
    /// nothing. If memory runs out, judge and text are of no more use.
    pub fn take(&mut self, alloc: Global, line: &[u8], out: &mut Vec<u8>) -> Result<(), NotTaken>
        ensures taken { OnOk result ((s : ScenarioContent) (terms : TermsRow) (before : List LineRow) → JudgeStands self.old s terms before
            → Takes self.new s terms before line.now out.old.items out.new.items) }
        ensures text { (fault : FaultRow) → result ≡ Err (NotTakenRow.Refused fault) → out.new.items ≡ out.old.items }
        ensures same { (fault : FaultRow) → result ≡ Err (NotTakenRow.Refused fault)
            → (s : ScenarioContent) (terms : TermsRow) (before : List LineRow) → JudgeStands self.old s terms before → JudgeStands self.new s terms before }
        ensures refused { (fault : FaultRow) → result ≡ Err (NotTakenRow.Refused fault)
            → (s : ScenarioContent) (terms : TermsRow) (before : List LineRow) → JudgeStands self.old s terms before → IsFault s before line.now fault }
    {
        match self.read(alloc, line) {
            Ok(Some(line)) => self.follow(&line, out),
            Ok(None) => Err(NotTaken::Refused(LineFault::NotALine)),
            Err(NoMemory) => Err(NotTaken::NoMemory),
        }
    }

    /// How many breaches were found.
    pub fn breaches(&self) -> u64
        ensures { (s : ScenarioContent) (terms : TermsRow) (before : List LineRow) → JudgeStands self.now s terms before
            → result ≡ length (log_found s terms before) }
    {
        self.breaches
    }

    /// Appends what is reported at the end of the log.
    pub fn close(&self, out: &mut Vec<u8>) -> Result<(), NoMemory>
        requires { (s : ScenarioContent) × (terms : TermsRow) × (before : List LineRow) × JudgeStands self.now s terms before }
        ensures { OnOk result ((s : ScenarioContent) (terms : TermsRow) (before : List LineRow) → JudgeStands self.now s terms before
            → out.new.items ≡ out.old.items ++ end_report s terms before) }
    {
        for k in 0..self.cabinets.len() {
            self.cabinets[k].overruns(out, k as u32 + 1, self.last, self.terms)?;
        }
        put_total(out, self.cabinets.len() as u32, self.breaches)
    }

    /// The line of a trace whose bytes these are, without its newline.
    fn read(&mut self, alloc: Global, bytes: &[u8]) -> Result<Option<Line>, NoMemory>
        ensures read { IfOk result (λ found. MatchOption found ((line : LineRow) → IsRead bytes.now line → ⊥) (IsRead bytes.now)) }
        ensures stands { (s : ScenarioContent) (terms : TermsRow) (before : List LineRow) → JudgeStands self.old s terms before → JudgeStands self.new s terms before }
    {
        self.line.clear();
        if self.line.extend_from_slice(bytes).is_err() {
            return Err(NoMemory);
        }
        if self.line.push(b'\n').is_err() {
            return Err(NoMemory);
        }
        read_line(alloc, self.line.as_slice())
    }

    /// Takes a line of a trace.
    fn follow(&mut self, line: &Line, out: &mut Vec<u8>) -> Result<(), NotTaken>
        ensures { Follows result self.old self.new line.now out.old.items out.new.items }
    {
        match line {
            Line::F {
                cab,
                tick,
                veh,
                ped,
                mode,
                counter: _,
                target: _,
                version,
            } => self.frame(out, *cab, *tick, veh, ped, *mode, *version),
            Line::L { cab, id, result } => match result {
                Ok(version) => self.load(out, *cab, *id, *version),
                Err(_) => Ok(()),
            },
            Line::S { json: _ } => Ok(()),
            Line::R { round: _ } => Ok(()),
            Line::M { note: _ } => Ok(()),
            Line::J { cab: _, runs: _ } => Ok(()),
            Line::A {
                cab: _,
                pass: _,
                hex: _,
            } => Ok(()),
            Line::Z { rounds: _ } => Ok(()),
        }
    }

    /// The place of a cabinet that the scenario has.
    fn place(&self, cab: u32) -> Option<usize>
        ensures place { (s : ScenarioContent) → length self.now.cabinets.items ≡ length s.cabinets
            → MatchOption result (has_cabinet s cab ≡ false) (λ k. (has_cabinet s cab ≡ true) × (k + 1 ≡ cab)) }
        ensures within { IfSome result (λ k. k < length self.now.cabinets.items) }
    {
        let many = self.cabinets.len();
        if cab > 0 && cab as usize <= many {
            Some(cab as usize - 1)
        } else {
            None
        }
    }

    /// Takes a frame.
    fn frame(
        &mut self,
        out: &mut Vec<u8>,
        cab: u32,
        tick: u32,
        veh: &[Colour; 16],
        ped: &[Ped; 16],
        mode: Mode,
        version: u32,
    ) -> Result<(), NotTaken>
        ensures { (counter target : ℕ) → Follows result self.old self.new (LineRow.F cab tick veh.now ped.now mode counter target version) out.old.items out.new.items }
    {
        let Some(k) = self.place(cab) else {
            return Err(NotTaken::Refused(LineFault::NoCabinet));
        };
        match self.cabinets[k].frame_fault(tick, version) {
            Some(fault) => return Err(NotTaken::Refused(fault)),
            None => {}
        }
        let (terms, count) = (self.terms, self.breaches);
        match self.cabinets[k].frame(out, count, cab, tick, veh, ped, mode, terms) {
            Ok(count) => {
                self.breaches = count;
                self.last = tick.max(self.last);
                Ok(())
            }
            Err(NoMemory) => Err(NotTaken::NoMemory),
        }
    }

    /// Takes an accepted load.
    fn load(&mut self, out: &mut Vec<u8>, cab: u32, id: u32, version: u32) -> Result<(), NotTaken>
        ensures { Follows result self.old self.new (LineRow.L cab id (Ok version)) out.old.items out.new.items }
    {
        let Some(k) = self.place(cab) else {
            return Err(NotTaken::Refused(LineFault::NoCabinet));
        };
        match self.cabinets[k].load_fault(version) {
            Some(fault) => return Err(NotTaken::Refused(fault)),
            None => {}
        }
        let Some(load) = load_of(self.scenario.loads.as_slice(), cab, id) else {
            return match self.cabinets[k].put_unknown_load(out, cab, id, version) {
                Ok(()) => Ok(()),
                Err(NoMemory) => Err(NotTaken::NoMemory),
            };
        };
        self.cabinets[k].put_load(version, load);
        Ok(())
    }
}
