//! What `judge` does: the first line of the input has a scenario, and each line after it is a line of a log. What a line
//! shows is written before the next one is read. The contracts say what is written, and that the reader reads only while
//! it has no whole line; the order of reads and writes is not part of any contract.

ghost use Rattle.std.specs.Prelude.{◌≡◌, ◌≤◌, ◌<◌, ◌+◌, ◌⊎◌, ◌∷◌, ℕ, List, [], true, false, length, Option, Err, Some, IfOk, IfSome, OnOk};
ghost use Rattle.io_edge.specs.Edge.{Rises, Stays, Appends};
ghost use Rattle.scenario_data.specs.Content.{ScenarioContent, scenario_content};
ghost use Rattle.scenario_data.specs.declared.refusal.Refusal.{Refusal};
ghost use Rattle.runnable.specs.Runnable.{Runnable};
ghost use Rattle.trace_text.specs.declared.lines.Line.{Line as LineRow};
ghost use Rattle.session_words.specs.Unread.{held_of, given_line, unread};
ghost use Rattle.judge_laws.specs.declared.Terms.{Terms as TermsRow};
ghost use Rattle.judge_session.specs.declared.faults.LineFault.{LineFault as FaultRow};
ghost use Rattle.judge_session.specs.Log.{IsFault};
ghost use Rattle.judge_session.specs.Report.{end_report, log_found};
ghost use Rattle.judge_session.specs.Standing.{JudgeStands, Takes};
ghost use Rattle.station.specs.Io.{io_of, Counts};
ghost use Rattle.station.specs.Lived.{IsLineRefused};
ghost use Rattle.station.specs.Judged.{headed, IsHeadFault, LogEnds, JudgeAnswer};
ghost use Rattle.station.specs.Judging.{IsHeadRead, IsJudging, JudgesNext, RefusesNext, StopsReading};
ghost use Rattle.station.specs.declared.status.LogFault.{LogFault as LogFaultRow};
ghost use Rattle.station.specs.declared.status.Status.{Status as StatusRow};

use crate::input::{Unread, first_line, next_line};
use crate::status::{LogFault, Status};
use crate::texts::tell;
use io_edge::{Sink, Source};
use judge_laws::Terms;
use judge_session::{LogJudge, NotTaken};
use scenario_data::{ReadFail, Refusal, Scenario};
use scenario_file::read;
use session_words::{LineReader, Next};
use sig_types::NoMemory;
use std::alloc::Global;

/// What follows `S ` in the first line of a log.
fn behind_head(line: &[u8]) -> Option<&[u8]>
    ensures some { IfSome result (λ bytes. line.now ≡ headed bytes.now) }
    ensures none { result ≡ None → (bytes : List ℕ) → line.now ≡ headed bytes → ⊥ }
{
    match line {
        [b'S', b' ', bytes @ ..] => Some(bytes),
        _ => None,
    }
}

/// The scenario in the first line of a log: one that `run` accepts.
fn head<S: Source>(
    alloc: Global,
    reader: &mut LineReader,
    source: &mut S,
) -> Result<Scenario, Unread>
    requires { held_of reader.old ≡ [] }
    ensures read { IfOk result (λ s. IsHeadRead (S.left source.old) (unread reader.new (S.left source.new)) (scenario_content s)) }
    ensures runnable { IfOk result (λ s. Runnable (scenario_content s)) }
    ensures fault { result ≡ Err Unread.Fault → Rises (S.faults source.old) (S.faults source.new) }
    ensures refused { (r : Refusal) → result ≡ Err (Unread.Refused r) → IsLineRefused IsHeadFault r (S.left source.old) }
    ensures exact { OnOk result (Stays S.counts_exactly (S.faults source.old) (S.faults source.new)) }
    ensures kept { S.faults source.old ≤ S.faults source.new }
{
    let line = match first_line(alloc, reader, source) {
        Ok(line) => line,
        Err(unread) => return Err(unread),
    };
    let bytes = match behind_head(line.as_slice()) {
        Some(bytes) => bytes,
        None => return Err(Unread::Refused(Refusal::Syntax)),
    };
    match read(alloc, bytes) {
        Ok(scenario) => Ok(scenario),
        Err(ReadFail::Refused(refusal)) => Err(Unread::Refused(refusal)),
        Err(ReadFail::NoMemory) => Err(Unread::NoMemory),
    }
}

/// A log that is being judged: the reader of its lines, its judge, and the report that is being made.
#[derive(Drop)]
struct Hearing {
    alloc: Global,
    reader: LineReader,
    judge: LogJudge,
    report: Vec<u8>,
}

impl Hearing {
    /// Judges the line that was read, which has this number.
    fn judge_line(&mut self, number: u64) -> Result<bool, Status>
        requires empty { self.old.report.items ≡ [] }
        ensures reader { self.new.reader ≡ self.old.reader }
        ensures over { IfOk result (λ over. over ≡ false) }
        ensures taken { OnOk result ((s : ScenarioContent) (terms : TermsRow) (before : List LineRow) → JudgeStands self.old.judge s terms before
            → Takes self.new.judge s terms before (given_line self.old.reader) [] self.new.report.items) }
        ensures failed { (status : StatusRow) → result ≡ Err status → StopsReading status ⊥ (λ fault. (fault.line ≡ number)
            × ((s : ScenarioContent) (terms : TermsRow) (before : List LineRow) → JudgeStands self.old.judge s terms before
            → IsFault s before (given_line self.old.reader) fault.fault)) }
    {
        match self
            .judge
            .take(self.alloc, self.reader.line(), &mut self.report)
        {
            Ok(()) => Ok(false),
            Err(NotTaken::Refused(fault)) => Err(Status::NotALog(LogFault {
                line: number,
                fault,
            })),
            Err(NotTaken::NoMemory) => Err(Status::NoMemory),
        }
    }

    /// Reports the end of the log.
    fn judge_end(&mut self) -> Result<bool, Status>
        requires stands { (s : ScenarioContent) × (terms : TermsRow) × (before : List LineRow) × JudgeStands self.old.judge s terms before }
        requires empty { self.old.report.items ≡ [] }
        ensures reader { self.new.reader ≡ self.old.reader }
        ensures judge { self.new.judge ≡ self.old.judge }
        ensures over { IfOk result (λ over. over ≡ true) }
        ensures report { OnOk result ((s : ScenarioContent) (terms : TermsRow) (before : List LineRow) → JudgeStands self.old.judge s terms before
            → self.new.report.items ≡ end_report s terms before) }
        ensures failed { (status : StatusRow) → result ≡ Err status → status ≡ Status.NoMemory }
    {
        match self.judge.close(&mut self.report) {
            Ok(()) => Ok(true),
            Err(NoMemory) => Err(Status::NoMemory),
        }
    }

    /// Judges the next line, which has this number, or reports the end of the log. Says whether that was the end.
    fn next<S: Source>(&mut self, source: &mut S, number: u64) -> Result<bool, Status>
        requires stands { (s : ScenarioContent) × (terms : TermsRow) × (before : List LineRow) × JudgeStands self.old.judge s terms before }
        ensures next { IfOk result (λ over. (s : ScenarioContent) (terms : TermsRow) (before : List LineRow) → JudgeStands self.old.judge s terms before
            → JudgesNext over s terms before self.new.judge (unread self.old.reader (S.left source.old)) (unread self.new.reader (S.left source.new)) self.new.report.items) }
        ensures failed { (status : StatusRow) → result ≡ Err status → StopsReading status (Rises (S.faults source.old) (S.faults source.new))
            (λ fault. (s : ScenarioContent) (terms : TermsRow) (before : List LineRow) → JudgeStands self.old.judge s terms before
            → RefusesNext fault number s before (unread self.old.reader (S.left source.old)) (unread self.new.reader (S.left source.new))) }
        ensures exact { OnOk result (Stays S.counts_exactly (S.faults source.old) (S.faults source.new)) }
        ensures kept { S.faults source.old ≤ S.faults source.new }
    {
        self.report.clear();
        match next_line(&mut self.reader, source) {
            Ok(Next::Line) => self.judge_line(number),
            Ok(Next::Long) => Ok(false),
            Ok(Next::End) => self.judge_end(),
            Err(status) => Err(status),
        }
    }

    /// The answer where the whole log was judged.
    fn verdict(&self) -> Status
        ensures { (s : ScenarioContent) (terms : TermsRow) (before : List LineRow) → JudgeStands self.now.judge s terms before
            → ((result ≡ Status.Done) × (log_found s terms before ≡ [])) ⊎ ((result ≡ Status.Unsafe) × (log_found s terms before ≡ [] → ⊥)) }
    {
        if self.judge.breaches() == 0 {
            Status::Done
        } else {
            Status::Unsafe
        }
    }

    /// Judges the lines that follow, one after another, up to the end of the log.
    fn go_on<S: Source, K: Sink>(&mut self, source: &mut S, sink: &mut K) -> Status
        requires stands { (s : ScenarioContent) × (terms : TermsRow) × (before : List LineRow) × JudgeStands self.old.judge s terms before }
        ensures ends { (left old : Option (List ℕ)) (s : ScenarioContent) (terms : TermsRow)
            → IsJudging left (unread self.old.reader (S.left source.old)) old (K.written sink.old) s terms self.old.judge 2
            → LogEnds terms result (Rises (S.faults source.old) (S.faults source.new)) (Rises (K.faults sink.old) (K.faults sink.new)) left old (K.written sink.new) s }
        ensures reads { Counts result S.counts_exactly (S.faults source.old) (S.faults source.new) }
        ensures writes { Counts result K.counts_exactly (K.faults sink.old) (K.faults sink.new) }
    {
        // Line 1 is the one with the scenario.
        'lines: for number in 2..u64::MAX {
            let over = match self.next(source, number) {
                Ok(over) => over,
                Err(status) => return status,
            };
            match tell(sink, self.report.as_slice()) {
                Status::Done => {}
                status => return status,
            }
            if over {
                return self.verdict();
            }
        }
        Status::NoMemory
    }
}

/// Opens the judging of a log of a scenario.
fn opened(
    alloc: Global,
    reader: LineReader,
    scenario: Scenario,
    terms: Terms,
) -> Result<Hearing, NoMemory>
    requires { Runnable (scenario_content scenario) }
    ensures stands { IfOk result (λ hearing. JudgeStands hearing.judge (scenario_content scenario) terms []) }
    ensures reader { IfOk result (λ hearing. hearing.reader ≡ reader) }
{
    match LogJudge::open(alloc, scenario, terms) {
        Ok(judge) => Ok(Hearing {
            alloc,
            reader,
            judge,
            report: Vec::new(alloc),
        }),
        Err(NoMemory) => Err(NoMemory),
    }
}

/// Judges the log that follows the scenario in the first line of the input.
pub fn judge<S: Source, K: Sink>(
    alloc: Global,
    terms: Terms,
    source: &mut S,
    sink: &mut K,
) -> Status
    ensures answered { JudgeAnswer terms result (io_of S.left S.faults K.written K.faults source.old source.new sink.old sink.new) }
    ensures reads { Counts result S.counts_exactly (S.faults source.old) (S.faults source.new) }
    ensures writes { Counts result K.counts_exactly (K.faults sink.old) (K.faults sink.new) }
{
    let mut reader = match LineReader::new(alloc) {
        Ok(reader) => reader,
        Err(NoMemory) => return Status::NoMemory,
    };
    let scenario = match head(alloc, &mut reader, source) {
        Ok(scenario) => scenario,
        Err(Unread::Fault) => return Status::ReadFault,
        Err(Unread::Refused(refusal)) => return Status::Scenario(refusal),
        Err(Unread::NoMemory) => return Status::NoMemory,
    };
    let mut hearing = match opened(alloc, reader, scenario, terms) {
        Ok(hearing) => hearing,
        Err(NoMemory) => return Status::NoMemory,
    };
    hearing.go_on(source, sink)
}
