//! What `live` does: the first line of the input is a scenario, and each line after it is a request. Each line is
//! answered by one text. The contracts say which text, and that the reader reads only while it has no whole line; the
//! order of reads and writes is not part of any contract.

ghost use Rattle.std.specs.Prelude.{◌≡◌, ◌≤◌, ◌<◌, ◌⊎◌, ℕ, List, [], true, length, Option, Err, IfOk, OnOk};
ghost use Rattle.io_edge.specs.Edge.{Rises, Stays, Appends};
ghost use Rattle.scenario_data.specs.Content.{ScenarioContent, scenario_content};
ghost use Rattle.scenario_data.specs.declared.refusal.Refusal.{Refusal};
ghost use Rattle.runnable.specs.Runnable.{Runnable};
ghost use Rattle.session_words.specs.Unread.{held_of, given_line, unread};
ghost use Rattle.run_definition.specs.Session.{SessionHistory, opened_session};
ghost use Rattle.run_definition.specs.SessionAnswers.{Lines, end_of_input_lines, open_lines};
ghost use Rattle.run_definition.specs.SessionDialogue.{answer_text};
ghost use Rattle.live_session.specs.Standing.{SessionStands};
ghost use Rattle.station.specs.Io.{io_of, Counts};
ghost use Rattle.station.specs.Lived.{IsFirstLineFault, IsLineRefused, LiveAnswer};
ghost use Rattle.station.specs.Living.{IsOpened, IsAnswering, AnswersThis, AnswersNext, Ends, StopsAtOpening};
ghost use Rattle.station.specs.declared.status.Status.{Status as StatusRow};

use crate::input::{Unread, first_line, next_line};
use crate::status::Status;
use crate::texts::tell;
use io_edge::{Sink, Source};
use live_session::{Session, by_rounds};
use run_definition::sessions_are_runs;
use scenario_data::{ReadFail, Scenario};
use scenario_file::read;
use session_words::{LineReader, Next};
use sig_types::NoMemory;
use std::alloc::Global;

/// The scenario in the first line of the input: one that `run` accepts, and whose loads and priority requests are
/// ordered by rounds.
fn base<S: Source>(
    alloc: Global,
    reader: &mut LineReader,
    source: &mut S,
) -> Result<Scenario, Unread>
    requires { held_of reader.old ≡ [] }
    ensures opened { IfOk result (λ s. IsOpened (S.left source.old) (unread reader.new (S.left source.new)) (scenario_content s)) }
    ensures runnable { IfOk result (λ s. Runnable (scenario_content s)) }
    ensures fault { result ≡ Err Unread.Fault → Rises (S.faults source.old) (S.faults source.new) }
    ensures refused { (r : Refusal) → result ≡ Err (Unread.Refused r) → IsLineRefused IsFirstLineFault r (S.left source.old) }
    ensures exact { OnOk result (Stays S.counts_exactly (S.faults source.old) (S.faults source.new)) }
    ensures kept { S.faults source.old ≤ S.faults source.new }
{
    let line = match first_line(alloc, reader, source) {
        Ok(line) => line,
        Err(unread) => return Err(unread),
    };
    let scenario = match read(alloc, &line) {
        Ok(scenario) => scenario,
        Err(ReadFail::Refused(refusal)) => return Err(Unread::Refused(refusal)),
        Err(ReadFail::NoMemory) => return Err(Unread::NoMemory),
    };
    match by_rounds(alloc, &scenario) {
        Ok(()) => Ok(scenario),
        Err(ReadFail::Refused(refusal)) => Err(Unread::Refused(refusal)),
        Err(ReadFail::NoMemory) => Err(Unread::NoMemory),
    }
}

/// A session, the reader of its lines, and the text of the answer that is being made.
#[derive(Drop)]
struct Dialogue {
    alloc: Global,
    reader: LineReader,
    session: Session,
    answer: Vec<u8>,
}

impl Dialogue {
    /// Makes the answer to the line that was read. Says whether the session is over with it.
    fn answer_line(&mut self) -> Result<bool, Status>
        requires stands { (s : ScenarioContent) × (h : SessionHistory) × SessionStands self.old.session s h }
        requires empty { self.old.answer.items ≡ [] }
        ensures reader { self.new.reader ≡ self.old.reader }
        ensures answers { IfOk result (λ over. (s : ScenarioContent) (h : SessionHistory) → SessionStands self.old.session s h
            → AnswersThis over s h self.new.session (given_line self.old.reader) self.new.answer.items) }
        ensures failed { (status : StatusRow) → result ≡ Err status → status ≡ Status.NoMemory }
    {
        match self
            .session
            .take(self.alloc, self.reader.line(), &mut self.answer)
        {
            Ok(()) => Ok(self.session.is_over()),
            Err(NoMemory) => Err(Status::NoMemory),
        }
    }

    /// Makes the answer to a line of more than 4,096 octets; it never ends a session.
    fn answer_long(&mut self) -> Result<bool, Status>
        requires empty { self.old.answer.items ≡ [] }
        ensures reader { self.new.reader ≡ self.old.reader }
        ensures answers { IfOk result (λ over. (s : ScenarioContent) (h : SessionHistory) (line : List ℕ) → SessionStands self.old.session s h
            → 4096 < length line → AnswersThis over s h self.new.session line self.new.answer.items) }
        ensures failed { (status : StatusRow) → result ≡ Err status → status ≡ Status.NoMemory }
    {
        match self.session.refuse_long(&mut self.answer) {
            Ok(()) => Ok(false),
            Err(NoMemory) => Err(Status::NoMemory),
        }
    }

    /// Makes the answer to the end of the input, which ends the session.
    fn answer_end(&mut self) -> Result<bool, Status>
        requires stands { (s : ScenarioContent) × (h : SessionHistory) × SessionStands self.old.session s h }
        requires empty { self.old.answer.items ≡ [] }
        ensures reader { self.new.reader ≡ self.old.reader }
        ensures over { IfOk result (λ over. over ≡ true) }
        ensures answers { OnOk result ((s : ScenarioContent) (h : SessionHistory) → SessionStands self.old.session s h
            → self.new.answer.items ≡ answer_text (Lines (end_of_input_lines s h))) }
        ensures failed { (status : StatusRow) → result ≡ Err status → status ≡ Status.NoMemory }
    {
        match self.session.leave(self.alloc, &mut self.answer) {
            Ok(()) => Ok(true),
            Err(NoMemory) => Err(Status::NoMemory),
        }
    }

    /// Makes the answer to the next line, or to the end of the input. Says whether the session is over with it.
    fn next<S: Source>(&mut self, source: &mut S) -> Result<bool, Status>
        requires stands { (s : ScenarioContent) × (h : SessionHistory) × SessionStands self.old.session s h }
        ensures next { IfOk result (λ over. (s : ScenarioContent) (h : SessionHistory) → SessionStands self.old.session s h
            → AnswersNext over s h self.new.session (unread self.old.reader (S.left source.old)) (unread self.new.reader (S.left source.new)) self.new.answer.items) }
        ensures failed { (status : StatusRow) → result ≡ Err status
            → ((status ≡ Status.ReadFault) × Rises (S.faults source.old) (S.faults source.new)) ⊎ (status ≡ Status.NoMemory) }
        ensures exact { OnOk result (Stays S.counts_exactly (S.faults source.old) (S.faults source.new)) }
        ensures kept { S.faults source.old ≤ S.faults source.new }
    {
        self.answer.clear();
        match next_line(&mut self.reader, source) {
            Ok(Next::Line) => self.answer_line(),
            Ok(Next::Long) => self.answer_long(),
            Ok(Next::End) => self.answer_end(),
            Err(status) => Err(status),
        }
    }

    /// Answers the lines that follow, one after another, and the end of the input.
    fn go_on<S: Source, K: Sink>(&mut self, source: &mut S, sink: &mut K) -> Status
        requires stands { (s : ScenarioContent) × (h : SessionHistory) × SessionStands self.old.session s h }
        ensures ends { (left old : Option (List ℕ)) (s : ScenarioContent) (h : SessionHistory) → SessionStands self.old.session s h
            → IsAnswering left (unread self.old.reader (S.left source.old)) old (K.written sink.old) s h
            → Ends result (Rises (S.faults source.old) (S.faults source.new)) (Rises (K.faults sink.old) (K.faults sink.new)) left old (K.written sink.new) s }
        ensures reads { Counts result S.counts_exactly (S.faults source.old) (S.faults source.new) }
        ensures writes { Counts result K.counts_exactly (K.faults sink.old) (K.faults sink.new) }
    {
        'lines: for _ in 0..u64::MAX {
            let over = match self.next(source) {
                Ok(over) => over,
                Err(status) => return status,
            };
            match tell(sink, self.answer.as_slice()) {
                Status::Done => {}
                status => return status,
            }
            if over {
                return Status::Done;
            }
        }
        Status::NoMemory
    }
}

/// Opens the session of a scenario, and writes the answer to the scenario.
fn opened<K: Sink>(
    alloc: Global,
    reader: LineReader,
    scenario: Scenario,
    sink: &mut K,
) -> Result<Dialogue, Status>
    requires { Runnable (scenario_content scenario) }
    ensures stands { IfOk result (λ dialogue. SessionStands dialogue.session (scenario_content scenario) opened_session) }
    ensures reader { IfOk result (λ dialogue. dialogue.reader ≡ reader) }
    ensures written { OnOk result (Appends (K.written sink.old) (K.written sink.new) (answer_text (Lines (open_lines (scenario_content scenario))))) }
    ensures failed { (status : StatusRow) → result ≡ Err status
        → StopsAtOpening status (Rises (K.faults sink.old) (K.faults sink.new)) (K.written sink.old) (K.written sink.new) (scenario_content scenario) }
    ensures exact { OnOk result (Stays K.counts_exactly (K.faults sink.old) (K.faults sink.new)) }
    ensures kept { K.faults sink.old ≤ K.faults sink.new }
{
    let mut answer = Vec::new(alloc);
    let session = match Session::open(alloc, scenario, &mut answer) {
        Ok(session) => session,
        Err(NoMemory) => return Err(Status::NoMemory),
    };
    match tell(sink, answer.as_slice()) {
        Status::Done => Ok(Dialogue {
            alloc,
            reader,
            session,
            answer,
        }),
        status => Err(status),
    }
}

/// Answers the scenario in the first line of the input, and the requests after it.
pub fn live<S: Source, K: Sink>(alloc: Global, source: &mut S, sink: &mut K) -> Status
    ensures answered { LiveAnswer result (io_of S.left S.faults K.written K.faults source.old source.new sink.old sink.new) }
    ensures reads { Counts result S.counts_exactly (S.faults source.old) (S.faults source.new) }
    ensures writes { Counts result K.counts_exactly (K.faults sink.old) (K.faults sink.new) }
{
    sessions_are_runs();
    let mut reader = match LineReader::new(alloc) {
        Ok(reader) => reader,
        Err(NoMemory) => return Status::NoMemory,
    };
    let scenario = match base(alloc, &mut reader, source) {
        Ok(scenario) => scenario,
        Err(Unread::Fault) => return Status::ReadFault,
        Err(Unread::Refused(refusal)) => return Status::Scenario(refusal),
        Err(Unread::NoMemory) => return Status::NoMemory,
    };
    let mut dialogue = match opened(alloc, reader, scenario, sink) {
        Ok(dialogue) => dialogue,
        Err(status) => return status,
    };
    dialogue.go_on(source, sink)
}
