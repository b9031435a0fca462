//! The input of a command: all bytes of the source, or those of its first line, as many as a scenario may have; and the
//! lines after it, one by one.

ghost use Rattle.std.specs.Prelude.{◌≡◌, ◌≤◌, ◌<◌, ◌⊎◌, [], Err, IfOk, IfSome, OnOk};
ghost use Rattle.io_edge.specs.Edge.{Rises, Stays};
ghost use Rattle.scenario_data.specs.declared.refusal.Refusal.{Refusal};
ghost use Rattle.session_words.specs.Lines.{first_line};
ghost use Rattle.session_words.specs.Unread.{held_of, given_line, unread, behind_told, Gives};
ghost use Rattle.station.specs.Bytes.{AreInput, nothing_left};
ghost use Rattle.station.specs.Answers.{IsShort, IsLengthLimit, IsTooLong};
ghost use Rattle.station.specs.Lived.{IsTooLongLine};
ghost use Rattle.station.specs.declared.status.Status.{Status as StatusRow};

use crate::bytes::{ReadEnd, read_all};
use crate::status::Status;
use io_edge::Source;
use scenario_data::Refusal;
use session_words::{FirstStop, LineReader, LineStop, Next};
use std::alloc::Global;

/// The most bytes that a scenario has.
const SCENARIO_LIMIT: usize = 16_777_216;

/// Why the input, or its first line, wasn't read as a whole.
pub enum Unread {
    Fault,
    Refused(Refusal),
    NoMemory,
}

/// The refusal of the whole input, or of its first line, for its length.
fn too_long(alloc: Global) -> Unread
    ensures refused { (r : Refusal) → result ≡ Unread.Refused r → IsLengthLimit r }
    ensures no_fault { result ≡ Unread.Fault → ⊥ }
{
    match String::from_str(alloc, ".") {
        Ok(path) => Unread::Refused(Refusal::Limit(path)),
        Err(_) => Unread::NoMemory,
    }
}

/// The bytes of the whole input, at most 16,777,216; where it has more, the refusal for its length.
pub fn whole_input<S: Source>(alloc: Global, source: &mut S) -> Result<Vec<u8>, Unread>
    ensures input { IfOk result (λ v. AreInput (S.left source.old) v.items) }
    ensures short { IfOk result (λ v. IsShort v.items) }
    ensures ended { OnOk result (S.left source.new ≡ nothing_left (S.left source.old)) }
    ensures fault { result ≡ Err Unread.Fault → Rises (S.faults source.old) (S.faults source.new) }
    ensures refused { (r : Refusal) → result ≡ Err (Unread.Refused r) → IsLengthLimit r × IsTooLong (S.left source.old) (S.left source.new) }
    ensures exact { OnOk result (Stays S.counts_exactly (S.faults source.old) (S.faults source.new)) }
    ensures kept { S.faults source.old ≤ S.faults source.new }
{
    match read_all(alloc, source, SCENARIO_LIMIT) {
        Ok(input) => Ok(input),
        Err(ReadEnd::Fault) => Err(Unread::Fault),
        Err(ReadEnd::TooLong) => Err(too_long(alloc)),
        Err(ReadEnd::NoMemory) => Err(Unread::NoMemory),
    }
}

/// The first line of the input, at most 16,777,216 bytes; where it has more, the refusal for its length.
pub fn first_line<S: Source>(
    alloc: Global,
    reader: &mut LineReader,
    source: &mut S,
) -> Result<Vec<u8>, Unread>
    requires { held_of reader.old ≡ [] }
    ensures line { IfOk result (λ v. IfSome (S.left source.old) (λ input. v.items ≡ first_line input)) }
    ensures short { IfOk result (λ v. IsShort v.items) }
    ensures behind { OnOk result (unread reader.new (S.left source.new) ≡ behind_told (S.left source.old)) }
    ensures fault { result ≡ Err Unread.Fault → Rises (S.faults source.old) (S.faults source.new) }
    ensures refused { (r : Refusal) → result ≡ Err (Unread.Refused r) → IsLengthLimit r × IsTooLongLine (S.left source.old) }
    ensures exact { OnOk result (Stays S.counts_exactly (S.faults source.old) (S.faults source.new)) }
    ensures kept { S.faults source.old ≤ S.faults source.new }
{
    match reader.first(alloc, source, SCENARIO_LIMIT) {
        Ok(line) => Ok(line),
        Err(FirstStop::Fault) => Err(Unread::Fault),
        Err(FirstStop::TooLong) => Err(too_long(alloc)),
        Err(FirstStop::NoMemory) => Err(Unread::NoMemory),
    }
}

/// The next line of the input. A line that doesn't end is answered as if memory had run out.
pub fn next_line<S: Source>(reader: &mut LineReader, source: &mut S) -> Result<Next, Status>
    ensures next { IfOk result (λ next. Gives next (unread reader.old (S.left source.old)) (unread reader.new (S.left source.new)) (given_line reader.new)) }
    ensures failed { (status : StatusRow) → result ≡ Err status
        → ((status ≡ Status.ReadFault) × Rises (S.faults source.old) (S.faults source.new)) ⊎ (status ≡ Status.NoMemory) }
    ensures exact { OnOk result (Stays S.counts_exactly (S.faults source.old) (S.faults source.new)) }
    ensures kept { S.faults source.old ≤ S.faults source.new }
{
    match reader.next(source) {
        Ok(next) => Ok(next),
        Err(LineStop::Fault) => Err(Status::ReadFault),
        Err(LineStop::Endless) => Err(Status::NoMemory),
    }
}
