//! The pulses of a field file, judged item by item while its text is read once, when it is known how many rounds and
//! cabinets the scenario has. Nothing stays of a pulse. After the first at fault, and beyond a million, they are
//! skipped. Of equal names the last counts.

ghost use Rattle.std.specs.Prelude.{◌≡◌, ◌<◌, [], length, Some, IfSome};
ghost use Rattle.json.specs.Json.{value, items, members};
ghost use Rattle.serde_json.specs.Data.{Data, Items, Members, array, item, no_items, object, no_members, put};
ghost use Rattle.serde_json.specs.Read.{of_json, of_items, of_members, converted};
ghost use Rattle.scenario_read.specs.Answers.{Reads};
ghost use Rattle.scenario_read.specs.Fields.{field_faults};
ghost use Rattle.scenario_read.specs.Readers.{Answers};
ghost use Rattle.scenario_cut.specs.Growing.{both};
ghost use Rattle.scenario_cut.specs.Judging.{IsNoList};
ghost use Rattle.scenario_cut.specs.declared.judge.Extent.{Extent};
ghost use Rattle.field_read.specs.Judging.{IsJudged, IsAnswer, IsListAnswer, pulse_kind};
ghost use Rattle.field_read.specs.Places.{steps_of};
ghost use Rattle.field_read.specs.Table.{pulses};

use crate::place::{Place, refuse_member};
use crate::pulses::pulse_in;
use json::{Reader, Scratch, Token};
use scenario_cut::{Extent, Form, keep, pass, pass_rest};
use scenario_data::ReadFail;
use scenario_read::Unfit;
use std::alloc::Global;

/// Pulses that were judged: how many, up to one more than a million, and the refusal of the first at fault.
#[derive(Drop)]
pub(crate) struct Judged {
    pub count: usize,
    pub refusal: Option<ReadFail>,
}

/// Judges the next pulse of the reader, at its place from 0, by what is kept of it.
fn judge_next(
    alloc: Global,
    reader: &mut Reader<'_>,
    place: usize,
    extent: Extent,
) -> Option<Result<(), ReadFail>>
    ensures ok { IfSome result (λ answer. (d : Data) × (converted of_json (value 125 reader.old) ≡ Some (d, reader.new))
        × Answers answer (pulse_kind extent (steps_of (Place.Pulse place)) d) (λ _. Unit {0})) }
    ensures shorter { IfSome result (λ _. length reader.new < length reader.old) }
{
    let object = keep(alloc, reader, 125, Form::Pulse)?;
    match pulse_in(alloc, &object, place, extent.rounds, extent.cabinets) {
        Ok(_) => Some(Ok(())),
        Err(fail) => Some(Err(fail)),
    }
}

/// Judges one more pulse, or passes it over.
fn more(alloc: Global, reader: &mut Reader<'_>, extent: Extent, judged: &mut Judged) -> Option<()>
    ensures ok { IfSome result (λ _. (d : Data) × (converted of_json (value 125 reader.old) ≡ Some (d, reader.new))
        × ((ds : Items) → IsJudged extent judged.old ds → IsJudged extent judged.new (both ds (item d no_items)))) }
    ensures shorter { IfSome result (λ _. length reader.new < length reader.old) }
{
    let count = judged.count;
    if count > 1_000_000 {
        if !pass(reader, 125) {
            return None;
        }
        return Some(());
    }
    if judged.refusal.is_some() {
        if !pass(reader, 125) {
            return None;
        }
        judged.count = count + 1;
        return Some(());
    }
    match judge_next(alloc, reader, count, extent) {
        Some(answer) => {
            judged.count = count + 1;
            judged.refusal = answer.err();
            Some(())
        }
        None => None,
    }
}

/// Judges the pulses up to the bracket that closes their list.
fn judge_items(alloc: Global, reader: &mut Reader<'_>, extent: Extent) -> Option<Judged>
    ensures ok { IfSome result (λ judged. (ds : Items) × (converted of_items (items (value 125) (length reader.old) reader.old) ≡ Some (ds, reader.new))
        × IsJudged extent judged ds) }
    ensures shorter { IfSome result (λ _. length reader.new < length reader.old) }
{
    let mut judged = Judged {
        count: 0,
        refusal: None,
    };
    'items: while !reader.take_end_array() {
        more(alloc, reader, extent, &mut judged)?;
    }
    Some(judged)
}

/// The answer to a list of these pulses: that they are too many, or else the first at fault.
fn verdict(alloc: Global, judged: Judged) -> Result<(), ReadFail>
    ensures { (e : Extent) → (ds : Items) → IsJudged e judged ds → IsListAnswer e result (array ds) }
{
    let Judged { count, refusal } = judged;
    if count > 1_000_000 {
        return Err(refuse_member(alloc, Place::Top, "pulses", Unfit::Beyond));
    }
    match refusal {
        Some(fail) => Err(fail),
        None => Ok(()),
    }
}

/// The answer to what is given as the pulses and is not a list.
fn no_list(alloc: Global) -> Result<(), ReadFail>
    ensures { (e : Extent) → (d : Data) → IsNoList d → IsListAnswer e result d }
{
    Err(refuse_member(alloc, Place::Top, "pulses", Unfit::Wrong))
}

/// The answer to the reader's next value, which is given as the pulses.
fn judge_list(
    alloc: Global,
    reader: &mut Reader<'_>,
    extent: Extent,
) -> Option<Result<(), ReadFail>>
    ensures ok { IfSome result (λ answer. (d : Data) × (converted of_json (value 126 reader.old) ≡ Some (d, reader.new)) × IsListAnswer extent answer d) }
    ensures shorter { IfSome result (λ _. length reader.new < length reader.old) }
{
    let token = reader.next()?;
    match token {
        Token::BeginArray => {
            let judged = judge_items(alloc, reader, extent)?;
            Some(verdict(alloc, judged))
        }
        other => {
            if pass_rest(reader, 126, other) {
                Some(no_list(alloc))
            } else {
                None
            }
        }
    }
}

/// Judges the next member, if its name is that of the pulses; else passes it over.
fn judge_member(
    alloc: Global,
    reader: &mut Reader<'_>,
    name: &str,
    extent: Extent,
    answer: &mut Result<(), ReadFail>,
) -> Option<()>
    ensures ok { IfSome result (λ _. (d : Data) × (converted of_json (value 126 reader.old) ≡ Some (d, reader.new))
        × ((ms : Members) → IsAnswer extent answer.old (object ms) → IsAnswer extent answer.new (object (put name.now d ms)))) }
    ensures shorter { IfSome result (λ _. length reader.new < length reader.old) }
{
    if name == "pulses" {
        let now = judge_list(alloc, reader, extent)?;
        *answer = now;
        Some(())
    } else if pass(reader, 126) {
        Some(())
    } else {
        None
    }
}

/// The answer to the pulses among the members up to the brace that closes the object.
fn judge_members(
    alloc: Global,
    reader: &mut Reader<'_>,
    extent: Extent,
) -> Option<Result<(), ReadFail>>
    ensures { IfSome result (λ answer. (ms : Members)
        × (converted (λ js. of_members js no_members) (members (value 126) (length reader.old) reader.old) ≡ Some (ms, reader.new)) × IsAnswer extent answer (object ms)) }
{
    let mut answer = Ok(());
    'members: loop {
        let name = match reader.next_key() {
            Ok(Some(name)) => name,
            Ok(None) => return Some(answer),
            Err(_) => return None,
        };
        judge_member(alloc, reader, name, extent, &mut answer)?;
    }
}

/// The answer to the pulses of a text that is one object.
fn judge_text(alloc: Global, bytes: &[u8], extent: Extent) -> Option<Result<(), ReadFail>>
    ensures { IfSome result (λ answer. (d : Data) × Reads bytes.now d × IsAnswer extent answer d) }
{
    let Ok(text) = std::str::from_utf8(bytes) else {
        return None;
    };
    let mut scratch = Scratch::new(alloc);
    let Ok(mut reader) = Reader::new(text, &mut scratch) else {
        return None;
    };
    match reader.next() {
        Some(Token::BeginObject) => {}
        _ => return None,
    }
    let answer = judge_members(alloc, &mut reader, extent)?;
    match reader.next() {
        Some(_) => None,
        None => Some(answer),
    }
}

/// Judges the pulses of a field file, in a scenario of this extent: the refusal is their first fault. Lack of memory is
/// also the answer for what this way does not say, as of a text that is not an object.
pub(crate) fn judge_pulses(alloc: Global, bytes: &[u8], extent: Extent) -> Result<(), ReadFail>
    ensures { (d : Data) → Reads bytes.now d → Answers result (field_faults [] d (pulses extent.rounds extent.cabinets)) (λ _. Unit {0}) }
{
    match judge_text(alloc, bytes, extent) {
        Some(answer) => answer,
        None => Err(ReadFail::NoMemory),
    }
}
