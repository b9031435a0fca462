//! The scenario of a text: the whole, or the value at `scenario` of the one object that the text is. Of equal names the
//! last counts.

ghost use Rattle.std.specs.Prelude.{◌≡◌, ◌<◌, length, Some, IfSome};
ghost use Rattle.json.specs.Json.{value, members};
ghost use Rattle.serde_json.specs.Data.{Data, Members, object, no_members, put};
ghost use Rattle.serde_json.specs.Read.{of_json, of_members, converted};
ghost use Rattle.scenario_read.specs.Answers.{Reads};
ghost use Rattle.scenario_cut.specs.Around.{Object, scenario_in};
ghost use Rattle.scenario_cut.specs.Known.{Knows};

use crate::named::{Known, Search, all_absent, judge_members};
use crate::passing::{pass, pass_rest};
use json::{Reader, Scratch, Token};
use std::alloc::Global;

/// What is around the scenario of a text: nothing, or an object that has it at `scenario`.
#[derive(Clone, Copy)]
pub enum Around {
    Nothing,
    Object,
}

/// What is known of the lists of the reader's next value, a scenario nested at most so deep. In a value that is not an
/// object none is there.
fn judge_scenario(
    alloc: Global,
    reader: &mut Reader<'_>,
    depth: usize,
    search: Search,
) -> Option<Known>
    ensures ok { IfSome result (λ known. (d : Data) × (converted of_json (value depth reader.old) ≡ Some (d, reader.new)) × Knows search known d) }
    ensures shorter { IfSome result (λ _. length reader.new < length reader.old) }
{
    let token = reader.next()?;
    match token {
        Token::BeginObject => {
            if depth == 0 {
                return None;
            }
            match judge_members(alloc, reader, depth - 1, search) {
                Some(known) => Some(known),
                None => None,
            }
        }
        other => {
            if pass_rest(reader, depth, other) {
                Some(all_absent(alloc))
            } else {
                None
            }
        }
    }
}

/// Judges the scenario that is the next member of an object, nested at most so deep, or passes another member over.
fn judge_inner(
    alloc: Global,
    reader: &mut Reader<'_>,
    depth: usize,
    name: &str,
    search: Search,
    known: &mut Known,
) -> Option<()>
    ensures ok { IfSome result (λ _. (d : Data) × (converted of_json (value depth reader.old) ≡ Some (d, reader.new))
        × ((ms : Members) → Knows search known.old (scenario_in Object (object ms)) → Knows search known.new (scenario_in Object (object (put name.now d ms))))) }
    ensures shorter { IfSome result (λ _. length reader.new < length reader.old) }
{
    if name == "scenario" {
        let now = judge_scenario(alloc, reader, depth, search)?;
        *known = now;
        Some(())
    } else if pass(reader, depth) {
        Some(())
    } else {
        None
    }
}

/// Judges the scenario that is among the members up to the brace that closes an object, each so deep at most.
fn judge_rest(
    alloc: Global,
    reader: &mut Reader<'_>,
    depth: usize,
    search: Search,
    known: &mut Known,
) -> Option<()>
    ensures { IfSome result (λ _. (ms : Members) × (converted (λ js. of_members js no_members) (members (value depth) (length reader.old) reader.old) ≡ Some (ms, reader.new))
        × (Knows search known.old (scenario_in Object (object no_members)) → Knows search known.new (scenario_in Object (object ms)))) }
{
    'members: loop {
        let name = match reader.next_key() {
            Ok(Some(name)) => name,
            Ok(None) => return Some(()),
            Err(_) => return None,
        };
        judge_inner(alloc, reader, depth, name, search, known)?;
    }
}

/// What is known of the lists of the scenario that is among the members up to the brace that closes an object, each
/// nested at most so deep.
fn judge_outer(
    alloc: Global,
    reader: &mut Reader<'_>,
    depth: usize,
    search: Search,
) -> Option<Known>
    ensures ok { IfSome result (λ known. (ms : Members) × (converted (λ js. of_members js no_members) (members (value depth) (length reader.old) reader.old) ≡ Some (ms, reader.new))
        × Knows search known (scenario_in Object (object ms))) }
{
    let mut known = all_absent(alloc);
    match judge_rest(alloc, reader, depth, search, &mut known) {
        Some(()) => Some(known),
        None => None,
    }
}

/// What is known of the lists of the scenario that is at `scenario` of the reader's next value, an object nested at
/// most so deep.
fn judge_object(
    alloc: Global,
    reader: &mut Reader<'_>,
    depth: usize,
    search: Search,
) -> Option<Known>
    ensures { IfSome result (λ known. (d : Data) × (converted of_json (value depth reader.old) ≡ Some (d, reader.new)) × Knows search known (scenario_in Object d)) }
{
    match reader.next() {
        Some(Token::BeginObject) => {}
        _ => return None,
    }
    if depth == 0 {
        return None;
    }
    match judge_outer(alloc, reader, depth - 1, search) {
        Some(known) => Some(known),
        None => None,
    }
}

/// The same of the reader's next value with this around its scenario.
fn judge_value(
    alloc: Global,
    reader: &mut Reader<'_>,
    depth: usize,
    around: Around,
    search: Search,
) -> Option<Known>
    ensures { IfSome result (λ known. (d : Data) × (converted of_json (value depth reader.old) ≡ Some (d, reader.new)) × Knows search known (scenario_in around d)) }
{
    match around {
        Around::Nothing => match judge_scenario(alloc, reader, depth, search) {
            Some(known) => Some(known),
            None => None,
        },
        Around::Object => match judge_object(alloc, reader, depth, search) {
            Some(known) => Some(known),
            None => None,
        },
    }
}

/// What is known of the lists of the scenario of a text; none, where this way does not say.
pub(crate) fn known_of(alloc: Global, bytes: &[u8], around: Around, search: Search) -> Option<Known>
    ensures { IfSome result (λ known. (d : Data) × Reads bytes.now d × Knows search known (scenario_in around d)) }
{
    let Ok(text) = std::str::from_utf8(bytes) else {
        return None;
    };
    let mut scratch = Scratch::new(alloc);
    let Ok(mut reader) = Reader::new(text, &mut scratch) else {
        return None;
    };
    let known = judge_value(alloc, &mut reader, 127, around, search)?;
    match reader.next() {
        Some(_) => None,
        None => Some(known),
    }
}
