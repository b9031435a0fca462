//! The travel times of an object that asks of bands, read from its text one by one: of each no more is kept than its
//! ticks, and after the first fault of one they are skipped.

ghost use Rattle.std.specs.Prelude.{◌≡◌, ◌<◌, codes, length, Some, IfSome};
ghost use Rattle.json.specs.Json.{value, items};
ghost use Rattle.serde_json.specs.Data.{Data, Items, no_items, item};
ghost use Rattle.serde_json.specs.Read.{of_json, of_items, converted};
ghost use Rattle.scenario_read.specs.Paths.{then_named, then_item};
ghost use Rattle.scenario_read.specs.Kinds.{Wrong, array_fits, each, whole};
ghost use Rattle.scenario_read.specs.Content.{whole_of, each_of, list_in};
ghost use Rattle.scenario_read.specs.Readers.{Answers, Refuses, steps_of};
ghost use Rattle.scenario_cut.specs.Growing.{both};
ghost use Rattle.band_report.specs.Asked.{travel};
ghost use Rattle.band_report.specs.Parts.{AreLegs};

use crate::asked::leg_in;
use crate::numbers::number_alone;
use json::{Reader, Token};
use scenario_cut::{pass, pass_rest};
use scenario_data::ReadFail;
use scenario_read::{Place, Unfit, refuse_member};
use std::alloc::Global;

/// Travel times in their order, and the refusal of the first one at fault, if there is one.
#[derive(Drop)]
pub(crate) struct Legs {
    pub found: Vec<u32>,
    pub refusal: Option<ReadFail>,
}

/// Reads the next item as the travel time at a place, nested at most so deep.
fn next_leg(
    alloc: Global,
    reader: &mut Reader<'_>,
    depth: usize,
    place: usize,
) -> Option<Result<u32, ReadFail>>
    ensures ok { IfSome result (λ answer. (d : Data) × (converted of_json (value depth reader.old) ≡ Some (d, reader.new))
        × Answers answer (whole 0 864000 (then_item (then_named (steps_of Place.Top) (codes "travel")) place) d) (λ ticks. ticks ≡ whole_of d)) }
    ensures shorter { IfSome result (λ _. length reader.new < length reader.old) }
{
    let value = number_alone(reader, depth)?;
    Some(leg_in(alloc, &value, place))
}

/// Reads one more item, nested at most so deep, after those before; or skips it after a fault.
fn one_more(alloc: Global, reader: &mut Reader<'_>, depth: usize, legs: &mut Legs) -> Option<()>
    ensures ok { IfSome result (λ _. (d : Data) × (converted of_json (value depth reader.old) ≡ Some (d, reader.new))
        × ((ds : Items) → AreLegs legs.old ds → AreLegs legs.new (both ds (item d no_items)))) }
    ensures shorter { IfSome result (λ _. length reader.new < length reader.old) }
{
    if legs.refusal.is_some() {
        if !pass(reader, depth) {
            return None;
        }
        return Some(());
    }
    let place = legs.found.len();
    match next_leg(alloc, reader, depth, place) {
        Some(Ok(ticks)) => match legs.found.push(ticks) {
            Ok(()) => Some(()),
            Err(_) => None,
        },
        Some(Err(fail)) => {
            legs.refusal = Some(fail);
            Some(())
        }
        None => None,
    }
}

/// Reads the items up to the bracket that closes the list, each nested at most so deep.
fn legs_of(
    alloc: Global,
    reader: &mut Reader<'_>,
    depth: usize,
) -> Option<Result<Vec<u32>, ReadFail>>
    ensures ok { IfSome result (λ answer. (ds : Items) × (converted of_items (items (value depth) (length reader.old) reader.old) ≡ Some (ds, reader.new))
        × Answers answer (each (whole 0 864000) (then_named (steps_of Place.Top) (codes "travel")) 0 ds) (λ found. found.items ≡ each_of whole_of ds)) }
    ensures shorter { IfSome result (λ _. length reader.new < length reader.old) }
{
    let mut legs = Legs {
        found: Vec::new(alloc),
        refusal: None,
    };
    'items: while !reader.take_end_array() {
        one_more(alloc, reader, depth, &mut legs)?;
    }
    let Legs { found, refusal } = legs;
    match refusal {
        Some(fail) => Some(Err(fail)),
        None => Some(Ok(found)),
    }
}

/// The refusal of what is given as travel times and is not a list.
fn no_list(alloc: Global) -> ReadFail
    ensures { (d : Data) → array_fits d ≡ Wrong → Refuses result (travel.kind (then_named (steps_of Place.Top) (codes "travel")) d) }
{
    refuse_member(alloc, Place::Top, "travel", Unfit::Wrong)
}

/// Reads the travel times that are the reader's next value, nested at most so deep, refused at their first fault.
pub(crate) fn travel_times(
    alloc: Global,
    reader: &mut Reader<'_>,
    depth: usize,
) -> Option<Result<Vec<u32>, ReadFail>>
    ensures ok { IfSome result (λ answer. (d : Data) × (converted of_json (value depth reader.old) ≡ Some (d, reader.new))
        × Answers answer (travel.kind (then_named (steps_of Place.Top) (codes "travel")) d) (λ found. found.items ≡ list_in whole_of d)) }
    ensures shorter { IfSome result (λ _. length reader.new < length reader.old) }
{
    let token = reader.next()?;
    match token {
        Token::BeginArray => {
            if depth == 0 {
                return None;
            }
            match legs_of(alloc, reader, depth - 1) {
                Some(answer) => Some(answer),
                None => None,
            }
        }
        other => {
            if pass_rest(reader, depth, other) {
                Some(Err(no_list(alloc)))
            } else {
                None
            }
        }
    }
}
