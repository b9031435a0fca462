//! The parts of an object that asks of bands, read from its text one after the other: the scenario list by list, the section and the
//! pattern, and the travel times one by one. No tree of the whole is made. Of equal names the last counts.

ghost use Rattle.std.specs.Prelude.{◌≡◌, ◌<◌, codes, length, Some, IfSome};
ghost use Rattle.json.specs.Json.{value};
ghost use Rattle.serde_json.specs.Data.{Data};
ghost use Rattle.serde_json.specs.Read.{of_json, converted};
ghost use Rattle.scenario_read.specs.Paths.{then_named};
ghost use Rattle.scenario_read.specs.Kinds.{whole};
ghost use Rattle.scenario_read.specs.Content.{whole_of};
ghost use Rattle.scenario_read.specs.Readers.{Answers, steps_of};
ghost use Rattle.band_report.specs.Parts.{PartsStand, Puts};

use crate::legs::travel_times;
use crate::numbers::number_alone;
use json::{Reader, Token};
use scenario_cut::pass_rest;
use scenario_data::{ReadFail, Scenario};
use scenario_file::{Left, OuterParts, Source, scenario_at};
use scenario_read::{Place, Unfit, refuse_member, whole_of};
use std::alloc::Global;
use std::mem::replace;

/// What the value at each of the four names says, or its first fault; the fault of a name that must be, where none is
/// there there.
#[derive(Drop)]
pub(crate) struct Parts {
    pub scenario: Result<Scenario, ReadFail>,
    pub section: Result<u8, ReadFail>,
    pub pattern: Result<u8, ReadFail>,
    pub travel: Result<Vec<u32>, ReadFail>,
}

/// Reads the scenario, whose large names appear this often: gives up at one that is not right. The parts of its text
/// are left out.
fn right_scenario(
    alloc: Global,
    reader: &mut Reader<'_>,
    parts: &mut Parts,
    inner: &mut Left,
    file: &[u8],
) -> Option<()>
    ensures ok { IfSome result (λ _. (d : Data) × (converted of_json (value 126 reader.old) ≡ Some (d, reader.new)) × Puts parts.old parts.new (codes "scenario") d) }
    ensures shorter { IfSome result (λ _. length reader.new < length reader.old) }
{
    let left = replace(inner, Left::none(alloc));
    let source = scenario_at(alloc, reader, left, file)?;
    let Source { scenario, .. } = source;
    parts.scenario = Ok(scenario);
    Some(())
}

/// Reads what is given as a scenario and is not an object, which is its fault: gives up at an object.
fn no_scenario(alloc: Global, reader: &mut Reader<'_>, parts: &mut Parts) -> Option<()>
    ensures ok { IfSome result (λ _. (d : Data) × (converted of_json (value 126 reader.old) ≡ Some (d, reader.new)) × Puts parts.old parts.new (codes "scenario") d) }
    ensures shorter { IfSome result (λ _. length reader.new < length reader.old) }
{
    let token = reader.next()?;
    match token {
        Token::BeginObject => None,
        other => {
            if !pass_rest(reader, 126, other) {
                return None;
            }
            let fail = refuse_member(alloc, Place::Top, "scenario", Unfit::Wrong);
            parts.scenario = Err(fail);
            Some(())
        }
    }
}

/// Whether an object seems to begin at this place of a file. This only chooses how it is read.
fn begins_object(file: &[u8], place: usize) -> bool {
    place < file.len() && file[place] == b'{'
}

/// Reads what is given as the scenario, whose large names appear this often: gives up at an object that is not right.
fn scenario_member(
    alloc: Global,
    reader: &mut Reader<'_>,
    parts: &mut Parts,
    inner: &mut Left,
    file: &[u8],
) -> Option<()>
    ensures ok { IfSome result (λ _. (d : Data) × (converted of_json (value 126 reader.old) ≡ Some (d, reader.new)) × Puts parts.old parts.new (codes "scenario") d) }
    ensures shorter { IfSome result (λ _. length reader.new < length reader.old) }
{
    if begins_object(file, reader.offset()) {
        right_scenario(alloc, reader, parts, inner, file)
    } else {
        no_scenario(alloc, reader, parts)
    }
}

/// Reads the number that is at a name, from 1 to a most.
fn number_at(
    alloc: Global,
    reader: &mut Reader<'_>,
    name: &str,
    most: u32,
) -> Option<Result<u8, ReadFail>>
    requires { most < 256 }
    ensures ok { IfSome result (λ answer. (d : Data) × (converted of_json (value 126 reader.old) ≡ Some (d, reader.new))
        × Answers answer (whole 1 most (then_named (steps_of Place.Top) name.now) d) (λ n. n ≡ whole_of d)) }
    ensures shorter { IfSome result (λ _. length reader.new < length reader.old) }
{
    let value = number_alone(reader, 126)?;
    match whole_of(&value, 1, most) {
        Ok(number) => Some(Ok(number as u8)),
        Err(unfit) => Some(Err(refuse_member(alloc, Place::Top, name, unfit))),
    }
}

/// Reads the section.
fn section_member(alloc: Global, reader: &mut Reader<'_>, parts: &mut Parts) -> Option<()>
    ensures ok { IfSome result (λ _. (d : Data) × (converted of_json (value 126 reader.old) ≡ Some (d, reader.new)) × Puts parts.old parts.new (codes "section") d) }
    ensures shorter { IfSome result (λ _. length reader.new < length reader.old) }
{
    let answer = number_at(alloc, reader, "section", 8)?;
    parts.section = answer;
    Some(())
}

/// Reads the pattern.
fn pattern_member(alloc: Global, reader: &mut Reader<'_>, parts: &mut Parts) -> Option<()>
    ensures ok { IfSome result (λ _. (d : Data) × (converted of_json (value 126 reader.old) ≡ Some (d, reader.new)) × Puts parts.old parts.new (codes "pattern") d) }
    ensures shorter { IfSome result (λ _. length reader.new < length reader.old) }
{
    let answer = number_at(alloc, reader, "pattern", 48)?;
    parts.pattern = answer;
    Some(())
}

/// Reads the travel times.
fn travel_member(alloc: Global, reader: &mut Reader<'_>, parts: &mut Parts) -> Option<()>
    ensures ok { IfSome result (λ _. (d : Data) × (converted of_json (value 126 reader.old) ≡ Some (d, reader.new)) × Puts parts.old parts.new (codes "travel") d) }
    ensures shorter { IfSome result (λ _. length reader.new < length reader.old) }
{
    let answer = travel_times(alloc, reader, 126)?;
    parts.travel = answer;
    Some(())
}

impl<'a> OuterParts<'a> for Parts {
    ghost stand = { λ parts ms. PartsStand parts ms };

    /// Nothing read: each name must be.
    fn none(alloc: Global) -> Parts {
        Parts {
            scenario: Err(refuse_member(alloc, Place::Top, "scenario", Unfit::Wrong)),
            section: Err(refuse_member(alloc, Place::Top, "section", Unfit::Wrong)),
            pattern: Err(refuse_member(alloc, Place::Top, "pattern", Unfit::Wrong)),
            travel: Err(refuse_member(alloc, Place::Top, "travel", Unfit::Wrong)),
        }
    }

    /// Reads what is at the next name: gives up at one that is not known.
    fn put_next(
        &mut self,
        alloc: Global,
        reader: &mut Reader<'_>,
        name: &str,
        inner: &mut Left,
        file: &'a [u8],
    ) -> Option<()> {
        match name {
            "scenario" => scenario_member(alloc, reader, self, inner, file),
            "section" => section_member(alloc, reader, self),
            "pattern" => pattern_member(alloc, reader, self),
            "travel" => travel_member(alloc, reader, self),
            _ => None,
        }
    }
}
