//! The values at the names of a field file, an object with only the four, read from its text one after the other, the
//! lists item by item. Of equal names the last counts.

ghost use Rattle.std.specs.Prelude.{◌≡◌, ◌<◌, length, Some, IfSome, codes};
ghost use Rattle.json.specs.Json.{value};
ghost use Rattle.serde_json.specs.Data.{Data, no_items};
ghost use Rattle.serde_json.specs.Read.{of_json, converted};
ghost use Rattle.field_read.specs.Lists.{Holds, name_of};
ghost use Rattle.field_read.specs.Parts.{PartsStand, Puts};

use crate::found::Found;
use crate::lists::list_at;
use crate::parts::{Parts, no_parts, put_list, put_respond, put_scenario};
use crate::respond_in;
use json::Reader;
use scenario_file::{Left, Level, OuterParts, scenario_at, tree};
use std::alloc::Global;
use std::mem::replace;

/// An object with a list of sections, each with a list of steps.
const RULES: [Level; 5] = [
    Level::Members("sections"),
    Level::Items(8),
    Level::Members("steps"),
    Level::Items(8),
    Level::Plain,
];

/// Reads the scenario, whose names appear this often.
fn scenario_member<'a>(
    alloc: Global,
    reader: &mut Reader<'_>,
    parts: &mut Parts<'a>,
    inner: &mut Left,
    file: &'a [u8],
) -> Option<()>
    ensures ok { IfSome result (λ _. (d : Data) × (converted of_json (value 126 reader.old) ≡ Some (d, reader.new)) × Puts parts.old parts.new (codes "scenario") d) }
    ensures shorter { IfSome result (λ _. length reader.new < length reader.old) }
{
    let left = replace(inner, Left::none(alloc));
    let source = scenario_at(alloc, reader, left, file)?;
    put_scenario(parts, source);
    Some(())
}

/// Reads a list.
fn list_member(
    alloc: Global,
    reader: &mut Reader<'_>,
    parts: &mut Parts<'_>,
    found: Found,
) -> Option<()>
    requires begins { Holds found no_items }
    ensures ok { IfSome result (λ _. (d : Data) × (converted of_json (value 126 reader.old) ≡ Some (d, reader.new)) × Puts parts.old parts.new (name_of found) d) }
    ensures shorter { IfSome result (λ _. length reader.new < length reader.old) }
{
    let list = list_at(alloc, reader, found)?;
    put_list(parts, list);
    Some(())
}

/// Reads how patterns follow the traffic.
fn respond_member(alloc: Global, reader: &mut Reader<'_>, parts: &mut Parts<'_>) -> Option<()>
    ensures ok { IfSome result (λ _. (d : Data) × (converted of_json (value 126 reader.old) ≡ Some (d, reader.new)) × Puts parts.old parts.new (codes "respond") d) }
    ensures shorter { IfSome result (λ _. length reader.new < length reader.old) }
{
    let object = tree(alloc, reader, 126, &RULES)?;
    let Ok(respond) = respond_in(alloc, &object) else {
        return None;
    };
    put_respond(parts, respond);
    Some(())
}

impl<'a> OuterParts<'a> for Parts<'a> {
    ghost stand = { λ parts ms. PartsStand parts ms };

    /// Nothing found: any name may be missing.
    fn none(alloc: Global) -> Parts<'a> {
        no_parts(alloc)
    }

    /// Reads what is at the next name: gives up at one that is not known.
    fn put_next(
        &mut self,
        alloc: Global,
        reader: &mut Reader<'_>,
        name: &str,
        inner: &mut Left,
        file: &'a [u8],
    ) -> Option<()> {
        match name {
            "scenario" => scenario_member(alloc, reader, self, inner, file),
            "bank" => list_member(alloc, reader, self, Found::Bank(Vec::new(alloc))),
            "pulses" => list_member(alloc, reader, self, Found::Pulses(Vec::new(alloc))),
            "respond" => respond_member(alloc, reader, self),
            _ => None,
        }
    }
}
