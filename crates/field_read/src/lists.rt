//! The items of a list, read one by one: each is a tree only while it is read.

ghost use Rattle.std.specs.Prelude.{◌≡◌, ◌<◌, length, Some, IfSome};
ghost use Rattle.json.specs.Json.{value, items};
ghost use Rattle.serde_json.specs.Data.{Data, Items, array, item, no_items};
ghost use Rattle.serde_json.specs.Read.{of_json, of_items, converted};
ghost use Rattle.scenario_cut.specs.Growing.{both};
ghost use Rattle.field_read.specs.Lists.{Holds, name_of};

use crate::found::{Found, add_item};
use json::{Reader, Token};
use scenario_file::{Level, tree};
use std::alloc::Global;

/// Reads one more item, an object of plain values.
fn next_item(alloc: Global, reader: &mut Reader<'_>, found: &mut Found) -> Option<()>
    ensures ok { IfSome result (λ _. (d : Data) × (converted of_json (value 125 reader.old) ≡ Some (d, reader.new))
        × ((ds : Items) → Holds found.old ds → Holds found.new (both ds (item d no_items)))) }
    ensures list { name_of found.new ≡ name_of found.old }
    ensures shorter { IfSome result (λ _. length reader.new < length reader.old) }
{
    let object = tree(alloc, reader, 125, &[Level::Plain])?;
    add_item(alloc, &object, found)?;
    Some(())
}

/// The items up to the bracket that closes their list.
fn list_items(alloc: Global, reader: &mut Reader<'_>, found: Found) -> Option<Found>
    requires begins { Holds found no_items }
    ensures ok { IfSome result (λ all. (ds : Items) × (converted of_items (items (value 125) (length reader.old) reader.old) ≡ Some (ds, reader.new))
        × Holds all ds) }
    ensures list { IfSome result (λ all. name_of all ≡ name_of found) }
    ensures shorter { IfSome result (λ _. length reader.new < length reader.old) }
{
    let mut all = found;
    'items: while !reader.take_end_array() {
        next_item(alloc, reader, &mut all)?;
    }
    Some(all)
}

/// The list, where one is the reader's next value.
pub(crate) fn list_at(alloc: Global, reader: &mut Reader<'_>, found: Found) -> Option<Found>
    requires begins { Holds found no_items }
    ensures ok { IfSome result (λ all. (ds : Items) × (converted of_json (value 126 reader.old) ≡ Some (array ds, reader.new)) × Holds all ds) }
    ensures list { IfSome result (λ all. name_of all ≡ name_of found) }
    ensures shorter { IfSome result (λ _. length reader.new < length reader.old) }
{
    match reader.next() {
        Some(Token::BeginArray) => match list_items(alloc, reader, found) {
            Some(all) => Some(all),
            None => None,
        },
        _ => None,
    }
}
