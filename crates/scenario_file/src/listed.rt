//! The items of a list, read one by one, with their compact text.

ghost use Rattle.std.specs.Prelude.{◌≡◌, ◌<◌, ◌≤◌, ◌+◌, length, Some, IfSome};
ghost use Rattle.json.specs.Json.{value, items};
ghost use Rattle.serde_json.specs.Data.{Data, Items, array, item, no_items};
ghost use Rattle.serde_json.specs.Read.{of_json, of_items, converted};
ghost use Rattle.scenario_cut.specs.Growing.{both};
ghost use Rattle.scenario_file.specs.Listing.{Holds, Lists, name_of};

use crate::found::{Found, Reach, add_item, add_plain};
use crate::look::looks_plain;
use crate::plain::input_at;
use crate::trees::{ITEM, tree};
use crate::written::Written;
use json::{Reader, Token};
use std::alloc::Global;

/// The items of a list, the compact text between its brackets, whether there is an item, and what the items ask for at
/// the most.
#[derive(Drop)]
pub(crate) struct Listed<'a> {
    pub found: Found,
    pub text: Written<'a>,
    pub some: bool,
    pub last: Reach,
}

/// Reads one more item as a tree, nested at most so deep: what it says, and its text after those before.
fn tree_item(
    alloc: Global,
    reader: &mut Reader<'_>,
    depth: usize,
    listed: &mut Listed<'_>,
) -> Option<()>
    ensures ok { IfSome result (λ _. (d : Data) × (converted of_json (value depth reader.old) ≡ Some (d, reader.new))
        × ((ds : Items) → Lists listed.old ds → Lists listed.new (both ds (item d no_items)))) }
    ensures list { name_of listed.new.found ≡ name_of listed.old.found }
    ensures shorter { IfSome result (λ _. length reader.new < length reader.old) }
{
    let object = tree(alloc, reader, depth, &ITEM)?;
    let reach = add_item(alloc, &object, &mut listed.found)?;
    listed.text.add_value(alloc, &object, listed.some)?;
    listed.some = true;
    listed.last = listed.last.farthest(reach);
    Some(())
}

/// Reads one more input, which is a plain one, straight from its tokens.
fn plain_item(reader: &mut Reader<'_>, depth: usize, listed: &mut Listed<'_>) -> Option<()>
    requires deep { 1 ≤ depth }
    ensures ok { IfSome result (λ _. (d : Data) × (converted of_json (value depth reader.old) ≡ Some (d, reader.new))
        × ((ds : Items) → Lists listed.old ds → Lists listed.new (both ds (item d no_items)))) }
    ensures list { name_of listed.new.found ≡ name_of listed.old.found }
    ensures shorter { IfSome result (λ _. length reader.new < length reader.old) }
{
    let input = input_at(reader, depth)?;
    let reach = add_plain(input, &mut listed.found)?;
    listed.text.add_input(input, listed.some)?;
    listed.some = true;
    listed.last = listed.last.farthest(reach);
    Some(())
}

/// Reads one more item, nested at most so deep: an input that looks plain from its tokens, any other as a tree.
fn next_item(
    alloc: Global,
    reader: &mut Reader<'_>,
    depth: usize,
    listed: &mut Listed<'_>,
    file: &[u8],
) -> Option<()>
    ensures ok { IfSome result (λ _. (d : Data) × (converted of_json (value depth reader.old) ≡ Some (d, reader.new))
        × ((ds : Items) → Lists listed.old ds → Lists listed.new (both ds (item d no_items)))) }
    ensures list { name_of listed.new.found ≡ name_of listed.old.found }
    ensures shorter { IfSome result (λ _. length reader.new < length reader.old) }
{
    if depth > 0 && listed.found.is_inputs() && looks_plain(file, reader.offset()) {
        plain_item(reader, depth, listed)
    } else {
        tree_item(alloc, reader, depth, listed)
    }
}

/// The items, each nested at most so deep, up to the bracket that closes their list, in this file.
fn list_items<'a>(
    alloc: Global,
    reader: &mut Reader<'_>,
    found: Found,
    depth: usize,
    file: &'a [u8],
) -> Option<Listed<'a>>
    requires begins { Holds found no_items }
    ensures ok { IfSome result (λ listed. (ds : Items) × (converted of_items (items (value depth) (length reader.old) reader.old) ≡ Some (ds, reader.new))
        × Lists listed ds) }
    ensures list { IfSome result (λ listed. name_of listed.found ≡ name_of found) }
    ensures shorter { IfSome result (λ _. length reader.new < length reader.old) }
{
    let text = Written::nothing(alloc, file, reader.offset())?;
    let mut listed = Listed {
        found,
        text,
        some: false,
        last: Reach::none(),
    };
    'items: while !reader.take_end_array() {
        next_item(alloc, reader, depth, &mut listed, file)?;
    }
    Some(listed)
}

/// The list, where one is the reader's next value, with items that are nested at most so deep.
pub(crate) fn list_at<'a>(
    alloc: Global,
    reader: &mut Reader<'_>,
    found: Found,
    depth: usize,
    file: &'a [u8],
) -> Option<Listed<'a>>
    requires begins { Holds found no_items }
    ensures ok { IfSome result (λ listed. (ds : Items) × (converted of_json (value (depth + 1) reader.old) ≡ Some (array ds, reader.new)) × Lists listed ds) }
    ensures list { IfSome result (λ listed. name_of listed.found ≡ name_of found) }
    ensures shorter { IfSome result (λ _. length reader.new < length reader.old) }
{
    match reader.next() {
        Some(Token::BeginArray) => match list_items(alloc, reader, found, depth, file) {
            Some(listed) => Some(listed),
            None => None,
        },
        _ => None,
    }
}
