//! Values of the text as trees, each read for itself. What has no place in a scenario is skipped: null, a number that
//! is not whole, is below 0 or has more than 64 bits, an array or an object where none may open, an array of too many
//! items, and an object of too many names. Of equal names the last counts, so that such a value may precede a valid
//! one.

ghost use Rattle.std.specs.Prelude.{◌≡◌, ◌<◌, ℕ, List, true, length, Some, IfSome, string_bytes};
ghost use Rattle.json.specs.Json.{value, items, members};
ghost use Rattle.serde_json.specs.Data.{Data, Items, Members, Num, array, number, object, no_members, put, unsigned};
ghost use Rattle.serde_json.specs.Read.{of_json, of_items, of_members, converted, number_of};
ghost use Rattle.serde_json.specs.View.{view, number_view, members_view};
ghost use Rattle.scenario_cut.specs.Last.{filled};
ghost use Rattle.scenario_file.specs.Trees.{KeptOf, has_null, seen, standing};

use fast_float::Numeral;
use json::{Reader, Token};
use scenario_cut::{pass_items, pass_members};
use serde_json::{Map, Number, Value};
use std::alloc::Global;

/// What may open at a level of a tree.
#[derive(Clone, Copy)]
pub enum Level {
    /// An object. Nothing may open in it.
    Plain,
    /// An object. At this name what the next level says may open, and at no other name may anything.
    Members(&'static str),
    /// An array of at most that many items. In it what the next level says may open.
    Items(usize),
}

/// An item of a list: an object, in which the cells of a cabinet or a load are lists of a list.
pub(crate) const ITEM: [Level; 3] = [Level::Members("cells"), Level::Items(4096), Level::Items(8)];

/// An object of a scenario has fewer names than this.
const MOST_NAMES: usize = 32;

/// What is kept of a value that was read.
#[derive(Drop)]
enum Kept {
    /// The value.
    Whole(Value),
    /// Nothing: the value has no place in a scenario, and was skipped.
    Passed,
}

/// How many items an array may have at the first level, and the levels below; none, where no array may open.
fn items_below(levels: &[Level]) -> Option<(usize, &[Level])> {
    match levels {
        [level, inner @ ..] => match level {
            Level::Items(most) => Some((*most, inner)),
            _ => None,
        },
        [] => None,
    }
}

/// The name at which something may open in an object at the first level, and the levels below; none, where no object may open.
fn members_below(levels: &[Level]) -> Option<(&str, &[Level])> {
    match levels {
        [level, inner @ ..] => match level {
            Level::Plain => Some(("", &[])),
            Level::Members(name) => Some((*name, inner)),
            Level::Items(_) => None,
        },
        [] => None,
    }
}

/// The levels below a name of an object, where these are below one name and none below any other.
fn levels_at<'a>(name: &str, opens: &str, levels: &'a [Level]) -> &'a [Level] {
    if name == opens { levels } else { &[] }
}

/// The number that a token writes, where it is whole, not below 0, and has 64 bits.
pub(crate) fn whole_of(text: &str) -> Option<u64>
    ensures { IfSome result (λ n. number_of text.now ≡ Some (unsigned n)) }
{
    let bytes = text.as_bytes();
    if bytes.is_empty() || bytes[0] == b'-' {
        return None;
    }
    match Numeral::scan(bytes).to_u64() {
        Some(whole) => Some(whole),
        None => None,
    }
}

/// The number that a token writes, as one of a tree, where it is such a number.
fn whole_number(text: &str) -> Option<Number>
    ensures { IfSome result (λ n. number_of text.now ≡ Some (number_view n)) }
{
    let whole = whole_of(text)?;
    match Number::from_u128(u128::from(whole)) {
        Some(number) => Some(number),
        None => None,
    }
}

/// Puts a value at a name, in place of what was there.
pub(crate) fn put_member(members: &mut Map<String, Value>, name: String, value: Value) -> Option<()>
    ensures { IfSome result (λ _. members_view members.new.entries ≡ put (string_bytes name) (view value) (members_view members.old.entries)) }
{
    match members.insert(name, value) {
        Ok(old) => {
            drop(old);
            Some(())
        }
        Err(_) => None,
    }
}

/// Whether an object has more names than any of a scenario.
pub(crate) fn is_full(members: &Map<String, Value>) -> bool {
    members.len() >= MOST_NAMES
}

/// Whether a null is in an object.
fn has_null(members: &Map<String, Value>) -> bool
    ensures { result ≡ has_null (members_view members.now.entries) }
{
    for (_, value) in members.iter() {
        if value.is_null() {
            return true;
        }
    }
    false
}

/// What is kept of an object of these members, where null represents each that was skipped.
fn kept_object(members: Map<String, Value>) -> Kept
    ensures { (passed : List ℕ → Data) → KeptOf (object (filled (seen passed) (members_view members.entries))) result }
{
    if has_null(&members) {
        Kept::Passed
    } else {
        Kept::Whole(Value::Object(members))
    }
}

/// What is kept of the number that a token writes; none, where it is out of range.
fn kept_number(text: &str) -> Option<Kept>
    ensures { IfSome result (λ kept. (n : Num) × (number_of text.now ≡ Some n) × KeptOf (number n) kept) }
{
    match whole_number(text) {
        Some(number) => Some(Kept::Whole(Value::Number(number))),
        None => match scenario_cut::number_of(text) {
            Some(_) => Some(Kept::Passed),
            None => None,
        },
    }
}

/// Puts what is kept of a value at a name, in place of what was there: null for a value that was skipped.
fn put_kept(members: &mut Map<String, Value>, name: String, kept: Kept) -> Option<()>
    ensures { IfSome result (λ _. members_view members.new.entries ≡ put (string_bytes name) (standing kept) (members_view members.old.entries)) }
{
    match kept {
        Kept::Whole(value) => put_member(members, name, value),
        Kept::Passed => put_member(members, name, Value::Null),
    }
}

/// What is kept of what was skipped; none, where it has no reading.
fn passed_over(passed: bool) -> Option<Kept>
    ensures { IfSome result (λ kept. (passed ≡ true) × (kept ≡ Kept.Passed)) }
{
    if passed { Some(Kept::Passed) } else { None }
}

/// The next value of the reader, with arrays and objects nested at most so deep. None, where it has no place in a
/// scenario or these levels do not allow it, where it has no reading, and if memory runs out; where the reader is then
/// isn't said.
pub fn tree(alloc: Global, reader: &mut Reader<'_>, depth: usize, levels: &[Level]) -> Option<Value>
    ensures ok { IfSome result (λ v. converted of_json (value depth reader.old) ≡ Some (view v, reader.new)) }
    ensures shorter { IfSome result (λ _. length reader.new < length reader.old) }
{
    match tree_value(alloc, reader, depth, levels) {
        Some(Kept::Whole(value)) => Some(value),
        Some(Kept::Passed) => None,
        None => None,
    }
}

/// What is kept of the next value of the reader, with arrays and objects nested at most so deep: all of it, or nothing
/// where it has no place in a scenario or these levels do not allow it. None, where it has no reading or memory ran
/// out.
#[cycle(values)]
fn tree_value(
    alloc: Global,
    reader: &mut Reader<'_>,
    depth: usize,
    levels: &[Level],
) -> Option<Kept>
    ensures ok { IfSome result (λ kept. (d : Data) × (converted of_json (value depth reader.old) ≡ Some (d, reader.new)) × KeptOf d kept) }
    ensures shorter { IfSome result (λ _. length reader.new < length reader.old) }
{
    let token = reader.next()?;
    match token {
        Token::String(text) => match String::from_str(alloc, text) {
            Ok(copy) => Some(Kept::Whole(Value::String(copy))),
            Err(_) => None,
        },
        Token::Number(text) => match kept_number(text) {
            Some(kept) => Some(kept),
            None => None,
        },
        Token::Bool(b) => Some(Kept::Whole(Value::Bool(b))),
        Token::Null => Some(Kept::Passed),
        Token::EndObject | Token::EndArray | Token::Key(_) | Token::Bad => None,
        Token::BeginArray => {
            if depth == 0 {
                return None;
            }
            match tree_array(alloc, reader, depth - 1, levels) {
                Some(kept) => Some(kept),
                None => None,
            }
        }
        Token::BeginObject => {
            if depth == 0 {
                return None;
            }
            match tree_object(alloc, reader, depth - 1, levels) {
                Some(kept) => Some(kept),
                None => None,
            }
        }
    }
}

/// What is kept of an array, of which the bracket that opens it was read.
#[cycle(values)]
fn tree_array(
    alloc: Global,
    reader: &mut Reader<'_>,
    depth: usize,
    levels: &[Level],
) -> Option<Kept>
    ensures ok { IfSome result (λ kept. (ds : Items) × (converted of_items (items (value depth) (length reader.old) reader.old) ≡ Some (ds, reader.new)) × KeptOf (array ds) kept) }
    ensures shorter { IfSome result (λ _. length reader.new < length reader.old) }
{
    match items_below(levels) {
        Some((most, inner)) => tree_items(alloc, reader, depth, most, inner),
        None => passed_over(pass_items(reader, depth)),
    }
}

/// What is kept of the items up to the bracket that closes an array: nothing, where they are more than that many or
/// nothing is kept of one of them.
#[cycle(values)]
fn tree_items(
    alloc: Global,
    reader: &mut Reader<'_>,
    depth: usize,
    most: usize,
    levels: &[Level],
) -> Option<Kept>
    ensures ok { IfSome result (λ kept. (ds : Items) × (converted of_items (items (value depth) (length reader.old) reader.old) ≡ Some (ds, reader.new)) × KeptOf (array ds) kept) }
    ensures shorter { IfSome result (λ _. length reader.new < length reader.old) }
{
    let mut found = Vec::new(alloc);
    'items: while !reader.take_end_array() {
        if found.len() >= most {
            return passed_over(pass_items(reader, depth));
        }
        let item = match tree_value(alloc, reader, depth, levels)? {
            Kept::Whole(item) => item,
            Kept::Passed => return passed_over(pass_items(reader, depth)),
        };
        match found.push(item) {
            Ok(()) => {}
            Err(_) => return None,
        }
    }
    Some(Kept::Whole(Value::Array(found)))
}

/// What is kept of an object, of which the brace that opens it was read.
#[cycle(values)]
fn tree_object(
    alloc: Global,
    reader: &mut Reader<'_>,
    depth: usize,
    levels: &[Level],
) -> Option<Kept>
    ensures ok { IfSome result (λ kept. (ms : Members) × (converted (λ js. of_members js no_members) (members (value depth) (length reader.old) reader.old) ≡ Some (ms, reader.new)) × KeptOf (object ms) kept) }
    ensures shorter { IfSome result (λ _. length reader.new < length reader.old) }
{
    match members_below(levels) {
        Some((opens, inner)) => tree_members(alloc, reader, depth, opens, inner),
        None => passed_over(pass_members(reader, depth)),
    }
}

/// What is kept of the members up to the brace that closes an object, in which what the levels say opens at one name: nothing, where
/// the names are too many or nothing is kept of the last value of one of them.
#[cycle(values)]
fn tree_members(
    alloc: Global,
    reader: &mut Reader<'_>,
    depth: usize,
    opens: &str,
    levels: &[Level],
) -> Option<Kept>
    ensures ok { IfSome result (λ kept. (ms : Members) × (converted (λ js. of_members js no_members) (members (value depth) (length reader.old) reader.old) ≡ Some (ms, reader.new)) × KeptOf (object ms) kept) }
    ensures shorter { IfSome result (λ _. length reader.new < length reader.old) }
{
    let mut found = Map::new(alloc);
    'members: while !is_full(&found) {
        let name = match reader.next_key() {
            Ok(Some(name)) => name,
            Ok(None) => return Some(kept_object(found)),
            Err(_) => return None,
        };
        let key = match String::from_str(alloc, name) {
            Ok(key) => key,
            Err(_) => return None,
        };
        let inner = levels_at(name, opens, levels);
        let member = tree_value(alloc, reader, depth, inner)?;
        put_kept(&mut found, key, member)?;
    }
    passed_over(pass_members(reader, depth))
}
