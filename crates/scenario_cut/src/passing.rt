//! Passing over a value, of which nothing is kept: whether it has a reading. Whoever reads a text value by value passes so over those
//! of which nothing is asked.

ghost use Rattle.std.specs.Prelude.{◌≡◌, ◌<◌, ◌≤◌, ◌∷◌, true, false, length, None, Some};
ghost use Rattle.json.specs.Json.{value, items, members};
ghost use Rattle.json.specs.Reads.{token_of};
ghost use Rattle.serde_json.specs.Data.{Data, Items, Members, no_members};
ghost use Rattle.serde_json.specs.Read.{of_json, of_items, of_members, converted};
ghost use Rattle.scenario_cut.specs.Beginning.{BeginsWith};

use crate::numbers::number_of;
use json::{Reader, Token};

/// Skips the reader's next value, in which arrays and objects nest at most `depth` levels deep, and keeps nothing of
/// it. True if the value can be read: the reader is then after it. False if it can't, because it isn't JSON here, has a
/// number out of range or nests deeper; the reader's place is then not specified.
#[cycle(pass)]
pub fn pass(reader: &mut Reader<'_>, depth: usize) -> bool
    ensures passed { result ≡ true → (d : Data) × (converted of_json (value depth reader.old) ≡ Some (d, reader.new)) }
    ensures refused { result ≡ false → converted of_json (value depth reader.old) ≡ None }
    ensures shorter { result ≡ true → length reader.new < length reader.old }
{
    let Some(token) = reader.next() else {
        return false;
    };
    pass_rest(reader, depth, token)
}

/// Skips the rest of a value that begins with this token, in which arrays and objects nest at most `depth` levels deep.
/// True if the value can be read: the reader is then after it. False if it can't; the reader's place is then not
/// specified.
#[cycle(pass)]
pub fn pass_rest(reader: &mut Reader<'_>, depth: usize, token: Token<'_>) -> bool
    ensures passed { result ≡ true → (d : Data) × (converted of_json (value depth (token_of token.entry ∷ reader.old)) ≡ Some (d, reader.new))
        × BeginsWith token.entry d }
    ensures refused { result ≡ false → converted of_json (value depth (token_of token.entry ∷ reader.old)) ≡ None }
    ensures shorter { result ≡ true → length reader.new ≤ length reader.old }
{
    match token {
        Token::String(_) => true,
        Token::Number(text) => match number_of(text) {
            Some(_) => true,
            None => false,
        },
        Token::Bool(_) => true,
        Token::Null => true,
        Token::EndObject | Token::EndArray | Token::Key(_) | Token::Bad => false,
        Token::BeginArray => {
            if depth == 0 {
                return false;
            }
            pass_items(reader, depth - 1)
        }
        Token::BeginObject => {
            if depth == 0 {
                return false;
            }
            pass_members(reader, depth - 1)
        }
    }
}

/// Skips the items up to the bracket that closes an array, in each of which arrays and objects nest at most `depth`
/// levels deep. True if they can be read: the reader is then after the bracket. False if they can't; its place is then
/// not specified.
#[cycle(pass)]
pub fn pass_items(reader: &mut Reader<'_>, depth: usize) -> bool
    ensures passed { result ≡ true → (ds : Items) × (converted of_items (items (value depth) (length reader.old) reader.old) ≡ Some (ds, reader.new)) }
    ensures refused { result ≡ false → converted of_items (items (value depth) (length reader.old) reader.old) ≡ None }
    ensures shorter { result ≡ true → length reader.new < length reader.old }
{
    'items: while !reader.take_end_array() {
        if !pass(reader, depth) {
            return false;
        }
    }
    true
}

/// Skips the members up to the brace that closes an object, in each of which arrays and objects nest at most `depth`
/// levels deep. True if they can be read: the reader is then after the brace. False if they can't; its place is then
/// not specified.
#[cycle(pass)]
pub fn pass_members(reader: &mut Reader<'_>, depth: usize) -> bool
    ensures passed { result ≡ true → (ms : Members) × (converted (λ js. of_members js no_members) (members (value depth) (length reader.old) reader.old) ≡ Some (ms, reader.new)) }
    ensures refused { result ≡ false → converted (λ js. of_members js no_members) (members (value depth) (length reader.old) reader.old) ≡ None }
    ensures shorter { result ≡ true → length reader.new < length reader.old }
{
    'members: loop {
        let _name = match reader.next_key() {
            Ok(Some(name)) => name,
            Ok(None) => return true,
            Err(_) => return false,
        };
        if !pass(reader, depth) {
            return false;
        }
    }
}
