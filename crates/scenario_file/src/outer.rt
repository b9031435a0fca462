//! A text that is one object around a scenario, read name by name into parts of any kind. Of equal names the
//! last counts; if they were counted beforehand, only the last is read.

ghost use Rattle.std.specs.Prelude.{◌≡◌, ◌<◌, length, Some, IfSome, IsUtf8};
ghost use Rattle.json.specs.Json.{value, members};
ghost use Rattle.serde_json.specs.Data.{Data, Members, no_members, object, put};
ghost use Rattle.serde_json.specs.Read.{of_json, of_members, converted, read};
ghost use Rattle.scenario_read.specs.Sorted.{MembersSorted};
ghost use Rattle.scenario_file.specs.Outer.{PartsSoFar};

use crate::file_left::FileLeft;
use crate::left::Left;
use json::{Reader, Scratch, Token};
use scenario_cut::pass;
use std::alloc::Global;

/// The parts of an object around a scenario, as they are read from its text name by name.
pub trait OuterParts<'a>: Drop {
    /// These are the parts of the object of these members.
    ghost stand: { Self → Members → Type 0 };

    /// The parts before any name is read.
    fn none(alloc: Global) -> Self
        ensures { stand result no_members };

    /// Reads what is at the next name of the file, in place of what was read there before. Of a scenario's own names
    /// that many come. None, where it gives up; then nothing is said of the object.
    fn put_next(
        &mut self,
        alloc: Global,
        reader: &mut Reader<'_>,
        name: &str,
        inner: &mut Left,
        file: &'a [u8],
    ) -> Option<()>
        ensures ok { IfSome result (λ _. (d : Data) × (converted of_json (value 126 reader.old) ≡ Some (d, reader.new))
            × ((ms : Members) → stand self.old ms → stand self.new (put name.now d ms))) }
        ensures shorter { IfSome result (λ _. length reader.new < length reader.old) };
}

/// Reads what is at the next name, where the name comes for the last time, or else skips it.
fn next_member<'a, P: OuterParts<'a>>(
    alloc: Global,
    reader: &mut Reader<'_>,
    name: &str,
    parts: &mut P,
    left: &mut FileLeft,
    file: &'a [u8],
) -> Option<()>
    ensures ok { IfSome result (λ _. (d : Data) × (converted of_json (value 126 reader.old) ≡ Some (d, reader.new))
        × ((ms : Members) → MembersSorted ms → PartsSoFar P.stand parts.old left.old.own ms → PartsSoFar P.stand parts.new left.new.own (put name.now d ms))) }
    ensures shorter { IfSome result (λ _. length reader.new < length reader.old) }
{
    if left.own.is_last(name) {
        parts.put_next(alloc, reader, name, &mut left.scenario, file)?;
        Some(())
    } else if pass(reader, 126) {
        Some(())
    } else {
        None
    }
}

/// The members up to the brace that closes the whole object. Of equal names the last counts; of those of which more is to come none is
/// read.
fn members_of<'a, P: OuterParts<'a>>(
    alloc: Global,
    reader: &mut Reader<'_>,
    mut left: FileLeft,
    file: &'a [u8],
) -> Option<P>
    ensures { IfSome result (λ parts. (ms : Members)
        × (converted (λ es. of_members es no_members) (members (value 126) (length reader.old) reader.old) ≡ Some (ms, reader.new)) × P.stand parts ms) }
{
    let mut parts = P::none(alloc);
    'members: loop {
        let name = match reader.next_key() {
            Ok(Some(name)) => name,
            Ok(None) => break,
            Err(_) => return None,
        };
        next_member(alloc, reader, name, &mut parts, &mut left, file)?;
    }
    if left.own.none_left() {
        Some(parts)
    } else {
        None
    }
}

/// The parts of a text that is one object, whose names appear this often: of a name that was counted only the last is
/// read. None if the text isn't JSON or isn't an object, if the value at a name is given up, if more were counted of a
/// name than appear, and if memory runs out.
pub fn parts_with<'a, P: OuterParts<'a>>(
    alloc: Global,
    bytes: &'a [u8],
    left: FileLeft,
) -> Option<P>
    ensures utf8 { IfSome result (λ _. IsUtf8 bytes.now) }
    ensures ok { IfSome result (λ parts. (ms : Members) × (read bytes.now ≡ Some (object ms)) × P.stand parts ms) }
{
    let Ok(text) = std::str::from_utf8(bytes) else {
        return None;
    };
    let mut scratch = Scratch::new(alloc);
    let Ok(mut reader) = Reader::new(text, &mut scratch) else {
        return None;
    };
    match reader.next() {
        Some(Token::BeginObject) => {}
        _ => return None,
    }
    let parts: P = members_of(alloc, &mut reader, left, bytes)?;
    match reader.next() {
        Some(_) => None,
        None => Some(parts),
    }
}
