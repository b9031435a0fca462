//! How often names are still to appear among the members of an object. If names are repeated, all but the last of each
//! can then be skipped unread. The numbers only spare memory: that the last of each name was read is seen in the end.

ghost use Rattle.std.specs.Prelude.{◌≡◌, ◌<◌, ℕ, List, true, false, length, map, nat_lt, bytes_eq, get_or, string_bytes};
ghost use Rattle.scenario_file.specs.Left.{place_from, is_left};

use json::{Reader, Scratch, Token};
use scenario_cut::pass_items;
use std::alloc::Global;

/// Names are counted up to here.
const MOST: u32 = 1_000_000_000;

/// Names, of which the first eleven are counted, and how often each is still to come.
#[derive(Drop)]
pub struct Left {
    names: Vec<String>,
    counts: [u32; 11],
}

/// The place of a name among these.
fn place_of(names: &Vec<String>, name: &str) -> Option<usize>
    ensures { result ≡ place_from 0 (map string_bytes names.now.items) name.now }
{
    for i in 0..names.len() {
        if name == names[i].as_str() {
            return Some(i);
        }
    }
    None
}

/// Counts the name at a place down, and says whether it comes for the last time.
fn is_last_at(left: &mut [u32; 11], place: usize) -> bool
    ensures last { result ≡ true → get_or left.new place 0 ≡ 0 }
    ensures more { result ≡ false → nat_lt 0 (get_or left.new place 0) ≡ true }
    ensures was { result ≡ false → nat_lt 0 (get_or left.old place 0) ≡ true }
    ensures others { (other : ℕ) → (other ≡ place → ⊥) → get_or left.old other 0 ≡ get_or left.new other 0 }
{
    if place >= 11 {
        return true;
    }
    if left[place] <= 1 {
        left[place] = 0;
        return true;
    }
    left[place] -= 1;
    false
}

/// Whether nothing is to come any more.
fn all_none(left: &[u32; 11]) -> bool
    ensures { result ≡ true → (place : ℕ) → get_or left.now place 0 ≡ 0 }
{
    for place in 0..11 {
        if left[place] != 0 {
            return false;
        }
    }
    true
}

/// Counts the names up to the brace that closes an object; false, where it is none.
fn count_members(reader: &mut Reader<'_>, left: &mut Left) -> bool
    ensures { result ≡ true → length reader.new < length reader.old }
{
    'members: loop {
        let name = match reader.next_key() {
            Ok(Some(name)) => name,
            Ok(None) => return true,
            Err(_) => return false,
        };
        left.count(name);
        if reader.skip_value(126).is_err() {
            return false;
        }
    }
}

/// Counts the names of a member that is an object, if it has this name; of another value none. What was counted of one before is
/// forgotten.
fn count_member(reader: &mut Reader<'_>, is_asked: bool, left: &mut Left) -> bool
    ensures { result ≡ true → length reader.new < length reader.old }
{
    if !is_asked {
        return reader.skip_value(126).is_ok();
    }
    left.counts = [0; 11];
    match reader.next() {
        Some(Token::BeginObject) => count_members(reader, left),
        Some(Token::BeginArray) => pass_items(reader, 126),
        Some(Token::String(_) | Token::Number(_) | Token::Bool(_) | Token::Null) => true,
        _ => false,
    }
}

/// Counts the names of the last member of this name up to the brace that closes the object around it.
fn count_inner(reader: &mut Reader<'_>, outer: &str, left: &mut Left) -> bool {
    'members: loop {
        let name = match reader.next_key() {
            Ok(Some(name)) => name,
            Ok(None) => return true,
            Err(_) => return false,
        };
        if !count_member(reader, name == outer, left) {
            return false;
        }
    }
}

/// Counts the names of the object that the bytes are, or of its last member of a name.
fn counted(alloc: Global, bytes: &[u8], outer: Option<&str>, left: &mut Left) -> bool {
    let Ok(text) = std::str::from_utf8(bytes) else {
        return false;
    };
    let mut scratch = Scratch::new(alloc);
    let Ok(mut reader) = Reader::new(text, &mut scratch) else {
        return false;
    };
    match reader.next() {
        Some(Token::BeginObject) => {}
        _ => return false,
    }
    match outer {
        Some(outer) => count_inner(&mut reader, outer, left),
        None => count_members(&mut reader, left),
    }
}

impl Left {
    /// No names.
    pub fn none(alloc: Global) -> Left {
        Left {
            names: Vec::new(alloc),
            counts: [0; 11],
        }
    }

    /// These names, of which none is to come.
    fn of_names(alloc: Global, names: &[&str]) -> Option<Left> {
        let mut copied = Vec::new(alloc);
        for i in 0..names.len() {
            let Ok(name) = String::from_str(alloc, names[i]) else {
                return None;
            };
            match copied.push(name) {
                Ok(()) => {}
                Err(_) => return None,
            }
        }
        Some(Left {
            names: copied,
            counts: [0; 11],
        })
    }

    /// How often each of these names comes in the object that the bytes are.
    pub fn of(alloc: Global, bytes: &[u8], names: &[&str]) -> Option<Left> {
        let mut left = Left::of_names(alloc, names)?;
        if counted(alloc, bytes, None, &mut left) {
            Some(left)
        } else {
            None
        }
    }

    /// How often each of these names appears in the object at a name in the object that the bytes are; of equal names
    /// the last counts, and if that isn't an object, none appears.
    pub fn of_inner(alloc: Global, bytes: &[u8], outer: &str, names: &[&str]) -> Option<Left> {
        let mut left = Left::of_names(alloc, names)?;
        if counted(alloc, bytes, Some(outer), &mut left) {
            Some(left)
        } else {
            None
        }
    }

    /// Counts a name.
    fn count(&mut self, name: &str) {
        if let Some(place) = place_of(&self.names, name) {
            if place < 11 && self.counts[place] < MOST {
                self.counts[place] += 1;
            }
        }
    }

    /// Whether there are names, which is so where they were counted.
    pub(crate) fn has_names(&self) -> bool {
        !self.names.is_empty()
    }

    /// Whether some name comes more than once.
    pub(crate) fn has_again(&self) -> bool {
        for place in 0..11 {
            if self.counts[place] > 1 {
                return true;
            }
        }
        false
    }

    /// Counts a name down, and says whether it comes for the last time.
    pub fn is_last(&mut self, name: &str) -> bool
        ensures last { result ≡ true → is_left self.new name.now ≡ false }
        ensures more { result ≡ false → is_left self.new name.now ≡ true }
        ensures was { result ≡ false → is_left self.old name.now ≡ true }
        ensures others { (other : List ℕ) → bytes_eq other name.now ≡ false → is_left self.old other ≡ is_left self.new other }
    {
        match place_of(&self.names, name) {
            Some(place) => is_last_at(&mut self.counts, place),
            None => true,
        }
    }

    /// Whether no name is to come any more.
    pub fn none_left(&self) -> bool
        ensures { result ≡ true → (name : List ℕ) → is_left self.now name ≡ false }
    {
        all_none(&self.counts)
    }
}
