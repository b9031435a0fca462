//! The compact text of a list as it grows. A file that is compact already has this text in itself, so that none of it
//! is in memory a second time: each piece is compared with what comes next in the file, and copied only from the first
//! that differs.

ghost use Rattle.std.specs.Prelude.{◌≤◌, length};

use crate::pieces::{add, comma, piece_of};
use itoa::Buffer;
use scenario_data::Input;
use serde_json::Value;
use sig_types::Field;
use std::alloc::Global;

/// A text: the first `len` bytes of a part of the file, and what follows them.
#[derive(Drop)]
pub(crate) struct Written<'a> {
    part: &'a [u8],
    len: usize,
    further: String,
    ghost within: { len ≤ length part.now },
}

impl<'a> Written<'a> {
    ghost use Rattle.std.specs.Prelude.{◌≡◌, ◌+◌, ◌++◌, [], take, drop, true, false, codes, decimal, IsTrue, IfSome, string_bytes};
    ghost use Rattle.serde_json.specs.Data.{Members, boolean, member, object};
    ghost use Rattle.serde_json.specs.View.{view};
    ghost use Rattle.serde_json.specs.Written.{has_float, comma_if, compact_text, members_text};
    ghost use Rattle.scenario_file.specs.Growing.{written};
    ghost use Rattle.scenario_file.specs.Plain.{before_round, behind_round, input_members};

    /// No text yet, in a file that may have it from this place on.
    pub(crate) fn nothing(alloc: Global, file: &'a [u8], place: usize) -> Option<Written<'a>>
        ensures { IfSome result (λ text. written text ≡ []) }
    {
        let Ok(further) = String::with_capacity(alloc, file.len()) else {
            return None;
        };
        let part = match file.get(place..) {
            Some(part) => part,
            None => file,
        };
        Some(Written {
            part,
            len: 0,
            further,
        })
    }

    /// No text.
    pub(crate) fn empty(alloc: Global) -> Written<'a>
        ensures { written result ≡ [] }
    {
        Written {
            part: &[],
            len: 0,
            further: String::new(alloc),
        }
    }

    /// Whether the file continues with this piece after the text so far.
    fn goes_on(&self, piece: &[u8]) -> bool
        ensures { IsTrue result → (string_bytes self.now.further ≡ []) × (take (length piece.now) (drop self.now.len self.now.part.now) ≡ piece.now) × (self.now.len + length piece.now ≤ length self.now.part.now) }
    {
        self.further.as_bytes().is_empty() && self.part[self.len..].starts_with(piece)
    }

    /// Adds a piece.
    pub(crate) fn add(&mut self, piece: &str) -> Option<()>
        ensures { IfSome result (λ _. written self.new ≡ written self.old ++ piece.now) }
    {
        if self.goes_on(piece.as_bytes()) {
            self.len += piece.len();
            return Some(());
        }
        add(&mut self.further, piece)
    }

    /// Adds the compact text of a value, after a comma where one is before.
    pub(crate) fn add_value(&mut self, alloc: Global, value: &Value, later: bool) -> Option<()>
        ensures { IfSome result (λ _. has_float (view value.now) ≡ false → written self.new ≡ (written self.old ++ comma_if later) ++ compact_text (view value.now)) }
    {
        let piece = piece_of(alloc, value)?;
        self.add(comma(later))?;
        self.add(piece.as_str())?;
        Some(())
    }

    /// Adds a piece, and a number in digits.
    fn add_number(&mut self, piece: &str, number: u32) -> Option<()>
        ensures { IfSome result (λ _. written self.new ≡ (written self.old ++ piece.now) ++ decimal number) }
    {
        let mut digits = Buffer::new();
        self.add(piece)?;
        self.add(digits.format(number))?;
        Some(())
    }

    /// Adds the flag of an input.
    fn add_flag(&mut self, flag: bool) -> Option<()>
        ensures { IfSome result (λ _. (ms : Members) → written self.new ++ members_text true ms ≡ written self.old ++ members_text true (member (codes "on") (boolean flag) ms)) }
    {
        if flag {
            self.add(",\"on\":true")?;
            Some(())
        } else {
            self.add(",\"on\":false")?;
            Some(())
        }
    }

    /// Adds what is between the cabinet and the round of an input.
    fn add_before(&mut self, field: Field) -> Option<()>
        ensures { IfSome result (λ _. (ms : Members) → written self.new ++ members_text true ms ≡ written self.old ++ members_text true (before_round field ms)) }
    {
        match field {
            Field::Veh { on, .. } => {
                self.add_flag(on)?;
                Some(())
            }
            Field::Ped { phase } => {
                self.add_number(",\"ped\":", u32::from(phase))?;
                Some(())
            }
            Field::Preempt { number, on } => {
                self.add_flag(on)?;
                self.add_number(",\"preempt\":", u32::from(number))?;
                Some(())
            }
        }
    }

    /// Adds what follows the round of an input.
    fn add_behind(&mut self, field: Field) -> Option<()>
        ensures { IfSome result (λ _. written self.new ≡ written self.old ++ members_text true (behind_round field)) }
    {
        match field {
            Field::Veh { phase, .. } => {
                self.add_number(",\"veh\":", u32::from(phase))?;
                self.add("}")?;
                Some(())
            }
            Field::Ped { .. } => {
                self.add("}")?;
                Some(())
            }
            Field::Preempt { .. } => {
                self.add("}")?;
                Some(())
            }
        }
    }

    /// Adds the compact text of an input, after a comma where one is before.
    pub(crate) fn add_input(&mut self, input: Input, later: bool) -> Option<()>
        ensures { IfSome result (λ _. written self.new ≡ (written self.old ++ comma_if later) ++ compact_text (object (input_members input))) }
    {
        self.add(comma(later))?;
        self.add_number("{\"cabinet\":", input.cabinet)?;
        self.add_before(input.field)?;
        self.add_number(",\"round\":", input.round)?;
        self.add_behind(input.field)?;
        Some(())
    }

    /// Adds the text to another.
    pub(crate) fn add_to(&self, text: &mut String) -> Option<()>
        ensures { IfSome result (λ _. string_bytes text.new ≡ string_bytes text.old ++ written self.now) }
    {
        let Ok(front) = std::str::from_utf8(&self.part[..self.len]) else {
            return None;
        };
        add(text, front)?;
        add(text, self.further.as_str())
    }
}
