//! What is kept of a text: nothing if it isn't JSON.

ghost use Rattle.std.specs.Prelude.{◌≡◌, false, IfOk, IfErr, IfSome};
ghost use Rattle.serde_json.specs.Data.{Data};
ghost use Rattle.serde_json.specs.View.{view};
ghost use Rattle.scenario_read.specs.Answers.{OnRefusal, Reads};
ghost use Rattle.scenario_cut.specs.Cutting.{cut};
ghost use Rattle.scenario_cut.specs.Texts.{IsNoText};

use crate::form::Form;
use crate::keeping::keep;
use crate::passing::pass;
use json::{Reader, Scratch};
use scenario_data::{ReadFail, Refusal};
use serde_json::Value;
use sig_types::NoMemory;
use std::alloc::Global;

/// Whether the bytes are JSON; where not, they have no reading. Nothing is kept of them.
fn is_json(alloc: Global, bytes: &[u8]) -> Result<bool, NoMemory>
    ensures { IfOk result (λ is. is ≡ false → (d : Data) → Reads bytes.now d → ⊥) }
{
    let Ok(text) = std::str::from_utf8(bytes) else {
        return Ok(false);
    };
    let mut scratch = Scratch::new(alloc);
    let Ok(mut reader) = Reader::new(text, &mut scratch) else {
        return Err(NoMemory);
    };
    if !pass(&mut reader, 127) {
        return Ok(false);
    }
    Ok(reader.next().is_none())
}

/// What is kept of the value of the bytes; none, if memory runs out or they are not JSON.
fn kept_value(alloc: Global, bytes: &[u8], form: Form) -> Option<Value>
    ensures { IfSome result (λ kept. (d : Data) × Reads bytes.now d × (view kept ≡ cut form d)) }
{
    let Ok(text) = std::str::from_utf8(bytes) else {
        return None;
    };
    let mut scratch = Scratch::new(alloc);
    let Ok(mut reader) = Reader::new(text, &mut scratch) else {
        return None;
    };
    let kept = keep(alloc, &mut reader, 127, form)?;
    match reader.next() {
        Some(_) => None,
        None => Some(kept),
    }
}

/// What is kept of the value of the bytes, at a place of this form; refused if they aren't JSON, which is found before
/// anything is kept of them.
pub fn kept_of(alloc: Global, bytes: &[u8], form: Form) -> Result<Value, ReadFail>
    ensures kept { IfOk result (λ kept. (d : Data) × Reads bytes.now d × (view kept ≡ cut form d)) }
    ensures none { IfErr result (λ fail. OnRefusal fail (IsNoText bytes.now)) }
{
    match is_json(alloc, bytes) {
        Ok(true) => {}
        Ok(false) => return Err(ReadFail::Refused(Refusal::Syntax)),
        Err(NoMemory) => return Err(ReadFail::NoMemory),
    }
    match kept_value(alloc, bytes, form) {
        Some(kept) => Ok(kept),
        None => Err(ReadFail::NoMemory),
    }
}

/// The same for forms of which little is kept at the most: it is kept at once, and if that fails the bytes are checked
/// to be JSON. If they are, the answer is out of memory.
pub fn kept_of_few(alloc: Global, bytes: &[u8], form: Form) -> Result<Value, ReadFail>
    ensures kept { IfOk result (λ kept. (d : Data) × Reads bytes.now d × (view kept ≡ cut form d)) }
    ensures none { IfErr result (λ fail. OnRefusal fail (IsNoText bytes.now)) }
{
    match kept_value(alloc, bytes, form) {
        Some(kept) => Ok(kept),
        None => match is_json(alloc, bytes) {
            Ok(false) => Err(ReadFail::Refused(Refusal::Syntax)),
            _ => Err(ReadFail::NoMemory),
        },
    }
}
