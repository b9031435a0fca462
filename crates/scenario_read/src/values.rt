//! Single values: whole numbers, texts, words, and true or false. Nothing here takes memory.

ghost use Rattle.std.specs.Prelude.{◌≡◌, ◌≤◌, map, codes, length, ◌∷◌, [], IfOk, OnOk};
ghost use Rattle.serde_json.specs.View.{view, items_view};
ghost use Rattle.scenario_read.specs.Kinds.{whole_fits, rare_fits, text_fits, all_printable, word_fits, flag_fits, is_among, within, list_fits, array_fits, items_in};
ghost use Rattle.scenario_read.specs.Table.{stream_words, way_words, fault_kind_words};
ghost use Rattle.scenario_read.specs.Content.{whole_of, base_of, flag_of, text_of, stream_of, direction_of, fault_kind_of};
ghost use Rattle.scenario_read.specs.Readers.{ReadAs};

use scenario_data::{Base, Direction, FaultKind};
use serde_json::Value;
use sig_types::Way;

/// Why a value isn't allowed: it is of the wrong kind, or beyond the range.
#[derive(Clone, Copy)]
pub enum Unfit {
    Wrong,
    Beyond,
}

/// Whether a name is one of these.
pub fn is_among(names: &[&str], name: &str) -> bool
    ensures { result ≡ is_among (map (λ known. known.now) names.now) name.now }
{
    names.contains(&name)
}

/// A whole number of a range.
pub fn whole_of(value: &Value, least: u32, most: u32) -> Result<u32, Unfit>
    ensures read { ReadAs result (whole_fits least most (view value.now)) (λ n. n ≡ whole_of (view value.now)) }
    ensures few { IfOk result (λ n. n ≤ most) }
{
    let Value::Number(number) = value else {
        return Err(Unfit::Wrong);
    };
    match number.as_u64() {
        Some(n) if u64::from(least) <= n && n <= u64::from(most) => Ok(n as u32),
        Some(_) => Err(Unfit::Beyond),
        None if number.is_f64() => Err(Unfit::Wrong),
        None => Err(Unfit::Beyond),
    }
}

/// 0, or a whole number of a range.
pub(crate) fn rare_of(value: &Value, least: u32, most: u32) -> Result<u32, Unfit>
    ensures { ReadAs result (rare_fits least most (view value.now)) (λ n. n ≡ whole_of (view value.now)) }
{
    let Value::Number(number) = value else {
        return Err(Unfit::Wrong);
    };
    match number.as_u64() {
        Some(0) => Ok(0),
        Some(n) if u64::from(least) <= n && n <= u64::from(most) => Ok(n as u32),
        Some(_) => Err(Unfit::Beyond),
        None if number.is_f64() => Err(Unfit::Wrong),
        None => Err(Unfit::Beyond),
    }
}

/// Whether all characters lie from the space to the tilde of ASCII.
fn is_printable(text: &[u8]) -> bool
    ensures { result ≡ all_printable text.now }
{
    for octet in text {
        if *octet < 32 || *octet > 126 {
            return false;
        }
    }
    true
}

/// A text of least to most characters from the space to the tilde of ASCII.
pub(crate) fn text_of(value: &Value, least: usize, most: usize) -> Result<&str, Unfit>
    ensures read { ReadAs result (text_fits least most (view value.now)) (λ text. text.now ≡ text_of (view value.now)) }
    ensures few { IfOk result (λ text. length text.now ≤ most) }
{
    let Value::String(text) = value else {
        return Err(Unfit::Wrong);
    };
    if !is_printable(text.as_bytes()) {
        return Err(Unfit::Wrong);
    }
    in_range(text.len(), least, most)?;
    Ok(text.as_str())
}

/// The word of standard tables.
pub(crate) fn base_of(value: &Value) -> Result<Base, Unfit>
    ensures { ReadAs result (word_fits (codes "std8" ∷ codes "max8" ∷ []) (view value.now)) (λ base. base ≡ base_of (view value.now)) }
{
    match value.as_str() {
        Some("std8") => Ok(Base::Std8),
        Some("max8") => Ok(Base::Max8),
        _ => Err(Unfit::Wrong),
    }
}

/// The word of a stream.
pub(crate) fn stream_of(value: &Value) -> Result<Way, Unfit>
    ensures { ReadAs result (word_fits stream_words (view value.now)) (λ stream. stream ≡ stream_of (view value.now)) }
{
    match value.as_str() {
        Some("poll") => Ok(Way::Poll),
        Some("load") => Ok(Way::Load),
        Some("priority") => Ok(Way::Prio),
        _ => Err(Unfit::Wrong),
    }
}

/// The word of a direction.
pub(crate) fn direction_of(value: &Value) -> Result<Direction, Unfit>
    ensures { ReadAs result (word_fits way_words (view value.now)) (λ way. way ≡ direction_of (view value.now)) }
{
    match value.as_str() {
        Some("down") => Ok(Direction::Down),
        Some("up") => Ok(Direction::Up),
        _ => Err(Unfit::Wrong),
    }
}

/// The word of a kind of fault.
pub(crate) fn fault_kind_of(value: &Value) -> Result<FaultKind, Unfit>
    ensures { ReadAs result (word_fits fault_kind_words (view value.now)) (λ kind. kind ≡ fault_kind_of (view value.now)) }
{
    match value.as_str() {
        Some("lose") => Ok(FaultKind::Lose),
        Some("repeat") => Ok(FaultKind::Repeat),
        Some("late") => Ok(FaultKind::Late),
        Some("flip") => Ok(FaultKind::Flip),
        Some("cut") => Ok(FaultKind::Cut),
        _ => Err(Unfit::Wrong),
    }
}

/// True or false.
pub fn flag_of(value: &Value) -> Result<bool, Unfit>
    ensures { ReadAs result (flag_fits (view value.now)) (λ flag. flag ≡ flag_of (view value.now)) }
{
    match value {
        Value::Bool(flag) => Ok(*flag),
        _ => Err(Unfit::Wrong),
    }
}

/// Whether a count lies within a range.
fn in_range(count: usize, least: usize, most: usize) -> Result<(), Unfit>
    ensures read { ReadAs result (within least most count) (λ _. Unit {0}) }
    ensures few { OnOk result (count ≤ most) }
{
    if least <= count && count <= most {
        Ok(())
    } else {
        Err(Unfit::Beyond)
    }
}

/// The items of a list of least to most.
#[tactic(auto, using(crate::proofs::Lists::array_within, crate::proofs::Lists::array_items))]
pub fn list_of(value: &Value, least: usize, most: usize) -> Result<&Vec<Value>, Unfit>
    ensures read { ReadAs result (list_fits least most (view value.now)) (λ items. items_view items.now.items ≡ items_in (view value.now)) }
    ensures few { IfOk result (λ items. length items.now.items ≤ most) }
{
    let Value::Array(items) = value else {
        return Err(Unfit::Wrong);
    };
    in_range(items.len(), least, most)?;
    Ok(items)
}

/// The items of a list of any length.
#[tactic(auto, using(crate::proofs::Lists::array_items, crate::proofs::Lists::any_array_fits))]
pub fn items_of(value: &Value) -> Result<&Vec<Value>, Unfit>
    ensures { ReadAs result (array_fits (view value.now)) (λ items. items_view items.now.items ≡ items_in (view value.now)) }
{
    match value {
        Value::Array(items) => Ok(items),
        _ => Err(Unfit::Wrong),
    }
}
