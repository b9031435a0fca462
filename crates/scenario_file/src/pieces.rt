//! Text that grows piece by piece, while there is memory.

ghost use Rattle.std.specs.Prelude.{◌≡◌, ◌++◌, false, IfSome, string_bytes};
ghost use Rattle.serde_json.specs.Written.{has_float, comma_if, compact_text};
ghost use Rattle.serde_json.specs.View.{view};

use serde_json::Value;
use std::alloc::Global;

/// Adds a piece.
pub(crate) fn add(text: &mut String, piece: &str) -> Option<()>
    ensures { IfSome result (λ _. string_bytes text.new ≡ string_bytes text.old ++ piece.now) }
{
    match text.push_str(piece) {
        Ok(()) => Some(()),
        Err(_) => None,
    }
}

/// The comma between what is before and what follows; nothing, where nothing is before.
pub(crate) fn comma<'a>(later: bool) -> &'a str
    ensures { result.now ≡ comma_if later }
{
    if later { "," } else { "" }
}

/// The compact text of a value.
pub(crate) fn piece_of(alloc: Global, value: &Value) -> Option<String>
    ensures { IfSome result (λ text. has_float (view value.now) ≡ false → string_bytes text ≡ compact_text (view value.now)) }
{
    match value.to_string(alloc) {
        Ok(piece) => Some(piece),
        Err(_) => None,
    }
}

/// Adds the compact text of a value.
pub(crate) fn add_value(alloc: Global, text: &mut String, value: &Value) -> Option<()>
    ensures { IfSome result (λ _. has_float (view value.now) ≡ false → string_bytes text.new ≡ string_bytes text.old ++ compact_text (view value.now)) }
{
    let piece = piece_of(alloc, value)?;
    add(text, piece.as_str())
}
