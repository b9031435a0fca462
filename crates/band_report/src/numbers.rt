//! Values of the text where only a number is allowed: the number, or null for anything else, which is skipped. So no
//! value takes more memory than a number, however much its text has.

ghost use Rattle.std.specs.Prelude.{◌≡◌, ◌<◌, length, Some, IfSome};
ghost use Rattle.json.specs.Json.{value};
ghost use Rattle.serde_json.specs.Data.{Data};
ghost use Rattle.serde_json.specs.Read.{of_json, converted};
ghost use Rattle.serde_json.specs.View.{view};
ghost use Rattle.band_report.specs.Parts.{number_alone};

use json::{Reader, Token};
use scenario_cut::{number_of, pass_rest};
use serde_json::Value;

/// The next value of the reader, nested at most so deep, where only a number may be.
pub(crate) fn number_alone(reader: &mut Reader<'_>, depth: usize) -> Option<Value>
    ensures ok { IfSome result (λ v. (d : Data) × (converted of_json (value depth reader.old) ≡ Some (d, reader.new)) × (view v ≡ number_alone d)) }
    ensures shorter { IfSome result (λ _. length reader.new < length reader.old) }
{
    let token = reader.next()?;
    match token {
        Token::Number(text) => match number_of(text) {
            Some(number) => Some(Value::Number(number)),
            None => None,
        },
        other => {
            if pass_rest(reader, depth, other) {
                Some(Value::Null)
            } else {
                None
            }
        }
    }
}
