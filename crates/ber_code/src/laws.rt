//! What holds of the fields' texts whatever is read or written.

ghost use Rattle.std.specs.Prelude.{FitsSigned, ℕ, ℤ, ◌<◌, ◌^◌, List, length};
ghost use Rattle.std.specs.List.{AllByRecursion};
ghost use Rattle.std.specs.Int.{w32};
ghost use Rattle.ber_code.specs.Fields.{StandsAlone};
ghost use Rattle.ber_code.specs.Lengths.{IsLength, IsOctets, length_text, tagged_text};
ghost use Rattle.ber_code.specs.Integers.{IsInteger, integer_text};
ghost use Rattle.ber_code.specs.Names.{IsName, IsWritable, name_text};

/// A text of a field begins no other text: not of another value, nor of the same.
pub fn fields_stand_alone()
    ensures lengths { StandsAlone IsLength }
    ensures integers { StandsAlone IsInteger }
    ensures octets { StandsAlone IsOctets }
    ensures names { StandsAlone IsName }
{}

/// The shortest text of a value is a text of it, so that what is written is read again.
pub fn shortest_texts_are_texts()
    ensures lengths { (n : ℕ) → n < 2 ^ 32 → IsLength (length_text n) n }
    ensures integers { (n : ℤ) → FitsSigned w32 n → IsInteger (integer_text n) n }
    ensures octets { (octets : List ℕ) → length octets < 2 ^ 32 → IsOctets (tagged_text 4 octets) octets }
    ensures names { (arcs : List ℕ) → IsWritable arcs → AllByRecursion (λ arc. arc < 2 ^ 32) arcs → IsName (name_text arcs) arcs }
{}
