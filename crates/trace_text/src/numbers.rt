//! Reading the numbers of a line: decimal, without leading zeros, and within their type.

ghost use Rattle.std.specs.Prelude.{◌≡◌, ◌≤◌, ◌<◌, ◌^◌, ◌∷◌, ◌↔◌, IsTrue, length, slice_index, decimal};
ghost use Rattle.std.specs.Fmt.{signed_decimal};
ghost use Rattle.std.specs.Int.{w32};
ghost use Rattle.std.specs.Int.RustNames.{FitsSigned};
ghost use Rattle.trace_text.specs.Reads.{Reads};

/// The number of at most `max` that the word is.
pub fn number(word: &[u8], max: u32) -> Option<u32>
    ensures { Reads (λ n. n ≤ max) decimal word.now result }
{
    if !begins_as_number(word) {
        return None;
    }
    let mut n: u64 = 0;
    for digit in word {
        if !digit.is_ascii_digit() {
            return None;
        }
        n = n * 10 + u64::from(*digit - b'0');
        if n > u64::from(max) {
            return None;
        }
    }
    Some(n as u32)
}

/// Whether there is a first digit, and no zero before others.
fn begins_as_number(word: &[u8]) -> bool
    ensures { IsTrue result ↔ ((0 < length word.now) × (slice_index word.now 0 ≡ 48 → length word.now ≡ 1)) }
{
    match word {
        [] => false,
        [_] => true,
        [first, ..] => *first != b'0',
    }
}

/// The number of 32 bits that the word is.
pub fn word32(word: &[u8]) -> Option<u32>
    ensures { Reads (λ n. n < 2 ^ 32) decimal word.now result }
{
    number(word, u32::MAX)
}

/// The number of 16 bits that the word is.
pub fn word16(word: &[u8]) -> Option<u16>
    ensures { Reads (λ n. n < 2 ^ 16) decimal word.now result }
{
    match number(word, 65535) {
        Some(n) => Some(n as u16),
        None => None,
    }
}

/// The number of 8 bits that the word is.
pub fn byte(word: &[u8]) -> Option<u8>
    ensures { Reads (λ n. n < 2 ^ 8) decimal word.now result }
{
    match number(word, 255) {
        Some(n) => Some(n as u8),
        None => None,
    }
}

/// The number that the word is, with `-` before one below 0.
pub fn signed(word: &[u8]) -> Option<i32>
    ensures { Reads (FitsSigned w32) signed_decimal word.now result }
{
    match word {
        [b'-', digits @ ..] => below_zero(digits),
        _ => match number(word, 2147483647) {
            Some(n) => Some(n as i32),
            None => None,
        },
    }
}

/// The number below 0 whose digits are these.
fn below_zero(digits: &[u8]) -> Option<i32>
    ensures { Reads (FitsSigned w32) signed_decimal (45 ∷ digits.now) result }
{
    match number(digits, 2147483648) {
        Some(n) if n > 0 => Some((-i64::from(n)) as i32),
        Some(_) => None,
        None => None,
    }
}
