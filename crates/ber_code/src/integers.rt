//! The INTEGER (ITU-T X.690, 8.3), of at most four octets: two's complement in as few octets as the
//! number takes.

ghost use Rattle.std.specs.Prelude.{◌≡◌, ◌+◌, ◌≤◌, ◌↔◌, ◌++◌, length, IsOk, OnOk, OnErr, IfSome, IfNone};
ghost use Rattle.arrayvec.specs.ArrayVec.{array_vec_len};
ghost use Rattle.ber_code.specs.Fields.{Begins, NothingBegins};
ghost use Rattle.ber_code.specs.Integers.{has_idle_octet, twos_complement, IsInteger, unsigned_part, integer_text};
ghost use Rattle.ber_code.specs.Reading.{Gives, ReadsEach, integer_at};

use crate::lengths::tagged_of;
use crate::room::{Full, put, room_of};
use sig_types::Octets;

/// Whether the first nine bits are all equal.
fn has_idle(octets: &[u8]) -> bool
    ensures { result ≡ has_idle_octet octets.now }
{
    match *octets {
        [a, b, ..] => (a == 0 && b < 128) || (a == 255 && b >= 128),
        _ => false,
    }
}

/// The number that 1 to 4 octets write.
fn number_in(octets: &[u8]) -> i32
    requires some { 1 ≤ length octets.now }
    requires few { length octets.now ≤ 4 }
    ensures { result ≡ twos_complement octets.now }
{
    let sign = if octets[0] < 128 { 0 } else { 255 };
    match *octets {
        [a] => i32::from_be_bytes([sign, sign, sign, a]),
        [a, b] => i32::from_be_bytes([sign, sign, a, b]),
        [a, b, c] => i32::from_be_bytes([sign, a, b, c]),
        [a, b, c, d, ..] => i32::from_be_bytes([a, b, c, d]),
        [] => 0,
    }
}

#[tactic(auto, unfolding(crate::specs::Reading::integer_at))]
fn integer_of(bytes: &[u8]) -> Option<(i32, &[u8])>
    ensures { Gives (λ r. (r.0, r.1.now)) result (integer_at bytes.now) }
{
    let (octets, rest) = tagged_of(2, bytes)?;
    if octets.is_empty() || octets.len() > 4 || has_idle(octets) {
        return None;
    }
    Some((number_in(octets), rest))
}

/// Reads the INTEGER at the front.
pub fn read_int(bytes: &[u8]) -> Option<(i32, &[u8])>
    ensures found { IfSome result (λ r. Begins IsInteger bytes.now r.0 r.1.now) }
    ensures none { IfNone result (NothingBegins IsInteger bytes.now) }
    ensures each { ReadsEach IsInteger (λ r. (r.0, r.1.now)) bytes.now result }
    ensures reads { Gives (λ r. (r.0, r.1.now)) result (integer_at bytes.now) }
{
    integer_of(bytes)
}

/// The number from 0 on; below 0, with each bit turned.
fn without_sign(n: i32) -> u32
    ensures { result ≡ unsigned_part n }
{
    if n < 0 { (-(n + 1)) as u32 } else { n as u32 }
}

/// How many octets the shortest text of a number takes.
#[tactic(auto, unfolding(crate::specs::Integers::integer_text, crate::specs::Integers::integer_octets, crate::specs::Lengths::length_text))]
pub fn int_size(n: i32) -> usize
    ensures size { result ≡ length (integer_text n) }
    ensures small { result ≤ 6 }
    // Each number of the type has such a text.
    ensures text { IsInteger (integer_text n) n }
{
    let part = without_sign(n);
    if part < 128 {
        3
    } else if part < 32768 {
        4
    } else if part < 8388608 {
        5
    } else {
        6
    }
}

#[tactic(auto, unfolding(crate::specs::Integers::integer_text, crate::specs::Integers::integer_octets, crate::specs::Lengths::length_text))]
fn put_int(n: i32, out: &mut Octets)
    requires { array_vec_len out.old + length (integer_text n) ≤ 1472 }
    ensures { out.new.items ≡ out.old.items ++ integer_text n }
{
    let [a, b, c, d] = n.to_be_bytes();
    let part = without_sign(n);
    if part < 128 {
        put(&[2, 1, d], out);
    } else if part < 32768 {
        put(&[2, 2, c, d], out);
    } else if part < 8388608 {
        put(&[2, 3, b, c, d], out);
    } else {
        put(&[2, 4, a, b, c, d], out);
    }
}

/// Writes an INTEGER in its shortest form.
pub fn write_int(n: i32, out: &mut Octets) -> Result<(), Full>
    ensures variant { IsOk result ↔ (array_vec_len out.old + length (integer_text n) ≤ 1472) }
    ensures ok { OnOk result (out.new.items ≡ out.old.items ++ integer_text n) }
    ensures full { OnErr result (out.new ≡ out.old) }
{
    if room_of(out) < int_size(n) {
        return Err(Full);
    }
    put_int(n, out);
    Ok(())
}
