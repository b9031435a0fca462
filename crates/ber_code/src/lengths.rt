//! Tags and lengths in the definite form, and what follows them (ITU-T X.690, 8.1.2, 8.1.3 and 8.7). Each other field
//! is a content under its tag.

ghost use Rattle.std.specs.Prelude.{◌≡◌, ℕ, ◌+◌, ◌≤◌, ◌<◌, ◌^◌, ◌↔◌, List, ◌++◌, length, IsOk, OnOk, OnErr, IfSome, IfNone};
ghost use Rattle.arrayvec.specs.ArrayVec.{array_vec_len};
ghost use Rattle.ber_code.specs.Fields.{Begins, NothingBegins, StandsAlone};
ghost use Rattle.ber_code.specs.Lengths.{big_endian, IsLength, IsTagged, IsOctets, length_text, head_text, tagged_text};
ghost use Rattle.ber_code.specs.Reading.{Gives, ReadsEach, length_at, tagged_at, content_at};

use crate::room::{Full, put, room_of};
use sig_types::Octets;

/// Octets in base 256, high first.
pub(crate) fn number_of(octets: &[u8]) -> u32
    requires { length octets.now ≤ 4 }
    ensures { result ≡ big_endian octets.now }
{
    match *octets {
        [] => 0,
        [a] => u32::from(a),
        [a, b] => u32::from(a) * 256 + u32::from(b),
        [a, b, c] => (u32::from(a) * 256 + u32::from(b)) * 256 + u32::from(c),
        [a, b, c, d, ..] => ((u32::from(a) * 256 + u32::from(b)) * 256 + u32::from(c)) * 256
            + u32::from(d),
    }
}

#[tactic(auto, unfolding(crate::specs::Reading::length_at))]
fn length_of(bytes: &[u8]) -> Option<(u32, &[u8])>
    ensures { Gives (λ r. (r.0, r.1.now)) result (length_at bytes.now) }
{
    match bytes {
        [] => None,
        [first, rest @ ..] => {
            if *first < 128 {
                return Some((u32::from(*first), rest));
            }
            if *first == 128 || *first > 132 {
                return None;
            }
            let count = usize::from(*first) - 128;
            if rest.len() < count {
                return None;
            }
            let (number, after) = rest.split_at(count);
            Some((number_of(number), after))
        }
    }
}

#[tactic(auto, unfolding(crate::specs::Reading::content_at))]
fn content_of(bytes: &[u8]) -> Option<(&[u8], &[u8])>
    ensures { Gives (λ r. (r.0.now, r.1.now)) result (content_at bytes.now) }
{
    let (len, rest) = length_of(bytes)?;
    let len = len as usize;
    if rest.len() < len {
        return None;
    }
    Some(rest.split_at(len))
}

#[tactic(auto, unfolding(crate::specs::Reading::tagged_at))]
pub(crate) fn tagged_of(tag: u8, bytes: &[u8]) -> Option<(&[u8], &[u8])>
    ensures { Gives (λ r. (r.0.now, r.1.now)) result (tagged_at tag bytes.now) }
{
    match bytes {
        [] => None,
        [first, rest @ ..] => {
            if *first == tag {
                content_of(rest)
            } else {
                None
            }
        }
    }
}

/// Reads the length at the front, in any of its definite forms. What follows it isn't looked at.
/// Only users of this crate outside this repository call it.
pub fn read_len(bytes: &[u8]) -> Option<(u32, &[u8])>
    ensures found { IfSome result (λ r. Begins IsLength bytes.now r.0 r.1.now) }
    ensures none { IfNone result (NothingBegins IsLength bytes.now) }
    ensures each { ReadsEach IsLength (λ r. (r.0, r.1.now)) bytes.now result }
    ensures reads { Gives (λ r. (r.0, r.1.now)) result (length_at bytes.now) }
{
    length_of(bytes)
}

/// Reads the field with this tag at the front: its content, which ends where its length says.
pub fn read_tagged(tag: u8, bytes: &[u8]) -> Option<(&[u8], &[u8])>
    ensures found { IfSome result (λ r. Begins (IsTagged tag) bytes.now r.0.now r.1.now) }
    ensures none { IfNone result (NothingBegins (IsTagged tag) bytes.now) }
    ensures each { ReadsEach (IsTagged tag) (λ r. (r.0.now, r.1.now)) bytes.now result }
    ensures reads { Gives (λ r. (r.0.now, r.1.now)) result (tagged_at tag bytes.now) }
{
    tagged_of(tag, bytes)
}

/// Reads the OCTET STRING at the front, of any length.
pub fn read_octets(bytes: &[u8]) -> Option<(&[u8], &[u8])>
    ensures found { IfSome result (λ r. Begins IsOctets bytes.now r.0.now r.1.now) }
    ensures none { IfNone result (NothingBegins IsOctets bytes.now) }
    ensures each { ReadsEach IsOctets (λ r. (r.0.now, r.1.now)) bytes.now result }
    ensures reads { Gives (λ r. (r.0.now, r.1.now)) result (tagged_at 4 bytes.now) }
{
    read_tagged(4, bytes)
}

/// How many octets the shortest text of a length takes.
#[tactic(auto, unfolding(crate::specs::Lengths::length_text))]
pub(crate) fn len_size(n: u32) -> usize
    ensures size { result ≡ length (length_text n) }
    ensures small { result ≤ 5 }
{
    if n < 128 {
        1
    } else if n < 256 {
        2
    } else if n < 65536 {
        3
    } else if n < 16777216 {
        4
    } else {
        5
    }
}

#[tactic(auto, unfolding(crate::specs::Lengths::length_text))]
pub(crate) fn put_len(n: u32, out: &mut Octets)
    requires { array_vec_len out.old + length (length_text n) ≤ 1472 }
    ensures { out.new.items ≡ out.old.items ++ length_text n }
{
    let low = (n % 256) as u8;
    let second = (n / 256 % 256) as u8;
    let third = (n / 256 / 256 % 256) as u8;
    if n < 128 {
        put(&[n as u8], out);
    } else if n < 256 {
        put(&[129, n as u8], out);
    } else if n < 65536 {
        put(&[130, (n / 256) as u8, low], out);
    } else if n < 16777216 {
        put(&[131, (n / 256 / 256) as u8, second, low], out);
    } else {
        put(&[132, (n / 256 / 256 / 256) as u8, third, second, low], out);
    }
}

/// Writes a length in its shortest form.
/// Only users of this crate outside this repository call it.
pub fn write_len(n: u32, out: &mut Octets) -> Result<(), Full>
    ensures variant { IsOk result ↔ (array_vec_len out.old + length (length_text n) ≤ 1472) }
    ensures ok { OnOk result (out.new.items ≡ out.old.items ++ length_text n) }
    ensures full { OnErr result (out.new ≡ out.old) }
{
    if room_of(out) < len_size(n) {
        return Err(Full);
    }
    put_len(n, out);
    Ok(())
}

/// How many octets a field takes whose content has this many, with the shortest length.
pub fn tagged_size(content: usize) -> usize
    requires { content < 2 ^ 32 }
    ensures size { result ≡ 1 + length (length_text content) + content }
    ensures small { result ≤ 6 + content }
{
    1 + len_size(content as u32) + content
}

pub(crate) fn put_head(tag: u8, content: usize, out: &mut Octets)
    requires small { content < 2 ^ 32 }
    requires room { array_vec_len out.old + length (head_text tag content) ≤ 1472 }
    ensures { out.new.items ≡ out.old.items ++ head_text tag content }
{
    put(&[tag], out);
    put_len(content as u32, out);
}

/// Writes a tag and the shortest length of the content that is to follow.
pub fn write_head(tag: u8, content: usize, out: &mut Octets) -> Result<(), Full>
    requires { content < 2 ^ 32 }
    ensures variant { IsOk result ↔ (array_vec_len out.old + length (head_text tag content) ≤ 1472) }
    ensures ok { OnOk result (out.new.items ≡ out.old.items ++ head_text tag content) }
    ensures full { OnErr result (out.new ≡ out.old) }
{
    if room_of(out) < 1 + len_size(content as u32) {
        return Err(Full);
    }
    put_head(tag, content, out);
    Ok(())
}

/// Writes an OCTET STRING in its shortest form.
pub fn write_octets(s: &[u8], out: &mut Octets) -> Result<(), Full>
    ensures variant { IsOk result ↔ (array_vec_len out.old + length (tagged_text 4 s.now) ≤ 1472) }
    ensures ok { OnOk result (out.new.items ≡ out.old.items ++ tagged_text 4 s.now) }
    ensures full { OnErr result (out.new ≡ out.old) }
{
    if s.len() > 1472 || room_of(out) < tagged_size(s.len()) {
        return Err(Full);
    }
    put_head(4, s.len(), out);
    put(s, out);
    Ok(())
}
