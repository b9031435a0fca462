//! Whether an input looks plain, decided from its bytes before its tokens are read. This only chooses how it is read.

/// The bytes after blanks.
fn behind_blanks(mut text: &[u8]) -> &[u8] {
    'blanks: while let [b' ' | b'\n' | b'\r' | b'\t', rest @ ..] = text {
        text = rest;
    }
    text
}

/// The bytes after digits, of which at most 19 are passed: each number of that many has 64 bits.
fn behind_digits(mut text: &[u8]) -> &[u8] {
    for _ in 0..19 {
        match text {
            [b'0'..=b'9', rest @ ..] => text = rest,
            _ => return text,
        }
    }
    text
}

/// Whether a flag is at the name of an input that is next, and the bytes after the name.
fn behind_name(text: &[u8]) -> Option<(bool, &[u8])> {
    match text {
        [b'r', b'o', b'u', b'n', b'd', b'"', rest @ ..] => Some((false, rest)),
        [b'c', b'a', b'b', b'i', b'n', b'e', b't', b'"', rest @ ..] => Some((false, rest)),
        [b'v', b'e', b'h', b'"', rest @ ..] => Some((false, rest)),
        [b'o', b'n', b'"', rest @ ..] => Some((true, rest)),
        [b'p', b'e', b'd', b'"', rest @ ..] => Some((false, rest)),
        [b'p', b'r', b'e', b'e', b'm', b'p', b't', b'"', rest @ ..] => Some((false, rest)),
        _ => None,
    }
}

/// The bytes after true or false.
fn behind_flag(text: &[u8]) -> Option<&[u8]> {
    match text {
        [b't', b'r', b'u', b'e', rest @ ..] => Some(rest),
        [b'f', b'a', b'l', b's', b'e', rest @ ..] => Some(rest),
        _ => None,
    }
}

/// The bytes after a member and the blanks that follow it.
fn behind_member(text: &[u8]) -> Option<&[u8]> {
    let [b'"', name @ ..] = text else {
        return None;
    };
    let (flag, colon) = behind_name(name)?;
    let [b':', value @ ..] = behind_blanks(colon) else {
        return None;
    };
    let value = behind_blanks(value);
    let rest = if flag {
        behind_flag(value)?
    } else {
        behind_digits(value)
    };
    Some(behind_blanks(rest))
}

/// Whether up to four members follow, and a brace: each at the name of an input, with digits or a flag.
fn members_look_plain(mut text: &[u8]) -> bool {
    for _ in 0..4 {
        match behind_member(text) {
            Some([b',', rest @ ..]) => text = behind_blanks(rest),
            Some([b'}', ..]) => return true,
            _ => return false,
        }
    }
    false
}

/// Whether the object at this place of a file looks like a plain input.
pub(crate) fn looks_plain(file: &[u8], place: usize) -> bool {
    match file.get(place..) {
        Some([b'{', rest @ ..]) => members_look_plain(behind_blanks(rest)),
        _ => false,
    }
}
