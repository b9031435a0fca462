//! The OBJECT IDENTIFIER (ITU-T X.690, 8.19), a name of 2 to 32 arcs whose first two are in one octet below 128.

ghost use Rattle.std.specs.Prelude.{◌≡◌, ◌+◌, ◌*◌, ◌≤◌, ◌<◌, ◌↔◌, ◌∷◌, [], ◌++◌, length, IsOk, OnOk, OnErr, IfSome, IfNone, Some};
ghost use Rattle.std.specs.List.{flat_map};
ghost use Rattle.arrayvec.specs.ArrayVec.{array_vec_len};
ghost use Rattle.ber_code.specs.Fields.{Begins, NothingBegins};
ghost use Rattle.ber_code.specs.Names.{AreNameContents, IsName, IsWritable, arc_text, name_octets, name_text};
ghost use Rattle.ber_code.specs.Reading.{Gives, ReadsEach, all_at, arc_at, arcs_of, name_at, root_of, with_front, with_later};

use crate::lengths::{put_head, tagged_of, tagged_size};
use crate::room::{Full, put, room_of};
use arrayvec::ArrayVec;
use sig_types::Octets;

/// A name: its arcs, at most 32.
pub type Oid = ArrayVec<u32, 32>;

/// Reads an arc of several octets.
#[tactic(auto, unfolding(crate::specs::Reading::arc_at, crate::specs::Reading::arc_from))]
fn long_arc_of(bytes: &[u8]) -> Option<(u32, &[u8])>
    ensures { Gives (λ r. (r.0, r.1.now)) result (arc_at bytes.now) }
{
    if let [128, ..] = bytes {
        return None;
    }
    let mut arc: u32 = 0;
    let mut rest = bytes;
    while let [octet, after @ ..] = rest {
        if arc >= 33554432 {
            return None;
        }
        arc = arc * 128 + u32::from(*octet % 128);
        if *octet < 128 {
            return Some((arc, after));
        }
        rest = after;
    }
    None
}

/// Reads an arc; most are one octet.
#[tactic(auto, unfolding(crate::specs::Reading::arc_at, crate::specs::Reading::arc_from))]
fn arc_of(bytes: &[u8]) -> Option<(u32, &[u8])>
    ensures { Gives (λ r. (r.0, r.1.now)) result (arc_at bytes.now) }
{
    match bytes {
        [octet, after @ ..] if *octet < 128 => Some((u32::from(*octet), after)),
        _ => long_arc_of(bytes),
    }
}

/// The first arc that an octet below 128 holds.
fn root_in(first: u8) -> u8
    ensures { result ≡ root_of first }
{
    if first < 40 {
        0
    } else if first < 80 {
        1
    } else {
        2
    }
}

#[tactic(auto, unfolding(crate::specs::Reading::arcs_of))]
fn arcs_into(octets: &[u8], name: &mut Oid) -> Option<()>
    ensures { Gives (λ _. name.new.items) result (arcs_of octets.now) }
{
    match octets {
        [] => None,
        [first, more @ ..] => {
            if *first >= 128 {
                return None;
            }
            let root = root_in(*first);
            later_into(u32::from(root), u32::from(*first - 40 * root), more, name)
        }
    }
}

/// Puts arcs after those of a name.
fn push_all(arcs: &[u32], name: &mut Oid)
    requires { array_vec_len name.old + length arcs.now ≤ 32 }
    ensures { name.new.items ≡ name.old.items ++ arcs.now }
{
    let _ = name.try_extend_from_slice(arcs);
}

/// Reads at most that many arcs after those of a name, up to the end of the octets: four at once where each is one
/// octet.
fn rest_into(most: u8, octets: &[u8], name: &mut Oid) -> Option<()>
    requires { array_vec_len name.old + most ≤ 32 }
    ensures { Gives (λ _. name.new.items) result (with_front name.old.items (all_at arc_at most octets.now)) }
{
    if octets.is_empty() {
        return Some(());
    }
    match octets {
        [a, b, c, d, after @ ..] if most >= 4 && *a < 128 && *b < 128 && *c < 128 && *d < 128 => {
            push_all(
                &[u32::from(*a), u32::from(*b), u32::from(*c), u32::from(*d)],
                name,
            );
            rest_into(most - 4, after, name)
        }
        _ => {
            if most == 0 {
                return None;
            }
            let (arc, after) = arc_of(octets)?;
            name.push(arc);
            rest_into(most - 1, after, name)
        }
    }
}

/// Reads the name of two arcs and the arcs of the octets.
fn later_into(first: u32, second: u32, octets: &[u8], name: &mut Oid) -> Option<()>
    ensures { Gives (λ _. name.new.items) result (with_later first second octets.now) }
{
    name.clear();
    name.push(first);
    name.push(second);
    rest_into(30, octets, name)
}

#[tactic(auto, unfolding(crate::specs::Reading::name_at))]
fn oid_into<'a>(bytes: &'a [u8], name: &mut Oid) -> Option<&'a [u8]>
    ensures { Gives (λ rest. (name.new.items, rest.now)) result (name_at bytes.now) }
{
    let (octets, rest) = tagged_of(6, bytes)?;
    arcs_into(octets, name)?;
    Some(rest)
}

/// Reads the OBJECT IDENTIFIER at the front into `name`, in place of what that held, and returns
/// what follows. Where there is none, `name` is left empty.
pub fn read_oid_into<'a>(bytes: &'a [u8], name: &mut Oid) -> Option<&'a [u8]>
    ensures found { IfSome result (λ rest. Begins IsName bytes.now name.new.items rest.now) }
    ensures none { IfNone result (NothingBegins IsName bytes.now) }
    ensures empty { IfNone result (name.new.items ≡ []) }
    ensures each { ReadsEach IsName (λ rest. (name.new.items, rest.now)) bytes.now result }
    ensures reads { Gives (λ rest. (name.new.items, rest.now)) result (name_at bytes.now) }
    // What is read can be written.
    ensures writable { IfSome result (λ _. IsWritable name.new.items) }
{
    match oid_into(bytes, name) {
        Some(rest) => Some(rest),
        None => {
            name.clear();
            None
        }
    }
}

/// Reads the OBJECT IDENTIFIER at the front.
/// Only users of this crate outside this repository call it.
pub fn read_oid(bytes: &[u8]) -> Option<(Oid, &[u8])>
    ensures found { IfSome result (λ r. Begins IsName bytes.now r.0.items r.1.now) }
    ensures none { IfNone result (NothingBegins IsName bytes.now) }
    ensures each { ReadsEach IsName (λ r. (r.0.items, r.1.now)) bytes.now result }
    ensures reads { Gives (λ r. (r.0.items, r.1.now)) result (name_at bytes.now) }
    // What is read can be written.
    ensures writable { IfSome result (λ r. IsWritable r.0.items) }
{
    let mut name = Oid::new();
    let rest = read_oid_into(bytes, &mut name)?;
    Some((name, rest))
}

#[tactic(auto, unfolding(crate::specs::Names::arc_text))]
fn arc_size(arc: u32) -> usize
    ensures size { result ≡ length (arc_text arc) }
    ensures small { result ≤ 5 }
{
    if arc < 128 {
        1
    } else if arc / 128 < 128 {
        2
    } else if arc / 128 / 128 < 128 {
        3
    } else if arc / 128 / 128 / 128 < 128 {
        4
    } else {
        5
    }
}

#[tactic(auto, unfolding(crate::specs::Names::arc_text))]
fn put_arc(arc: u32, out: &mut Octets)
    requires { array_vec_len out.old + length (arc_text arc) ≤ 1472 }
    ensures { out.new.items ≡ out.old.items ++ arc_text arc }
{
    let last = (arc % 128) as u8;
    let fourth = 128 + (arc / 128 % 128) as u8;
    let third = 128 + (arc / 128 / 128 % 128) as u8;
    let second = 128 + (arc / 128 / 128 / 128 % 128) as u8;
    if arc < 128 {
        out.push(arc as u8);
    } else if arc / 128 < 128 {
        put(&[128 + (arc / 128) as u8, last], out);
    } else if arc / 128 / 128 < 128 {
        put(&[128 + (arc / 128 / 128) as u8, fourth, last], out);
    } else if arc / 128 / 128 / 128 < 128 {
        put(
            &[128 + (arc / 128 / 128 / 128) as u8, third, fourth, last],
            out,
        );
    } else {
        put(
            &[
                128 + (arc / 128 / 128 / 128 / 128) as u8,
                second,
                third,
                fourth,
                last,
            ],
            out,
        );
    }
}

/// How many octets arcs take, four at once where each takes one.
fn arcs_size(arcs: &[u32]) -> usize
    requires { length arcs.now ≤ 30 }
    ensures size { result ≡ length (flat_map arc_text arcs.now) }
    ensures small { result ≤ 5 * length arcs.now }
{
    match arcs {
        [] => 0,
        [a, b, c, d, later @ ..] if *a < 128 && *b < 128 && *c < 128 && *d < 128 => 4
            + arcs_size(later),
        [arc, later @ ..] => arc_size(*arc) + arcs_size(later),
    }
}

/// Puts arcs, four at once where each is one octet.
fn put_arcs(arcs: &[u32], out: &mut Octets)
    requires { array_vec_len out.old + length (flat_map arc_text arcs.now) ≤ 1472 }
    ensures { out.new.items ≡ out.old.items ++ flat_map arc_text arcs.now }
{
    match arcs {
        [] => {}
        [a, b, c, d, later @ ..] if *a < 128 && *b < 128 && *c < 128 && *d < 128 => {
            put(&[*a as u8, *b as u8, *c as u8, *d as u8], out);
            put_arcs(later, out);
        }
        [arc, later @ ..] => {
            put_arc(*arc, out);
            put_arcs(later, out);
        }
    }
}

/// How many octets the contents of a name take.
fn contents_size(arcs: &[u32]) -> usize
    requires { IsWritable arcs.now }
    ensures size { result ≡ length (name_octets arcs.now) }
    ensures small { result ≤ 151 }
    ensures contents { AreNameContents (name_octets arcs.now) arcs.now }
{
    1 + arcs_size(&arcs[2..])
}

/// How many octets the shortest text of a name takes.
#[tactic(auto, unfolding(crate::specs::Names::name_text))]
pub fn oid_size(o: &Oid) -> usize
    requires { IsWritable o.now.items }
    ensures size { result ≡ length (name_text o.now.items) }
    ensures small { result ≤ 157 }
    // Each name that can be written has such a text.
    ensures text { IsName (name_text o.now.items) o.now.items }
{
    tagged_size(contents_size(o.as_slice()))
}

/// The number of octets of the contents of a name, which follow its tag and length.
pub fn oid_contents_size(o: &Oid) -> usize
    requires { IsWritable o.now.items }
    ensures size { result ≡ length (name_octets o.now.items) }
    ensures small { result ≤ 151 }
{
    contents_size(o.as_slice())
}

/// Writes an OBJECT IDENTIFIER in its shortest form, whose contents take this number of octets.
#[tactic(auto, unfolding(crate::specs::Names::name_text))]
pub fn write_oid_sized(o: &Oid, contents: usize, out: &mut Octets) -> Result<(), Full>
    requires writable { IsWritable o.now.items }
    requires contents { contents ≡ length (name_octets o.now.items) }
    requires small { contents ≤ 151 }
    ensures variant { IsOk result ↔ (array_vec_len out.old + length (name_text o.now.items) ≤ 1472) }
    ensures ok { OnOk result (out.new.items ≡ out.old.items ++ name_text o.now.items) }
    ensures full { OnErr result (out.new ≡ out.old) }
{
    let arcs = o.as_slice();
    if room_of(out) < tagged_size(contents) {
        return Err(Full);
    }
    put_head(6, contents, out);
    put(&[(40 * arcs[0] + arcs[1]) as u8], out);
    put_arcs(&arcs[2..], out);
    Ok(())
}

/// Writes an OBJECT IDENTIFIER in its shortest form.
pub fn write_oid(o: &Oid, out: &mut Octets) -> Result<(), Full>
    requires { IsWritable o.now.items }
    ensures variant { IsOk result ↔ (array_vec_len out.old + length (name_text o.now.items) ≤ 1472) }
    ensures ok { OnOk result (out.new.items ≡ out.old.items ++ name_text o.now.items) }
    ensures full { OnErr result (out.new ≡ out.old) }
{
    write_oid_sized(o, oid_contents_size(o), out)
}
