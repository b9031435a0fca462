//! The next instance of a walk, computed from the indices of the name: row by row of the table of the objects.

ghost use Rattle.std.specs.Prelude.{◌≡◌, ◌+◌, ◌≤◌, ◌++◌, ◌∷◌, [], length, map, IfSome, true};
ghost use Rattle.std.specs.List.{find, flat_map};
ghost use Rattle.arrayvec.specs.ArrayVec.{array_vec_len};
ghost use Rattle.ber_code.specs.Reading.{Gives};
ghost use Rattle.ber_code.specs.Names.{IsWritable};
ghost use Rattle.oid_map.specs.Names.{IsReadableInstance};
ghost use Rattle.oid_map.specs.Objects.{instances, tuples, next_of};
ghost use Rattle.oid_map.specs.Order.{is_before};
ghost use Rattle.oid_map.specs.Steps.{AreRanges, Continues, rest_after, row_of, AreRows};

use crate::names::{ASC, OWN};
use crate::objects::{ASC_OBJECTS, LAST, OWN_OBJECTS, Object, Range};
use ber_code::Oid;

/// The arcs of the name that follow the prefix: none of them where the name comes before all names with this prefix.
/// None where it comes after them.
fn rest_of<'a>(prefix: &[u32], name: &'a [u32]) -> Option<&'a [u32]>
    ensures { Gives (λ r. r.now) result (rest_after prefix.now name.now) }
{
    match prefix {
        [] => Some(name),
        [arc, more @ ..] => match name {
            [] => Some(name),
            [first, later @ ..] => {
                if first < arc {
                    Some(&[])
                } else if arc < first {
                    None
                } else {
                    rest_of(more, later)
                }
            }
        },
    }
}

/// Appends arcs.
fn push_all(arcs: &[u32], out: &mut Oid)
    requires { array_vec_len out.old + length arcs.now ≤ 32 }
    ensures { out.new.items ≡ out.old.items ++ arcs.now }
{
    let _ = out.try_extend_from_slice(arcs);
}

/// Appends the least of each range.
fn push_least(indices: &[Range], out: &mut Oid)
    requires { array_vec_len out.old + length indices.now ≤ 32 }
    ensures { out.new.items ≡ out.old.items ++ map (λ range. range.least) indices.now }
{
    for range in indices {
        out.push(range.least);
    }
}

/// Appends the first indices in these ranges that come after those of the name, if there are any.
fn push_indices(indices: &[Range], name: &[u32], out: &mut Oid) -> bool
    requires room { array_vec_len out.old + length indices.now ≤ 32 }
    requires ranges { AreRanges indices.now }
    ensures { Continues out.old.items out.new.items result (find (is_before name.now) (tuples indices.now)) }
{
    match indices {
        [] => false,
        [range, later @ ..] => match name {
            [] => {
                push_least(indices, out);
                true
            }
            [index, rest @ ..] => {
                if *index < range.least {
                    push_least(indices, out);
                    return true;
                }
                if range.most < *index {
                    return false;
                }
                let length = out.len();
                out.push(*index);
                if push_indices(later, rest, out) {
                    return true;
                }
                out.truncate(length);
                if *index == range.most {
                    return false;
                }
                out.push(*index + 1);
                push_least(later, out);
                true
            }
        },
    }
}

/// Appends the first of these arcs with indices that comes after the name, if there is one.
fn push_row(arcs: &[u32], indices: &[Range], name: &[u32], out: &mut Oid) -> bool
    requires room { array_vec_len out.old + length arcs.now + length indices.now ≤ 32 }
    requires some { 1 ≤ length indices.now }
    requires ranges { AreRanges indices.now }
    ensures { Continues out.old.items out.new.items result (find (is_before name.now) (map (λ t. arcs.now ++ t) (tuples indices.now))) }
{
    let rest = match rest_of(arcs, name) {
        Some(rest) => rest,
        None => return false,
    };
    let length = out.len();
    push_all(arcs, out);
    if push_indices(indices, rest, out) {
        return true;
    }
    out.truncate(length);
    false
}

/// Appends the first instance of the object that comes after the name, if there is one.
fn push_instance(object: &Object, name: &[u32], out: &mut Oid) -> bool
    requires room { array_vec_len out.old ≤ 10 }
    requires ranges { AreRanges (row_of object.now).indices }
    ensures { Continues out.old.items out.new.items result (find (is_before name.now) (instances (row_of object.now))) }
{
    match object {
        Object::Scalar(group, number) => {
            let number = Range {
                least: *number,
                most: *number,
            };
            push_row(&[*group], &[number, LAST], name, out)
        }
        Object::Scalars(group, numbers) => push_row(&[*group], &[*numbers, LAST], name, out),
        Object::Column(entry, rows) => push_row(entry, &[*rows], name, out),
        Object::OneIndex(entry, columns, rows) => push_row(entry, &[*columns, *rows], name, out),
        Object::TwoIndices(entry, columns, rows, subs) => {
            push_row(entry, &[*columns, *rows, *subs], name, out)
        }
    }
}

/// The first instance of these objects under a root that comes after the name.
fn next_under(root: &[u32], objects: &[Object], name: &[u32]) -> Option<Oid>
    requires short { length root.now ≤ 10 }
    requires ranges { AreRows objects.now }
    ensures { Gives (λ o. o.items) result (find (is_before name.now) (map (λ t. root.now ++ t) (flat_map instances (map row_of objects.now)))) }
{
    let rest = match rest_of(root, name) {
        Some(rest) => rest,
        None => return None,
    };
    let mut out = Oid::new();
    push_all(root, &mut out);
    for object in objects {
        if push_instance(object, rest, &mut out) {
            return Some(out);
        }
    }
    None
}

/// The next instance after arcs: under asc, or else under own.
fn next_after(name: &[u32]) -> Option<Oid>
    ensures { Gives (λ o. o.items) result (next_of name.now) }
{
    match next_under(&ASC, &ASC_OBJECTS, name) {
        Some(found) => Some(found),
        None => next_under(&OWN, &OWN_OBJECTS, name),
    }
}

/// The next instance: the least of those that can be read and come after the name. None where there is none.
pub fn next(name: &Oid) -> Option<Oid>
    ensures next { Gives (λ o. o.items) result (next_of name.now.items) }
    ensures after { IfSome result (λ o. is_before name.now.items o.items ≡ true) }
    ensures known { IfSome result (λ o. IsReadableInstance o.items) }
    ensures writable { IfSome result (λ o. IsWritable o.items) }
{
    next_after(name.as_slice())
}
