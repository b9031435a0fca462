//! The room of a frame. A call that writes asks for the room first and then puts its octets, so that
//! a refusal has changed nothing.

ghost use Rattle.std.specs.Prelude.{◌≡◌, ◌+◌, ◌-◌, ◌≤◌, ◌++◌, length};
ghost use Rattle.arrayvec.specs.ArrayVec.{array_vec_len};

use sig_types::Octets;

/// The text is longer than the room that the frame has left.
#[derive(Clone, Copy, PartialEq, Eq)]
pub struct Full;

/// How many octets the frame still takes.
pub(crate) fn room_of(out: &Octets) -> usize
    ensures { result + array_vec_len out.now ≡ 1472 }
{
    1472 - out.len()
}

/// Puts octets at the end.
pub(crate) fn put(octets: &[u8], out: &mut Octets)
    requires { array_vec_len out.old + length octets.now ≤ 1472 }
    ensures { out.new.items ≡ out.old.items ++ octets.now }
{
    let _ = out.try_extend_from_slice(octets);
}
