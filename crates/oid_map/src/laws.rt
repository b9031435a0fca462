//! What holds of the table of the objects, the names and the order as a whole. The functions have nothing to do.

ghost use Rattle.std.specs.Prelude.{◌≡◌, ℕ, [], List, length, IfSome, IfNone, true, false};
ghost use Rattle.std.specs.List.{AllByRecursion};
ghost use Rattle.oid_map.specs.Objects.{readable, write_only, next_of, IsWalk};
ghost use Rattle.oid_map.specs.Order.{is_before, IsRising, IsAmong};
ghost use Rattle.oid_map.specs.Names.{IsName, IsReadable, IsReadableInstance, IsWriteOnlyInstance, arcs_of};

use crate::names::Name;

/// The instances that can be read are in the strict order of their names, each is the name of one, and each one's name
/// is among them.
pub fn readable_instances()
    ensures rising { IsRising readable }
    ensures named { AllByRecursion IsReadableInstance readable }
    ensures each { (n : Name) → IsName n → IsReadable n → IsAmong (arcs_of n) readable }
{}

/// The other instances of the table are those that can only be written, and each one's name is among them.
pub fn write_only_instances()
    ensures named { AllByRecursion IsWriteOnlyInstance write_only }
    ensures each { (n : Name) → IsName n → (IsReadable n → ⊥) → IsAmong (arcs_of n) write_only }
{}

/// No two instances have one name.
pub fn names_differ()
    ensures { (n m : Name) → IsName n → IsName m → arcs_of n ≡ arcs_of m → n ≡ m }
{}

/// The next instance can be read and follows the name, and no readable one is between them. If there isn't a next
/// instance, no readable one follows the name.
pub fn next_is_least()
    ensures among { (name : List ℕ) → IfSome (next_of name) (λ n. IsAmong n readable) }
    ensures after { (name : List ℕ) → IfSome (next_of name) (λ n. is_before name n ≡ true) }
    ensures least { (name : List ℕ) → IfSome (next_of name) (λ n. (other : List ℕ) → IsAmong other readable → is_before name other ≡ true → is_before other n ≡ false) }
    ensures none { (name : List ℕ) → IfNone (next_of name) ((other : List ℕ) → IsAmong other readable → is_before name other ≡ false) }
{}

/// A walk from the empty name meets each instance that can be read, once and in the order of the table, and ends.
pub fn walk_meets_each()
    ensures walk { IsWalk [] readable }
    ensures count { length readable ≡ 3417 }
{}
