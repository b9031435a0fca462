//! Books move back into a list, in their order and without memory; and what they have left when a row opens.
ghost use Rattle.std.specs.Prelude.{◌≡◌, ◌≤◌, [], map, vec_len, vec_capacity, IfOk};
ghost use Rattle.cab_row.specs.Moves.{items_row};

use crate::logged::Logged;
use std::alloc::{AllocError, Global};

// Moves the books into an empty list that has room for them.
pub(crate) fn put_back<B>(mut books: Vec<B>, room: &mut Vec<B>)
    requires { (room.old.items ≡ []) × (vec_len books ≤ vec_capacity room.old) }
    ensures books { room.new.items ≡ books.items }
    ensures room { vec_capacity room.new ≡ vec_capacity room.old }
{
    while let Some(book) = books.pop() {
        room.push_reserved(book);
    }
    books.destroy_empty();
    room.reverse();
}

// How many items each of eight passes has at each book.
pub(crate) fn items_of<B: Logged>(alloc: Global, books: &[B]) -> Result<Vec<[u32; 8]>, AllocError>
    ensures { IfOk result (λ v. v.items ≡ map (items_row B.left_of) books.now) }
{
    let mut items = Vec::with_capacity(alloc, books.len())?;
    for book in books {
        items.push_reserved(row_of(book));
    }
    Ok(items)
}

fn row_of<B: Logged>(book: &B) -> [u32; 8]
    ensures { result ≡ items_row B.left_of book.now }
{
    [
        book.left(0),
        book.left(1),
        book.left(2),
        book.left(3),
        book.left(4),
        book.left(5),
        book.left(6),
        book.left(7),
    ]
}
