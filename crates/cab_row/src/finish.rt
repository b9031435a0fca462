//! What the workers left is done here in one thread: at each book all of pass 0, then all of pass 1, and so on.
ghost use Rattle.std.specs.Prelude.{◌≡◌, All, vec_capacity};
ghost use Rattle.std.specs.List.{AllZip};
ghost use Rattle.cab_row.specs.Whole.{HasAppliedMore, IsDone};

use crate::Logged;

// Applies what is left of the passes below a number.
fn finish_book<B: Logged>(book: &mut B, passes: u32)
    ensures follows { HasAppliedMore B.journal B.left_of B.replays book.old book.new }
    ensures done { IsDone B.left_of passes book.new }
{
    for pass in 0..passes {
        while book.left(pass) > 0 {
            book.apply(pass);
        }
    }
}

/// Applies what is left of these passes at each book.
pub(crate) fn finish_left<B: Logged>(books: &mut Vec<B>, passes: u32)
    ensures follows { AllZip (HasAppliedMore B.journal B.left_of B.replays) books.old.items books.new.items }
    ensures done { All (IsDone B.left_of passes) books.new.items }
    ensures room { vec_capacity books.new ≡ vec_capacity books.old }
{
    for c in 0..books.len() {
        finish_book(&mut books[c], passes);
    }
}
