//! A book as cabinets shared by threads ask for it: its journal, what each pass has left, and what it replays.

ghost use Rattle.cab_book.specs.Books.{journal_of, left_of, Replays};
ghost use Rattle.cab_book.specs.Replaying.{replays_itself};

use crate::book::Book;
use cab_row::Logged;
use sig_types::Stream;

impl Logged for Book {
    ghost journal = { journal_of };

    ghost left_of = { left_of };

    ghost replays = { Replays };

    fn left(&self, pass: u32) -> u32 {
        self.left(pass)
    }

    fn apply(&mut self, pass: u32) {
        self.apply(pass)
    }

    fn apply_some(&mut self, pass: u32, most: u32) -> u32 {
        match Stream::of_pass(pass) {
            Stream::Ticks => self.stride(pass, most),
            Stream::Inputs | Stream::Messages(_) => {
                self.apply(pass);
                1
            }
        }
    }

    ghost fresh = { replays_itself };
}
