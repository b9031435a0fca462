//! The lines of a run in their order, given to a `Teller`.  A run has the same lines whether its trace is written,
//! compared with a text, answered to a session or counted. So their order is written here once: each function gives the
//! lines of a part of a run to a `Teller`, one after another, and stops at its first error. What a teller does with a
//! line is its own matter: a pen writes it, an expecter compares a text with it, an appender adds it to an answer, a
//! tally counts it.
#![tactic(auto)]

mod lines;
mod rounds;
mod teller;

pub use lines::{
    tell_book, tell_frame, tell_frames, tell_notes, tell_replies, tell_reply, tell_told,
};
pub use rounds::{tell_books, tell_openings, tell_round};
pub use teller::Teller;
