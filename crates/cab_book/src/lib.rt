//! The book of a cabinet: its controller (or an observer, who looks back), its download stage and the community of
//! those who may ask it; its inputs and messages, its answers and its displays; and the state of a round, pass by pass.
//! Only a new book, the start of a round and an item that follows its stream take memory.
#![tactic(auto)]

mod book;
mod cabinet;
mod carrying;
mod control;
mod frames;
mod happened;
mod journal;
mod logged;
mod sharing;

pub use book::Book;
pub use cabinet::{Cabinet, Received};
pub use control::{Control, Engine};
pub use happened::Answered;
pub use journal::Journal;
