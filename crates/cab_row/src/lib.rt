//! Cabinets shared by threads: books that several passes change in turn, without a lock and without a call that waits;
//! and a round by several workers, each in its own thread. A word guards each book; it is odd while a pass has the
//! book, and otherwise it is twice the number of items applied so far. A pass that finds another one at a cabinet
//! continues elsewhere.
#![tactic(auto)]

mod act;
mod by_workers;
mod close;
mod finish;
mod hands;
mod logged;
mod moves;
mod open;
mod pass;
mod plays;
mod row;
mod view;
mod worker;

pub use act::{Act, Brought};
pub use by_workers::{joined, worked};
pub use logged::Logged;
pub use pass::Pass;
pub use row::Row;
