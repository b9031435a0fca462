//! A round of all cabinets: their books begin it with the items that reach each of them, all of these are brought, and
//! the replies go back to the master. The state of a book, and the lines that are written of it, are those of a run.
//! The closed loop of a run: the master, and the books of all cabinets. It is opened from a scenario, and each round is
//! begun and ended here; in between, callers bring what reaches the cabinets, in any order. Nothing is read or written.
#![tactic(auto)]

mod books;
mod joined;
mod replying;
mod rounds;
mod run_laws;
mod serial;
mod starting;

pub use joined::joined_round;
pub use replying::answers;
pub use rounds::ClosedLoop;
pub use run_laws::{books_follow_acts, books_follow_runs};
pub use serial::{bring_beginning, serial_round};
pub use starting::open_rounds;
