//! The lines of a session: what each asks, and why it isn't accepted; and the reader of lines.
#![tactic(auto)]

mod line_reader;
mod lines;
mod places;
mod reading;
mod request;

pub use line_reader::{FirstStop, LineReader, LineStop, Next};
pub use lines::lines_are_cut;
pub use reading::{read_request, word_of};
pub use request::{Request, Untaken};
