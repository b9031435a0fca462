//! The lines of a trace: what each kind holds, its one text, and how a text is read back.
//! A trace is kept, compared and checked by its text, so a line has exactly one.
#![tactic(auto)]

mod frame_reading;
mod front;
mod kinds;
mod lines;
mod numbers;
mod pieces;
mod read;
mod signs;
mod spaced;
mod words;
mod write;

pub use lines::{Line, Runs, Text, same_octets};
pub use read::read_line;
pub use spaced::{digits, hexadecimal, number, word};
pub use write::write_line;
