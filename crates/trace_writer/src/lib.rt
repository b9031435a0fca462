//! The writer of a trace: it takes lines and bytes, holds at most 32 KiB of them, and writes these to a sink in pieces.
//! If a write fails or memory is refused, a prefix of the bytes is written, and not all of them.
#![tactic(auto)]

mod piece;
mod writer;

pub use piece::put_all;
pub use writer::{Stop, Writer};
