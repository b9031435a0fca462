//! What is seen of a cabinet while a trace is checked.

use sig_tables::Tables;
use sig_types::Frame;

/// What was seen of a cabinet: its frames that have a line, with the numbers of their ticks of 0.1 s; the tables of
/// each version, those that it opened with first; and how many ticks it had. If a trace doesn't have the cabinet, it
/// has no tables.
#[derive(Drop)]
pub struct Seen {
    pub frames: Vec<(u32, Frame)>,
    pub tables: Vec<Tables>,
    pub ticks: u32,
}
