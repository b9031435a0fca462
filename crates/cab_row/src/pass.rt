//! A pass: the right to bring one stream of items to each cabinet of a row. It can be handed to any thread, and is neither made nor
//! copied but by the row.
ghost use Rattle.std.specs.Prelude.{◌≡◌};

use crate::view::View;
use atomic_table::Badge;

/// A pass of a row.
#[derive(Drop)]
pub struct Pass {
    pub(crate) badge: Badge<View>,
    pub(crate) number: u32,
    // How many of its items were applied at each cabinet.
    pub(crate) done: [u32; 64],
}

impl Pass {
    /// The pass's number, which is its place in the list that the row was opened with, counted from 0.
    pub fn number(&self) -> u32
        ensures { result ≡ self.now.number }
    {
        self.number
    }
}
