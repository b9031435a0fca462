//! A row: the books of up to 64 cabinets in a table that any thread may step on, and the list that they came in.
ghost use Rattle.std.specs.Prelude.{◌≡◌, ◌≤◌, length, vec_len, vec_capacity};

use crate::logged::Logged;
use crate::plays::{Opening, RowRule};
use crate::view::View;
use atomic_table::Table;
use std::alloc::Global;

/// Books that passes change in turn. It may be shared by threads where its books may.
pub struct Row<B: Logged> {
    pub(crate) table: Table<B, View, Opening<B>, RowRule, Global>,
    // Room for the books as they leave, as much as the list had that they came in.
    pub(crate) room: Vec<B>,
    // How many items each pass had at each cabinet.
    pub(crate) items: Vec<[u32; 8]>,
    pub(crate) passes: u32,
    ghost sized: { (table.shared.table_id.words ≡ length table.shared.key.books.value.items) × (table.shared.table_id.slots ≡ length table.shared.key.books.value.items) × (table.shared.key.passes ≡ passes) },
    ghost roomy: { (vec_len room ≡ 0) × (length table.shared.key.books.value.items ≤ vec_capacity room) },
    ghost some: { (1 ≤ passes) × (1 ≤ length table.shared.key.books.value.items) },
    ghost few: { (length table.shared.key.books.value.items ≤ 64) × (vec_len items ≡ length table.shared.key.books.value.items) },
}

impl<B: Logged> Row<B> {
    ghost use Rattle.cab_row.specs.Passes.{books_of};

    /// The number of cabinets, 1 to 64.
    pub fn cabinets(&self) -> u32
        ensures { result ≡ length (books_of self.now) }
    {
        self.items.len() as u32
    }
}
