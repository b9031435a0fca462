//! A row closes: all its passes are gathered, and the books go into a list as roomy as the one that they came in. It takes no memory.
ghost use Rattle.std.specs.Prelude.{◌≡◌, ℕ, ◌+◌, ◌≤◌, [], length, map, None, All, vec_len, vec_capacity};
ghost use mathlib.Core.Option.{some};
ghost use lib.ListN.{get_elem?};
ghost use Rattle.std.specs.Slots.{slots_items, slots_len, IsFull};
ghost use Rattle.cab_row.specs.Passes.{books_of, room_of, IsPassOf, Sums, IsMerged};

use crate::logged::Logged;
use crate::pass::Pass;
use crate::plays::Gather;
use crate::row::Row;
use crate::view::View;
use atomic_table::{Closed, Seat};
use std::alloc::Global;

// One seat with the counts of all passes.
fn gather<B: Logged>(row: &Row<B>, mut passes: Vec<Pass>) -> Seat<B, View>
    requires passes { All (λ x. IsPassOf B.row.coded.code B.left_of row.now x) passes.items × (vec_len passes ≡ row.now.passes) }
    ensures seat { (result.table_id ≡ row.now.table.shared.table_id) × (result.me.1 ≡ []) }
    ensures view { (result.me.0.holds ≡ None) × (length result.me.0.numbers ≡ row.now.passes) × Sums passes.items result.me.0 }
{
    let Some(last) = passes.pop() else {
        unreachable!()
    };
    let Pass {
        badge,
        number: _,
        done: _,
    } = last;
    let mut seat = badge.into_seat();
    while let Some(pass) = passes.pop() {
        let Pass {
            badge,
            number: _,
            done: _,
        } = pass;
        row.table
            .shared
            .join_seat::<Gather>(&mut seat, badge.into_seat());
    }
    seat
}

// The books of a closed table, in their order.
fn taken<B>(mut closed: Closed<B, Global>, mut room: Vec<B>) -> Vec<B>
    requires full { IsFull closed.slots × (length (slots_items closed.slots) ≡ slots_len closed.slots) }
    requires room { (vec_len room ≡ 0) × (slots_len closed.slots ≤ vec_capacity room) }
    ensures books { result.items ≡ slots_items closed.slots }
    ensures room { vec_capacity result ≡ vec_capacity room }
{
    let count = closed.slot_count();
    for c in 0..count {
        room.push_reserved(closed.take(c));
    }
    closed.free();
    room
}

impl<B: Logged> Row<B> {
    /// Closes the row with all its passes, in any order: the books in their order, each the replay of its journal, which has each
    /// pass as often as that pass's calls of `act` at the cabinet were answered Done, and no other.
    pub fn close(self, passes: Vec<Pass>) -> Vec<B>
        requires passes { All (λ x. IsPassOf B.row.coded.code B.left_of self x) passes.items × (vec_len passes ≡ self.passes) }
        ensures count { vec_len result ≡ length (books_of self) }
        ensures room { vec_capacity result ≡ room_of self }
        ensures books { (c : ℕ) (first : B) → get_elem? (books_of self) c ≡ some first → (b : B) × (get_elem? result.items c ≡ some b) × IsMerged B.journal B.left_of B.replays first passes.items (c + 1) b }
    {
        let seat = gather(&self, passes);
        let Row {
            table,
            room,
            items: _,
            passes: _,
        } = self;
        taken(table.close_with(seat), room)
    }
}
