//! A row opens: the books move after its words, and each pass gets its number. All memory of a row is taken here.
ghost use Rattle.std.specs.Prelude.{◌≡◌, ℕ, ◌<◌, ◌≤◌, [], length, map, All, vec_len, vec_capacity, IfOk, IfErr};
ghost use mathlib.Core.Option.{some};
ghost use lib.ListN.{get_elem?};
ghost use Rattle.cab_row.specs.Views.{first_view};
ghost use Rattle.cab_row.specs.Passes.{books_of, room_of, view_of, IsPassOf, HasItems, AreNew};

use crate::logged::Logged;
use crate::moves::{items_of, put_back};
use crate::pass::Pass;
use crate::plays::{Deal, Opening};
use crate::row::Row;
use crate::view::View;
use atomic_table::{Refused, Seat, Table};
use sig_types::NoMemory;
use std::alloc::Global;
use std::snapshot::Snapshot;

// Splits a seat off for each pass; the first seat is pass 0.
fn deal<B: Logged>(row: &Row<B>, mut first: Seat<B, View>, list: &mut Vec<Pass>)
    requires seat { (first.table_id ≡ row.now.table.shared.table_id) × (first.me ≡ (first_view (map B.row.coded.code (books_of row.now)) row.now.passes, [])) }
    requires row { (1 ≤ row.now.passes) × (row.now.passes ≤ 8) × (0 < length (books_of row.now)) × HasItems B.row.coded.code B.left_of row.now }
    requires list { (list.old.items ≡ []) × (row.now.passes ≤ vec_capacity list.old) }
    ensures { AreNew B.row.coded.code B.left_of row.now 0 list.new.items × (vec_len list.new ≡ row.now.passes) }
{
    for number in 1..row.passes {
        let seat = row.table.shared.split_seat::<Deal>(&mut first);
        list.push_reserved(Pass {
            badge: seat.into_badge(),
            number,
            done: [0; 64],
        });
    }
    let first = Pass {
        badge: first.into_badge(),
        number: 0,
        done: [0; 64],
    };
    match list.insert(0, first) {
        Ok(()) => {}
        Err(_) => unreachable!(),
    }
}

impl<B: Logged> Row<B> {
    /// Opens a row over 1 to 64 books with empty journals, for 1 to 8 passes; the pass at place p of the list, counted
    /// from 0, is pass p. Where memory ran out, the books come back as they were.
    pub fn open(
        alloc: Global,
        books: Vec<B>,
        passes: u32,
    ) -> Result<(Row<B>, Vec<Pass>), (Vec<B>, NoMemory)>
        requires books { (1 ≤ vec_len books) × (vec_len books ≤ 64) }
        requires passes { (1 ≤ passes) × (passes ≤ 8) }
        requires empty { All (λ b. B.journal b ≡ []) books.items }
        requires small { All (λ b. (p : ℕ) → B.left_of b p ≤ 2147483648) books.items }
        ensures row { IfOk result (λ r. (books_of r.0 ≡ books.items) × (r.0.passes ≡ passes)) }
        ensures room { IfOk result (λ r. room_of r.0 ≡ vec_capacity books) }
        ensures passes { IfOk result (λ r. All (λ x. IsPassOf B.row.coded.code B.left_of r.0 x) r.1.items × (vec_len r.1 ≡ passes)) }
        ensures numbers { IfOk result (λ r. (p : ℕ) (pass : Pass) → get_elem? r.1.items p ≡ some pass → (pass.number ≡ p) × ((view_of pass).done ≡ [])) }
        ensures refused { IfErr result (λ e. (e.0.items ≡ books.items) × (vec_capacity e.0 ≡ vec_capacity books)) }
    {
        let Ok(items) = items_of(alloc, books.as_slice()) else {
            return Err((books, NoMemory));
        };
        let Ok(mut list) = Vec::with_capacity(alloc, passes as usize) else {
            return Err((books, NoMemory));
        };
        let Ok(mut room) = Vec::with_capacity(alloc, books.capacity()) else {
            return Err((books, NoMemory));
        };
        let words = [0u64; 64];
        let count = books.len();
        let about = Opening {
            books: Snapshot::of(&books),
            passes,
        };
        match Table::new(alloc, &words[..count], books, &about) {
            Err(Refused { slots }) => {
                put_back(slots, &mut room);
                Err((room, NoMemory))
            }
            Ok((table, seat)) => {
                let row = Row {
                    table,
                    room,
                    items,
                    passes,
                };
                deal(&row, seat, &mut list);
                Ok((row, list))
            }
        }
    }
}
