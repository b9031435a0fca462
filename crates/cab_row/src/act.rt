//! What a pass does at a cabinet: it looks, takes the book if nobody has it, applies one item or some and gives the
//! book back. It never waits: where it meets another pass it says so. A book stays in its place the while, so an act
//! costs no more for a long one.
ghost use Rattle.std.specs.Prelude.{◌≡◌, ◌≢◌, ℕ, ◌+◌, ◌-◌, ◌<◌, ◌≤◌, [], ◌∷◌, length, map};
ghost use Rattle.cab_row.specs.Passes.{IsPassOf, IsOwn, books_of, view_of, remains, done_by, HasActed, HasBrought, WasMet, SameCounts, HasSeen};
ghost use Rattle.cab_row.specs.Views.{count};
ghost use Rattle.cab_row.specs.Taken.{HasTaken, HasBroughtMore};
ghost use mathlib.Core.Option.{some};
ghost use lib.ListN.{get_elem?};

use crate::logged::Logged;
use crate::pass::Pass;
use crate::plays::{Finish, Look, Take};
use crate::row::Row;
use crate::view::View;
use atomic_table::{Badge, Seat};
use std::mem::replace;

/// The result of one call: an item was applied, or another pass was met, and this is the word that showed it.
#[derive(Clone, Copy, PartialEq, Eq)]
pub enum Act {
    Done,
    Busy(u64),
}

/// The result of one call that applies some items: this number was applied, or another pass was met, and this is the
/// word that showed it.
#[derive(Clone, Copy, PartialEq, Eq)]
pub enum Brought {
    Done(u32),
    Busy(u64),
}

impl<B: Logged> Row<B> {
    /// How many items the pass has left at the cabinet (1 to the number of cabinets): those that it was opened with,
    /// less those that its calls there were answered as done.
    pub fn remaining(&self, pass: &Pass, cab: u32) -> u32
        requires pass { IsPassOf B.row.coded.code B.left_of self.now pass.now }
        requires cab { (1 ≤ cab) × (cab ≤ length (books_of self.now)) }
        ensures remains { result ≡ remains self.now pass.now cab }
        ensures own { (first : B) → get_elem? (books_of self.now) (cab - 1) ≡ some first → result + done_by pass.now cab ≡ B.left_of first pass.now.number }
    {
        let c = cab as usize - 1;
        self.items[c][pass.number as usize] - pass.done[c]
    }

    /// Applies the pass's next item at the cabinet, unless another pass is there. Done: it looked, found the cabinet free, and
    /// applied one item. Busy: it found a word that is odd, or one that had changed since this call looked; it changed no book and
    /// no word. On a row with one pass the answer is Done. It takes no memory and waits for nothing.
    /// Here only tests call it; it is part of the public interface.
    pub fn act(&self, pass: &mut Pass, cab: u32) -> Act
        requires pass { IsPassOf B.row.coded.code B.left_of self.now pass.old }
        requires cab { (1 ≤ cab) × (cab ≤ length (books_of self.now)) }
        requires left { 0 < remains self.now pass.old cab }
        ensures pass { IsPassOf B.row.coded.code B.left_of self.now pass.new × (pass.new.number ≡ pass.old.number) }
        ensures done { result ≡ Act.Done → HasActed (view_of pass.old) (view_of pass.new) (cab - 1) }
        ensures busy { (w : ℕ) → result ≡ Act.Busy w → WasMet (view_of pass.old) (view_of pass.new) (cab - 1) w }
        ensures same { (w : ℕ) → result ≡ Act.Busy w → SameCounts (view_of pass.old) (view_of pass.new) }
        ensures seen { (w : ℕ) → result ≡ Act.Busy w → HasSeen (view_of pass.old) (view_of pass.new) (cab - 1) w }
        ensures remains { result ≡ Act.Done → remains self.now pass.new cab + 1 ≡ remains self.now pass.old cab }
        ensures alone { self.now.passes ≡ 1 → result ≡ Act.Done }
    {
        match self.act_some(pass, cab, 1) {
            Brought::Done(_) => Act::Done,
            Brought::Busy(word) => Act::Busy(word),
        }
    }

    /// Does what `act` does, with as many of the pass's next items as the book applies in one go: at least one, and at
    /// most `most`. Done: it looked, found the cabinet free, and applied these items. The word is twice the length of
    /// the journal again, so each item has its place there.
    pub fn act_some(&self, pass: &mut Pass, cab: u32, most: u32) -> Brought
        requires pass { IsPassOf B.row.coded.code B.left_of self.now pass.old }
        requires cab { (1 ≤ cab) × (cab ≤ length (books_of self.now)) }
        requires most { (1 ≤ most) × (most ≤ remains self.now pass.old cab) }
        ensures pass { IsPassOf B.row.coded.code B.left_of self.now pass.new × (pass.new.number ≡ pass.old.number) }
        ensures done { (k : ℕ) → result ≡ Brought.Done k → HasBrought (view_of pass.old) (view_of pass.new) (cab - 1) k }
        ensures some { (k : ℕ) → result ≡ Brought.Done k → (1 ≤ k) × (k ≤ most) }
        ensures busy { (w : ℕ) → result ≡ Brought.Busy w → WasMet (view_of pass.old) (view_of pass.new) (cab - 1) w }
        ensures same { (w : ℕ) → result ≡ Brought.Busy w → SameCounts (view_of pass.old) (view_of pass.new) }
        ensures seen { (w : ℕ) → result ≡ Brought.Busy w → HasSeen (view_of pass.old) (view_of pass.new) (cab - 1) w }
        ensures remains { (k : ℕ) → result ≡ Brought.Done k → remains self.now pass.new cab + k ≡ remains self.now pass.old cab }
        ensures alone { self.now.passes ≡ 1 → (w : ℕ) → result ≢ Brought.Busy w }
    {
        let c = cab as usize - 1;
        let mut seat = replace(&mut pass.badge, Badge::blank()).into_seat();
        let answer = self.turn(&mut seat, pass.number, c, most);
        pass.badge = seat.into_badge();
        if let Brought::Done(count) = answer {
            pass.done[c] += count;
        }
        answer
    }

    // One attempt of a pass that has this number of items left at the cabinet; cabinets are counted from 0.
    fn turn(&self, seat: &mut Seat<B, View>, number: u32, c: usize, most: u32) -> Brought
        requires seat { (seat.old.table_id ≡ self.now.table.shared.table_id) × (seat.old.me.1 ≡ []) × IsOwn (map B.row.coded.code (books_of self.now)) self.now.passes number seat.old.me.0 }
        requires cab { c < length (books_of self.now) }
        requires some { 1 ≤ most }
        requires left { (first : B) → get_elem? (books_of self.now) c ≡ some first → count number c seat.old.me.0 + most ≤ B.left_of first number }
        ensures seat { (seat.new.table_id ≡ self.now.table.shared.table_id) × (seat.new.me.1 ≡ []) × IsOwn (map B.row.coded.code (books_of self.now)) self.now.passes number seat.new.me.0 }
        ensures done { (k : ℕ) → result ≡ Brought.Done k → HasBrought seat.old.me.0 seat.new.me.0 c k }
        ensures some { (k : ℕ) → result ≡ Brought.Done k → (1 ≤ k) × (k ≤ most) }
        ensures busy { (w : ℕ) → result ≡ Brought.Busy w → WasMet seat.old.me.0 seat.new.me.0 c w }
        ensures alone { self.now.passes ≡ 1 → (w : ℕ) → result ≢ Brought.Busy w }
    {
        let shared = &self.table.shared;
        let seen = shared.load::<Look>(seat, c);
        if seen % 2 == 1 {
            return Brought::Busy(seen);
        }
        let found = shared.compare_exchange::<Take>(seat, c, seen, seen + 1);
        if found != seen {
            return Brought::Busy(found);
        }
        let count = self.bring(seat, number, c, most);
        shared.fetch_add::<Finish>(seat, c, 2 * count as u64 - 1);
        Brought::Done(count)
    }

    // Some next items of the pass arrive at the book that its seat has taken, which has this number of items left;
    // returns how many arrived.
    fn bring(&self, seat: &mut Seat<B, View>, number: u32, c: usize, most: u32) -> u32
        requires table { seat.old.table_id ≡ self.now.table.shared.table_id }
        requires some { 1 ≤ most }
        requires held { HasTaken seat.old.me c (λ b. most ≤ B.left_of b number) }
        ensures table { seat.new.table_id ≡ seat.old.table_id }
        ensures brought { HasTaken seat.old.me c (λ b. HasTaken seat.new.me c (λ x. HasBroughtMore B.journal B.left_of B.replays number result b x)) }
        ensures some { (1 ≤ result) × (result ≤ most) }
        ensures view { seat.new.me.0 ≡ seat.old.me.0 }
    {
        seat.slot_mut(&self.table.shared, c)
            .apply_some(number, most)
    }
}
