//! A round that several workers bring, in an order that they settle, each in a thread of its own where one can be started.

ghost use Rattle.std.specs.Prelude.{ℕ, ◌≡◌, ◌<◌, ◌≤◌, ◌⊎◌, List, [], All, length, vec_len, vec_capacity, IfOk, IfErr};
ghost use Rattle.scenario_data.specs.Content.{ScenarioContent};
ghost use Rattle.run_definition.specs.CabinetState.{CabinetState};
ghost use Rattle.cab_book.specs.declared.book.Book.{Book as BookRow};
ghost use Rattle.cab_book.specs.Books.{journal_of};
ghost use Rattle.round_run.specs.CabinetStates.{HaveRun, no_journals, TicksWithin};
ghost use Rattle.round_run.specs.Joined.{AreFresh, AreShared, HaveFewLeft, HaveMerged};

use crate::serial::serial_round;
use cab_book::Book;
use cab_row::worked;
use io_edge::Gate;
use sig_types::{NoMemory, Stream};
use std::alloc::Global;
use std::thread::Threads;

/// Fewer ticks than these, of all cabinets in a round, are few: one pass brings them all.
const FEW_TICKS: u64 = 16_384;

/// In how many parts that many workers share that many ticks of a round: one for up to five workers and for few ticks,
/// two for six, and four for more.
fn parts_for(workers: u32, ticks: u64) -> u32
    ensures parts { (result ≡ 1) ⊎ (result ≡ 2) ⊎ (result ≡ 4) }
    ensures one { workers ≤ 5 → result ≡ 1 }
    ensures few { ticks < 16384 → result ≡ 1 }
    ensures two { workers ≡ 6 → 16384 ≤ ticks → result ≡ 2 }
    ensures four { 7 ≤ workers → 16384 ≤ ticks → result ≡ 4 }
{
    if ticks < FEW_TICKS {
        return 1;
    }
    match workers {
        0..=5 => 1,
        6 => 2,
        _ => 4,
    }
}

/// How many ticks these cabinets have left in all.
fn ticks_in(books: &[Book]) -> u64 {
    let mut ticks: u64 = 0;
    for k in 0..books.len() {
        ticks = ticks.wrapping_add(books[k].left(Stream::Ticks.number()) as u64);
    }
    ticks
}

/// Whether two passes have items for this cabinet.
fn meets_two_passes(book: &Book) -> bool {
    let mut meets_one = false;
    for pass in 0..=Stream::Ticks.number() {
        if book.left(pass) > 0 {
            if meets_one {
                return true;
            }
            meets_one = true;
        }
    }
    false
}

/// Whether the serial order is the only one in which that many workers bring what comes: one worker brings it, or each
/// cabinet has items of one pass only.
fn has_one_order(books: &[Book], workers: u32) -> bool {
    if workers == 1 {
        return true;
    }
    for k in 0..books.len() {
        if meets_two_passes(&books[k]) {
            return false;
        }
    }
    true
}

/// Shares the ticks of each book's round, to which nothing was brought yet, in that many parts.
fn share_ticks(books: &mut Vec<Book>, parts: u32)
    requires parts { (parts ≡ 1) ⊎ (parts ≡ 2) ⊎ (parts ≡ 4) }
    requires fresh { AreFresh books.old.items }
    requires small { HaveFewLeft books.old.items }
    ensures shared { AreShared parts books.old.items books.new.items }
    ensures fresh { All (λ b. journal_of b ≡ []) books.new.items }
    ensures small { HaveFewLeft books.new.items }
    ensures room { vec_capacity books.new ≡ vec_capacity books.old }
{
    for k in 0..books.len() {
        books[k].share(parts);
    }
}

/// The ticks of each book's round are those of one pass again.
fn join_ticks(books: &mut Vec<Book>)
    ensures undone { (parts : ℕ) (first : List BookRow) → AreFresh first → AreShared parts first books.old.items → books.new.items ≡ first }
    ensures room { vec_capacity books.new ≡ vec_capacity books.old }
{
    for k in 0..books.len() {
        books[k].join_ticks();
    }
}

/// All that reaches 1 to 64 cabinets in a round that was just begun is brought by passes in the hands of this number of
/// workers: the ticks are those of one pass for up to five workers or if they are few, of two for six, and of four for
/// more, and there are four other passes. Worker w has the passes p with p mod workers = w, and calls the gate before
/// each act: no clause says who brings what, or that the gate is called. What the workers leave is brought in the
/// serial order, and so is the whole round if no other order exists: one worker brings it, or each cabinet has items of
/// one pass only. Whatever the order of the threads, each item of each stream is brought once, in its stream's order,
/// and each book's journal shows the resulting order, with all ticks as those of one pass. All memory is taken first:
/// if it runs out, the books come back as they were.
pub fn joined_round<R: Threads + Sync, G: Gate + Sync>(
    rt: &R,
    alloc: Global,
    mut books: Vec<Book>,
    workers: u32,
    gate: &G,
) -> Result<Vec<Book>, (Vec<Book>, NoMemory)>
    requires books { (1 ≤ vec_len books) × (vec_len books ≤ 64) }
    requires fresh { AreFresh books.items }
    requires small { HaveFewLeft books.items }
    requires workers { 1 ≤ workers }
    ensures many { IfOk result (λ v. length v.items ≡ length books.items) }
    ensures run { IfOk result (λ v. (s : ScenarioContent) (ts : List CabinetState) → HaveRun s ts (no_journals ts) books.items
        → HaveMerged s ts v.items) }
    ensures ticks { IfOk result (λ v. (most : ℕ) → TicksWithin most books.items → TicksWithin most v.items) }
    ensures room { IfOk result (λ v. vec_capacity v ≡ vec_capacity books) }
    ensures refused { IfErr result (λ e. (e.0.items ≡ books.items) × (vec_capacity e.0 ≡ vec_capacity books)) }
{
    if has_one_order(books.as_slice(), workers) {
        serial_round(&mut books);
        return Ok(books);
    }
    let parts = parts_for(workers, ticks_in(books.as_slice()));
    share_ticks(&mut books, parts);
    match worked(rt, alloc, books, 4 + parts, workers, gate) {
        Ok(mut books) => {
            serial_round(&mut books);
            Ok(books)
        }
        Err((mut books, NoMemory)) => {
            join_ticks(&mut books);
            Err((books, NoMemory))
        }
    }
}
