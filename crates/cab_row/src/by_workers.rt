//! A round of several cabinets by several workers, each in a thread of its own where one can be started: the
//! passes are handed out, each worker goes over the cabinets and acts wherever it meets no other, and what is
//! left then is done in one thread.
ghost use Rattle.std.specs.Prelude.{◌≡◌, ℕ, ◌≤◌, [], vec_len, vec_capacity, All, IfOk, IfErr};
ghost use Rattle.std.specs.List.{AllZip};
ghost use Rattle.cab_row.specs.Whole.{ComesFrom, IsWhole};

use crate::finish::finish_left;
use crate::hands::{collect, hand_out, idle};
use crate::worker::work_all;
use crate::{Logged, Row};
use io_edge::Gate;
use sig_types::NoMemory;
use std::alloc::Global;
use std::thread::Threads;

/// Brings items of every pass to the books, in an order that the workers' threads settle, and leaves what they did not come to. Worker w
/// has the passes p with p mod workers = w, and makes up to 64 sweeps over the cabinets; it calls the gate before each act (no clause
/// says so, since whatever order comes about is one). All memory is taken first: where it is wanting, the books come back as they were.
pub fn worked<R: Threads + Sync, B: Logged + Send + Sync, G: Gate + Sync>(
    rt: &R,
    alloc: Global,
    books: Vec<B>,
    passes: u32,
    workers: u32,
    gate: &G,
) -> Result<Vec<B>, (Vec<B>, NoMemory)>
    requires books { (1 ≤ vec_len books) × (vec_len books ≤ 64) }
    requires passes { (1 ≤ passes) × (passes ≤ 8) }
    requires workers { 1 ≤ workers }
    requires empty { All (λ b. B.journal b ≡ []) books.items }
    requires small { All (λ b. (p : ℕ) → B.left_of b p ≤ 2147483648) books.items }
    ensures come { IfOk result (λ v. AllZip (ComesFrom B.journal B.left_of B.replays) books.items v.items) }
    ensures room { IfOk result (λ v. vec_capacity v ≡ vec_capacity books) }
    ensures refused { IfErr result (λ e. (e.0.items ≡ books.items) × (vec_capacity e.0 ≡ vec_capacity books)) }
{
    let Ok(mut hands) = idle(alloc, workers) else {
        return Err((books, NoMemory));
    };
    let (row, mut list) = Row::open(alloc, books, passes)?;
    hand_out(&row, &mut list, &mut hands);
    let hands = work_all(rt, &row, hands, gate);
    collect(&row, hands, &mut list);
    Ok(row.close(list))
}

/// The same, and then in one thread what they left, so that every item of every pass is brought.
pub fn joined<R: Threads + Sync, B: Logged + Send + Sync, G: Gate + Sync>(
    rt: &R,
    alloc: Global,
    books: Vec<B>,
    passes: u32,
    workers: u32,
    gate: &G,
) -> Result<Vec<B>, (Vec<B>, NoMemory)>
    requires books { (1 ≤ vec_len books) × (vec_len books ≤ 64) }
    requires passes { (1 ≤ passes) × (passes ≤ 8) }
    requires workers { 1 ≤ workers }
    requires empty { All (λ b. B.journal b ≡ []) books.items }
    requires small { All (λ b. (p : ℕ) → B.left_of b p ≤ 2147483648) books.items }
    ensures whole { IfOk result (λ v. AllZip (IsWhole B.journal B.left_of B.replays passes) books.items v.items) }
    ensures room { IfOk result (λ v. vec_capacity v ≡ vec_capacity books) }
    ensures refused { IfErr result (λ e. (e.0.items ≡ books.items) × (vec_capacity e.0 ≡ vec_capacity books)) }
{
    match worked(rt, alloc, books, passes, workers, gate) {
        Ok(mut books) => {
            finish_left(&mut books, passes);
            Ok(books)
        }
        Err(refused) => Err(refused),
    }
}
