//! The passes of a row in the workers' hands: handed out by their numbers, and taken back. Only the workers' lists take memory,
//! before the row opens.
ghost use Rattle.std.specs.Prelude.{◌≡◌, ◌+◌, ◌≤◌, ◌<◌, [], All, vec_len, vec_capacity, IfOk};
ghost use Rattle.cab_row.specs.Passes.{IsPassOf};
ghost use Rattle.cab_row.specs.Hands.{IsReady, IsIdle, InTurn, passes_in};

use crate::worker::Worker;
use crate::{Logged, Pass, Row};
use std::alloc::{AllocError, Global};

/// That many workers, each with room for eight passes.
pub(crate) fn idle(alloc: Global, workers: u32) -> Result<Vec<Worker>, AllocError>
    ensures { IfOk result (λ v. (vec_len v ≡ workers) × All IsIdle v.items) }
{
    let mut all = Vec::with_capacity(alloc, workers as usize)?;
    while all.len() < workers as usize {
        let passes = Vec::with_capacity(alloc, 8)?;
        all.push_reserved(Worker { passes });
    }
    Ok(all)
}

/// Hands each pass to the worker whose place in the list is the pass's number modulo the number of workers.
pub(crate) fn hand_out<B: Logged>(row: &Row<B>, list: &mut Vec<Pass>, workers: &mut Vec<Worker>)
    requires list { All (λ x. IsPassOf B.row.coded.code B.left_of row.now x) list.old.items × (vec_len list.old ≤ 8) }
    requires workers { (0 < vec_len workers.old) × All IsIdle workers.old.items }
    ensures ready { All (λ w. IsReady B.row.coded.code B.left_of row.now w) workers.new.items }
    ensures count { (passes_in workers.new.items ≡ vec_len list.old) × (vec_len workers.new ≡ vec_len workers.old) }
    ensures turns { InTurn (vec_len workers.old) workers.new.items }
    ensures list { (list.new.items ≡ []) × (vec_capacity list.new ≡ vec_capacity list.old) }
{
    let count = workers.len();
    while let Some(pass) = list.pop() {
        let place = pass.number() as usize % count;
        workers[place].passes.push_reserved(pass);
    }
}

/// Takes all passes back, in any order.
pub(crate) fn collect<B: Logged>(row: &Row<B>, mut workers: Vec<Worker>, list: &mut Vec<Pass>)
    requires ready { All (λ w. IsReady B.row.coded.code B.left_of row.now w) workers.items }
    requires list { (list.old.items ≡ []) × (passes_in workers.items ≤ vec_capacity list.old) }
    ensures passes { All (λ x. IsPassOf B.row.coded.code B.left_of row.now x) list.new.items }
    ensures count { vec_len list.new ≡ passes_in workers.items }
{
    while let Some(worker) = workers.pop() {
        let Worker { passes } = worker;
        take_all(row, passes, list);
    }
}

// Takes back the passes of one worker.
fn take_all<B: Logged>(row: &Row<B>, mut passes: Vec<Pass>, list: &mut Vec<Pass>)
    requires passes { All (λ x. IsPassOf B.row.coded.code B.left_of row.now x) passes.items }
    requires list { All (λ x. IsPassOf B.row.coded.code B.left_of row.now x) list.old.items }
    requires room { vec_len list.old + vec_len passes ≤ vec_capacity list.old }
    ensures passes { All (λ x. IsPassOf B.row.coded.code B.left_of row.now x) list.new.items }
    ensures count { vec_len list.new ≡ vec_len list.old + vec_len passes }
    ensures room { vec_capacity list.new ≡ vec_capacity list.old }
{
    while let Some(pass) = passes.pop() {
        list.push_reserved(pass);
    }
}
