//! What a worker does with its passes: sweep after sweep over the cabinets, at each of which every pass acts until it meets another
//! or has nothing left. Each worker begins at a place of its own, so that they seldom meet.
ghost use Rattle.std.specs.Prelude.{◌≡◌, ℕ, ◌≤◌, ◌<◌, ◌+◌, All, length, vec_len, slice_index_or};
ghost use Rattle.cab_row.specs.Passes.{IsPassOf, books_of};
ghost use denote.Param.Send.{IsSync, IsSend};
ghost use Rattle.cab_row.specs.Hands.{IsReady, HaveWorked, passes_in};

use crate::{Brought, Logged, Pass, Row};
use io_edge::Gate;
use std::thread::{Threads, join};

/// A worker: some of the passes of a row.
#[derive(Drop)]
pub(crate) struct Worker {
    pub(crate) passes: Vec<Pass>,
}

// Acts at the cabinet until another pass is met or nothing is left. Whether another was met. The first act brings one
// item, and each further one may bring eight times as many as the one before, so that others have their turn between
// the first of them.
fn act_on<B: Logged, G: Gate>(row: &Row<B>, pass: &mut Pass, cab: u32, gate: &G) -> bool
    requires pass { IsPassOf B.row.coded.code B.left_of row.now pass.old }
    requires cab { (1 ≤ cab) × (cab ≤ length (books_of row.now)) }
    ensures { IsPassOf B.row.coded.code B.left_of row.now pass.new × (pass.new.number ≡ pass.old.number) }
{
    let mut left = row.remaining(pass, cab);
    let mut most: u32 = 1;
    while left > 0 {
        gate.at(pass.number(), cab);
        match row.act_some(pass, cab, if most < left { most } else { left }) {
            Brought::Done(count) => left -= count,
            Brought::Busy(_) => return true,
        }
        if most < 512 {
            most *= 8;
        }
    }
    false
}

// At each of these cabinets every pass acts. Whether another was met.
fn go_over<B: Logged, G: Gate>(
    row: &Row<B>,
    worker: &mut Worker,
    first: u32,
    last: u32,
    gate: &G,
) -> bool
    requires ready { IsReady B.row.coded.code B.left_of row.now worker.old }
    requires cabs { (1 ≤ first) × (last ≤ length (books_of row.now)) }
    ensures { IsReady B.row.coded.code B.left_of row.now worker.new × (vec_len worker.new.passes ≡ vec_len worker.old.passes) }
{
    let mut met = false;
    for cab in first..=last {
        for k in 0..worker.passes.len() {
            if act_on(row, &mut worker.passes[k], cab, gate) {
                met = true;
            }
        }
    }
    met
}

// One sweep over the cabinets, from one of them on and then from the first. Whether another pass was met.
fn sweep<B: Logged, G: Gate>(row: &Row<B>, worker: &mut Worker, from: u32, gate: &G) -> bool
    requires ready { IsReady B.row.coded.code B.left_of row.now worker.old }
    requires from { (1 ≤ from) × (from ≤ length (books_of row.now) + 1) }
    ensures { IsReady B.row.coded.code B.left_of row.now worker.new × (vec_len worker.new.passes ≡ vec_len worker.old.passes) }
{
    let met = go_over(row, worker, from, row.cabinets(), gate);
    go_over(row, worker, 1, from - 1, gate) || met
}

// Where in a row of cabinets the worker at this place begins: four workers side by side are a quarter of the row apart,
// and the next four are between these.
fn begins_at(cabinets: u32, place: usize) -> u32
    ensures { (1 ≤ result) × (result ≤ cabinets + 1) }
{
    let part = cabinets / 8;
    match place % 8 {
        0 => 1,
        1 => part * 2 + 1,
        2 => part * 4 + 1,
        3 => part * 6 + 1,
        4 => part + 1,
        5 => part * 3 + 1,
        6 => part * 5 + 1,
        _ => part * 7 + 1,
    }
}

// Up to 64 sweeps, until one meets no other pass: then nothing is left of the worker's own.
fn work<B: Logged, G: Gate>(row: &Row<B>, worker: &mut Worker, place: usize, gate: &G)
    requires { IsReady B.row.coded.code B.left_of row.now worker.old }
    ensures { IsReady B.row.coded.code B.left_of row.now worker.new × (vec_len worker.new.passes ≡ vec_len worker.old.passes) }
{
    let from = begins_at(row.cabinets(), place);
    for _ in 0..64 {
        if !sweep(row, worker, from, gate) {
            break;
        }
    }
}

// Whether a pass of the worker has something left at a cabinet.
fn has_work<B: Logged>(row: &Row<B>, worker: &Worker) -> bool
    requires { IsReady B.row.coded.code B.left_of row.now worker.now }
{
    for cab in 1..=row.cabinets() {
        for k in 0..worker.passes.len() {
            if row.remaining(&worker.passes[k], cab) > 0 {
                return true;
            }
        }
    }
    false
}

// Whether one of these workers has something to do.
fn have_work<B: Logged>(row: &Row<B>, workers: &[Worker]) -> bool
    requires { All (λ w. IsReady B.row.coded.code B.left_of row.now w) workers.now }
{
    for k in 0..workers.len() {
        if has_work(row, &workers[k]) {
            return true;
        }
    }
    false
}

// The worker, when it has done its work.
fn worked_out<B: Logged, G: Gate>(
    row: &Row<B>,
    mut worker: Worker,
    place: usize,
    gate: &G,
) -> Worker
    requires { IsReady B.row.coded.code B.left_of row.now worker }
    ensures { IsReady B.row.coded.code B.left_of row.now result × (vec_len result.passes ≡ vec_len worker.passes) }
{
    work(row, &mut worker, place, gate);
    worker
}

// A worker in a thread of its own where one can be started, and the others meanwhile.
#[cycle(start)]
fn work_beside<R: Threads + Sync, B: Logged + Send + Sync, G: Gate + Sync>(
    rt: &R,
    row: &Row<B>,
    gate: &G,
    worker: Worker,
    others: Vec<Worker>,
) -> (Worker, Vec<Worker>)
    requires ready { IsReady B.row.coded.code B.left_of row.now worker × All (λ w. IsReady B.row.coded.code B.left_of row.now w) others.items }
    ensures worker { IsReady B.row.coded.code B.left_of row.now result.0 × (vec_len result.0.passes ≡ vec_len worker.passes) }
    ensures others { HaveWorked B.row.coded.code B.left_of row.now others result.1 }
{
    let place = others.len();
    join(
        rt,
        move || -> Worker
            requires { IsSync B.row × IsSend B.row × IsSync G.row × IsReady B.row.coded.code B.left_of row.now worker }
            ensures { IsReady B.row.coded.code B.left_of row.entry.now result × (vec_len result.passes ≡ vec_len worker.passes) }
        { worked_out(row, worker, place, gate) },
        move || -> Vec<Worker>
            requires { IsSync R.row × IsSync B.row × IsSend B.row × IsSync G.row × All (λ w. IsReady B.row.coded.code B.left_of row.now w) others.items }
            ensures { HaveWorked B.row.coded.code B.left_of row.entry.now others result }
        { work_from(rt, row, gate, others) },
    )
}

// All these workers work, the last one next to the others, and so on. This thread starts the others one after another,
// since a thread that has to start others runs late, and these later still.
#[cycle(start)]
fn work_from<R: Threads + Sync, B: Logged + Send + Sync, G: Gate + Sync>(
    rt: &R,
    row: &Row<B>,
    gate: &G,
    mut workers: Vec<Worker>,
) -> Vec<Worker>
    requires ready { All (λ w. IsReady B.row.coded.code B.left_of row.now w) workers.items }
    ensures { HaveWorked B.row.coded.code B.left_of row.now workers result }
{
    let Some(worker) = workers.pop() else {
        return workers;
    };
    let place = workers.len();
    let (worker, mut others) = if has_work(row, &worker) && have_work(row, workers.as_slice()) {
        work_beside(rt, row, gate, worker, workers)
    } else {
        let worker = worked_out(row, worker, place, gate);
        (worker, work_from(rt, row, gate, workers))
    };
    others.push_reserved(worker);
    others
}

/// All workers go over the cabinets of the row until all are done, each in a thread of its own where one can be started. None is
/// started for a worker that has nothing to do.
pub(crate) fn work_all<R: Threads + Sync, B: Logged + Send + Sync, G: Gate + Sync>(
    rt: &R,
    row: &Row<B>,
    workers: Vec<Worker>,
    gate: &G,
) -> Vec<Worker>
    requires ready { All (λ w. IsReady B.row.coded.code B.left_of row.now w) workers.items }
    ensures ready { All (λ w. IsReady B.row.coded.code B.left_of row.now w) result.items }
    ensures count { passes_in result.items ≡ passes_in workers.items }
{
    work_from(rt, row, gate, workers)
}
