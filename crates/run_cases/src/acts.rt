//! Calls of one pass at one cabinet, one after another.
ghost use Rattle.std.specs.Prelude.{◌≡◌, ◌≤◌, length};
ghost use Rattle.cab_row.specs.Passes.{IsPassOf, books_of, remains};

use cab_row::{Act, Logged, Pass, Row};

/// How many calls are answered Done, until one is not or nothing is left. On a row with one pass that is all that was left.
pub fn acts_done<B: Logged>(row: &Row<B>, pass: &mut Pass, cab: u32) -> u32
    requires pass { IsPassOf B.row.coded.code B.left_of row.now pass.old }
    requires cab { (1 ≤ cab) × (cab ≤ length (books_of row.now)) }
    ensures pass { IsPassOf B.row.coded.code B.left_of row.now pass.new }
    ensures alone { row.now.passes ≡ 1 → (result ≡ remains row.now pass.old cab) × (remains row.now pass.new cab ≡ 0) }
{
    let all = row.remaining(pass, cab);
    for done in 0..all {
        if let Act::Busy(_) = row.act(pass, cab) {
            return done;
        }
    }
    all
}
