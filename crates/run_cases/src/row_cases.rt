//! Rows of tallies: two workers at two books, and one pass that meets nobody.
use crate::{Tally, acts_done};
use cab_row::{Row, joined};
use io_edge::OpenGate;
use std::alloc::Global;
use std::test::Fail;

// How often the pass is in the journal.
fn times(pass: u32, journal: &[u32]) -> u32 {
    let mut count: u32 = 0;
    for p in journal {
        if *p == pass {
            count = count.wrapping_add(1);
        }
    }
    count
}

#[test]
fn two_workers_bring_each_item_once(rt: HostRuntime) -> Result<(), Fail> {
    let alloc: Global = rt.alloc();
    let mut books = Vec::new(alloc);
    books.push(Tally::new(alloc, 100, 500, 700)?)?;
    books.push(Tally::new(alloc, 200, 700, 500)?)?;
    let Ok(books) = joined(&rt, alloc, books, 2, 2, &OpenGate) else {
        panic!(rt; "no memory")
    };
    assert!(rt; books.len() == 2);
    assert!(rt; books[0].value() == 1300);
    assert!(rt; times(0, books[0].journal()) == 500);
    assert!(rt; times(1, books[0].journal()) == 700);
    assert!(rt; books[1].value() == 1400);
    assert!(rt; times(0, books[1].journal()) == 700);
    assert!(rt; times(1, books[1].journal()) == 500);
    Ok(())
}

#[test]
fn one_pass_is_never_busy(rt: HostRuntime) -> Result<(), Fail> {
    let alloc: Global = rt.alloc();
    let mut books = Vec::new(alloc);
    books.push(Tally::new(alloc, 7, 1000, 0)?)?;
    let Ok((row, mut passes)) = Row::open(alloc, books, 1) else {
        panic!(rt; "no memory")
    };
    assert!(rt; row.remaining(&passes[0], 1) == 1000);
    assert!(rt; acts_done(&row, &mut passes[0], 1) == 1000);
    assert!(rt; row.remaining(&passes[0], 1) == 0);
    let books = row.close(passes);
    assert!(rt; books[0].value() == 1007);
    assert!(rt; times(0, books[0].journal()) == 1000);
    Ok(())
}
