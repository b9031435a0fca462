//! A number that two passes raise by one with each item, and the journal of it.
ghost use Rattle.std.specs.Prelude.{◌≡◌, ℕ, ◌+◌, ◌≤◌, ◌==◌, ◌%◌, cond, [], length, vec_len, vec_capacity, IfOk};
ghost use Rattle.run_cases.specs.Tallies.{none_more};

use cab_row::Logged;
use std::alloc::{AllocError, Global};

/// A number, what passes 0 and 1 have left, and the journal.
#[derive(Drop)]
pub struct Tally {
    value: u64,
    first: u32,
    second: u32,
    journal: Vec<u32>,
    ghost room: { vec_len journal + (first + second) ≤ vec_capacity journal },
}

impl Tally {
    /// A tally with these numbers of items of passes 0 and 1.
    pub fn new(alloc: Global, value: u64, first: u32, second: u32) -> Result<Tally, AllocError>
        ensures { IfOk result (λ t. (t.journal.items ≡ []) × (t.value ≡ value) × (t.first ≡ first) × (t.second ≡ second)) }
    {
        let journal = Vec::with_capacity(alloc, first as usize + second as usize)?;
        Ok(Tally {
            value,
            first,
            second,
            journal,
        })
    }

    /// The number.
    pub fn value(&self) -> u64
        ensures { result ≡ self.now.value }
    {
        self.value
    }

    /// The passes that raised it, in order.
    pub fn journal(&self) -> &[u32]
        ensures { result.now ≡ self.now.journal.items }
    {
        self.journal.as_slice()
    }
}

impl Logged for Tally {
    ghost journal = { λ t. t.journal.items };

    ghost left_of = { λ t p. cond (p == 0) t.first (cond (p == 1) t.second 0) };

    ghost replays = { λ first t. t.value % 18446744073709551616 ≡ (first.value + length t.journal.items) % 18446744073709551616 };

    fn left(&self, pass: u32) -> u32 {
        match pass {
            0 => self.first,
            1 => self.second,
            _ => 0,
        }
    }

    fn apply(&mut self, pass: u32) {
        if pass == 0 {
            self.first -= 1;
        } else {
            self.second -= 1;
        }
        self.value = self.value.wrapping_add(1);
        self.journal.push_reserved(pass);
    }

    ghost fresh = { λ t e. none_more t.value t.journal.items e };
}
