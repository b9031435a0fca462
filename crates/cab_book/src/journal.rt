//! The journal of a round, kept in the longest runs of one pass, so that a round of many ticks takes little room.

ghost use Rattle.std.specs.Prelude.{◌≡◌, ◌<◌, ◌≤◌, ◌+◌, ◌++◌, ◌∷◌, [], ℕ, length, take, get_or, replicate, vec_len, vec_capacity, OnOk};
ghost use Rattle.cabinet_history.specs.Journals.{times, runs_of, passes_of};
ghost use Rattle.cab_book.specs.Runs.{with_run_last};
ghost use Rattle.cab_book.specs.Shares.{read_journal};

use crate::sharing::read_pass;
use sig_types::NoMemory;

/// The runs: each a pass, and how often in a row it brought the next item.
#[derive(Drop)]
pub struct Journal {
    runs: Vec<(u32, u32)>,
    ghost longest: { runs.items ≡ runs_of (passes_of runs.items) },
}

impl Journal {
    /// A journal without a pass, with the room that is handed in.
    pub fn new(room: Vec<(u32, u32)>) -> Journal
        requires { room.items ≡ [] }
        ensures none { result.runs.items ≡ [] }
        ensures len { vec_len result.runs ≡ vec_len room }
        ensures room { vec_capacity result.runs ≡ vec_capacity room }
    {
        Journal { runs: room }
    }

    /// Takes room for N more runs. If memory runs out it is as before.
    pub fn reserve(&mut self, runs: usize) -> Result<(), NoMemory>
        ensures passes { passes_of self.new.runs.items ≡ passes_of self.old.runs.items }
        ensures len { vec_len self.new.runs ≡ vec_len self.old.runs }
        ensures room { OnOk result (vec_len self.new.runs + runs ≤ vec_capacity self.new.runs) }
        ensures kept { vec_capacity self.old.runs ≤ vec_capacity self.new.runs }
    {
        match self.runs.reserve(runs) {
            Ok(()) => Ok(()),
            Err(_) => Err(NoMemory),
        }
    }

    /// One pass more. It takes no memory.
    pub fn add(&mut self, pass: u32)
        requires room { vec_len self.old.runs < vec_capacity self.old.runs }
        requires few { times pass (passes_of self.old.runs.items) < 4294967295 }
        ensures passes { passes_of self.new.runs.items ≡ passes_of self.old.runs.items ++ pass ∷ [] }
        ensures len { vec_len self.new.runs ≤ vec_len self.old.runs + 1 }
        ensures room { vec_capacity self.new.runs ≡ vec_capacity self.old.runs }
    {
        self.add_run(pass, 1);
    }

    /// One pass N more times. It takes no memory.
    pub fn add_run(&mut self, pass: u32, count: u32)
        requires some { 1 ≤ count }
        requires room { vec_len self.old.runs < vec_capacity self.old.runs }
        requires few { times pass (passes_of self.old.runs.items) + count ≤ 4294967295 }
        ensures passes { passes_of self.new.runs.items ≡ passes_of self.old.runs.items ++ replicate count pass }
        ensures len { vec_len self.new.runs ≤ vec_len self.old.runs + 1 }
        ensures room { vec_capacity self.new.runs ≡ vec_capacity self.old.runs }
    {
        let len = self.runs.len();
        if len > 0 {
            let last = self.runs[len - 1];
            if last.0 == pass {
                self.runs[len - 1] = (pass, last.1 + count);
                return;
            }
        }
        self.runs.push_reserved((pass, count));
    }

    /// Passes 5 to 7 are read as 4, in the longest runs again. It takes no memory.
    pub fn join_ticks(&mut self)
        requires few { (p : ℕ) → times p (read_journal (passes_of self.old.runs.items)) ≤ 4294967295 }
        ensures passes { passes_of self.new.runs.items ≡ read_journal (passes_of self.old.runs.items) }
        ensures len { vec_len self.new.runs ≤ vec_len self.old.runs }
        ensures room { vec_capacity self.new.runs ≡ vec_capacity self.old.runs }
        ensures none { passes_of self.old.runs.items ≡ [] → self.new ≡ self.old }
    {
        if self.runs.is_empty() {
            return;
        }
        let kept = join_runs(self.runs.as_mut_slice());
        self.runs.truncate(kept);
    }

    /// The longest runs of the journal, in order.
    pub fn runs(&self) -> &[(u32, u32)]
        ensures { result.now ≡ runs_of (passes_of self.now.runs.items) }
    {
        self.runs.as_slice()
    }
}

/// Puts a pass that many times after the first runs, in the place of what is there: how many runs these are then.
fn put_run(runs: &mut [(u32, u32)], kept: usize, pass: u32, count: u32) -> usize
    requires room { kept < length runs.old }
    requires few { times pass (passes_of (take kept runs.old)) + count ≤ 4294967295 }
    ensures runs { take result runs.new ≡ with_run_last (take kept runs.old) pass count }
    ensures rest { (k : ℕ) (d : ℕ × ℕ) → kept < k → get_or runs.new k d ≡ get_or runs.old k d }
    ensures within { result ≤ kept + 1 }
    ensures len { length runs.new ≡ length runs.old }
{
    if kept > 0 {
        let last = runs[kept - 1];
        if last.0 == pass {
            runs[kept - 1] = (pass, last.1 + count);
            return kept;
        }
    }
    runs[kept] = (pass, count);
    kept + 1
}

/// Brings some runs together at the front, with passes 5 to 7 read as 4, in the longest runs again: how many these are.
fn join_runs(runs: &mut [(u32, u32)]) -> usize
    requires some { (k : ℕ) (d : ℕ × ℕ) → k < length runs.old → 1 ≤ (get_or runs.old k d).1 }
    requires few { (p : ℕ) → times p (read_journal (passes_of runs.old)) ≤ 4294967295 }
    ensures passes { passes_of (take result runs.new) ≡ read_journal (passes_of runs.old) }
    ensures longest { take result runs.new ≡ runs_of (passes_of (take result runs.new)) }
    ensures within { result ≤ length runs.new }
    ensures len { length runs.new ≡ length runs.old }
{
    let mut kept = 0;
    for place in 0..runs.len() {
        let (pass, count) = runs[place];
        kept = put_run(runs, kept, read_pass(pass), count);
    }
    kept
}
