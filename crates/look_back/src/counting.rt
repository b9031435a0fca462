//! The counters that continue from the last frame: those of the frames in a row that are coordinated in its pattern,
//! under its version of the tables.

ghost use Rattle.std.specs.Prelude.{◌≡◌, ◌<◌, ◌≤◌, ◌+◌, ◌∷◌, ◌++◌, [], length, ℕ, List};
ghost use Rattle.sig_types.specs.declared.frame.Mode.TheVariants.{Coord};
ghost use Rattle.sig_tables.specs.Past.{Moment};
ghost use Rattle.sig_tables.specs.Looking.{last_frame};
ghost use Rattle.sig_tables.specs.Counters.{counters_since};
ghost use Rattle.coord_count.specs.CountStands.{CountStands, counter_of};
ghost use Rattle.coord_count.specs.Passed.{passed};

use crate::sample::same_mode;
use coord_count::Count;
use sig_types::{Frame, Mode};

/// The mode and the version of the last frame, and what is kept of these counters.
#[derive(Clone, Copy)]
pub struct Counting {
    mode: Mode,
    version: u32,
    count: Count,
}

/// What is kept of one counter, that of a pickup.
fn picked_up(counter: u32) -> Count
    ensures { CountStands result (counter ∷ []) }
{
    let mut count = Count::new();
    count.pass(counter);
    count
}

/// What is kept with one counter more.
fn with(count: Count, counter: u32) -> Count
    ensures { (last : ℕ) (before : List ℕ) → CountStands count (last ∷ before) → CountStands result (counter ∷ last ∷ before) }
{
    let mut more = count;
    more.keep(counter);
    more
}

/// What is kept with N counters more, each one more than the last, as far as there are numbers.
fn gone_on(count: Count, ticks: u32) -> Count
    ensures { counter_of count + ticks ≤ 4294967295 → result ≡ passed ticks count }
{
    let mut more = count;
    let room = u32::MAX - count.counter();
    more.pass(ticks.min(room));
    more
}

impl Counting {
    ghost use Rattle.sig_types.specs.declared.phase_set.PhaseSet.{PhaseSet};
    ghost use Rattle.look_back.specs.Counts.{CountingStands, counters_in};
    ghost use Rattle.look_back.specs.Again.{AllGoOn};

    /// Before any frame.
    pub fn new() -> Counting
        ensures { CountingStands result [] }
    {
        Counting {
            mode: Mode::Start,
            version: 0,
            count: Count::new(),
        }
    }

    /// One more frame.
    pub fn step(self, shown: &Frame) -> Counting
        ensures { (past : List Moment) (m : Moment) → CountingStands self past → m.frame ≡ shown.now → CountingStands result (m ∷ past) }
    {
        let count = self.count_after(shown);
        Counting {
            mode: shown.mode,
            version: shown.version,
            count,
        }
    }

    /// N more frames, one at least, that continue the last one, as far as there are numbers for their counters.
    pub fn step_again(self, ticks: u32) -> Counting
        requires { 0 < ticks }
        ensures { (active pressed : PhaseSet) (last : Moment) (before ms : List Moment) → CountingStands self (last ∷ before)
            → length ms ≡ ticks → last.frame.counter + ticks ≤ 4294967295 → AllGoOn active pressed ms (last ∷ before)
            → CountingStands result (ms ++ last ∷ before) }
    {
        match self.mode {
            Mode::Coord(_) => Counting {
                mode: self.mode,
                version: self.version,
                count: gone_on(self.count, ticks),
            },
            _ => self,
        }
    }

    /// What is kept of the counters with those of one more frame.
    fn count_after(self, shown: &Frame) -> Count
        ensures { (past : List Moment) (m : Moment) → CountingStands self past → m.frame ≡ shown.now
            → CountStands result (counters_in shown.now.mode shown.now.version (m ∷ past)) }
    {
        match shown.mode {
            Mode::Coord(_) => {
                if !same_mode(self.mode, shown.mode) {
                    picked_up(shown.counter)
                } else if self.version == shown.version {
                    with(self.count, shown.counter)
                } else {
                    picked_up(shown.counter)
                }
            }
            _ => Count::new(),
        }
    }

    /// What is kept of the counters of the last frames in a row that are coordinated in the pattern of the last one,
    /// under its version; of these the counter of the next frame is `Count::next`.
    pub fn count(self) -> Count
        ensures { (past : List Moment) (n : ℕ) → CountingStands self past → (last_frame past).mode ≡ Coord n
            → CountStands result (counters_since n (last_frame past).version past) }
    {
        self.count
    }
}
