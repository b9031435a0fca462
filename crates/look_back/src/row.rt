//! A row of last frames in which something was so, as a number: what is compared with times that
//! reach further than the window.

ghost use Rattle.std.specs.Prelude.{◌≡◌, ◌++◌, [], length, List, Bool};
ghost use Rattle.sig_tables.specs.Past.{Moment};
ghost use Rattle.sig_tables.specs.Looking.{lasts, lasts_now};

/// For how many last frames in a row something was so; the greatest number means that many or more.
#[derive(Clone, Copy)]
pub struct Row {
    frames: u32,
}

impl Row {
    ghost use Rattle.look_back.specs.Rows.{RowStands, RowSteps};
    ghost use Rattle.look_back.specs.Again.{AllPass};

    /// No frame has come.
    pub fn new() -> Row
        ensures { (test : Moment → Bool) → RowStands result test [] }
    {
        Row { frames: 0 }
    }

    /// One more frame, in which it was so or not.
    pub fn step(self, is_so: bool) -> Row
        ensures { RowSteps self result is_so }
    {
        if is_so {
            Row {
                frames: self.frames.saturating_add(1),
            }
        } else {
            Row { frames: 0 }
        }
    }

    /// N frames more, in each of which it was so.
    pub fn more(self, ticks: u32) -> Row
        ensures { (test : Moment → Bool) (past ms : List Moment) → RowStands self test past → length ms ≡ ticks → AllPass test ms
            → RowStands result test (ms ++ past) }
    {
        Row {
            frames: self.frames.saturating_add(ticks),
        }
    }

    /// Whether it was so in each of the last N frames.
    pub fn lasts(self, frames: u32) -> bool
        ensures { (test : Moment → Bool) (past : List Moment) → RowStands self test past → result ≡ lasts frames test past }
    {
        self.frames >= frames
    }

    /// Whether it is so at this tick, and was so in each of the frames before it, N in all.
    pub fn lasts_now(self, frames: u32, now: bool) -> bool
        ensures { (test : Moment → Bool) (past : List Moment) → RowStands self test past → result ≡ lasts_now frames now test past }
    {
        if frames == 0 {
            true
        } else if now {
            self.lasts(frames - 1)
        } else {
            false
        }
    }
}
