//! Runs of frames of which the same is kept. The newest is apart from the older ones, so that a frame like the last one
//! is one more of it and nothing else. Of the older ones the last 4,096 are kept: they reach over 4,096 frames or more.

ghost use Rattle.std.specs.Prelude.{◌≡◌, ◌<◌, ◌≤◌, ◌+◌, ◌∷◌, ◌++◌, [], length, ℕ, List, min, IfOk};
ghost use Rattle.circular_buffer.specs.Buffer.{buffer};
ghost use Rattle.look_back.specs.Spread.{more_of};
ghost use Rattle.look_back.specs.Again.{more_by};
ghost use Rattle.sig_tables.specs.Past.{Moment};
ghost use Rattle.sig_tables.specs.Looking.{in_a_row};

use crate::sample::{Look, Sample};
use circular_buffer::HeapCircularBuffer;
use sig_types::NoMemory;
use std::alloc::Global;

/// The number of frames in a row of which the same is kept; 4,096 means that many or more.
#[derive(Clone, Copy)]
pub struct FrameRun {
    pub sample: Sample,
    pub ticks: u16,
}

/// What is kept of the last frames, 4,096 of them or more.
#[derive(Drop)]
pub struct FrameRuns {
    newest: FrameRun,
    older: HeapCircularBuffer<FrameRun>,
}

/// One frame more than this number.
fn one_more(ticks: u16) -> u16
    ensures { result ≡ more_of ticks }
{
    if ticks < 4096 { ticks + 1 } else { ticks }
}

/// N frames more than this number.
fn more_by(ticks: u16, more: u32) -> u16
    ensures { result ≡ more_by ticks more }
{
    if ticks < 4096 {
        (u32::from(ticks).saturating_add(more)).min(4096) as u16
    } else {
        ticks
    }
}

impl FrameRuns {
    ghost use Rattle.look_back.specs.Look.{Tells, LooksAtPhase, is_so, is_told};
    ghost use Rattle.look_back.specs.Spread.{told_run};
    ghost use Rattle.look_back.specs.FrameRunsKeep.{FrameRunsKeep, newest_of};
    ghost use Rattle.look_back.specs.Again.{AllTell, lengthened};

    /// Room for the runs of frames, of which none has come; before them this is shown.
    pub fn open(alloc: Global, before: Sample) -> Result<FrameRuns, NoMemory>
        ensures keeps { IfOk result (λ kept. FrameRunsKeep kept []) }
        ensures newest { IfOk result (λ kept. newest_of kept ≡ before) }
    {
        match HeapCircularBuffer::with_capacity(alloc, 4096) {
            Ok(older) => Ok(FrameRuns::of(older, before)),
            Err(_) => Err(NoMemory),
        }
    }

    /// No run in this room; before any frame this is shown.
    fn of(older: HeapCircularBuffer<FrameRun>, before: Sample) -> FrameRuns
        requires { older ≡ buffer [] 4096 }
        ensures keeps { FrameRunsKeep result [] }
        ensures newest { newest_of result ≡ before }
    {
        let newest = FrameRun {
            sample: before,
            ticks: 0,
        };
        FrameRuns { newest, older }
    }

    /// What is kept of the last frame.
    pub fn newest(&self) -> Sample
        ensures { result ≡ newest_of self.now }
    {
        self.newest.sample
    }

    /// One more frame, of which this is kept. It takes no memory.
    pub fn add(&mut self, sample: Sample)
        ensures keeps { (past : List Moment) (m : Moment) → FrameRunsKeep self.old past → Tells sample m → FrameRunsKeep self.new (m ∷ past) }
        ensures newest { newest_of self.new ≡ sample }
    {
        if sample.is_same(&self.newest.sample) {
            self.newest.ticks = one_more(self.newest.ticks);
        } else if self.newest.ticks == 0 {
            self.newest = FrameRun { sample, ticks: 1 };
        } else {
            self.older.push_front(self.newest);
            self.newest = FrameRun { sample, ticks: 1 };
        }
    }

    /// N more frames, one at least, of each of which this is kept. It takes no memory.
    pub fn add_again(&mut self, sample: Sample, ticks: u32)
        requires { 0 < ticks }
        ensures keeps { (past ms : List Moment) → FrameRunsKeep self.old past → length ms ≡ ticks → AllTell sample ms
            → FrameRunsKeep self.new (ms ++ past) }
        ensures newest { newest_of self.new ≡ sample }
    {
        self.add(sample);
        self.lengthen(ticks - 1);
    }

    /// N more frames of the newest run.
    fn lengthen(&mut self, ticks: u32)
        ensures { self.new ≡ lengthened ticks self.old }
    {
        self.newest.ticks = more_by(self.newest.ticks, ticks);
    }

    /// For how many last frames in a row it was so, at most `most`.
    pub fn look(&self, look: Look, most: u32) -> u32
        requires phase { LooksAtPhase look }
        requires within { most ≤ 4096 }
        ensures { (past : List Moment) → FrameRunsKeep self.now past → result ≡ min (in_a_row (is_so look) past) most }
    {
        if self.newest.sample.tells(look) {
            self.continued(look, u32::from(self.newest.ticks), most)
        } else {
            0
        }
    }

    /// This number of frames and those of the older runs in a row in which it was so, at most `most`.
    fn continued(&self, look: Look, start: u32, most: u32) -> u32
        requires phase { LooksAtPhase look }
        requires within { most ≤ 4096 }
        ensures { result ≡ min (start + told_run (is_told look) self.now.older.items) most }
    {
        let mut frames = start;
        for frame_run in self.older.iter() {
            if frames >= most {
                return most;
            }
            if !frame_run.sample.tells(look) {
                return frames;
            }
            frames += u32::from(frame_run.ticks);
        }
        frames.min(most)
    }
}
