//! The window over the last frames of a cabinet: what is pushed of each frame, and what looking
//! back over them gives.

ghost use Rattle.std.specs.Prelude.{◌≡◌, ◌<◌, ◌≤◌, ◌∷◌, ◌++◌, [], length, ℕ, List, min, IsTrue, IfOk};
ghost use Rattle.sig_tables.specs.Past.{Moment, first_frame};
ghost use Rattle.sig_tables.specs.Looking.{last_frame, in_a_row, run, signal_run};
ghost use Rattle.look_back.specs.Shown.{IsShown};

use crate::frame_runs::FrameRuns;
use crate::sample::{Look, Sample};
use crate::shown::{Shown, same_colours, same_signals};
use sig_types::{Colour, Frame, Mode, NoMemory, Ped, PhaseSet};
use std::alloc::Global;

/// A frame, and what the tick that gave it saw: the phases that were active, and those to which an incompatible phase had
/// demand.
#[derive(Clone, Copy)]
pub struct Seen {
    pub frame: Frame,
    pub active: PhaseSet,
    pub opposed: PhaseSet,
}

/// What was seen of a cabinet since the window was opened: the runs of the last frames, and what the last one shows.
#[derive(Drop)]
pub struct Window {
    kept: FrameRuns,
    veh: [Colour; 16],
    ped: [Ped; 16],
}

impl Window {
    ghost use Rattle.look_back.specs.Look.{LooksAtPhase, is_so};
    ghost use Rattle.look_back.specs.FrameRunsKeep.{FrameRunsKeep, newest_of};
    ghost use Rattle.look_back.specs.WindowStands.{WindowStands, Saw};
    ghost use Rattle.look_back.specs.Again.{AllGoOn};

    /// A window over no frame; before any, all is red.
    pub fn open(alloc: Global) -> Result<Window, NoMemory>
        ensures stands { IfOk result (λ window. WindowStands window []) }
    {
        let before = Sample {
            shown: Shown::of(&[Colour::Red; 16], &[Ped::Dont; 16]),
            first: 0,
            second: 0,
            mode: Mode::Start,
            quiet: PhaseSet::empty(),
            opposed: PhaseSet::empty(),
        };
        match FrameRuns::open(alloc, before) {
            Ok(kept) => Ok(Window::of(kept)),
            Err(refused) => Err(refused),
        }
    }

    /// The window over no frame, with these runs, of which there is none; before any frame all is red.
    fn of(kept: FrameRuns) -> Window
        requires kept { FrameRunsKeep kept [] }
        requires red { IsShown (newest_of kept).shown first_frame.veh first_frame.ped }
        ensures { WindowStands result [] }
    {
        Window {
            kept,
            veh: [Colour::Red; 16],
            ped: [Ped::Dont; 16],
        }
    }

    /// One more frame, and what its tick saw. It takes no memory.
    pub fn push(&mut self, seen: &Seen)
        ensures stands { (past : List Moment) (m : Moment) → WindowStands self.old past → Saw m seen.now past
            → WindowStands self.new (m ∷ past) }
    {
        let green = self.kept.newest().shown.green;
        let sample = Sample {
            shown: self.read(&seen.frame),
            first: seen.frame.on[0],
            second: seen.frame.on[1],
            mode: seen.frame.mode,
            quiet: green.minus(seen.active),
            opposed: green.meet(seen.opposed),
        };
        self.kept.add(sample);
        self.veh = seen.frame.veh;
        self.ped = seen.frame.ped;
    }

    /// N more frames, one at least, that continue the last one, and at whose ticks these phases were active, and to
    /// these a conflicting phase had demand. It takes no memory.
    pub fn push_again(&mut self, active: PhaseSet, opposed: PhaseSet, ticks: u32)
        requires { 0 < ticks }
        ensures stands { (last : Moment) (before ms : List Moment) → WindowStands self.old (last ∷ before) → length ms ≡ ticks
            → AllGoOn active opposed ms (last ∷ before) → WindowStands self.new (ms ++ last ∷ before) }
    {
        let newest = self.kept.newest();
        let green = newest.shown.green;
        let sample = Sample {
            shown: newest.shown,
            first: newest.first,
            second: newest.second,
            mode: newest.mode,
            quiet: green.minus(active),
            opposed: green.meet(opposed),
        };
        self.kept.add_again(sample, ticks);
    }

    /// For how many last frames in a row it was so, at most `most`.
    pub fn look(&self, look: Look, most: u32) -> u32
        requires phase { LooksAtPhase look }
        requires within { most ≤ 4096 }
        ensures { (past : List Moment) → WindowStands self.now past → result ≡ min (in_a_row (is_so look) past) most }
    {
        self.kept.look(look, most)
    }

    /// For how many last frames in a row a phase, 1 to 16, has shown a colour, at most `most`.
    pub fn run(&self, phase: u8, colour: Colour, most: u32) -> u32
        requires above { 0 < phase }
        requires below { phase ≤ 16 }
        requires within { most ≤ 4096 }
        ensures { (past : List Moment) → WindowStands self.now past → result ≡ min (run phase colour past) most }
    {
        self.look(Look::Shows { phase, colour }, most)
    }

    /// For how many last frames in a row a phase, 1 to 16, has shown a signal, at most `most`.
    pub fn ped_run(&self, phase: u8, signal: Ped, most: u32) -> u32
        requires above { 0 < phase }
        requires below { phase ≤ 16 }
        requires within { most ≤ 4096 }
        ensures { (past : List Moment) → WindowStands self.now past → result ≡ min (signal_run phase signal past) most }
    {
        self.look(Look::Signals { phase, signal }, most)
    }

    /// What a frame shows; if it is what the last one showed, nothing is read again.
    fn read(&self, frame: &Frame) -> Shown
        ensures { (past : List Moment) → WindowStands self.now past → IsShown result frame.now.veh frame.now.ped }
    {
        if self.shows_last(frame) {
            self.kept.newest().shown
        } else {
            Shown::of(&frame.veh, &frame.ped)
        }
    }

    /// Whether a frame shows what the last one showed.
    fn shows_last(&self, frame: &Frame) -> bool
        ensures veh { IsTrue result → self.now.veh ≡ frame.now.veh }
        ensures ped { IsTrue result → self.now.ped ≡ frame.now.ped }
    {
        same_colours(&self.veh, &frame.veh) && same_signals(&self.ped, &frame.ped)
    }
}
