//! The frame history of a cabinet: the window, the times that were latched, and what reaches further
//! than the window. What colours and signals follow by themselves, and whether a green has had
//! its least, are read off it.

ghost use Rattle.std.specs.Prelude.{◌≡◌, ◌<◌, ◌≤◌, ◌==◌, ◌+◌, ◌∷◌, ◌++◌, [], length, ℕ, List, min, nat_le, IfOk};
ghost use Rattle.sig_types.specs.Phases.{is_in};
ghost use Rattle.sig_types.specs.PhaseSet.{has};
ghost use Rattle.sig_types.specs.Colour.{colour_of, signal_of};
ghost use Rattle.sig_tables.specs.declared.tables.Tables.{Tables};
ghost use Rattle.sig_tables.specs.Past.{Moment};
ghost use Rattle.sig_tables.specs.Looking.{last_frame, run, latched, signal_run, start_run, runs_on};
ghost use Rattle.sig_tables.specs.Lesser.{signal_runs_within};
ghost use Rattle.sig_tables.specs.View.{is_served};
ghost use Rattle.look_back.specs.Latched.{colour_time};
ghost use Rattle.look_back.specs.Cuts.{lesser_of};

use crate::counting::Counting;
use crate::cuts::{Cut, after_walk, is_clearance_over, is_walk_over};
use crate::latched::Latched;
use crate::long_counts::LongCounts;
use crate::sample::Look;
use crate::times::pedestrian_clear_time;
use crate::window::{Seen, Window};
use sig_tables::Tables;
use sig_types::{Colour, Mode, NoMemory, Ped, PhaseSet};
use std::alloc::Global;

/// What is kept of a cabinet to look back over.
#[derive(Drop)]
pub struct FrameHistory {
    window: Window,
    latched: Latched,
    long_counts: LongCounts,
    counting: Counting,
}

impl FrameHistory {
    ghost use Rattle.look_back.specs.WindowStands.{WindowStands, Saw};
    ghost use Rattle.look_back.specs.Latching.{LatchedStands};
    ghost use Rattle.look_back.specs.LongCounts.{LongCountsStands};
    ghost use Rattle.look_back.specs.Counts.{CountingStands};
    ghost use Rattle.look_back.specs.FrameHistories.{LooksOver};
    ghost use Rattle.look_back.specs.Again.{AllGoOn};

    /// Before any frame.
    pub fn open(alloc: Global) -> Result<FrameHistory, NoMemory>
        ensures { IfOk result (λ frame_history. LooksOver frame_history []) }
    {
        match Window::open(alloc) {
            Ok(window) => Ok(FrameHistory::over(window)),
            Err(refused) => Err(refused),
        }
    }

    /// Over this window, which is over no frame.
    fn over(window: Window) -> FrameHistory
        requires { WindowStands window [] }
        ensures { LooksOver result [] }
    {
        FrameHistory {
            window,
            latched: Latched::new(),
            long_counts: LongCounts::new(),
            counting: Counting::new(),
        }
    }

    /// One more frame and what its tick saw; the tables in force at it, and the preempt inputs that were on, 1 to 8 in a set as
    /// phases are. It takes no memory.
    pub fn push(&mut self, seen: &Seen, t: &Tables, preempts: PhaseSet)
        ensures { (past : List Moment) (m : Moment) → LooksOver self.old past → Saw m seen.now past → m.tables ≡ t.now
            → ((i : ℕ) → 0 < i → i ≤ 8 → has preempts i ≡ is_in m.preempts i)
            → LooksOver self.new (m ∷ past) }
    {
        self.window.push(seen);
        self.latched.step(&seen.frame, t);
        self.long_counts.step(&seen.frame, preempts);
        self.counting = self.counting.step(&seen.frame);
    }

    /// N more frames that continue the last one, if there is one: each shows what it shows, coordinated in a pattern,
    /// with a counter that is one more, as far as there are numbers for it. At their ticks these phases were active,
    /// and to these a conflicting phase had demand; no preempt input was on. It takes no memory, and the same time for
    /// any number.
    pub fn push_again(&mut self, active: PhaseSet, opposed: PhaseSet, ticks: u32)
        ensures { (last : Moment) (before ms : List Moment) → LooksOver self.old (last ∷ before) → length ms ≡ ticks
            → last.frame.counter + ticks ≤ 4294967295 → AllGoOn active opposed ms (last ∷ before)
            → LooksOver self.new (ms ++ last ∷ before) }
    {
        if ticks > 0 {
            self.go_on(active, opposed, ticks);
        }
    }

    /// The same for one frame at least.
    fn go_on(&mut self, active: PhaseSet, opposed: PhaseSet, ticks: u32)
        requires { 0 < ticks }
        ensures { (last : Moment) (before ms : List Moment) → LooksOver self.old (last ∷ before) → length ms ≡ ticks
            → last.frame.counter + ticks ≤ 4294967295 → AllGoOn active opposed ms (last ∷ before)
            → LooksOver self.new (ms ++ last ∷ before) }
    {
        self.window.push_again(active, opposed, ticks);
        self.long_counts.step_again(ticks);
        self.counting = self.counting.step_again(ticks);
    }

    /// The window.
    pub fn window(&self) -> &Window
        ensures { (past : List Moment) → LooksOver self.now past → WindowStands result.now past }
    {
        &self.window
    }

    /// What reaches further than the window.
    pub fn long_counts(&self) -> &LongCounts
        ensures { (past : List Moment) → LooksOver self.now past → LongCountsStands result.now past }
    {
        &self.long_counts
    }

    /// The times of the present colours and signals.
    pub fn latched(&self) -> &Latched
        ensures { (past : List Moment) → LooksOver self.now past → LatchedStands result.now past }
    {
        &self.latched
    }

    /// The counters that continue from the last frame.
    pub fn counting(&self) -> Counting
        ensures { (past : List Moment) → LooksOver self.now past → CountingStands result past }
    {
        self.counting
    }

    /// For how many last frames in a row the cabinet has been in start-up, where these are no more than 60.
    pub fn start_run(&self) -> u32
        ensures { (past : List Moment) → LooksOver self.now past → start_run past ≤ 60 → result ≡ start_run past }
    {
        self.window.look(Look::IsIn { mode: Mode::Start }, 61)
    }

    /// The colour that follows by itself on a phase, 1 to 16, which shows this one in the last frame, under these tables.
    pub fn runs_on(&self, t: &Tables, phase: u8, shown: Colour) -> Colour
        requires above { 0 < phase }
        requires below { phase ≤ 16 }
        ensures { (past : List Moment) → LooksOver self.now past → shown ≡ colour_of (last_frame past) phase
            → result ≡ runs_on phase t.now past shown }
    {
        match shown {
            Colour::Green => Colour::Green,
            Colour::Yellow => {
                if !self.has_cleared(phase, Colour::Yellow) {
                    Colour::Yellow
                } else if t.phase(phase).red_clear == 0 {
                    Colour::Red
                } else {
                    Colour::Clear
                }
            }
            Colour::Clear => {
                if self.has_cleared(phase, Colour::Clear) {
                    Colour::Red
                } else {
                    Colour::Clear
                }
            }
            Colour::Red => Colour::Red,
        }
    }

    /// The signal that follows by itself on a phase, 1 to 16, which shows this one in the last frame, under these tables; walk and
    /// pedestrian clearance last in full, or are cut short.
    pub fn signal_runs_on(&self, t: &Tables, phase: u8, shown: Ped, cut: Option<Cut>) -> Ped
        requires above { 0 < phase }
        requires below { phase ≤ 16 }
        ensures { (past : List Moment) → LooksOver self.now past → shown ≡ signal_of (last_frame past) phase
            → result ≡ signal_runs_within (lesser_of cut) phase t.now past shown }
    {
        match shown {
            Ped::Walk => {
                let time = self.latched.signal(phase, shown);
                let frames = self.window.ped_run(phase, shown, time + 1);
                if is_walk_over(cut, time, frames) {
                    after_walk(cut, pedestrian_clear_time(t, phase))
                } else {
                    Ped::Walk
                }
            }
            Ped::Flash => {
                let time = self.latched.signal(phase, shown);
                let frames = self.window.ped_run(phase, shown, time + 1);
                if is_clearance_over(cut, time, frames) {
                    Ped::Dont
                } else {
                    Ped::Flash
                }
            }
            Ped::Dont => Ped::Dont,
        }
    }

    /// Whether a phase, 1 to 16, which shows this colour and this signal in the last frame, has been green for the
    /// minimum green that was in force when it began, and no walk or pedestrian clearance of it continues.
    pub fn is_served(&self, t: &Tables, phase: u8, shown: Colour, signal: Ped) -> bool
        requires above { 0 < phase }
        requires below { phase ≤ 16 }
        ensures { (past : List Moment) → LooksOver self.now past → shown ≡ colour_of (last_frame past) phase
            → signal ≡ signal_of (last_frame past) phase → result ≡ is_served t.now past phase }
    {
        if shown != Colour::Green {
            return false;
        }
        let least = self.latched.colour(phase, Colour::Green);
        if self.window.run(phase, Colour::Green, least) < least {
            return false;
        }
        self.signal_runs_on(t, phase, signal, None) == Ped::Dont
    }

    /// Whether a phase, 1 to 16, which shows this colour in the last frame, has shown it for just the time that was in force when
    /// it began.
    fn has_cleared(&self, phase: u8, shown: Colour) -> bool
        requires above { 0 < phase }
        requires below { phase ≤ 16 }
        ensures { (past : List Moment) (now : Tables) → LooksOver self.now past → shown ≡ colour_of (last_frame past) phase
            → result ≡ (run phase shown past == colour_time (latched phase shown now past) phase shown) }
    {
        let time = self.latched.colour(phase, shown);
        self.window.run(phase, shown, time + 1) == time
    }
}
