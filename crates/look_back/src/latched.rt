//! The times that were in force when the present colour and the present signal of each phase
//! began. They are read once, at the first tick of the colour or the signal, and kept as the
//! tables have them beside the window.

ghost use Rattle.std.specs.Prelude.{◌≡◌, ◌<◌, ◌≤◌, ◌+◌, ◌∷◌, [], ℕ, List, get_or};
ghost use Rattle.sig_types.specs.declared.frame.Colour.TheVariants.{Green};
ghost use Rattle.sig_types.specs.declared.frame.Ped.TheVariants.{Walk};
ghost use Rattle.sig_tables.specs.Past.{Moment};
ghost use Rattle.look_back.specs.Latched.{colour_cell, signal_cell, colour_ticks, signal_ticks, colour_time, signal_time, ColourSteps, SignalSteps};

use crate::shown::{same_colours, same_signals};
use sig_tables::Tables;
use sig_types::{Colour, Frame, Ped};

/// The times of sixteen phases, as the tables have them: seconds of green, walk and pedestrian clearance, tenths of a
/// second of yellow change and red clearance, 0 of what has no time. Phase p is at place p - 1.
#[derive(Drop)]
pub struct Latched {
    veh: [Colour; 16],
    ped: [Ped; 16],
    colours: [u8; 16],
    signals: [u8; 16],
}

/// The cell of the tables that says how long a phase, 1 to 16, shows a colour; of green it is the least.
fn colour_cell(t: &Tables, phase: u8, colour: Colour) -> u8
    requires above { 0 < phase }
    requires below { phase ≤ 16 }
    ensures { result ≡ colour_cell t.now phase colour }
{
    let row = t.phase(phase);
    match colour {
        Colour::Green => row.minimum_green,
        Colour::Yellow => row.yellow_change,
        Colour::Clear => row.red_clear,
        Colour::Red => 0,
    }
}

/// The cell of the tables that says how long a phase, 1 to 16, shows a signal.
fn signal_cell(t: &Tables, phase: u8, signal: Ped) -> u8
    requires above { 0 < phase }
    requires below { phase ≤ 16 }
    ensures { result ≡ signal_cell t.now phase signal }
{
    let row = t.phase(phase);
    match signal {
        Ped::Walk => row.walk,
        Ped::Flash => row.pedestrian_clear,
        Ped::Dont => 0,
    }
}

/// What the cell says of a colour, in ticks.
fn colour_ticks(colour: Colour, cell: u8) -> u32
    ensures ticks { result ≡ colour_ticks colour cell }
    ensures within { result ≤ 2550 }
{
    match colour {
        Colour::Green => (u32::from(cell) * 10).max(1),
        _ => u32::from(cell),
    }
}

/// What the cell says of a signal, in ticks.
fn signal_ticks(cell: u8) -> u32
    ensures ticks { result ≡ signal_ticks cell }
    ensures within { result ≤ 2550 }
{
    u32::from(cell) * 10
}

/// The cell of a colour that a phase, 1 to 16, shows: kept where it showed it before, else that of the tables.
fn colour_step(cell: u8, before: Colour, shown: Colour, phase: u8, t: &Tables) -> u8
    requires above { 0 < phase }
    requires below { phase ≤ 16 }
    ensures { ColourSteps cell result before shown phase t.now }
{
    if before == shown {
        cell
    } else {
        colour_cell(t, phase, shown)
    }
}

/// The cell of a signal that a phase, 1 to 16, shows: kept where it showed it before, else that of the tables.
fn signal_step(cell: u8, before: Ped, shown: Ped, phase: u8, t: &Tables) -> u8
    requires above { 0 < phase }
    requires below { phase ≤ 16 }
    ensures { SignalSteps cell result before shown phase t.now }
{
    if before == shown {
        cell
    } else {
        signal_cell(t, phase, shown)
    }
}

/// The cells of the colours of sixteen phases after one more frame. Where all show what they showed, nothing is read.
fn step_colours(cells: &mut [u8; 16], before: &[Colour; 16], shown: &[Colour; 16], t: &Tables)
    ensures { (k : ℕ) → k < 16
        → ColourSteps (get_or cells.old k 0) (get_or cells.new k 0) (get_or before.now k Green) (get_or shown.now k Green) (k + 1) t.now }
{
    if same_colours(before, shown) {
        return;
    }
    for p in 0..16 {
        cells[p] = colour_step(cells[p], before[p], shown[p], p as u8 + 1, t);
    }
}

/// The cells of the signals of sixteen phases after one more frame. Where all show what they showed, nothing is read.
fn step_signals(cells: &mut [u8; 16], before: &[Ped; 16], shown: &[Ped; 16], t: &Tables)
    ensures { (k : ℕ) → k < 16
        → SignalSteps (get_or cells.old k 0) (get_or cells.new k 0) (get_or before.now k Walk) (get_or shown.now k Walk) (k + 1) t.now }
{
    if same_signals(before, shown) {
        return;
    }
    for p in 0..16 {
        cells[p] = signal_step(cells[p], before[p], shown[p], p as u8 + 1, t);
    }
}

impl Latched {
    ghost use Rattle.sig_types.specs.Colour.{colour_of, signal_of};
    ghost use Rattle.sig_tables.specs.declared.tables.Tables.{Tables};
    ghost use Rattle.sig_tables.specs.Looking.{last_frame, latched, signal_latched};
    ghost use Rattle.look_back.specs.Latching.{LatchedStands};

    /// Before any frame; all is red, and no time runs.
    pub fn new() -> Latched
        ensures { LatchedStands result [] }
    {
        Latched {
            veh: [Colour::Red; 16],
            ped: [Ped::Dont; 16],
            colours: [0; 16],
            signals: [0; 16],
        }
    }

    /// One more frame, and the tables in force at its tick.
    pub fn step(&mut self, shown: &Frame, t: &Tables)
        ensures { (past : List Moment) (m : Moment) → LatchedStands self.old past → m.frame ≡ shown.now → m.tables ≡ t.now
            → LatchedStands self.new (m ∷ past) }
    {
        step_colours(&mut self.colours, &self.veh, &shown.veh, t);
        step_signals(&mut self.signals, &self.ped, &shown.ped, t);
        self.veh = shown.veh;
        self.ped = shown.ped;
    }

    /// The time in ticks of the colour that a phase, 1 to 16, shows in the last frame, as it was when that colour began.
    pub fn colour(&self, phase: u8, shown: Colour) -> u32
        requires above { 0 < phase }
        requires below { phase ≤ 16 }
        ensures time { (past : List Moment) (now : Tables) → LatchedStands self.now past → shown ≡ colour_of (last_frame past) phase
            → result ≡ colour_time (latched phase shown now past) phase shown }
        ensures within { result ≤ 2550 }
    {
        colour_ticks(shown, self.colours[phase as usize - 1])
    }

    /// The time in ticks of the signal that a phase, 1 to 16, shows in the last frame, as it was when that signal began.
    pub fn signal(&self, phase: u8, shown: Ped) -> u32
        requires above { 0 < phase }
        requires below { phase ≤ 16 }
        ensures time { (past : List Moment) (now : Tables) → LatchedStands self.now past → shown ≡ signal_of (last_frame past) phase
            → result ≡ signal_time (signal_latched phase shown now past) phase shown }
        ensures within { result ≤ 2550 }
    {
        signal_ticks(self.signals[phase as usize - 1])
    }
}
