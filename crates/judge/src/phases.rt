//! What is kept of a phase, and what a line shows that it breaks.

ghost use Rattle.std.specs.Prelude.{◌≡◌, ℕ, [], true};
ghost use Rattle.sig_types.specs.Phases.{is_phase};
ghost use Rattle.sig_tables.specs.declared.tables.Tables.{Tables as TablesOf};

use crate::colours::ColourWatch;
use crate::lengths::Step;
use crate::lesser::LesserTimes;
use crate::order::{colour_follows, is_off_green, signal_follows};
use crate::signals::SignalWatch;
use sig_tables::PhaseTimes;
use sig_types::{Colour, Ped, PhaseSet};

/// What a line breaks in the course of a phase's colours and pedestrian signals.
#[derive(Clone, Copy, PartialEq, Eq)]
pub struct CourseFound {
    pub order: bool,
    pub clearance: bool,
    pub green: bool,
    pub pedestrian: bool,
    pub on_green: bool,
}

/// What a line breaks at a phase: the phases that are on together with it and may not be, whether it is lit and disabled, and its
/// course.
#[derive(Clone, Copy, PartialEq, Eq)]
pub struct PhaseFound {
    pub together: PhaseSet,
    pub lit: bool,
    pub course: CourseFound,
}

/// The ticks since which a phase shows a yellow, a red clearance, a walk and a pedestrian clearance that have run over their time.
#[derive(Clone, Copy, PartialEq, Eq)]
pub struct PhaseOverruns {
    pub yellow: Option<u32>,
    pub clear: Option<u32>,
    pub walk: Option<u32>,
    pub flash: Option<u32>,
}

/// What is kept of a phase.
#[derive(Clone, Copy)]
pub struct PhaseWatch {
    colour: ColourWatch,
    signal: SignalWatch,
}

/// What is kept of a phase after a line, and what the line breaks in its course.
#[derive(Clone, Copy)]
pub struct PhaseJudged {
    pub watch: PhaseWatch,
    pub found: CourseFound,
}

impl PhaseWatch {
    ghost use Rattle.judge.specs.Phase.{Follows, JudgesOrder, PhaseSteps, RunsOver};

    /// Before any line.
    pub fn new(joined: bool) -> PhaseWatch
        ensures { (tables : ℕ → TablesOf) (p : ℕ) → is_phase p ≡ true → Follows result joined tables p [] }
    {
        PhaseWatch {
            colour: ColourWatch::new(joined),
            signal: SignalWatch::new(joined),
        }
    }

    /// What has run over its time at a tick.
    pub fn overruns(&self, tick: u32, tolerance: u8) -> PhaseOverruns
        ensures { (p : ℕ) → RunsOver self.now result tick tolerance p }
    {
        PhaseOverruns {
            yellow: self.colour.overrun(Colour::Yellow, tick, tolerance),
            clear: self.colour.overrun(Colour::Clear, tick, tolerance),
            walk: self.signal.overrun(Ped::Walk, tick, tolerance),
            flash: self.signal.overrun(Ped::Flash, tick, tolerance),
        }
    }

    /// Whether the colour or the pedestrian signal of a line is neither the last one nor the one that follows it.
    fn is_out_of_order(
        &self,
        step: Step,
        colour: Colour,
        signal: Ped,
        times: &PhaseTimes,
        left: Option<LesserTimes>,
    ) -> bool
        ensures { (p : ℕ) → JudgesOrder self.now result p step colour signal times.now left }
    {
        if step.tick == 0 || !step.known {
            return false;
        }
        let colours = colour_follows(self.colour.colour, colour, times);
        let signals = signal_follows(self.signal.signal, signal, times, left);
        !(colours && signals)
    }

    /// Takes a line.
    pub fn after(
        self,
        step: Step,
        colour: Colour,
        signal: Ped,
        times: &PhaseTimes,
        left: Option<LesserTimes>,
    ) -> PhaseJudged
        ensures { (p : ℕ) → PhaseSteps self result.watch result.found p step colour signal times.now left }
    {
        let colours = self.colour.after(step, colour, times, left);
        let signals = self.signal.after(step, signal, times, left);
        PhaseJudged {
            watch: PhaseWatch {
                colour: colours.watch,
                signal: signals.watch,
            },
            found: CourseFound {
                order: self.is_out_of_order(step, colour, signal, times, left),
                clearance: colours.clearance,
                green: colours.green,
                pedestrian: signals.wrong,
                on_green: is_off_green(colour, signal),
            },
        }
    }
}
