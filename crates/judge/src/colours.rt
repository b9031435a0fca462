//! What is kept of the colour of a phase: since when it is shown, and how long it must last.

ghost use Rattle.std.specs.Prelude.{◌≡◌, ℕ, Bool, [], not, true};
ghost use Rattle.sig_types.specs.Phases.{is_phase};
ghost use Rattle.sig_tables.specs.declared.tables.Tables.{Tables as TablesOf};

use crate::lengths::{Step, green_due};
use crate::lesser::LesserTimes;
use sig_tables::PhaseTimes;
use sig_types::Colour;

/// The colour of a phase, the tick since which it is shown, and its time by the tables of that tick; and whether the log shows the
/// line at which it began.
#[derive(Clone, Copy)]
pub struct ColourWatch {
    pub(crate) colour: Colour,
    since: u32,
    time: u16,
    begun: bool,
}

/// What is kept after a line, and whether the line ends a yellow or a red clearance of the wrong length, or a green too early.
#[derive(Clone, Copy)]
pub struct ColourJudged {
    pub watch: ColourWatch,
    pub clearance: bool,
    pub green: bool,
}

impl ColourWatch {
    ghost use Rattle.judge.specs.Watches.{Watches, JudgesClearance, JudgesGreen, WatchesNext, ColourRunsOver};

    /// Before any line.
    pub fn new(joined: bool) -> ColourWatch
        ensures { (tables : ℕ → TablesOf) (p : ℕ) → is_phase p ≡ true → Watches result joined tables p [] }
    {
        ColourWatch {
            colour: Colour::Red,
            since: 0,
            time: 0,
            begun: !joined,
        }
    }

    /// The tick since which this colour is shown, if it has run over its time at a tick.
    pub fn overrun(self, colour: Colour, tick: u32, tolerance: u8) -> Option<u32>
        ensures { (p : ℕ) → ColourRunsOver self result colour tick tolerance p }
    {
        let over = u64::from(self.since) + u64::from(self.time) + u64::from(tolerance)
            < u64::from(tick);
        if self.colour == colour && over {
            Some(self.since)
        } else {
            None
        }
    }

    /// Takes a line.
    pub fn after(
        self,
        step: Step,
        now: Colour,
        times: &PhaseTimes,
        left: Option<LesserTimes>,
    ) -> ColourJudged
        ensures clearance { (p : ℕ) → JudgesClearance self result.clearance p step now times.now left }
        ensures green { (p : ℕ) → JudgesGreen self result.green p step now times.now left }
        ensures watches { (p : ℕ) → WatchesNext self result.watch p step now times.now left }
    {
        if now == self.colour {
            return ColourJudged {
                watch: self,
                clearance: false,
                green: false,
            };
        }
        let clearance = match self.colour {
            Colour::Yellow | Colour::Clear => {
                let least = step.is_past(self.since, self.time);
                let most = step.is_within(self.since, self.time);
                self.begun && !(least && most)
            }
            _ => false,
        };
        let green = match self.colour {
            Colour::Green => { self.begun && !step.is_past(self.since, green_due(left, self.time)) }
            _ => false,
        };
        let time = match now {
            Colour::Green => (u16::from(times.minimum_green) * 10).max(1),
            Colour::Yellow => u16::from(times.yellow_change),
            Colour::Clear => u16::from(times.red_clear),
            Colour::Red => 0,
        };
        ColourJudged {
            watch: ColourWatch {
                colour: now,
                since: step.tick,
                time,
                begun: step.known,
            },
            clearance,
            green,
        }
    }
}
