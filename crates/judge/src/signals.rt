//! What is kept of the pedestrian signal of a phase: since when it is shown, and how long it must last.

ghost use Rattle.std.specs.Prelude.{◌≡◌, ℕ, [], true};
ghost use Rattle.sig_types.specs.Phases.{is_phase};
ghost use Rattle.sig_tables.specs.declared.tables.Tables.{Tables as TablesOf};

use crate::lengths::{Step, clearance_due, walk_due};
use crate::lesser::LesserTimes;
use sig_tables::PhaseTimes;
use sig_types::Ped;

/// The signal of a phase, the tick since which it is shown, and its time by the tables of that tick; and whether the log shows the
/// line at which it began.
#[derive(Clone, Copy)]
pub struct SignalWatch {
    pub(crate) signal: Ped,
    since: u32,
    time: u16,
    begun: bool,
}

/// What is kept after a line, and whether the line ends a walk or a pedestrian clearance of the wrong length.
#[derive(Clone, Copy)]
pub struct SignalJudged {
    pub watch: SignalWatch,
    pub wrong: bool,
}

impl SignalWatch {
    ghost use Rattle.judge.specs.Signals.{Heeds, JudgesSignal, HeedsNext, SignalRunsOver};

    /// Before any line.
    pub fn new(joined: bool) -> SignalWatch
        ensures { (tables : ℕ → TablesOf) (p : ℕ) → is_phase p ≡ true → Heeds result joined tables p [] }
    {
        SignalWatch {
            signal: Ped::Dont,
            since: 0,
            time: 0,
            begun: !joined,
        }
    }

    /// The tick since which this signal is shown, if it has run over its time at a tick.
    pub fn overrun(self, signal: Ped, tick: u32, tolerance: u8) -> Option<u32>
        ensures { (p : ℕ) → SignalRunsOver self result signal tick tolerance p }
    {
        let over = u64::from(self.since) + u64::from(self.time) + u64::from(tolerance)
            < u64::from(tick);
        if self.signal == signal && over {
            Some(self.since)
        } else {
            None
        }
    }

    /// Takes a line.
    pub fn after(
        self,
        step: Step,
        now: Ped,
        times: &PhaseTimes,
        left: Option<LesserTimes>,
    ) -> SignalJudged
        ensures wrong { (p : ℕ) → JudgesSignal self result.wrong p step now times.now left }
        ensures heeds { (p : ℕ) → HeedsNext self result.watch p step now times.now left }
    {
        if now == self.signal {
            return SignalJudged {
                watch: self,
                wrong: false,
            };
        }
        let wrong = match self.signal {
            Ped::Walk => {
                let least = step.is_past(self.since, walk_due(left, self.time));
                let most = step.is_within(self.since, self.time);
                self.begun && !(least && most)
            }
            Ped::Flash => {
                let least = step.is_past(self.since, clearance_due(left, self.time));
                let most = step.is_within(self.since, self.time);
                self.begun && !(least && most)
            }
            Ped::Dont => false,
        };
        let time = match now {
            Ped::Walk => u16::from(times.walk) * 10,
            Ped::Flash => u16::from(times.pedestrian_clear) * 10,
            Ped::Dont => 0,
        };
        SignalJudged {
            watch: SignalWatch {
                signal: now,
                since: step.tick,
                time,
                begun: step.known,
            },
            wrong,
        }
    }
}
