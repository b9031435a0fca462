//! What is kept of a detector of a bank from round to round: its registers, how many of the sorted pulses it has had,
//! and whether it calls. It is examined only in rounds in which something may change.

ghost use Rattle.std.specs.Prelude.{ℕ, ◌≡◌, ◌+◌, ◌≤◌, false, List, length};
ghost use Rattle.detector_bank.specs.declared.bank.Pulse.{Pulse as PulseRow};

use crate::bank::{Detector, Pulse};
use crate::pulses::{first_at, key_of, place_at, round_at};
use crate::watch::Watch;

/// What is kept of a detector.
#[derive(Clone, Copy)]
pub struct DetectorState {
    pub watch: Watch,
    /// The place of its next pulse among the sorted ones, or one before it.
    pub next: usize,
    /// Whether it calls.
    pub calls: bool,
}

impl DetectorState {
    ghost use Rattle.detector_bank.specs.Watching.{Sorts, Posted};

    /// Before the first round, in which it is examined.
    pub fn new(detector: &Detector, sorted: &[Pulse]) -> DetectorState
        ensures stands { (ps : List PulseRow) → Sorts sorted.now ps → Posted result 0 sorted.now detector.now ps 0 }
        ensures none { result.calls ≡ false }
    {
        let first = key_of(detector.cabinet, detector.detector, 1);
        DetectorState {
            watch: Watch::new(),
            next: first_at(sorted, first),
            calls: false,
        }
    }

    /// A round, and the next one in which it is examined.
    pub fn step(&mut self, detector: &Detector, round: u32, sorted: &[Pulse]) -> u32
        requires few { length sorted.now ≤ 1000000 }
        ensures { (ps : List PulseRow) (due j : ℕ) → round ≡ j + 1 → Sorts sorted.now ps → Posted self.old due sorted.now detector.now ps j → Posted self.new result sorted.now detector.now ps (j + 1) }
    {
        let now = key_of(detector.cabinet, detector.detector, round);
        let from = place_at(sorted, self.next, now);
        let end = place_at(sorted, from, now + 1);
        self.watch.step(detector, round, &sorted[from..end]);
        self.next = end;
        self.calls = self.watch.calls(detector, round);
        let pulse = round_at(sorted, end, detector);
        self.watch.due(detector, round).min(pulse)
    }
}
