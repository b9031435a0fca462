//! Which detectors the bank has, as marks at the place of each cabinet and number, so that each pulse is looked up in one step.

ghost use Rattle.std.specs.Prelude.{ℕ, ◌≡◌, ◌≤◌, ◌<◌, ◌+◌, ◌*◌, ◌==◌, ◌&&◌, ◌||◌, false, length, get_or};
ghost use Rattle.scenario_read.specs.Readers.{Answers};
ghost use Rattle.field_read.specs.Checks.{bank_faults};
ghost use Rattle.field_read.specs.Places.{BankPlaced, Marks};

use crate::place::{Place, refuse};
use detector_bank::Detector;
use scenario_data::ReadFail;
use scenario_read::Unfit;
use std::alloc::Global;

/// The place of a detector's mark.
fn mark_place(cabinet: u32, detector: u8) -> usize
    requires cabinet { cabinet ≤ 64 }
    requires detector { detector ≤ 64 }
    ensures place { result ≡ cabinet * 65 + detector }
    ensures within { result < 4225 }
{
    cabinet as usize * 65 + detector as usize
}

/// Whether a detector is marked.
pub(crate) fn is_marked(marks: &[bool; 4225], cabinet: u32, detector: u8) -> bool
    requires cabinet { cabinet ≤ 64 }
    requires detector { detector ≤ 64 }
    ensures { result ≡ get_or marks.now (cabinet * 65 + detector) false }
{
    marks[mark_place(cabinet, detector)]
}

/// Marks a detector.
fn mark(marks: &mut [bool; 4225], detector: &Detector)
    requires cabinet { detector.now.cabinet ≤ 64 }
    requires detector { detector.now.detector ≤ 64 }
    ensures { (c n : ℕ) → c ≤ 64 → n ≤ 64 → get_or marks.new (c * 65 + n) false ≡ (get_or marks.old (c * 65 + n) false || ((detector.now.cabinet == c) && (detector.now.detector == n))) }
{
    let place = mark_place(detector.cabinet, detector.detector);
    marks[place] = true;
}

/// The marks of a bank, refused at the first detector that appears twice.
pub(crate) fn marked(alloc: Global, bank: &Vec<Detector>) -> Result<[bool; 4225], ReadFail>
    requires placed { BankPlaced bank.now.items }
    ensures { Answers result (bank_faults bank.now.items) (λ marks. Marks marks bank.now.items) }
{
    let mut marks = [false; 4225];
    for place in 0..bank.len() {
        let detector = bank[place];
        if is_marked(&marks, detector.cabinet, detector.detector) {
            return Err(refuse(alloc, Place::Detector(place), Unfit::Wrong));
        }
        mark(&mut marks, &detector);
    }
    Ok(marks)
}
