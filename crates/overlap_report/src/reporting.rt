//! The text of an overlap, or the rule that it breaks.

ghost use Rattle.std.specs.Prelude.{ℕ, ◌≡◌, ◌<◌, ◌≤◌, List, Ok, Err, IfOk, IfErr, OnOk};
ghost use Rattle.sig_types.specs.Phases.{is_in};
ghost use Rattle.sig_types.specs.PhaseSet.{has};
ghost use Rattle.trace_laws.specs.Seen.{HasSeen};
ghost use Rattle.overlap_report.specs.Overlaps.{verdict_of, BreaksRule, TellsOverlap};

use crate::telling::overlaps_are_told;
use command_words::Overlap;
use overlap_run::{OverlapFault, judge, text};
use sig_types::{NoMemory, PhaseSet};
use std::alloc::Global;
use trace_laws::Seen;

/// Why an overlap has no text.
#[derive(Clone, Copy, PartialEq, Eq)]
pub enum ReportFail {
    /// It breaks a rule: the first that it breaks, and at which row.
    Overlap(OverlapFault),
    /// There was not memory enough to write it.
    NoMemory,
}

/// The parents that are asked for as a set, where the overlap breaks no rule by the tables that were seen.
fn asked_parents(seen: &Seen, asked: &Overlap) -> Result<PhaseSet, OverlapFault>
    ensures ok { OnOk result (verdict_of seen.now.tables.items asked.now ≡ Ok tt) }
    ensures set { IfOk result (λ set. (p : ℕ) → 0 < p → p ≤ 16 → has set p ≡ is_in asked.now.parents.items p) }
    ensures err { IfErr result (λ fault. verdict_of seen.now.tables.items asked.now ≡ Err fault) }
{
    judge(
        seen.tables.as_slice(),
        asked.parents.as_slice(),
        asked.trail,
        asked.yellow,
        asked.red,
    )
}

/// The text of an overlap over a trace, by all that was seen of its cabinet there; or the first rule that the overlap breaks, exactly where it
/// breaks one. By the lines of the trace the overlap is never green, yellow or clearing unless one of its parents is.
pub fn report(alloc: Global, seen: &Seen, asked: &Overlap) -> Result<Vec<u8>, ReportFail>
    requires seen { (text : List ℕ) × HasSeen text asked.now.cabinet seen.now }
    ensures told { IfOk result (λ written. (text : List ℕ) → HasSeen text asked.now.cabinet seen.now → TellsOverlap text asked.now written.items) }
    ensures refused { (fault : OverlapFault) → result ≡ Err (ReportFail.Overlap fault)
        → (text : List ℕ) → HasSeen text asked.now.cabinet seen.now → BreaksRule text asked.now fault }
    ensures due { (fault : OverlapFault) (text : List ℕ) → HasSeen text asked.now.cabinet seen.now
        → BreaksRule text asked.now fault → result ≡ Err (ReportFail.Overlap fault) }
{
    overlaps_are_told();
    let parents = match asked_parents(seen, asked) {
        Ok(parents) => parents,
        Err(fault) => return Err(ReportFail::Overlap(fault)),
    };
    let trail = u32::from(asked.trail);
    let yellow = u32::from(asked.yellow);
    let red = u32::from(asked.red);
    match text(alloc, &seen.frames, seen.ticks, parents, trail, yellow, red) {
        Ok(written) => Ok(written),
        Err(NoMemory) => Err(ReportFail::NoMemory),
    }
}
