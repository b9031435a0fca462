//! What was seen of a cabinet gives its overlaps. It has no code.

ghost use Rattle.std.specs.Prelude.{ℕ, List};
ghost use Rattle.trace_laws.specs.declared.seen.Seen.{Seen};
ghost use Rattle.trace_laws.specs.Seen.{HasSeen};
ghost use Rattle.command_words.specs.declared.command.Overlap.{Overlap};
ghost use Rattle.overlap_report.specs.BySeen.{SaysOfOverlap};

use overlap_run::{frames_give_the_text, histories_give_frames, unbroken_overlaps_are_covered};
use trace_laws::{lines_are_proper, traces_tell_journals};

/// Where all was seen of a cabinet of a trace, an overlap breaks a rule by the tables that were seen exactly where it
/// does by those that were in force. Where it breaks none, its text by the frames that were seen is what is to be
/// reported of it, and can be written.
pub(crate) fn overlaps_are_told()
    ensures { (text : List ℕ) (asked : Overlap) (seen : Seen) → HasSeen text asked.cabinet seen → SaysOfOverlap text asked seen }
{
    traces_tell_journals();
    lines_are_proper();
    unbroken_overlaps_are_covered();
    frames_give_the_text();
    histories_give_frames();
}
