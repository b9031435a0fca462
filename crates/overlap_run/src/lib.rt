//! An overlap: an arrow that shows green with any of several parent phases, such as a right turn that goes with two
//! through movements (NEMA TS 2, overlaps). `Overlap` counts down tick by tick, and `text` writes its changes over all
//! ticks of a cabinet.  The rules by which an overlap is refused over what a cabinet did: it must be over before any of
//! its parents can have cleared, and its yellow change has at least three seconds (MUTCD). And the law that its parents
//! cover it at every tick.
#![tactic(auto)]

mod changes;
mod coverage;
mod faults;
mod overlap;
mod rules;

ghost use Rattle.std.specs.Prelude.{◌≡◌};
ghost use Rattle.sig_types.specs.declared.frame.Colour.{Colour};
ghost use Rattle.overlap_run.specs.Rows.{by_hand, at_once};

pub use changes::text;
pub use coverage::{
    frames_give_the_text, histories_give_frames, overlaps_are_covered,
    unbroken_overlaps_are_covered,
};
pub use faults::OverlapFault;
pub use overlap::{Overlap, Timing};
pub use rules::judge;

/// The overlap of one green of a parent, at the ticks at which it changes and just before: Green with the parent, five ticks longer, then
/// yellow change and red clearance of their length. The check computes the definition.
pub fn one_green()
    ensures before { by_hand 59 ≡ Colour.Red }
    ensures begins { by_hand 60 ≡ Colour.Green }
    ensures holds { by_hand 464 ≡ Colour.Green }
    ensures changes { by_hand 465 ≡ Colour.Yellow }
    ensures yellow { by_hand 499 ≡ Colour.Yellow }
    ensures clears { by_hand 500 ≡ Colour.Clear }
    ensures clear { by_hand 509 ≡ Colour.Clear }
    ensures over { by_hand 510 ≡ Colour.Red }
    ensures no_trail { at_once 460 ≡ Colour.Yellow }
    ensures no_clearance { at_once 490 ≡ Colour.Red }
{}
