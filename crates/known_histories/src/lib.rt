//! Histories of whole ticks, compared with what an independent program says about them. The prover computes them from
//! the definitions. So the definitions of a tick mean what the rules of signal control say, in every mode. The
//! functions have no bodies.
#![tactic(auto)]

ghost use Rattle.std.specs.Prelude.{◌≡◌, [], ◌∷◌};
ghost use Rattle.sig_types.specs.declared.frame.Colour.TheVariants.{Green, Yellow, Clear, Red};
ghost use Rattle.sig_tables.specs.Standard.{max8, std8};
ghost use Rattle.known_histories.specs.Changes.{changed, shown, two_cars, long_six, ticks};
ghost use Rattle.known_histories.specs.HistoryTold.{told_of};
ghost use Rattle.known_histories.specs.WholeWalk.{whole_walk_history, whole_walk_told};
ghost use Rattle.known_histories.specs.ForcedOff.{forced_off_history, forced_off_told};
ghost use Rattle.known_histories.specs.Dwells.{dwells_history, dwells_told};
ghost use Rattle.known_histories.specs.Adds.{adds_history, adds_told};
ghost use Rattle.known_histories.specs.PastMidnight.{past_midnight_history, past_midnight_told};
ghost use Rattle.known_histories.specs.Preempted.{preempted_history, preempted_told};
ghost use Rattle.known_histories.specs.PreemptedLate.{preempted_late_history, preempted_late_told};
ghost use Rattle.known_histories.specs.HeldByRequest.{held_by_request_history, held_by_request_told};
ghost use Rattle.known_histories.specs.SetsEmptied.{sets_emptied_history, sets_emptied_told};
ghost use Rattle.known_histories.specs.SetsEmptiedAgain.{sets_emptied_again_history, sets_emptied_again_told};
ghost use Rattle.known_histories.specs.Switched.{switched_history, switched_told};
ghost use Rattle.known_histories.specs.FixedForce.{fixed_force_history, fixed_force_told};
ghost use Rattle.known_histories.specs.FloatingForce.{floating_force_history, floating_force_told};
ghost use Rattle.known_histories.specs.EndOfGreen.{end_of_green_history, end_of_green_told};
ghost use Rattle.known_histories.specs.Loses.{loses_history, loses_told};
ghost use Rattle.known_histories.specs.GainsOften.{gains_often_history, gains_often_told};
ghost use Rattle.known_histories.specs.MixedFirst.{mixed_first_history, mixed_first_told};
ghost use Rattle.known_histories.specs.MixedSecond.{mixed_second_history, mixed_second_told};
ghost use Rattle.known_histories.specs.MixedThird.{mixed_third_history, mixed_third_told};
ghost use Rattle.known_histories.specs.MixedFourth.{mixed_fourth_history, mixed_fourth_told};
ghost use Rattle.known_histories.specs.MixedFifth.{mixed_fifth_history, mixed_fifth_told};
ghost use Rattle.known_histories.specs.MixedSixth.{mixed_sixth_history, mixed_sixth_told};
ghost use Rattle.known_histories.specs.StandsAndSkips.{stands_and_skips_history, stands_and_skips_told};
ghost use Rattle.known_histories.specs.MixedDrifting.{mixed_drifting_history, mixed_drifting_told};

/// Start lasts 60 frames; the start-up phases are then Green until the maximum of their rings.
pub fn first_changes()
    ensures { changed max8 520 ≡ 515 ∷ 500 ∷ 460 ∷ 60 ∷ [] }
{}

/// A whole cycle of the standard tables with maximum recall.
pub fn whole_cycle()
    ensures { changed max8 1465 ≡ 1460 ∷ 1450 ∷ 1415 ∷ 1215 ∷ 1200 ∷ 1160 ∷ 760 ∷ 750 ∷ 715 ∷ 515 ∷ 500 ∷ 460 ∷ 60 ∷ [] }
{}

/// The standard tables rest in the start-up phases where nothing calls.
pub fn rests_without_calls()
    ensures { changed std8 600 ≡ 60 ∷ [] }
{}

/// Gap and maximum fall on one tick, and the side street is served with dual entry.
pub fn serves_two_cars()
    ensures { shown std8 two_cars 520 ≡
        (515, Red ∷ Red ∷ Red ∷ Green ∷ Red ∷ Red ∷ Red ∷ Green ∷ [])
        ∷ (500, Red ∷ Clear ∷ Red ∷ Red ∷ Red ∷ Clear ∷ Red ∷ Red ∷ [])
        ∷ (460, Red ∷ Yellow ∷ Red ∷ Red ∷ Red ∷ Yellow ∷ Red ∷ Red ∷ [])
        ∷ (60, Red ∷ Green ∷ Red ∷ Red ∷ Red ∷ Green ∷ Red ∷ Red ∷ [])
        ∷ [] }
{}

/// A longer red clearance of one ring holds the other at the barrier.
pub fn waits_at_the_barrier()
    ensures { shown long_six (ticks 540) 540 ≡
        (530, Red ∷ Red ∷ Green ∷ Red ∷ Red ∷ Red ∷ Green ∷ Red ∷ [])
        ∷ (515, Red ∷ Red ∷ Red ∷ Red ∷ Red ∷ Clear ∷ Red ∷ Red ∷ [])
        ∷ (500, Red ∷ Clear ∷ Red ∷ Red ∷ Red ∷ Clear ∷ Red ∷ Red ∷ [])
        ∷ (460, Red ∷ Yellow ∷ Red ∷ Red ∷ Red ∷ Yellow ∷ Red ∷ Red ∷ [])
        ∷ (60, Red ∷ Green ∷ Red ∷ Red ∷ Red ∷ Green ∷ Red ∷ Red ∷ [])
        ∷ [] }
{}

/// A pattern is picked up as start-up ends; a pressed button gives a walk at the next local zero, in full.
pub fn whole_walk()
    ensures { told_of whole_walk_history ≡ whole_walk_told }
{}

/// A coordinated pattern releases its coordinated phases at their force point, forces off the turn that was called, and
/// returns.
pub fn forced_off()
    ensures { told_of forced_off_history ≡ forced_off_told }
{}

/// Correction by dwell: the counter waits at local zero for as long as one cycle may.
pub fn dwells()
    ensures { told_of dwells_history ≡ dwells_told }
{}

/// The shorter way, if both are equal, is to add: the counter waits at every other tick.
pub fn adds()
    ensures { told_of adds_history ≡ adds_told }
{}

/// Midnight moves the target of a cycle that does not divide the day, and the counter is brought after it.
pub fn past_midnight()
    ensures { told_of past_midnight_history ≡ past_midnight_told }
{}

/// A preempt cuts a pedestrian clearance short, clears what is in its way, dwells and lets go.
pub fn preempted()
    ensures { told_of preempted_history ≡ preempted_told }
{}

/// The same, called later into the clearance: it ends at the same tick.
pub fn preempted_late()
    ensures { told_of preempted_late_history ≡ preempted_late_told }
{}

/// A priority request holds a coordinated phase, so that the turn that was called no longer fits and waits for the next
/// cycle.
pub fn held_by_request()
    ensures { told_of held_by_request_history ≡ held_by_request_told }
{}

/// Downloads that empty the sets of preempts while these are served.
pub fn sets_emptied()
    ensures { told_of sets_emptied_history ≡ sets_emptied_told }
{}

/// The same, in other stages.
pub fn sets_emptied_again()
    ensures { told_of sets_emptied_again_history ≡ sets_emptied_again_told }
{}

/// Downloads change the force mode and the offset reference under a pattern, which is picked up again; the reference
/// moves the target.
pub fn switched()
    ensures { told_of switched_history ≡ switched_told }
{}

/// With fixed force-offs the cross street keeps its green to its force point, far past its split.
pub fn fixed_force()
    ensures { told_of fixed_force_history ≡ fixed_force_told }
{}

/// With floating force-offs a phase ends once it has had its split.
pub fn floating_force()
    ensures { told_of floating_force_history ≡ floating_force_told }
{}

/// Offsets that refer to the end of green: the target is ahead by the window, and the counter dwells towards it.
pub fn end_of_green()
    ensures { told_of end_of_green_history ≡ end_of_green_told }
{}

/// A clock that loses a tick: local zero finds the target one tick after.
pub fn loses()
    ensures { told_of loses_history ≡ loses_told }
{}

/// A clock that gains every seventh tick, with offsets to the end of green, past midnight.
pub fn gains_often()
    ensures { told_of gains_often_history ≡ gains_often_told }
{}

/// A mixed run of 420 ticks with commands, downloads, through Coord, Seek, Free, Ending, Flash.
pub fn mixed_first()
    ensures { told_of mixed_first_history ≡ mixed_first_told }
{}

/// A mixed run of 420 ticks with commands, clock sets, priority requests, cancels, downloads, through Flash, Free,
/// Seek, Coord.
pub fn mixed_second()
    ensures { told_of mixed_second_history ≡ mixed_second_told }
{}

/// A mixed run of 420 ticks with commands, priority requests, downloads, through Seek, Free, Ending, Flash.
pub fn mixed_third()
    ensures { told_of mixed_third_history ≡ mixed_third_told }
{}

/// A mixed run of 420 ticks with commands, through Free, Entry, Dwell, Exit, Ending, Coord.
pub fn mixed_fourth()
    ensures { told_of mixed_fourth_history ≡ mixed_fourth_told }
{}

/// A mixed run of 420 ticks with downloads, through Seek, Entry, Dwell, Coord.
pub fn mixed_fifth()
    ensures { told_of mixed_fifth_history ≡ mixed_fifth_told }
{}

/// A mixed run of 420 ticks with commands, clock sets, priority requests, cancels, downloads, through Coord, Entry,
/// Dwell, Exit, Seek.
pub fn mixed_sixth()
    ensures { told_of mixed_sixth_history ≡ mixed_sixth_told }
{}

/// A run in which the counter waits and skips.
pub fn stands_and_skips()
    ensures { told_of stands_and_skips_history ≡ stands_and_skips_told }
{}

/// A mixed run under a clock that drifts, with floating force-offs and offsets to the end of green.
pub fn mixed_drifting()
    ensures { told_of mixed_drifting_history ≡ mixed_drifting_told }
{}
