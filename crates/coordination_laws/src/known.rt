//! Counters that the definitions give, computed tick by tick: where the offset is met, and where it is late, since the window
//! does not hold what one cycle is to correct.

ghost use Rattle.std.specs.Prelude.{◌≡◌, ◌+◌, ◌∷◌, [], true};
ghost use Rattle.sig_tables.specs.Counting.{counted, last_counter, target_after, begins_cycle, needed, most_a_cycle};
ghost use Rattle.coordination_laws.specs.Known.{dwelling_90, shortway_90, dwelling_70, adding_1, adding_past_window, skipping_past_window};

/// Each from a pickup. Ten ticks a cycle, the counter three early: the first cycle waits twice. A cycle of 900 ticks,
/// one late, dwells: nine cycles, each of 1,000 ticks but the last. Half a cycle off with shortway: fifteen cycles both
/// ways, and then it adds. A cycle of 700, 200 off: two cycles, and counter and target are equal 100 ticks after the
/// first.
pub fn met_as_computed()
    ensures stands { counted adding_1 12 7 (0 ∷ []) ≡ 0 ∷ 9 ∷ 8 ∷ 7 ∷ 6 ∷ 5 ∷ 4 ∷ 3 ∷ 2 ∷ 1 ∷ 1 ∷ 0 ∷ 0 ∷ [] }
    ensures dwells { needed dwelling_90 1 ≡ 9 }
    ensures dwelt { begins_cycle (counted dwelling_90 1000 1 (0 ∷ [])) ≡ true }
    ensures both_ways { needed shortway_90 450 ≡ 15 }
    ensures adds { counted shortway_90 3 450 (0 ∷ []) ≡ 1 ∷ 1 ∷ 0 ∷ 0 ∷ [] }
    ensures added { last_counter (counted shortway_90 60 450 (0 ∷ [])) ≡ 30 }
    ensures longer { begins_cycle (counted shortway_90 930 450 (0 ∷ [])) ≡ true }
    ensures off { needed dwelling_70 500 ≡ 2 }
    ensures second { begins_cycle (counted dwelling_70 800 500 (0 ∷ [])) ≡ true }
    ensures equal { last_counter (counted dwelling_70 900 500 (0 ∷ [])) ≡ target_after dwelling_70 900 500 }
{}

/// Where the window does not hold the waits of one cycle, or its skips, the offset is not met within the needed cycles:
/// one would do for three ticks, but at the end of the longest cycle that there is the counter is still off the target.
pub fn late_without_room()
    ensures to_add { needed adding_past_window 7 ≡ 1 }
    ensures longest_adding { adding_past_window.cycle + most_a_cycle adding_past_window ≡ 13 }
    ensures added_counter { last_counter (counted adding_past_window 13 7 (0 ∷ [])) ≡ 1 }
    ensures added_target { target_after adding_past_window 13 7 ≡ 0 }
    ensures to_subtract { needed skipping_past_window 3 ≡ 1 }
    ensures longest_skipping { skipping_past_window.cycle + most_a_cycle skipping_past_window ≡ 13 }
    ensures skipped_counter { last_counter (counted skipping_past_window 13 3 (0 ∷ [])) ≡ 5 }
    ensures skipped_target { target_after skipping_past_window 13 3 ≡ 6 }
{}
