//! What coordination promises of a history: what disturbs it, within how many ticks a local zero comes after that, and within how many
//! cycles the offset is met. The functions have no bodies: their contracts are cases of these definitions, which the check computes.
//! (FHWA Signal Timing Manual: offset, transition.)
ghost use Rattle.std.specs.Prelude.{◌≡◌, [], ◌∷◌, true, false};
ghost use Rattle.sig_tables.specs.Past.{SetClock, SetPattern, SetDrift};
ghost use Rattle.plan_facts.specs.Disturbances.{no_drift, quiet_for};
ghost use Rattle.plan_facts.specs.Meets.{zero_within, offset_within};
ghost use Rattle.plan_facts.specs.Rows.{ticks, standard_run, throughout, bounds_of, counter_and_target, meets_now};

/// The standard pattern, picked up as Start ends one tick past its offset: nine cycles, each of at most a thousand ticks.
pub fn late_by_one()
    ensures bounds { bounds_of no_drift (standard_run 841 (ticks 75 [])) ≡ 16 ∷ 61 ∷ 1 ∷ 9 ∷ 324 ∷ 1000 ∷ 1000 ∷ 10000 ∷ [] }
    ensures meets { throughout (meets_now no_drift) (standard_run 841 (ticks 75 [])) ≡ true }
{}

/// Ten ticks early: it dwells for ten, and the offset is met eleven ticks after the last of Start, and no earlier.
pub fn early_by_ten()
    ensures bounds { bounds_of no_drift (standard_run 830 (ticks 80 [])) ≡ 21 ∷ 61 ∷ 890 ∷ 1 ∷ 324 ∷ 1000 ∷ 1000 ∷ 2000 ∷ [] }
    ensures zero { throughout (zero_within no_drift 1) (standard_run 830 (ticks 80 [])) ≡ true }
    ensures no_sooner { throughout (zero_within no_drift 0) (standard_run 830 (ticks 80 [])) ≡ false }
    ensures met { throughout (offset_within no_drift 11) (standard_run 830 (ticks 80 [])) ≡ true }
    ensures not_met { throughout (offset_within no_drift 10) (standard_run 830 (ticks 80 [])) ≡ false }
{}

/// A clock that loses one, ten ticks after a pickup on the offset: the counter is then one tick ahead of the target. With a drift that is
/// known that disturbs nothing, and the offset is held to one tick; five ticks later they are still apart.
pub fn one_tick_apart()
    ensures held { throughout (offset_within (record { gain = 0; lose = 70 }) 1) (standard_run 840 (ticks 75 (SetDrift 0 70 ∷ []))) ≡ true }
    ensures met { counter_and_target (standard_run 840 (ticks 69 (SetDrift 0 70 ∷ []))) ≡ 9 ∷ 9 ∷ [] }
    ensures apart { counter_and_target (standard_run 840 (ticks 70 (SetDrift 0 70 ∷ []))) ≡ 10 ∷ 9 ∷ [] }
    ensures still { counter_and_target (standard_run 840 (ticks 75 (SetDrift 0 70 ∷ []))) ≡ 15 ∷ 14 ∷ [] }
{}

/// A clock set to what it is disturbs nothing; to another time it does, and so does another pattern in command. A drift disturbs
/// nothing where it is known, and would be taken for a clock that is set where it is not.
pub fn disturbed()
    ensures same_time { quiet_for no_drift (standard_run 841 (ticks 5 (SetClock 911 ∷ ticks 70 []))) ≡ 16 }
    ensures other_time { quiet_for no_drift (standard_run 841 (ticks 5 (SetClock 912 ∷ ticks 70 []))) ≡ 4 }
    ensures same_pattern { quiet_for no_drift (standard_run 841 (ticks 5 (SetPattern 1 ∷ ticks 70 []))) ≡ 16 }
    ensures other_pattern { quiet_for no_drift (standard_run 841 (ticks 5 (SetPattern 2 ∷ ticks 70 []))) ≡ 4 }
    ensures drift { quiet_for (record { gain = 70; lose = 0 }) (standard_run 841 (ticks 75 (SetDrift 70 0 ∷ []))) ≡ 16 }
    ensures unknown_drift { quiet_for no_drift (standard_run 841 (ticks 75 (SetDrift 70 0 ∷ []))) ≡ 5 }
{}
