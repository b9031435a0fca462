//! Laws of the counter under a clock that drifts: the target then moves by none or by two at some ticks. The functions
//! have no bodies: their contracts are the laws.
ghost use Rattle.std.specs.Prelude.{ℕ, ◌≡◌, ◌≤◌, ◌<◌, ◌+◌, ◌*◌, List, [], ◌∷◌, true};
ghost use Rattle.sig_tables.specs.Counting.{Correction, HasRoom, begins_cycle, last_counter, most_a_cycle, needed};
ghost use Rattle.coordination_laws.specs.Drifting.{Drift, Loses, Gains, one_step, each_third, drifted, target_drifted, Spaced, CanCorrect, StaysNear};
ghost use Rattle.coordination_laws.specs.KnownDrift.{dwelling_90, shortway_90, dwelling_1};

/// A clock that drifts is held to one tick of the offset. Its steps are further apart than two of the longest cycles;
/// one that gains is brought back only by shortway. From a local zero, or a pickup, counter and target meet within
/// twice the needed cycles, and are never more than one tick apart from then on.
pub fn drift_is_held()
    ensures { (k : Correction) (gap : ℕ) (drifts : ℕ → Drift) (past : List ℕ) (t : ℕ) → HasRoom k → k.add + 1 < k.cycle
        → 2 * (k.cycle + most_a_cycle k) + 1 ≤ gap → Spaced gap drifts → CanCorrect k drifts → begins_cycle past ≡ true → t < k.cycle
        → StaysNear k drifts past t (2 * (needed k t * (k.cycle + most_a_cycle k))) }
{}

/// A clock that loses a tick, 240 ticks after a local zero: the next has target 899, and the one after it comes 901 ticks
/// later, with target 0. One that gains a tick there, with shortway: the counter goes from 239 to 241, and local zero comes a tick early, with target 0.
pub fn held_as_computed()
    ensures behind { begins_cycle (drifted dwelling_90 900 (one_step 239 Loses) 0 (0 ∷ [])) ≡ true }
    ensures by_one { target_drifted 900 900 (one_step 239 Loses) 0 ≡ 899 }
    ensures again { begins_cycle (drifted dwelling_90 1801 (one_step 239 Loses) 0 (0 ∷ [])) ≡ true }
    ensures on_target { target_drifted 900 1801 (one_step 239 Loses) 0 ≡ 0 }
    ensures skips { last_counter (drifted shortway_90 240 (one_step 239 Gains) 0 (0 ∷ [])) ≡ 241 }
    ensures early { begins_cycle (drifted shortway_90 899 (one_step 239 Gains) 0 (0 ∷ [])) ≡ true }
    ensures early_on_target { target_drifted 900 899 (one_step 239 Gains) 0 ≡ 0 }
{}

/// Dwelling cannot follow a clock that gains: local zero then comes one tick late, and to dwell takes the counter only
/// further after, 100 ticks in the next cycle.
pub fn gains_are_not_dwelt_away()
    ensures late { begins_cycle (drifted dwelling_90 900 (one_step 239 Gains) 0 (0 ∷ [])) ≡ true }
    ensures by_one { target_drifted 900 900 (one_step 239 Gains) 0 ≡ 1 }
    ensures dwelt { last_counter (drifted dwelling_90 1000 (one_step 239 Gains) 0 (0 ∷ [])) ≡ 0 }
    ensures further { target_drifted 900 1000 (one_step 239 Gains) 0 ≡ 101 }
{}

/// A clock that loses every third tick is not followed: its steps are not two of the longest cycles apart. One cycle would do for
/// one tick, but after twice the longest cycle counter and target are four ticks apart.
pub fn quick_drift_is_not_held()
    ensures one { needed dwelling_1 9 ≡ 1 }
    ensures twice { 2 * (dwelling_1.cycle + most_a_cycle dwelling_1) ≡ 22 }
    ensures counter { last_counter (drifted dwelling_1 22 (each_third Loses) 9 (0 ∷ [])) ≡ 0 }
    ensures target { target_drifted 10 22 (each_third Loses) 9 ≡ 4 }
{}
