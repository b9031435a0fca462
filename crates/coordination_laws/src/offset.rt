//! Laws of offset correction, in numbers: the counter of a cycle is brought onto its target, a local zero comes for any
//! targets, and under a clock that drifts the offset is held to within one tick (FHWA Signal Timing Manual, offset
//! transition). The functions have no bodies: their contracts are the laws.

ghost use Rattle.std.specs.Prelude.{ℕ, ◌≡◌, ◌≢◌, ◌≤◌, ◌<◌, ◌+◌, ◌-◌, ◌*◌, ◌∷◌, [], List, true};
ghost use Rattle.sig_tables.specs.Counting.{Correction, HasRoom, begins_cycle, most_a_cycle, needed};
ghost use Rattle.coordination_laws.specs.Correcting.{Corrects, ComesOntoOffset, AreEqual};
ghost use Rattle.coordination_laws.specs.Stepping.{KeepsLimits, to_zero, StepsOn, ZeroComes};

/// Undisturbed coordination comes onto its offset. From a local zero, or a pickup, each cycle takes no longer than the
/// cycle and its greatest correction, and lowers the number of cycles needed by one: so within the needed cycles
/// counter and target are equal, and stay so for ever. Nor are they equal before the last of these cycles: each earlier
/// one takes at least the cycle less the most that is subtracted, and by dwell and by add only the cycle and the whole
/// limit.
pub fn offset_is_met()
    ensures each_cycle { (k : Correction) (past : List ℕ) (target : ℕ) → HasRoom k → begins_cycle past ≡ true → target < k.cycle
        → Corrects k past target }
    ensures reached { (k : Correction) (past : List ℕ) (target : ℕ) → HasRoom k → begins_cycle past ≡ true → target < k.cycle
        → ComesOntoOffset k past target }
    ensures not_sooner { (k : Correction) (past : List ℕ) (target n : ℕ) → HasRoom k → begins_cycle past ≡ true → target < k.cycle
        → 1 ≤ target → AreEqual k past target n → (needed k target - 1) * (k.cycle - k.subtract) < n }
    ensures not_sooner_adding { (k : Correction) (past : List ℕ) (target n : ℕ) → HasRoom k → begins_cycle past ≡ true
        → target < k.cycle → 1 ≤ target → k.mode ≢ 3 → AreEqual k past target n → (needed k target - 1) * (k.cycle + most_a_cycle k) < n }
{}

/// Whatever the targets are, as where a clock is set within a cycle: the counter is only within the window and as often
/// as one cycle may, skips one tick at most up to the window, else continues as time does; and a local zero comes
/// within the cycle and its greatest correction.
pub fn local_zero_comes()
    ensures step { (k : Correction) (c : ℕ) (before : List ℕ) (target : ℕ) → HasRoom k → KeepsLimits k (c ∷ before)
        → StepsOn k (c ∷ before) target }
    ensures comes { (k : Correction) (c : ℕ) (before : List ℕ) (targets : ℕ → ℕ) → HasRoom k → KeepsLimits k (c ∷ before)
        → ZeroComes k (c ∷ before) targets (to_zero k (c ∷ before)) }
    ensures pickup { (k : Correction) → HasRoom k → KeepsLimits k (0 ∷ []) }
    ensures at_zero { (k : Correction) → to_zero k (0 ∷ []) ≡ k.cycle + most_a_cycle k }
{}
