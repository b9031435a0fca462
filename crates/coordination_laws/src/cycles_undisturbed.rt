//! Undisturbed coordination, cycle after cycle: a local zero comes within the longest cycle, and the offset is met
//! within the cycles that the correction needs. The functions have no bodies: their contracts are the laws,
//! which callers cite. (FHWA Signal Timing Manual: offset, transition.)
ghost use Rattle.std.specs.Prelude.{ℕ, ◌≡◌, ◌≤◌, ◌<◌, ◌+◌, ◌-◌, ◌*◌, ◌⊎◌, ◌∷◌, List, true, false};
ghost use Rattle.sig_tables.specs.declared.tables.Tables.{Tables};
ghost use Rattle.sig_tables.specs.Counting.{HasRoom, begins_cycle, needed};
ghost use Rattle.sig_tables.specs.Counters.{correction_of};
ghost use Rattle.sig_types.specs.declared.frame.Mode.TheVariants.{Coord};
ghost use Rattle.sig_tables.specs.Slots.{cycle_time};
ghost use Rattle.sig_tables.specs.Past.{Moment};
ghost use Rattle.coordination_laws.specs.Drifting.{moved};
ghost use Rattle.plan_facts.specs.Disturbances.{Drift, drifts, is_disturbed, quiet_for};
ghost use Rattle.plan_facts.specs.Bounds.{longest_cycle, shortest_cycle};
ghost use Rattle.plan_facts.specs.Meets.{is_zero, first_zero, has_zero, zero_target, zero_within, offset_within, can_follow};
ghost use Rattle.coordination_laws.specs.Cycles.{counters, CountsOn, PicksUp, InCycle, HasTime, step_at, cycles_needed, OnPath};

/// While coordinated in a pattern, whatever the targets and the disturbances are: from a pickup on, each tick keeps the
/// limits of the correction, and after each disturbance a local zero comes within the longest cycle.
pub fn zero_comes_in_time()
    ensures pickup { (d : Drift) (t : Tables) (n : ℕ) (m l : Moment) (past : List Moment) → HasRoom (correction_of t n) → PicksUp n m l
        → (is_zero (m ∷ l ∷ past) ≡ true) ⊎ (is_disturbed d (m ∷ l ∷ past) ≡ true) → InCycle d t n (m ∷ l ∷ past) }
    ensures step { (d : Drift) (t : Tables) (n : ℕ) (m l : Moment) (past : List Moment) → HasRoom (correction_of t n) → CountsOn t n m l past
        → InCycle d t n (l ∷ past) → InCycle d t n (m ∷ l ∷ past) }
    ensures in_time { (d : Drift) (t : Tables) (n most : ℕ) (past : List Moment) → InCycle d t n past → longest_cycle t n ≤ most
        → zero_within d most past ≡ true }
{}

/// Undisturbed, the counter reaches the offset: from the first local zero after a disturbance, each quiet tick corrects
/// it and the target advances as the clock does; so within the needed cycles the two are equal, and stay so. A clock
/// that drifts slowly makes that twice the needed cycles, and then the two stay within one tick of each other. If the
/// clock keeps time and the first local zero was off the target, they are not equal before the last of the needed
/// cycles, each of the others at its shortest.
pub fn offset_met_in_time()
    ensures pickup { (n : ℕ) (m l : Moment) (past : List Moment) → PicksUp n m l → begins_cycle (counters n (m ∷ l ∷ past)) ≡ true }
    ensures zero { (t : Tables) (n : ℕ) (m l : Moment) (past : List Moment) → CountsOn t n m l past → is_zero (m ∷ l ∷ past) ≡ true
        → begins_cycle (counters n (m ∷ l ∷ past)) ≡ true }
    ensures begins { (d : Drift) (t : Tables) (n most : ℕ) (m l : Moment) (past : List Moment) → m.frame.mode ≡ Coord n
        → is_disturbed d (m ∷ l ∷ past) ≡ false → has_zero d (l ∷ past) ≡ false → is_zero (m ∷ l ∷ past) ≡ true
        → quiet_for d (l ∷ past) < most → begins_cycle (counters n (m ∷ l ∷ past)) ≡ true → m.frame.target < cycle_time t n
        → HasRoom (correction_of t n) → (drifts d ≡ true → HasTime d (correction_of t n)) → OnPath d t n most (m ∷ l ∷ past) }
    ensures step { (d : Drift) (t : Tables) (n most : ℕ) (m l : Moment) (past : List Moment) → is_disturbed d (m ∷ l ∷ past) ≡ false
        → CountsOn t n m l past → m.number ≡ l.number + 1 → m.frame.target ≡ moved (cycle_time t n) (step_at d m.number) l.frame.target
        → cycle_time m.tables m.command ≡ cycle_time t n → OnPath d t n most (l ∷ past) → OnPath d t n most (m ∷ l ∷ past) }
    ensures early { (d : Drift) (most : ℕ) (past : List Moment) → quiet_for d past < most → offset_within d most past ≡ true }
    ensures met { (d : Drift) (t : Tables) (n most : ℕ) (past : List Moment) → OnPath d t n most past → can_follow d t ≡ true
        → offset_within d (most + cycles_needed d t n (zero_target d past)) past ≡ true }
    ensures no_sooner { (d : Drift) (t : Tables) (n most : ℕ) (m : Moment) (past : List Moment) → drifts d ≡ false
        → HasRoom (correction_of t n) → OnPath d t n most (m ∷ past) → 1 ≤ zero_target d (m ∷ past)
        → m.frame.counter ≡ m.frame.target
        → quiet_for d (first_zero d (m ∷ past)) + (needed (correction_of t n) (zero_target d (m ∷ past)) - 1) * shortest_cycle t n
        < quiet_for d (m ∷ past) }
{}
