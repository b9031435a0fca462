//! Undisturbed coordination, in every lawful history: each tick is as the laws of a seek and of a coordinated pattern
//! require, so the whole promise holds of it. The functions have no bodies: their contracts are the laws.
//! (FHWA Signal Timing Manual: coordination, offset, transition.)
ghost use Rattle.std.specs.Prelude.{ℕ, ◌≡◌, ◌⊎◌, ◌≤◌, ◌<◌, ◌+◌, ◌∷◌, List, true, false};
ghost use Rattle.sig_tables.specs.Slots.{is_defined, cycle_time};
ghost use Rattle.sig_tables.specs.Past.{Moment, History};
ghost use Rattle.sig_tables.specs.Decide.{past_at, since_opening};
ghost use Rattle.tick_laws.specs.Lawful.{Lawful};
ghost use Rattle.rule_facts.specs.Admitted.{Admitted};
ghost use Rattle.coordination_laws.specs.Drifting.{IsNear};
ghost use Rattle.plan_facts.specs.Disturbances.{Drift, IsSlow, drift_of, no_drift, drifts, quiet_for};
ghost use Rattle.plan_facts.specs.Bounds.{zero_bound, offset_bound};
ghost use Rattle.plan_facts.specs.Meets.{MeetsNow, MeetsEach, Meets, is_zero, is_green, has_zero, zero_target, can_follow, NotSooner};
ghost use Rattle.coordination_laws.specs.Ranged.{EachInRange};

/// In every lawful history both coordinated phases are green at each local zero. Where nothing disturbs the cabinet for
/// the bound after a disturbance at which a defined pattern is in command, a local zero comes in time, from whatever
/// state that leaves; and where nothing disturbs it for the cycles that the correction needs in addition, the offset is
/// met by then, and held until the next disturbance.
///
/// With a clock that drifts, counter and target meet within twice the needed cycles and are then at most one tick
/// apart; one that gains is followed only by shortway. The drift is one that a cabinet may have: it gains or loses, not
/// both, a tick in every N, 12,000 or more; and the tables are in range, so that two of the longest cycles lie between.
/// A drift that changes after the first tick leaves all this true of the last one, if ticks whose clock shows a
/// different time count as ones at which it was set. In the same way any slow drift may be used, also none, and then no
/// ranges are required.
///
/// It is enough that the opening tables are consistent and each download passed the rules.
pub fn coordination_is_met()
    ensures drifting { (h : History) → Admitted h.tables (since_opening h) → EachInRange h.tables (since_opening h)
        → IsSlow (drift_of (past_at h)) → Meets h }
    ensures admitted_even { (h : History) → Admitted h.tables (since_opening h) → (past_at h).gain ≡ 0 → (past_at h).lose ≡ 0 → Meets h }
    ensures admitted { (h : History) → Admitted h.tables (since_opening h) → MeetsEach no_drift (past_at h).moments }
    ensures each { (h : History) → Lawful h.tables (since_opening h) → MeetsEach no_drift (past_at h).moments }
    ensures each_drift { (h : History) (d : Drift) → Lawful h.tables (since_opening h) → EachInRange h.tables (since_opening h) → IsSlow d
        → MeetsEach d (past_at h).moments }
    ensures history { (h : History) → Lawful h.tables (since_opening h) → (past_at h).gain ≡ 0 → (past_at h).lose ≡ 0 → Meets h }
{}

/// The number of cycles that is computed is also the least: where the clock keeps time and the first local zero after a disturbance was
/// off its target, counter and target are not equal before the last of the needed cycles. By dwell and by add-only each of the others
/// takes the cycle and its whole limit, by shortway at least the cycle less what it subtracts.
pub fn offset_is_met_no_sooner()
    ensures { (h : History) (n : ℕ) → Admitted h.tables (since_opening h) → NotSooner no_drift n (past_at h).moments }
{}

/// What that says of the last moment: at a local zero both coordinated phases are green; where a defined pattern is in command and the
/// cabinet has been left undisturbed for the bound, a local zero has come since; and where it has been so for the bound and the
/// needed cycles, counter and target are equal, so that a local zero then has target 0. With a clock that drifts, where the correction
/// can follow it, they are equal or one tick apart round the cycle, so that a local zero then has target 0, 1 or one tick less than
/// the cycle.
pub fn promise_reads()
    ensures green { (d : Drift) (m : Moment) (past : List Moment) → MeetsNow d (m ∷ past) → is_zero (m ∷ past) ≡ true
        → is_green m.frame.mode m.tables m.frame.veh ≡ true }
    ensures zero { (d : Drift) (m : Moment) (past : List Moment) → MeetsNow d (m ∷ past) → is_defined m.tables m.command ≡ true
        → zero_bound (m ∷ past) m.tables m.command ≤ quiet_for d (m ∷ past) → has_zero d (m ∷ past) ≡ true }
    ensures offset { (d : Drift) (m : Moment) (past : List Moment) → MeetsNow d (m ∷ past) → is_defined m.tables m.command ≡ true
        → has_zero d (m ∷ past) ≡ true → drifts d ≡ false
        → offset_bound d (m ∷ past) m.tables m.command (zero_target d (m ∷ past)) ≤ quiet_for d (m ∷ past)
        → m.frame.counter ≡ m.frame.target }
    ensures near { (d : Drift) (m : Moment) (past : List Moment) → MeetsNow d (m ∷ past) → is_defined m.tables m.command ≡ true
        → has_zero d (m ∷ past) ≡ true → can_follow d m.tables ≡ true
        → offset_bound d (m ∷ past) m.tables m.command (zero_target d (m ∷ past)) ≤ quiet_for d (m ∷ past)
        → IsNear (cycle_time m.tables m.command) m.frame.counter m.frame.target }
    ensures near_zero { (cycle target : ℕ) → 1 < cycle → target < cycle → IsNear cycle 0 target
        → (target ≡ 0) ⊎ ((target ≡ 1) ⊎ (target + 1 ≡ cycle)) }
{}
