//! Undisturbed coordination keeps its promise: from what each tick is, every history meets it, also of a clock that
//! drifts. The functions have no bodies: their contracts are the laws, which callers cite. (FHWA Signal
//! Timing Manual: coordination, offset, transition.)
ghost use Rattle.std.specs.Prelude.{ℕ, ◌≡◌, ◌⊎◌, ◌<◌, ◌+◌, ◌%◌, ◌∷◌, [], List, false};
ghost use Rattle.sig_tables.specs.declared.tables.Tables.{Tables};
ghost use Rattle.sig_tables.specs.Slots.{cycle_time};
ghost use Rattle.sig_tables.specs.Clock.{day, target_at};
ghost use Rattle.sig_tables.specs.Decide.{past_at};
ghost use Rattle.sig_tables.specs.Past.{Moment, History, first_moment};
ghost use Rattle.coordination_laws.specs.Drifting.{moved};
ghost use Rattle.plan_facts.specs.Disturbances.{Drift, drifts, drift_of, no_drift, rise, is_disturbed};
ghost use Rattle.plan_facts.specs.Meets.{MeetsEach, Meets, NotSooner};
ghost use Rattle.coordination_laws.specs.Cycles.{step_at};
ghost use Rattle.coordination_laws.specs.Facts.{TellsEach};
ghost use Rattle.coordination_laws.specs.Goes.{CounterGoesOn};

/// Where each tick is as the rules of a tick have it, every moment meets what coordination promises: both coordinated phases Green
/// at each local zero, a local zero in time after each disturbance, and the offset met in time and held: exactly where the clock keeps
/// time, and to one tick where it drifts. The drift may be any, also none, whatever the clock does; what it does else counts as a clock
/// that is set. With a clock that keeps time the offset is not met before the last of the needed cycles.
pub fn promise_kept()
    ensures each { (d : Drift) (past : List Moment) → TellsEach d past → MeetsEach d past }
    ensures drifting { (h : History) → TellsEach (drift_of (past_at h)) (past_at h).moments → Meets h }
    ensures history { (h : History) → (past_at h).gain ≡ 0 → (past_at h).lose ≡ 0 → TellsEach no_drift (past_at h).moments → Meets h }
    ensures no_sooner { (d : Drift) (n : ℕ) (past : List Moment) → drifts d ≡ false → TellsEach d past → NotSooner d n past }
    ensures opening { (d : Drift) (t : Tables) → TellsEach d (first_moment t ∷ []) }
{}

/// A tick that isn't a disturbance continues the one before; and if it does, the target advances as the clock does: by
/// one tick, by two, or not at all.
pub fn quiet_tells()
    ensures goes_on { (d : Drift) (m l : Moment) (past : List Moment) → is_disturbed d (m ∷ l ∷ past) ≡ false → CounterGoesOn d m l }
    ensures later { (d : Drift) (t : Tables) (n number time : ℕ) → (time + rise d number < day) ⊎ (day % cycle_time t n ≡ 0)
        → target_at t n ((time + rise d number) % day) ≡ moved (cycle_time t n) (step_at d number) (target_at t n time) }
{}
