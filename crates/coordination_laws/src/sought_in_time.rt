//! Ticks in a row that seek a pattern, and ticks in a row that are coordinated in it: the seek is over within the bound
//! that the longest times so far give, and while coordinated every local zero is green. The functions have no bodies:
//! their contracts are the laws, which callers cite. (FHWA Signal Timing Manual: transition into
//! coordination.)
ghost use Rattle.std.specs.Prelude.{ℕ, ◌≡◌, ◌≤◌, ◌+◌, ◌∷◌, List, Bool, true, false};
ghost use Rattle.sig_types.specs.declared.frame.Mode.TheVariants.{Seek, Coord};
ghost use Rattle.sig_types.specs.Phases.{is_in};
ghost use Rattle.sig_tables.specs.declared.tables.Tables.{Tables};
ghost use Rattle.sig_tables.specs.Tables.{is_enabled, yellow_time};
ghost use Rattle.sig_tables.specs.Modes.{same_mode};
ghost use Rattle.sig_tables.specs.Goals.{goal_in};
ghost use Rattle.sig_tables.specs.Splits.{coordinated_phases};
ghost use Rattle.sig_tables.specs.Choosing.{are_coordinated_green, mode_reached};
ghost use Rattle.sig_tables.specs.Past.{Moment};
ghost use Rattle.sig_tables.specs.Looking.{last_frame, in_a_row, begun};
ghost use Rattle.coordination_laws.specs.Search.{GreatestKeeps, KeepsEach, IsLate, AnyMoment, InSearch};
ghost use Rattle.tick_laws.specs.Zero.{HoldsPair, PlanServes, TimesServe, ZeroHolds, InTime};
ghost use Rattle.plan_facts.specs.Disturbances.{Drift, quiet_for};
ghost use Rattle.plan_facts.specs.Greatest.{was_enabled, greatest_time, pickup_bound};
ghost use Rattle.plan_facts.specs.Meets.{is_zero, zero_within, green_at_zero};
ghost use Rattle.coordination_laws.specs.Versions.{IsVersion, greatest_at, HasYellow};
ghost use Rattle.coordination_laws.specs.Lasting.{Searches, RunsInStep, EachZeroHolds};

/// The greatest times so far bound those of each version, only grow, and are those that a search asks for; the tables that an
/// interval latched are among the versions; and from the bound of a pickup on, less two ticks, the greatest times are over.
pub fn greatest_times()
    ensures bounds { (time : Tables → ℕ → ℕ) (t : Tables) (p : ℕ) (past : List Moment) → was_enabled p past ≡ true → IsVersion t past
        → time t p ≤ greatest_time time p past }
    ensures grows { (time : Tables → ℕ → ℕ) (p : ℕ) (m : Moment) (past : List Moment) → greatest_time time p past ≤ greatest_time time p (m ∷ past) }
    ensures bound { (m : Moment) (past : List Moment) → pickup_bound past ≤ pickup_bound (m ∷ past) }
    ensures same { (m : Moment) (past : List Moment) → IsVersion m.tables past → pickup_bound (m ∷ past) ≡ pickup_bound past }
    ensures keeps { (past : List Moment) (t : Tables) (p : ℕ) → IsVersion t past → was_enabled p past ≡ true → 1 ≤ yellow_time t p
        → GreatestKeeps (greatest_at past p) t p }
    ensures each { (past : List Moment) (t : Tables) → IsVersion t past → HasYellow t → KeepsEach (greatest_at past) t }
    ensures latched { (test : Moment → Bool) (now : Tables) (past : List Moment) → 1 ≤ in_a_row test past → IsVersion (begun test now past) past }
    ensures late { (past : List Moment) (ticks : ℕ) → pickup_bound past ≤ ticks + 2 → IsLate (greatest_at past) ticks }
{}

/// A seek for a pattern, over N ticks: each phase is as far as it must be by then; while the coordinated phases are not
/// both Green the seek is shorter than its bound by two ticks, so that no local zero is overdue even if the disturbance
/// came a tick before it began; and the tick that brings both to Green is the pickup, a local zero.
pub fn search_lasts()
    ensures stands { (t : Tables) (n : ℕ) (start : List Moment) → IsVersion t start → HasYellow t → AnyMoment (greatest_at start) t start
        → ((q : ℕ) → is_in (coordinated_phases t n) q ≡ true → is_enabled t q ≡ true) → (k : ℕ) (now : List Moment)
        → Searches t n start k now → InSearch (greatest_at start) t (goal_in t (Seek n)) k now }
    ensures short { (t : Tables) (n : ℕ) (start : List Moment) → IsVersion t start → HasYellow t → AnyMoment (greatest_at start) t start
        → ((q : ℕ) → is_in (coordinated_phases t n) q ≡ true → is_enabled t q ≡ true) → (k : ℕ) (now : List Moment)
        → Searches t n start k now → are_coordinated_green t n (last_frame now).veh ≡ false → k + 2 ≤ pickup_bound start }
    ensures grows { (t : Tables) (n : ℕ) (start : List Moment) (k : ℕ) (now : List Moment) → Searches t n start k now
        → pickup_bound start ≤ pickup_bound now }
    ensures in_time { (d : Drift) (t : Tables) (n : ℕ) (start : List Moment) (most : ℕ) → IsVersion t start → HasYellow t
        → AnyMoment (greatest_at start) t start
        → ((q : ℕ) → is_in (coordinated_phases t n) q ≡ true → is_enabled t q ≡ true) → (k : ℕ) (now : List Moment)
        → Searches t n start k now → are_coordinated_green t n (last_frame now).veh ≡ false → quiet_for d now ≤ k + 1
        → pickup_bound start ≤ most → zero_within d most now ≡ true }
    ensures picked_up { (t : Tables) (n : ℕ) (m l : Moment) (past : List Moment) → m.frame.mode ≡ mode_reached (Seek n) t m.frame.veh
        → are_coordinated_green t n m.frame.veh ≡ true → m.frame.counter ≡ 0 → same_mode l.frame.mode (Coord n) ≡ false
        → is_zero (m ∷ l ∷ past) ≡ true }
{}

/// Coordinated ticks of a pattern, from its pickup or any moment in time: every phase is in time after each, and
/// wherever the counter is 0 both coordinated phases are Green and every other Red, which is what a local zero asks.
pub fn steps_last()
    ensures pickup { (t : Tables) (n : ℕ) (l : Moment) (before : List Moment) → ZeroHolds t n l → l.frame.counter ≡ 0
        → InTime t n l.frame.counter (l ∷ before) }
    ensures in_time { (t : Tables) (n : ℕ) (l : Moment) (before : List Moment) → HoldsPair t n → PlanServes t n → TimesServe t n
        → InTime t n l.frame.counter (l ∷ before) → (k : ℕ) (now : List Moment) → RunsInStep t n (l ∷ before) k now
        → InTime t n (last_frame now).counter now × EachZeroHolds t n k now }
    ensures green { (t : Tables) (n : ℕ) (m : Moment) (past : List Moment) → HoldsPair t n → m.tables ≡ t → m.frame.mode ≡ Coord n
        → (m.frame.counter ≡ 0 → ZeroHolds t n m) → green_at_zero (m ∷ past) ≡ true }
{}
