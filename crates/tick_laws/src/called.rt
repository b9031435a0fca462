//! What a call is promised: it waits until its phase serves it, a walk that was asked for comes with the next green of
//! free operation, and the green that is in the way ends once the barrier allows it. The functions have no bodies:
//! their contracts are the laws. (NEMA TS 2: locking memory, barrier; FHWA Signal Timing Manual: gap-out, max-out.)
ghost use Rattle.std.specs.Prelude.{ℕ, ◌≡◌, List, true, false};
ghost use Rattle.sig_types.specs.declared.frame.Colour.TheVariants.{Red};
ghost use Rattle.sig_types.specs.declared.frame.Field.{Field};
ghost use Rattle.sig_types.specs.declared.frame.Ped.TheVariants.{Walk};
ghost use Rattle.sig_types.specs.Phases.{is_phase, is_in};
ghost use Rattle.sig_types.specs.Colour.{colour_of, signal_of};
ghost use Rattle.sig_tables.specs.Tables.{is_enabled};
ghost use Rattle.sig_tables.specs.Splits.{omits};
ghost use Rattle.sig_tables.specs.Modes.{bound};
ghost use Rattle.sig_tables.specs.Past.{Event, Input, History};
ghost use Rattle.sig_tables.specs.Calls.{locks_vehicle, locks_pedestrian, is_green};
ghost use Rattle.sig_tables.specs.Walking.{has_walk};
ghost use Rattle.sig_tables.specs.Seen.{vehicle_seen, pedestrian_seen, mode_seen, demand_seen};
ghost use Rattle.sig_tables.specs.Decide.{past_at, since_opening, last_frame_of, decide, with_one};
ghost use Rattle.tick_laws.specs.Lawful.{Lawful};
ghost use Rattle.tick_laws.specs.Search.{is_walk};
ghost use Rattle.tick_laws.specs.Waiting.{with_more, is_served_in, BeginsFree};
ghost use Rattle.tick_laws.specs.Barrier.{EachEndsInTurn, EachEndsForOther};

/// A vehicle call that an input locks while its phase is not green is in place at once, and from then on until a frame
/// shows the phase green, whatever comes in between: other modes, commands and also downloads. While it is in place the
/// phase is called at each tick at which it is enabled, red and not omitted by the pattern that binds.
pub fn calls_stay()
    ensures locked { (h : History) (field : Field) (p : ℕ) → is_phase p ≡ true → locks_vehicle (past_at h).tables field p ≡ true
        → is_green (last_frame_of h) p ≡ false → is_in (vehicle_seen (past_at (with_one h (Input field)))) p ≡ true }
    ensures stays { (h : History) (later : List Event) (p : ℕ) → is_phase p ≡ true → is_in (vehicle_seen (past_at h)) p ≡ true
        → is_served_in is_green later h p ≡ false → is_in (vehicle_seen (past_at (with_more later h))) p ≡ true }
    ensures served { (h : History) (p : ℕ) → is_phase p ≡ true → is_green (last_frame_of h) p ≡ true
        → is_in (vehicle_seen (past_at h)) p ≡ false }
    ensures called { (h : History) (p : ℕ) → is_phase p ≡ true → is_in (vehicle_seen (past_at h)) p ≡ true
        → is_enabled (past_at h).tables p ≡ true → colour_of (last_frame_of h) p ≡ Red
        → omits (bound (mode_seen (past_at h))) (past_at h).tables p ≡ false → is_in (demand_seen (past_at h)) p ≡ true }
{}

/// A pedestrian call that a button locks while its phase does not show walk is in place at once, and until a frame
/// shows walk. The next green of its phase that begins in free operation brings the walk, if the tables in force then
/// have one. (A green that begins in a stage of a preempt, or on the way to flash, brings none: the call keeps
/// waiting.)
pub fn walks_come()
    ensures pressed { (h : History) (field : Field) (p : ℕ) → is_phase p ≡ true → locks_pedestrian (past_at h).tables field p ≡ true
        → is_walk (last_frame_of h) p ≡ false → is_in (pedestrian_seen (past_at (with_one h (Input field)))) p ≡ true }
    ensures stays { (h : History) (later : List Event) (p : ℕ) → is_phase p ≡ true → is_in (pedestrian_seen (past_at h)) p ≡ true
        → is_served_in is_walk later h p ≡ false → is_in (pedestrian_seen (past_at (with_more later h))) p ≡ true }
    ensures comes { (h : History) (later : List Event) (p : ℕ) → is_phase p ≡ true → is_in (pedestrian_seen (past_at h)) p ≡ true
        → is_served_in is_walk later h p ≡ false → BeginsFree (with_more later h) p → has_walk (past_at (with_more later h)).tables p ≡ true
        → signal_of (decide (with_more later h)) p ≡ Walk }
{}

/// In free operation a green ends exactly where its gap or its maximum is over, it is served, and it is its turn: a later phase of its ring
/// and side is called; else, where a phase across the barrier is called, the other ring can leave the side at the same tick; else an
/// earlier phase is called. So it ends for each phase that is called and may not be on with it as soon as the other ring can leave.
pub fn greens_end_in_turn()
    ensures turn { (h : History) → Lawful h.tables (since_opening h) → EachEndsInTurn (past_at h).moments }
    ensures other { (h : History) → Lawful h.tables (since_opening h) → EachEndsForOther (past_at h).moments }
{}
