//! What the definition of a tick gives: laws of safety, of calls, of the clock, of force-offs and of coordinated ticks,
//! for every history. The functions have no bodies: their contracts are the laws. What is shown, and for how long,
//! follows NEMA TS 2 and the FHWA Signal Timing Manual.
#![tactic(auto)]

mod called;
mod coordinated_ticks;
mod force_offs;

ghost use Rattle.std.specs.Prelude.{◌≡◌, ◌≢◌, ◌&&◌, ◌||◌, ◌%◌, ℕ, true, false};
ghost use Rattle.sig_types.specs.declared.frame.Colour.TheVariants.{Green};
ghost use Rattle.sig_types.specs.declared.frame.Ped.TheVariants.{Dont};
ghost use Rattle.sig_types.specs.Phases.{is_phase, is_in};
ghost use Rattle.sig_types.specs.Colour.{colour_of, signal_of};
ghost use Rattle.sig_tables.specs.declared.tables.Tables.{Tables};
ghost use Rattle.sig_tables.specs.Standard.{std8};
ghost use Rattle.sig_tables.specs.Tables.{is_enabled, has_maximum_recall};
ghost use Rattle.sig_tables.specs.Past.{History};
ghost use Rattle.sig_tables.specs.Calls.{is_active};
ghost use Rattle.sig_tables.specs.Choosing.{is_in_step};
ghost use Rattle.sig_tables.specs.View.{is_forced};
ghost use Rattle.sig_tables.specs.Plain.{Plain};
ghost use Rattle.sig_tables.specs.Clock.{day, target_at};
ghost use Rattle.sig_tables.specs.Showing.{clock_shown};
ghost use Rattle.sig_tables.specs.Seen.{view_seen, vehicle_seen, pedestrian_seen, detectors_seen};
ghost use Rattle.sig_tables.specs.Decide.{past_at, since_opening, last_frame_of, decide, opening_drifting};
ghost use Rattle.tick_laws.specs.Lawful.{Lawful};
ghost use Rattle.tick_laws.specs.Served.{AllServed};
ghost use Rattle.tick_laws.specs.InStep.{EachCoordinated, InStep};
ghost use Rattle.tick_laws.specs.Safe.{EachApart, EachOne, EachEnabled, EachClearanceEnds, EachGreenEnds, EachWithin, EachLongYellow, EachFollows};
ghost use Rattle.tick_laws.specs.Walking.{EachOnGreen, EachWalkEnds, EachSignalEnds, EachWalkWithin, EachFlashWithin, EachQuiet};
ghost use Rattle.tick_laws.specs.Search.{stands_locked, stands_pressed, last_turned_on, turned_on_since};
ghost use Rattle.tick_laws.specs.Clocks.{IsSteady, clock_found, clock_after, run_on};

pub use called::{calls_stay, greens_end_in_turn, walks_come};
pub use coordinated_ticks::{coordinated_green_at_zero, held_begin_at_zero, moves_as_planned};
pub use force_offs::{counter_steps, forced_off_served, held_return, others_in_time};

/// At no tick are two incompatible phases both green, yellow or in red clearance, in every mode: in Free, in
/// coordination, in preemption and on the way to flash. The tables opened with are sound (each phase in ring 1 or 2,
/// lists of concurrency that agree with the rings, a start-up, patterns and preempts without conflict, plans that fit
/// their cycle and times that are long enough), and each download is sound and keeps which phases are enabled, their
/// rings and which are concurrent, except one that comes while nothing is on.
pub fn incompatible_apart()
    ensures { (h : History) → Lawful h.tables (since_opening h) → EachApart (past_at h).moments }
{}

/// At no tick are two phases of one ring green, yellow or in red clearance, in every mode.
pub fn one_each()
    ensures { (h : History) → Lawful h.tables (since_opening h) → EachOne (past_at h).moments }
{}

/// Each yellow and each red clearance that has ended lasted exactly the time that was in force at its first tick (FHWA
/// Signal Timing Manual, intervals): in every history, for any mode, tables and downloads. In a lawful one each
/// green lasted at least the minimum green that was, even if a pattern forces it off; in a stage of a preempt one that
/// is in its way lasted at least as much of that as the preempt leaves it.
pub fn intervals_last()
    ensures clearances { (h : History) → EachClearanceEnds (past_at h).moments }
    ensures greens { (h : History) → Lawful h.tables (since_opening h) → EachGreenEnds (past_at h).moments }
{}

/// No yellow and no red clearance shows longer than the time that was in force at its first tick, so that each ends on
/// time: in every history. A yellow of no ticks is left aside. The ranges of the tables allow one, the rules do not (rule 10:
/// at least 3 seconds): in a lawful history each yellow has them.
pub fn none_outlasts()
    ensures within { (h : History) → EachWithin (past_at h).moments }
    ensures yellows { (h : History) → Lawful h.tables (since_opening h) → EachLongYellow (past_at h).moments }
{}

/// The colours of a phase follow in order: green, yellow, red clearance, red, green. Red clearance is left out exactly
/// where the tables in force as yellow ends give it no time.
pub fn colours_follow()
    ensures { (h : History) → EachFollows (past_at h).moments }
{}

/// Walk and flashing don't walk show only on a phase that is green, in every lawful history.
pub fn on_green()
    ensures { (h : History) → Lawful h.tables (since_opening h) → EachOnGreen (past_at h).moments }
{}

/// Each walk and each pedestrian clearance that has ended lasted exactly the time that was in force at its first tick;
/// in a stage of a preempt one that is in its way lasted at least as much of that as the preempt leaves it. Walk begins
/// after steady don't walk, pedestrian clearance follows it, and steady don't walk follows that. Of walks that end this
/// holds in every history, of the rest in every lawful one.
pub fn signals_last()
    ensures walks { (h : History) → EachWalkEnds (past_at h).moments }
    ensures signals { (h : History) → Lawful h.tables (since_opening h) → EachSignalEnds (past_at h).moments }
{}

/// No walk and no pedestrian clearance shows longer than the time that was in force at its first tick, so that each ends
/// on time: of walks in every lawful history, of pedestrian clearances in every one.
pub fn no_signal_outlasts()
    ensures walks { (h : History) → Lawful h.tables (since_opening h) → EachWalkWithin (past_at h).moments }
    ensures clearances { (h : History) → EachFlashWithin (past_at h).moments }
{}

/// A phase that ends its green at a tick shows steady don't walk in that tick's frame, in every mode: to be served is
/// asked of the signal that follows by itself, and no walk begins on yellow. Of a phase that a pattern forces off this
/// is said in lawful histories, of others in every one.
pub fn ended_shows_dont()
    ensures unforced { (h : History) (p : ℕ) → is_phase p ≡ true → colour_of (last_frame_of h) p ≡ Green → colour_of (decide h) p ≢ Green
        → is_forced (view_seen (past_at h)) p ≡ false → signal_of (decide h) p ≡ Dont }
    ensures lawful { (h : History) (p : ℕ) → Lawful h.tables (since_opening h) → is_phase p ≡ true → colour_of (last_frame_of h) p ≡ Green
        → colour_of (decide h) p ≢ Green → signal_of (decide h) p ≡ Dont }
{}

/// In every lawful history a phase that is not enabled shows red and steady don't walk, in every mode, and no two
/// incompatible phases both show walk or flashing don't walk.
pub fn quiet_phases()
    ensures enabled { (h : History) → Lawful h.tables (since_opening h) → EachEnabled (past_at h).moments }
    ensures signals { (h : History) → Lawful h.tables (since_opening h) → EachQuiet (past_at h).moments }
{}

/// In every lawful history a pattern forces off only served phases (FHWA Signal Timing Manual, force-off): the minimum
/// green of the phase is over, and so are its walk and its pedestrian clearance. The definition of a force-off asks for
/// none of this. It follows from the plan: a phase begins only if its minimum service ends by its force point, and from
/// there on the counter advances as time does.
pub fn forces_off_served()
    ensures { (h : History) → Lawful h.tables (since_opening h) → AllServed h.tables (since_opening h) }
{}

/// In every lawful history each frame of a pattern keeps to its plan: its coordinated phases are green before their force points, any
/// other phase is on only from the window on and green only before its force point, and at each local zero the coordinated phases
/// are green and every other phase is red.
pub fn keeps_to_plan()
    ensures frames { (h : History) → Lawful h.tables (since_opening h) → EachCoordinated (past_at h).moments }
    ensures last { (h : History) (n : ℕ) → Lawful h.tables (since_opening h) → is_in_step (last_frame_of h) (past_at h).version n ≡ true
        → InStep (past_at h).tables n (past_at h).moments }
{}

/// Ticks of Start and Free force no phase off: so the laws of greens and walks hold of them for any tables.
pub fn plain_serves()
    ensures greens { (h : History) → Plain h.tables (since_opening h) → EachGreenEnds (past_at h).moments }
    ensures on_green { (h : History) → Plain h.tables (since_opening h) → EachOnGreen (past_at h).moments }
    ensures signals { (h : History) → Plain h.tables (since_opening h) → EachSignalEnds (past_at h).moments }
    ensures walks { (h : History) → Plain h.tables (since_opening h) → EachWalkWithin (past_at h).moments }
{}

/// The locked vehicle calls that a tick sees are those that a search back through the events finds: an input locked the
/// call while the phase was not green, and the phase has not been green since.
pub fn calls_found()
    ensures { (h : History) (p : ℕ) → is_phase p ≡ true
        → is_in (vehicle_seen (past_at h)) p ≡ stands_locked h.tables (since_opening h) p }
{}

/// The same of the locked pedestrian calls: a button locked the call while the phase had a walk and did not show it, and
/// the phase has not shown walk since.
pub fn pedestrian_calls_found()
    ensures { (h : History) (p : ℕ) → is_phase p ≡ true
        → is_in (pedestrian_seen (past_at h)) p ≡ stands_pressed h.tables (since_opening h) p }
{}

/// The detectors that a tick sees on are those that their last input turned on.
pub fn detectors_found()
    ensures { (h : History) (p : ℕ) → is_phase p ≡ true
        → is_in (detectors_seen (past_at h)) p ≡ last_turned_on (since_opening h) p }
{}

/// The phases that are active by their own options and detectors are enabled ones whose detector is on, or was turned
/// on since the last tick (even if it was on already), or that have maximum recall. (A pattern that binds also keeps
/// those active that its split recalls to their maximum.)
pub fn active_found()
    ensures { (h : History) (p : ℕ) → is_phase p ≡ true
        → is_active (past_at h).tables (past_at h).heard (detectors_seen (past_at h)) p
        ≡ (is_enabled (past_at h).tables p
        && (last_turned_on (since_opening h) p || turned_on_since (since_opening h) p || has_maximum_recall (past_at h).tables p)) }
{}

/// The clock is the last set time and the ticks since, one more for each tick at which it gains and one less for each at
/// which it loses, where its drift is set before the first tick.
pub fn clock_drifts()
    ensures { (h : History) → IsSteady (since_opening h) → clock_shown (past_at h) % day ≡ clock_found (since_opening h) }
{}

/// A clock that nothing sets after it was opened: its drift counted by division.
pub fn clock_runs()
    ensures { (t : Tables) (command clock gain lose n : ℕ)
        → clock_shown (past_at (run_on n (opening_drifting t command clock gain lose))) % day ≡ clock_after clock gain lose n }
{}

/// The target of the standard pattern round the tick at which a clock drifts, and where the next local zeros are.
pub fn targets_drift()
    ensures before { target_at std8 1 (clock_after 840 0 12000 11999) ≡ 239 }
    ensures stays { target_at std8 1 (clock_after 840 0 12000 12000) ≡ 239 }
    ensures behind { target_at std8 1 (clock_after 840 0 12000 12660) ≡ 899 }
    ensures zero_late { target_at std8 1 (clock_after 840 0 12000 13561) ≡ 0 }
    ensures gains { target_at std8 1 (clock_after 840 12000 0 12000) ≡ 241 }
    ensures zero_early { target_at std8 1 (clock_after 840 12000 0 12659) ≡ 0 }
    ensures twice { clock_after 840 12000 0 24000 ≡ 24842 }
    ensures midnight { clock_after 863999 12000 0 864000 ≡ 71 }
{}
