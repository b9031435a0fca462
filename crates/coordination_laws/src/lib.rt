//! Coordination over histories: a seek for a pattern ends in time, a coordinated cabinet keeps its offset, and what
//! follows from both for a history that nothing disturbs (FHWA Signal Timing Manual: transition into coordination). The
//! functions have no bodies: their contracts are the laws, which callers cite.
//! The module `offset` has the laws of offset correction, in numbers.
#![tactic(auto)]

mod coordination_kept;
mod coordination_met;
mod cycles_undisturbed;
mod drift_held;
mod known;
mod offset;
mod sought_in_time;

ghost use Rattle.std.specs.Prelude.{ℕ, ◌≡◌, ◌+◌, ◌∷◌, List, true};
ghost use Rattle.sig_types.specs.declared.frame.Colour.TheVariants.{Green};
ghost use Rattle.sig_types.specs.Phases.{is_in};
ghost use Rattle.sig_types.specs.Colour.{colour_of};
ghost use Rattle.sig_tables.specs.declared.tables.Tables.{Tables};
ghost use Rattle.sig_tables.specs.Tables.{is_enabled};
ghost use Rattle.sig_tables.specs.Past.{Moment};
ghost use Rattle.sig_tables.specs.View.{View};
ghost use Rattle.coordination_laws.specs.Search.{Greatest, Sought, InSearch, KeepsEach, Gives, IsLate, AnyMoment};

pub use coordination_kept::{promise_kept, quiet_tells};
pub use coordination_met::{coordination_is_met, offset_is_met_no_sooner, promise_reads};
pub use cycles_undisturbed::{offset_met_in_time, zero_comes_in_time};
pub use drift_held::{
    drift_is_held, gains_are_not_dwelt_away, held_as_computed, quick_drift_is_not_held,
};
pub use known::{late_without_room, met_as_computed};
pub use offset::{local_zero_comes, offset_is_met};
pub use sought_in_time::{greatest_times, search_lasts, steps_last};

/// From whatever a cabinet shows when a pattern is commanded, the phases that the pattern does not hold are served and clear
/// within the greatest service and clearance that its tables so far give, and those that it holds may begin within the greatest
/// clearance and red revert; so both are Green a tick after the later of the two.
pub fn search_ends()
    ensures begins { (g : ℕ → Greatest) (t : Tables) (goal : List ℕ) (past : List Moment) → KeepsEach g t
        → ((q : ℕ) → is_in goal q ≡ true → is_enabled t q ≡ true) → AnyMoment g t past → InSearch g t goal 0 past }
    ensures step { (g : ℕ → Greatest) (v : View) (n ticks : ℕ) (goal : List ℕ) (l : Moment) (past : List Moment) (m : Moment) → KeepsEach g v.tables
        → Sought v n goal → v.past ≡ l ∷ past → Gives v goal m → InSearch g v.tables goal ticks (l ∷ past)
        → InSearch g v.tables goal (ticks + 1) (m ∷ l ∷ past) }
    ensures ends { (g : ℕ → Greatest) (v : View) (n ticks : ℕ) (goal : List ℕ) (m : Moment) → Sought v n goal → Gives v goal m → IsLate g ticks
        → InSearch g v.tables goal ticks v.past → (q : ℕ) → is_in goal q ≡ true → colour_of m.frame q ≡ Green }
{}
