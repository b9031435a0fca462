//! Why a window of 4,096 frames is enough: every time of a phase that a run of frames is compared
//! with is at most 2,550 ticks, and a run that is counted no further than 4,096 decides each such
//! comparison.

ghost use Rattle.std.specs.Prelude.{◌≡◌, ◌≤◌, ℕ, min, nat_le, ◌==◌, ◌<◌};
ghost use Rattle.sig_tables.specs.declared.tables.Tables.{Tables};
ghost use Rattle.sig_tables.specs.InRange.{InRange};
ghost use Rattle.look_back.specs.Reach.{TimesWithin};

/// The times of a phase, where each number of the tables is in its range.
pub fn times_are_in_reach()
    ensures times { (t : Tables) (p : ℕ) → InRange t → 1 ≤ p → p ≤ 16 → TimesWithin 2550 t p }
{}

/// A run that is counted no further than 4,096 has reached a time where the whole run has, and is a shorter time where it is.
pub fn reach_decides()
    ensures reached { (time run : ℕ) → time ≤ 4096 → nat_le time (min run 4096) ≡ nat_le time run }
    ensures just { (time run : ℕ) → time < 4096 → (min run 4096 == time) ≡ (run == time) }
{}
