//! The ticks of a pattern: what the rings do keeps every phase in time between two local zeros, and at each local zero
//! both coordinated phases are green and every other phase is red. The functions have no bodies: their contracts are
//! the laws. (FHWA Signal Timing Manual: coordination, force-off, yield point.)
ghost use Rattle.std.specs.Prelude.{ℕ, ◌≡◌, ◌⊎◌, ◌∷◌, List, true, false};
ghost use Rattle.sig_types.specs.declared.frame.Colour.TheVariants.{Red};
ghost use Rattle.sig_types.specs.Phases.{is_in};
ghost use Rattle.sig_types.specs.Colour.{colour_of};
ghost use Rattle.sig_tables.specs.Tables.{is_enabled};
ghost use Rattle.sig_tables.specs.Slots.{is_coordinated, coordinated_phase};
ghost use Rattle.sig_tables.specs.declared.tables.Tables.{Tables};
ghost use Rattle.sig_tables.specs.Past.{Moment};
ghost use Rattle.sig_tables.specs.Looking.{last_frame};
ghost use Rattle.sig_tables.specs.View.{View};
ghost use Rattle.sig_tables.specs.Moves.{ring_moves};
ghost use Rattle.tick_laws.specs.Phases.{OtherMoves, HeldMoves};
ghost use Rattle.tick_laws.specs.Zero.{HoldsPair, PlanServes, TimesServe, Sees, AtZero, Gives, InTime, ZeroHolds, Kept};

/// The rings move as the plan asks. A phase that is not coordinated begins only where it fits, and is forced off at its force
/// point. A coordinated one ends only past its force point, and only for another phase that fits after its clearance.
pub fn moves_as_planned()
    ensures others { (v : View) (n p : ℕ) → HoldsPair v.tables n → Sees v n → v.frame ≡ last_frame v.past → is_enabled v.tables p ≡ true
        → is_coordinated v.tables n p ≡ false → OtherMoves v.tables n p v.counter (ring_moves v) v.past }
    ensures held { (v : View) (n q : ℕ) → HoldsPair v.tables n → PlanServes v.tables n → Sees v n → is_coordinated v.tables n q ≡ true
        → HeldMoves v.tables n q v.counter (ring_moves v) }
{}

/// At local zero a coordinated phase that is red begins, whatever side of the barrier was served before it.
pub fn held_begin_at_zero()
    ensures { (v : View) (n r : ℕ) → HoldsPair v.tables n → Sees v n → AtZero v n → (r ≡ 1) ⊎ (r ≡ 2)
        → colour_of v.frame (coordinated_phase v.tables n r) ≡ Red → is_in (ring_moves v).begins (coordinated_phase v.tables n r) ≡ true }
{}

/// From a pickup on, where both coordinated phases are green and nothing else is on, each tick keeps every phase in time; and
/// whenever the counter is 0 both coordinated phases are green and every other phase is red.
pub fn coordinated_green_at_zero()
    ensures pickup { (t : Tables) (n : ℕ) (l : Moment) (past : List Moment) → ZeroHolds t n l → InTime t n 0 (l ∷ past) }
    ensures tick { (v : View) (n c : ℕ) (l : Moment) (past : List Moment) (m : Moment)
        → HoldsPair v.tables n → PlanServes v.tables n → TimesServe v.tables n
        → Sees v n → Gives v n c m → v.past ≡ l ∷ past → InTime v.tables n c v.past → Kept v n m }
{}
