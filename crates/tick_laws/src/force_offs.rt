//! A pattern's force-offs: what one step of the counter keeps of each phase between two local zeros, so that a phase is
//! forced off only once it is served, and at local zero only the coordinated phases are on. The functions have no
//! bodies: their contracts are the laws. (FHWA Signal Timing Manual: force-off, permissive period, yield
//! point.)
ghost use Rattle.std.specs.Prelude.{ℕ, ◌<◌, ◌≤◌, ◌≡◌, ◌⊎◌, ◌+◌, ◌∷◌, List, true};
ghost use Rattle.sig_types.specs.declared.frame.Colour.TheVariants.{Green, Red};
ghost use Rattle.sig_types.specs.Colour.{colour_of, signal_of};
ghost use Rattle.sig_tables.specs.declared.tables.Tables.{Tables};
ghost use Rattle.sig_tables.specs.Tables.{row, yellow_time, red_revert_time};
ghost use Rattle.sig_tables.specs.Slots.{cycle_time, window, force_point};
ghost use Rattle.sig_tables.specs.Counting.{Correction, last_counter, next_counter};
ghost use Rattle.sig_tables.specs.Past.{Moment};
ghost use Rattle.sig_tables.specs.Looking.{lasts, shows};
ghost use Rattle.sig_tables.specs.View.{is_served};
ghost use Rattle.sig_tables.specs.Moves.{Moves};
ghost use Rattle.tick_laws.specs.Steps.{Steps};
ghost use Rattle.tick_laws.specs.Phases.{Next, Other, OtherMoves, OtherGreen, OtherStands, Held, HeldMoves, HeldStands, SignalMoves, SignalStands};

/// Whatever its target is, the counter is only within the window, skips one tick at most up to it, and else continues
/// as time does, to local zero at the end of the cycle.
pub fn counter_steps()
    ensures { (k : Correction) (past : List ℕ) (target : ℕ) → last_counter past < k.cycle
        → Steps k.cycle k.window (last_counter past) (next_counter k past target) }
{}

/// A phase that the pattern does not hold begins only where it fits and is forced off at its force point: so it stays in
/// time through green, yellow and red clearance, and is off at local zero.
pub fn others_in_time()
    ensures step { (t : Tables) (n p c d : ℕ) (moves : Moves) (l : Moment) (past : List Moment) (m : Moment) → Other t n p → 1 ≤ yellow_time t p
        → OtherMoves t n p d moves (l ∷ past) → Next t n p c d moves (l ∷ past) m → OtherStands t n p c (l ∷ past) (colour_of l.frame p)
        → OtherStands t n p d (m ∷ l ∷ past) (colour_of m.frame p) }
    ensures at_zero { (t : Tables) (n p c d : ℕ) (moves : Moves) (l : Moment) (past : List Moment) (m : Moment) → Other t n p → 1 ≤ window t n
        → OtherMoves t n p d moves (l ∷ past) → Next t n p c d moves (l ∷ past) m → OtherStands t n p c (l ∷ past) (colour_of l.frame p)
        → d ≡ 0 → c + 1 ≡ cycle_time t n → colour_of m.frame p ≡ Red }
{}

/// At a force-off it is served: its minimum green is over, and so are its walk and its pedestrian clearance, which
/// began with its green.
pub fn forced_off_served()
    ensures step { (t : Tables) (p : ℕ) (l : Moment) (past : List Moment) (m : Moment) → SignalMoves t p (l ∷ past) m
        → SignalStands t p (l ∷ past) (signal_of l.frame p) → SignalStands t p (m ∷ l ∷ past) (signal_of m.frame p) }
    ensures served { (t : Tables) (n p c d : ℕ) (l : Moment) (past : List Moment) → Other t n p → Steps (cycle_time t n) (window t n) c d
        → ((row t p).walk ≡ 0 → (row t p).pedestrian_clear ≡ 0) → OtherGreen t n p c (l ∷ past) → SignalStands t p (l ∷ past) (signal_of l.frame p)
        → force_point t n p ≤ d → is_served t (l ∷ past) p ≡ true }
{}

/// A coordinated phase ends only past its force point and for another phase that fits after its clearance: so it is green
/// before its force point, and at the end of the cycle it is green or may begin.
pub fn held_return()
    ensures step { (t : Tables) (n q c d : ℕ) (moves : Moves) (l : Moment) (past : List Moment) (m : Moment) → Held t n q → 1 ≤ yellow_time t q → 1 ≤ d
        → HeldMoves t n q d moves → Next t n q c d moves (l ∷ past) m → HeldStands t n q c (l ∷ past) (colour_of l.frame q)
        → HeldStands t n q d (m ∷ l ∷ past) (colour_of m.frame q) }
    ensures green { (t : Tables) (n q c : ℕ) (l : Moment) (past : List Moment) → c < force_point t n q
        → HeldStands t n q c (l ∷ past) (colour_of l.frame q) → colour_of l.frame q ≡ Green }
    ensures stays { (t : Tables) (n q c d : ℕ) (moves : Moves) (l : Moment) (past : List Moment) (m : Moment) → d < force_point t n q
        → HeldMoves t n q d moves → Next t n q c d moves (l ∷ past) m → colour_of l.frame q ≡ Green → colour_of m.frame q ≡ Green }
    ensures at_zero { (t : Tables) (n q c : ℕ) (l : Moment) (past : List Moment) → c + 1 ≡ cycle_time t n
        → HeldStands t n q c (l ∷ past) (colour_of l.frame q)
        → (colour_of l.frame q ≡ Green) ⊎ ((colour_of l.frame q ≡ Red) × (lasts (red_revert_time t q) (shows q Red) (l ∷ past) ≡ true)) }
{}
