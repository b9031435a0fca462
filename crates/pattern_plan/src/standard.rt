//! The plan of the standard tables' pattern, as it is worked out by hand.

ghost use Rattle.std.specs.Prelude.{◌≡◌, ◌++◌, ◌∷◌, [], replicate};
ghost use Rattle.sig_tables.specs.Plan.{plan_of};
ghost use Rattle.sig_tables.specs.Standard.{std8};

/// Pattern 1 of the standard tables: 90 seconds, of which each turn has 15 and each through phase 30. Phases 2 and 6 are
/// coordinated, so local zero is 15 seconds into the sequence. A turn clears for 4.5 seconds and a through phase
/// for 5.5. The law has no code.
pub fn standard_plan()
    ensures held { (plan_of std8 1).coordinated ≡ 2 ∷ 6 ∷ [] }
    ensures force { (plan_of std8 1).force
        ≡ 855 ∷ 245 ∷ 405 ∷ 695 ∷ 855 ∷ 245 ∷ 405 ∷ 695 ∷ replicate 8 0 }
    ensures permissive { (plan_of std8 1).permissive
        ≡ 805 ∷ 0 ∷ 355 ∷ 505 ∷ 805 ∷ 0 ∷ 355 ∷ 505 ∷ replicate 8 0 }
    ensures window { (plan_of std8 1).window ≡ 245 }
    ensures float { (plan_of std8 1).float
        ≡ 150 ∷ 300 ∷ 150 ∷ 300 ∷ 150 ∷ 300 ∷ 150 ∷ 300 ∷ replicate 8 0 }
{}
