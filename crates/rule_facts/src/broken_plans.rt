//! Plans that break one rule, and their effect on the street: what the rules of coordination are for. Each cabinet is
//! followed over a cycle of 90 seconds, or for as long as its offset may take to be met. The functions have no bodies:
//! their contracts are the laws. (FHWA Signal Timing Manual: coordination, offset, transition.)
ghost use Rattle.std.specs.Prelude.{◌≡◌, false, [], ◌∷◌};
ghost use Rattle.sig_types.specs.declared.frame.Colour.TheVariants.{Green, Red};
ghost use Rattle.sig_types.specs.declared.frame.Mode.TheVariants.{Coord};
ghost use Rattle.sig_tables.specs.Standard.{std8};
ghost use Rattle.sig_tables.specs.Seen.{moment_seen};
ghost use Rattle.sig_tables.specs.Decide.{past_at};
ghost use Rattle.rule_book.specs.declared.rules.Rule.TheVariants.{OnPhase, OnPattern};
ghost use Rattle.rule_book.specs.declared.rules.PhaseRule.TheVariants.{RedRevert};
ghost use Rattle.rule_book.specs.declared.rules.PatternRule.TheVariants.{CorrectionWindow};
ghost use Rattle.rule_facts.specs.Needed.{BreaksOnly, slow_clearance};
ghost use Rattle.tick_laws.specs.InStep.{Coordinated};
ghost use Rattle.plan_facts.specs.Meets.{Meets};
ghost use Rattle.rule_facts.specs.BrokenPlans.{at_last, late_turn, long_call, long_revert};
ghost use Rattle.rule_facts.specs.Window.{at_end, five_ahead, short_window};

/// The standard pattern brings both coordinated phases back to green by local zero, also after a late left turn and a long call.
pub fn keeps_the_standard_plan()
    ensures turn { at_last (late_turn std8) ≡ record { tick = 960; mode = Coord 1; counter = 0; two = Green; six = Green } }
    ensures side_street { at_last (long_call std8) ≡ record { tick = 960; mode = Coord 1; counter = 0; two = Green; six = Green } }
{}

/// Without the rule on red revert (11) a coordinated phase may still be held in red by its red revert at local zero,
/// after it gave way to a left turn.
pub fn local_zero_needs_red_revert()
    ensures broken { BreaksOnly long_revert (OnPhase RedRevert) (2 ∷ []) }
    ensures late { at_last (late_turn long_revert) ≡ record { tick = 960; mode = Coord 1; counter = 0; two = Red; six = Green } }
    ensures fails { ¬ Coordinated long_revert 1 (moment_seen (past_at (late_turn long_revert))) }
{}

/// Without the rule on the minimum service (18) a phase of the side street that is forced off may still be clearing at
/// local zero, with both coordinated phases red.
pub fn local_zero_needs_least_service()
    ensures late { at_last (long_call slow_clearance) ≡ record { tick = 960; mode = Coord 1; counter = 0; two = Red; six = Red } }
    ensures fails { ¬ Coordinated slow_clearance 1 (moment_seen (past_at (long_call slow_clearance))) }
{}

/// Without the rule on the window of the correction (19) the offset may not be met in time. The counter is 50 ticks
/// ahead of its target, and one cycle may wait for as many; but it may wait only within the window, which is 5 ticks.
/// At the end of the time in which that one cycle is promised it is 35 ahead.
pub fn offset_needs_correction_window()
    ensures broken { BreaksOnly short_window (OnPattern CorrectionWindow) (1 ∷ []) }
    ensures late { at_end (five_ahead short_window 1179)
        ≡ record { quiet = 1120; mode = Coord 1; cycles = 1; bound = 1120; counter = 84; target = 49; in_time = false } }
    ensures misses { ¬ Meets (five_ahead short_window 1179) }
{}
