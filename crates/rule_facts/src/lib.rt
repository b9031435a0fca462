//! What consistent tables give the layers above: laws of barrier groups, sequences, goals and patterns that follow from
//! the consistency rules; and what each rule about a plan is for, by a plan that breaks only that rule. The functions
//! do nothing: their contracts are the laws, which callers cite.
#![tactic(auto)]

mod broken_plans;

ghost use Rattle.std.specs.Prelude.{◌≡◌, ◌≤◌, ◌+◌, ℕ, [], ◌∷◌, Bool, true, false, List};
ghost use Rattle.sig_types.specs.Phases.{is_phase};
ghost use Rattle.sig_tables.specs.declared.tables.Tables.{Tables};
ghost use Rattle.sig_tables.specs.Tables.{ring_of, is_enabled, clearance, starts_up};
ghost use Rattle.sig_tables.specs.Standard.{std8, max8};
ghost use Rattle.sig_tables.specs.Sides.{are_concurrent, are_of_one_side};
ghost use Rattle.sig_tables.specs.Slots.{is_defined, cycle_time, slot_end, least_service, zero_point, force_point, window, permissive_end};
ghost use Rattle.sig_tables.specs.Splits.{coordinated_phases};
ghost use Rattle.rule_book.specs.RingLayout.{is_used, comes_after};
ghost use Rattle.rule_book.specs.declared.rules.Rule.TheVariants.{OnPhase, OnSequence, OnPattern};
ghost use Rattle.rule_book.specs.declared.rules.PhaseRule.TheVariants.{SharedList, StartUp};
ghost use Rattle.rule_book.specs.declared.rules.SequenceRule.TheVariants.{SideOrder};
ghost use Rattle.rule_book.specs.declared.rules.PatternRule.TheVariants.{SplitSum, LeastService, CorrectionWindow};
ghost use Rattle.rule_book.specs.Rules.{broken, Consistent};
ghost use Rattle.sig_tables.specs.Past.{Event, History};
ghost use Rattle.sig_tables.specs.Decide.{past_at, since_opening};
ghost use Rattle.tick_laws.specs.Lawful.{Sound, SameLayout, Lawful};
ghost use Rattle.rule_facts.specs.Admitted.{Admitted, KeepsApart};
ghost use Rattle.rule_facts.specs.GivesWay.{EachGivesWay};
ghost use Rattle.rule_facts.specs.Rules.{KeepsRules};
ghost use Rattle.rule_facts.specs.Sides.{SidesCut, SidesHold};
ghost use Rattle.rule_facts.specs.Sequences.{SequenceServes};
ghost use Rattle.plan_facts.specs.Goals.{GoTogether, PreemptFits};
ghost use Rattle.plan_facts.specs.Times.{TimesHold};
ghost use Rattle.plan_facts.specs.Plan.{PlanHolds};
ghost use Rattle.rule_facts.specs.Forces.{AreEnough, force_with, first_turn_out};
ghost use Rattle.rule_facts.specs.Needed.{BreaksOnly, slow_clearance, long_slots, slots_past, crossed_sides, half_named, both_streets};

pub use broken_plans::{
    keeps_the_standard_plan, local_zero_needs_least_service, local_zero_needs_red_revert,
    offset_needs_correction_window,
};
use rule_book::standard_consistent;

/// Tables that break no rule keep each rule, by name and row.
pub fn rules_kept()
    ensures { (t in_force : Tables) (flashing : Bool) → broken t in_force flashing ≡ [] → KeepsRules t }
{}

/// Tables that keep the rules with regard to any tables in force also keep them by themselves: an accepted download
/// leaves consistent tables.
pub fn accepted_consistent()
    ensures { (t in_force : Tables) (flashing : Bool) → broken t in_force flashing ≡ [] → Consistent t }
{}

/// Consistent tables are sound (NTCIP 1202, rings and concurrency): each enabled phase is in ring 1 or 2, concurrent
/// phases are in different rings, phases of one side in different rings are concurrent, and so are those of start-up, of
/// each preempt and of each defined pattern. Each such pattern has its plan (`plan_holds`), and the times are long enough
/// (`times_hold`).
pub fn sound()
    ensures { (t : Tables) → Consistent t → Sound t }
{}

/// The standard tables are sound, so that the laws of safety speak of them.
pub fn standard_sound()
    ensures actuated { Sound std8 }
    ensures recalled { Sound max8 }
{
    standard_consistent();
}

/// Tables that break no rule together with those in force, in a cabinet that does not flash, keep which phases are
/// enabled, their rings, and which of them are concurrent.
pub fn same_layout()
    ensures { (t in_force : Tables) → broken t in_force false ≡ [] → SameLayout in_force t }
{}

/// The sides of the barrier cut the enabled phases into groups: to be of one side is reflexive, symmetric and transitive.
pub fn sides_cut()
    ensures { (t : Tables) → Consistent t → SidesCut t }
{}

/// Two phases of one side in different rings are concurrent, and concurrent phases are so; incompatible phases are of one
/// ring or of different sides; each side has phases in both rings; and there are at least two sides.
pub fn sides_hold()
    ensures { (t : Tables) → Consistent t → SidesHold t }
{}

/// Each sequence in use has each enabled phase of a ring once in that ring and nothing else; the phases of a side are
/// together in it, and the sides have one order in both rings (NTCIP 1202, sequences). The sequences are 1 to 16; in
/// use are the first, and each that has phases.
pub fn sequences_serve()
    ensures { (t : Tables) → Consistent t → (s : ℕ) → is_phase s ≡ true → is_used t s ≡ true → SequenceServes t s }
{}

/// Yellow lasts at least 3 seconds (NEMA TS 2); no red revert outlasts the minimum service and clearance of another
/// phase; a phase without a walk has no pedestrian clearance; and the offset is corrected by at least one tick, in a
/// mode that there is.
pub fn times_hold()
    ensures { (t : Tables) → Consistent t → TimesHold t }
{}

/// What a preempt or a pattern wants on goes together: the phases of each of the three sets of a preempt, and the
/// coordinated ones of a defined pattern, are enabled and pairwise concurrent, so at most one of each ring and all of one
/// side.
pub fn goals_fit()
    ensures preempts { (t : Tables) → Consistent t → (i : ℕ) → 1 ≤ i → i ≤ 8 → PreemptFits t i }
    ensures coordinated { (t : Tables) → Consistent t → (n : ℕ) → is_defined t n ≡ true → GoTogether t (coordinated_phases t n) }
{}

/// Each defined pattern lays its slots over the cycle so that local zero lies in both coordinated ones and in no other,
/// and that of two barrier groups one has ended in both rings when a slot of the other starts. Its window has room for
/// the waits and skips of one cycle, and each phase that it serves has its minimum service before its force point, and
/// its clearance between that and the end of the cycle (FHWA Signal Timing Manual, coordination).
pub fn plan_holds()
    ensures { (t : Tables) → Consistent t → (n : ℕ) → is_defined t n ≡ true → PlanHolds t n }
{}

/// The force point of an enabled phase is a true residue of the cycle, for any tables: with any number of whole cycles
/// added that leaves nothing below 0, the last moment that leaves room for its clearance in its slot, and for the
/// greatest of its side before the side ends, lies at that point after local zero.
pub fn force_is_residue()
    ensures { (t : Tables) (n p cycles : ℕ) → is_defined t n ≡ true → is_enabled t p ≡ true → AreEnough t n p cycles
        → force_point t n p ≡ force_with t n p cycles }
{}

/// The force points of the standard pattern, in ticks: each slot's end less its clearance, from local zero at 15 seconds on.
/// The turns that end there are forced off before it.
pub fn standard_force_points()
    ensures coordinated { (force_point std8 1 2 ≡ 245) × (force_point std8 1 6 ≡ 245) }
    ensures window { window std8 1 ≡ 245 }
    ensures side_turns { (force_point std8 1 3 ≡ 405) × (force_point std8 1 7 ≡ 405) }
    ensures side_street { (force_point std8 1 4 ≡ 695) × (force_point std8 1 8 ≡ 695) }
    ensures first_turns { (force_point std8 1 1 ≡ 855) × (force_point std8 1 5 ≡ 855) }
    ensures disabled { force_point std8 1 9 ≡ 0 }
    ensures permissive { (permissive_end std8 1 2 ≡ 0) × (permissive_end std8 1 3 ≡ 355) × (permissive_end std8 1 4 ≡ 505) }
{}

/// A phase that consistent tables omit may have a slot shorter than its clearance. Its force point is the residue all the
/// same: 19.5 seconds before local zero.
pub fn omitted_force_point()
    ensures consistent { Consistent first_turn_out }
    ensures forced { force_point first_turn_out 1 1 ≡ 705 }
    ensures permissive { permissive_end first_turn_out 1 1 ≡ 0 }
{}

/// Without the rule on the minimum service (18) a phase may be forced off too late to clear within the cycle.
pub fn needs_least_service()
    ensures broken { BreaksOnly slow_clearance (OnPattern LeastService) (1 ∷ []) }
    ensures cycle { cycle_time slow_clearance 1 ≡ 900 }
    ensures forced { force_point slow_clearance 1 3 ≡ 840 }
    ensures clears { force_point slow_clearance 1 3 + clearance slow_clearance 3 ≡ 1350 }
{}

/// Without the rule on the sum of the splits (17) a slot may end past the cycle, and its phase be forced off before
/// it is served.
pub fn needs_split_sum()
    ensures broken { BreaksOnly long_slots (OnPattern SplitSum) (1 ∷ []) }
    ensures cycle { cycle_time long_slots 1 ≡ 900 }
    ensures past { slot_end long_slots 1 4 ≡ 1200 }
    ensures forced { force_point long_slots 1 4 ≡ 95 }
    ensures served { least_service long_slots 4 ≡ 190 }
{}

/// Without the rule on the window of the correction (19) local zero may come after the end of a coordinated slot.
pub fn needs_correction_window()
    ensures broken { BreaksOnly slots_past (OnPattern CorrectionWindow) (1 ∷ []) }
    ensures zero { zero_point slots_past 1 ≡ 200 }
    ensures end { slot_end slots_past 1 6 ≡ 150 }
{}

/// Without the rule on the order of the sides (9) a side that comes before another in one ring may come after it in
/// the other.
pub fn needs_side_order()
    ensures broken { BreaksOnly crossed_sides (OnSequence SideOrder) (1 ∷ []) }
    ensures first { comes_after crossed_sides 1 1 3 ≡ true }
    ensures second { comes_after crossed_sides 1 7 5 ≡ true }
    ensures sides { (are_of_one_side crossed_sides 1 5 ≡ true) × (are_of_one_side crossed_sides 3 7 ≡ true) }
{}

/// Without the rule on shared lists (6) two phases of the side of a third, in different rings, may not be concurrent.
pub fn needs_shared_list()
    ensures broken { BreaksOnly half_named (OnPhase SharedList) (1 ∷ 2 ∷ 5 ∷ 6 ∷ []) }
    ensures sides { (are_of_one_side half_named 1 2 ≡ true) × (are_of_one_side half_named 1 5 ≡ true) }
    ensures rings { (ring_of half_named 2 ≡ 1) × (ring_of half_named 5 ≡ 2) }
    ensures apart { are_concurrent half_named 2 5 ≡ false }
{}

/// Without the rule on start-up (12) start-up phases may be incompatible.
pub fn needs_start_up()
    ensures broken { BreaksOnly both_streets (OnPhase StartUp) (2 ∷ 4 ∷ 6 ∷ []) }
    ensures up { (starts_up both_streets 4 ≡ true) × (starts_up both_streets 6 ≡ true) }
    ensures apart { are_concurrent both_streets 4 6 ≡ false }
{}

/// A history that opens with consistent tables, and whose downloads each broke no rule together with the tables that
/// they replaced, is one that the laws of safety speak of. A cabinet that flashes may take tables of another layout. At
/// no tick, in every mode, are two incompatible phases green, yellow or in red clearance together, nor two phases of
/// one ring, nor do two incompatible ones walk together, and a disabled phase is red and steady don't walk.
pub fn admitted_is_safe()
    ensures lawful { (opening : Tables) (events : List Event) → Admitted opening events → Lawful opening events }
    ensures apart { (h : History) → Admitted h.tables (since_opening h) → KeepsApart h }
{}

/// In a history that the rules admitted a green gives way in free operation: once its gap or its maximum is over and it is served, it ends for
/// each phase that is called and may not be on with it, as soon as the other ring can leave its side of the barrier.
pub fn greens_give_way()
    ensures { (h : History) → Admitted h.tables (since_opening h) → EachGivesWay (past_at h).moments }
{}
