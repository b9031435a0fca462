//! The ring layout: which phases are enabled, in which ring, beside which others and of which side (NTCIP 1202, NEMA TS 2), read
//! once into sets; and the rules that these sets answer. A rule of one phase is asked of 1 to 16.

ghost use Rattle.std.specs.Prelude.{◌≡◌, ◌≤◌, ◌<◌, ◌&&◌, not, ℕ, Bool, if◌then◌else◌};
ghost use Rattle.sig_types.specs.PhaseSet.{has};
ghost use Rattle.sig_types.specs.Phases.{all_phases, is_in, some};
ghost use Rattle.sig_tables.specs.Tables.{is_enabled, ring_of};
ghost use Rattle.sig_tables.specs.Sums.{every};
ghost use Rattle.sig_tables.specs.Layout.{Has};
ghost use Rattle.rule_book.specs.Sets.{ReadsLists, Reads, is_neighbour, has_another_side};
ghost use Rattle.rule_book.specs.RingLayout.{neighbours, same_phases, has_ring, lists_others, is_named_back, lists_other_ring, has_neighbour};
ghost use Rattle.rule_book.specs.RingLayout.{shares_its_list, has_two_sides, has_yellow, reverts_in_time, starts_beside, keeps_layout, walks_before_clearing};

use sig_tables::{
    Tables, concurrent_sets, enabled_phases, named_sets, namers_of, of_ring, side_sets,
    starting_phases,
};
use sig_types::PhaseSet;

/// Which phases are enabled, and for each phase those that its concurrency list names, disabled ones among them. Phase
/// p is at place p - 1.
#[derive(Clone, Copy)]
pub struct Lists {
    pub enabled: PhaseSet,
    pub named: [PhaseSet; 16],
}

impl Lists {
    /// The lists of any tables.
    pub fn of(tables: &Tables) -> Lists
        ensures { ReadsLists result tables.now }
    {
        Lists {
            enabled: enabled_phases(tables),
            named: named_sets(tables),
        }
    }

    /// The enabled phases in the concurrency list of a phase.
    pub fn neighbours(&self, phase: u8) -> PhaseSet
        requires above { 0 < phase }
        requires within { phase ≤ 16 }
        ensures { (t : Tables) → ReadsLists self.now t → Has result (is_neighbour t phase) }
    {
        self.enabled.meet(self.named[phase as usize - 1])
    }
}

/// What the tables say of all phases at once. Phase p is at place p - 1, ring r at place r - 1.
#[derive(Clone, Copy)]
pub struct RingLayout {
    pub lists: Lists,
    /// The phases that are green right after Start.
    pub starting: PhaseSet,
    /// The enabled phases of each ring.
    pub rings: [PhaseSet; 2],
    pub concurrent: [PhaseSet; 16],
    /// For each phase those of its side of the barrier, itself among them.
    pub sides: [PhaseSet; 16],
}

impl RingLayout {
    /// The ring layout of any tables.
    pub fn of(tables: &Tables) -> RingLayout
        ensures { Reads result tables.now }
    {
        let lists = Lists::of(tables);
        let enabled = lists.enabled;
        let concurrent = concurrent_sets(enabled, &lists.named);
        RingLayout {
            starting: starting_phases(tables),
            rings: [
                enabled.meet(of_ring(tables, 1)),
                enabled.meet(of_ring(tables, 2)),
            ],
            sides: side_sets(enabled, &concurrent),
            concurrent,
            lists,
        }
    }

    /// Whether each phase in the list of a phase has it in its own.
    pub fn is_named_back(&self, phase: u8) -> bool
        requires above { 0 < phase }
        requires within { phase ≤ 16 }
        ensures { (t : Tables) → Reads self.now t → result ≡ is_named_back t phase }
    {
        let back = namers_of(&self.lists.named, phase);
        self.lists.neighbours(phase).minus(back).is_empty()
    }

    /// Whether the list of a phase has an enabled phase.
    pub fn has_neighbour(&self, phase: u8) -> bool
        requires above { 0 < phase }
        requires within { phase ≤ 16 }
        ensures { (t : Tables) → Reads self.now t → result ≡ has_neighbour t phase }
    {
        !self.lists.neighbours(phase).is_empty()
    }

    /// Whether there are at least two sides.
    pub fn has_two_sides(&self) -> bool
        ensures { (t : Tables) → Reads self.now t → result ≡ has_two_sides t }
    {
        for phase in 1..17u8 {
            if self.has_another_side(phase) {
                return true;
            }
        }
        false
    }

    /// Whether a phase is enabled, and another one that is not of its side.
    fn has_another_side(&self, phase: u8) -> bool
        requires above { 0 < phase }
        requires within { phase ≤ 16 }
        ensures { (t : Tables) → Reads self.now t → result ≡ has_another_side t phase }
    {
        let enabled = self.lists.enabled;
        enabled.has(phase) && !enabled.minus(self.sides[phase as usize - 1]).is_empty()
    }

    /// Whether each other phase that is green right after Start is concurrent with this one, where it is so itself.
    pub fn starts_beside(&self, phase: u8) -> bool
        requires above { 0 < phase }
        requires within { phase ≤ 16 }
        ensures { (t : Tables) → Reads self.now t → result ≡ starts_beside t phase }
    {
        let alone = PhaseSet::empty().with(phase);
        let others = self.starting.minus(alone);
        !self.starting.has(phase) || others.minus(self.concurrent[phase as usize - 1]).is_empty()
    }
}
