//! A side of the barrier in a pattern: where its last slot ends, and how long it clears.

ghost use Rattle.std.specs.Prelude.{◌≡◌, ℕ, List};
ghost use Rattle.sig_types.specs.PhaseSet.{phases_of};
ghost use Rattle.sig_tables.specs.Sums.{greatest};

use sig_types::PhaseSet;

/// The phases of a side, where its last slot ends, and the greatest clearance of its phases, in ticks.
#[derive(Clone, Copy)]
pub struct Side {
    pub phases: PhaseSet,
    pub end: u32,
    pub clearance: u32,
}

impl Side {
    ghost use Rattle.pattern_plan.specs.LayoutStands.{at_phase, Measures};

    /// No phase.
    pub fn none() -> Side
        ensures { (ends clears : List ℕ) → Measures result ends clears }
    {
        Side {
            phases: PhaseSet::empty(),
            end: 0,
            clearance: 0,
        }
    }

    /// The side of these phases, by where the slot of each ends and how long it clears: this one where its phases are the same.
    pub fn of(self, phases: PhaseSet, ends: &[u32; 16], clears: &[u32; 16]) -> Side
        requires measured { Measures self ends.now clears.now }
        ensures phases { result.phases ≡ phases }
        ensures measured { Measures result ends.now clears.now }
    {
        if phases == self.phases {
            return self;
        }
        Side {
            phases,
            end: Side::greatest_in(phases, ends),
            clearance: Side::greatest_in(phases, clears),
        }
    }

    /// The greatest of the numbers that phases of the set have; 0 where it has none. Phase p is at place p - 1.
    fn greatest_in(set: PhaseSet, numbers: &[u32; 16]) -> u32
        ensures { result ≡ greatest (at_phase numbers.now) (phases_of set) }
    {
        let mut most = 0;
        let mut left = set;
        'members: while !left.is_empty() {
            let phase = left.least();
            most = numbers[phase as usize - 1].max(most);
            left = left.without(phase);
        }
        most
    }
}
