//! What the split of a pattern asks of its phases (NTCIP 1202, splitMode and splitCoordPhase; FHWA Signal Timing Manual,
//! coordinated phases and recall), read once where the pattern comes into force: one set for each question that a tick
//! asks, so that a tick looks at sixteen phases in one step. Nothing here takes memory.
ghost use Rattle.std.specs.Prelude.{◌≡◌, ◌&&◌, ◌||◌, ◌==◌, ◌-◌, ℕ, get_or};
ghost use Rattle.sig_tables.specs.Cells.{missing_entry};
ghost use Rattle.sig_tables.specs.Slots.{is_coordinated, is_omitted};
ghost use Rattle.sig_tables.specs.Splits.{split_minimum, split_maximum, split_pedestrian};
ghost use Rattle.sig_tables.specs.Layout.{Has};

use sig_tables::{SplitEntry, Tables, enabled_phases, entry_in};
use sig_types::PhaseSet;

/// The modes of a split that change what a phase's options say; in any other mode the phase keeps them.
const MINIMUM_RECALL: u8 = 3;

const MAXIMUM_RECALL: u8 = 4;

const PEDESTRIAN_RECALL: u8 = 5;

const MAXIMUM_AND_PEDESTRIAN_RECALL: u8 = 6;

const OMITTED: u8 = 7;

/// The phases by what the split of one pattern asks of them.
#[derive(Clone, Copy, PartialEq, Eq)]
pub struct SplitOptions {
    /// Those that the pattern holds onto the offset.
    pub coordinated: PhaseSet,
    /// Those that it never serves.
    pub omitted: PhaseSet,
    /// Those that it calls for their minimum green.
    pub minimum: PhaseSet,
    /// Those that it calls and holds to their maximum.
    pub maximum: PhaseSet,
    /// Those that it calls for their walk.
    pub pedestrian: PhaseSet,
}

/// The phases whose entry of a split has this mode.
fn with_mode(entries: &[SplitEntry], mode: u8) -> PhaseSet
    ensures { Has result (λ p. (get_or entries.now (p - 1) missing_entry).mode == mode) }
{
    let mut set = PhaseSet::empty();
    for phase in 1..17 {
        set = set.with_if(phase, entry_in(entries, phase).mode == mode);
    }
    set
}

/// The phases that their entry of a split marks as coordinated.
fn marked(entries: &[SplitEntry]) -> PhaseSet
    ensures { Has result (λ p. (get_or entries.now (p - 1) missing_entry).coordinated == 1) }
{
    let mut set = PhaseSet::empty();
    for phase in 1..17 {
        set = set.with_if(phase, entry_in(entries, phase).coordinated == 1);
    }
    set
}

impl SplitOptions {
    ghost use Rattle.pattern_plan.specs.Options.{SplitSays};

    /// What the split of a pattern asks, for any tables and any number of a pattern. If the pattern or the split
    /// doesn't exist, number 0 is read as 1, and what is missing asks nothing.
    pub fn of(tables: &Tables, pattern: u8) -> SplitOptions
        ensures says { SplitSays result tables.now pattern }
    {
        let entries = tables.entries(pattern);
        let both = with_mode(entries, MAXIMUM_AND_PEDESTRIAN_RECALL);
        SplitOptions {
            coordinated: enabled_phases(tables).meet(marked(entries)),
            omitted: with_mode(entries, OMITTED),
            minimum: with_mode(entries, MINIMUM_RECALL),
            maximum: with_mode(entries, MAXIMUM_RECALL).union(both),
            pedestrian: with_mode(entries, PEDESTRIAN_RECALL).union(both),
        }
    }
}
