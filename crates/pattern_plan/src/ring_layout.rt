//! What of the tables has nothing to do with a pattern, read once for all patterns.

ghost use Rattle.sig_tables.specs.Tables.{is_enabled};
ghost use Rattle.sig_tables.specs.Sides.{are_of_one_side};
ghost use Rattle.sig_tables.specs.Layout.{Has, EachHas};

use sig_tables::{Tables, concurrent_sets, named_sets, side_sets};
use sig_types::PhaseSet;

/// Tables with their enabled phases, and for each phase those of its barrier group; phase p is at place p - 1.
#[derive(Clone, Copy)]
pub struct RingLayout<'a> {
    pub tables: &'a Tables,
    pub enabled: PhaseSet,
    pub sides: &'a [PhaseSet; 16],
}

/// For each phase those of its side, with the enabled phases given.
pub fn sides_of(tables: &Tables, enabled: PhaseSet) -> [PhaseSet; 16]
    requires enabled { Has enabled (is_enabled tables.now) }
    ensures { EachHas result (are_of_one_side tables.now) }
{
    side_sets(enabled, &concurrent_sets(enabled, &named_sets(tables)))
}
