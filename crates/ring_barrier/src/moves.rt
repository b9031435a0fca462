//! What both rings do at a tick by the rules of actuated control.

ghost use Rattle.std.specs.Prelude.{◌≡◌, true, false, get_or, []};
ghost use Rattle.sig_types.specs.Phases.{is_in};
ghost use Rattle.sig_types.specs.PhaseSet.{phases_of};
ghost use Rattle.sig_tables.specs.View.{View as Scene, is_done, is_forced};
ghost use Rattle.sig_tables.specs.Layout.{Has};
ghost use Rattle.sig_tables.specs.Moves.{ring_moves};
ghost use Rattle.ring_barrier.specs.Shows.{Shows, Opens};

use crate::beginning::beginnings;
use crate::ending::ending;
use crate::side::{present_side, side_of};
use crate::view::{Changes, View};
use sig_types::PhaseSet;

/// Whether no ring is open, no phase is done and none is forced off, so that both rings stay as they are, as at most ticks:
/// there is then no need to look further.
pub fn is_idle(opening: [bool; 2], done: PhaseSet, forced: PhaseSet) -> bool
    ensures idle { (w : Scene) → Opens opening w → Has done (is_done w) → Has forced (is_forced w) → result ≡ true
        → ring_moves w ≡ record { ends = []; begins = [] } }
    // It says so wherever it can.
    ensures each { get_or opening 0 false ≡ false → get_or opening 1 false ≡ false → phases_of done ≡ [] → phases_of forced ≡ []
        → result ≡ true }
{
    if opening[0] || opening[1] {
        return false;
    }
    done.union(forced).is_empty()
}

/// The phases that end their green at this tick, and those that begin it. The moves are those of every moment that the
/// view shows, in each mode in which the rings move by themselves. Any view is taken: a number that isn't a phase means
/// none.
pub fn changes(view: &View) -> Changes
    ensures ends { (w : Scene) → Shows view.now w → Has result.ends (is_in (ring_moves w).ends) }
    ensures begins { (w : Scene) → Shows view.now w → Has result.begins (is_in (ring_moves w).begins) }
{
    if is_idle(view.rings.opening, view.done, view.forced) {
        return Changes {
            ends: PhaseSet::empty(),
            begins: PhaseSet::empty(),
        };
    }
    let side = side_of(view.rings.layout, present_side(view));
    let begins = beginnings(view, side);
    Changes {
        ends: ending(view, side, 1).union(ending(view, side, 2)),
        begins: PhaseSet::of(begins[0]).union(PhaseSet::of(begins[1])),
    }
}
