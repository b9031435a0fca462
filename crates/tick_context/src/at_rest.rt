//! Ticks at which the rings rest, so that nothing is to be looked for.

ghost use Rattle.std.specs.Prelude.{◌≡◌, ◌≢◌, ◌==◌, ◌&&◌, ◌||◌, [], IsTrue, false, not, get_or, length};
ghost use Rattle.sig_types.specs.PhaseSet.{has, phases_of};
ghost use Rattle.sig_types.specs.Phases.{all_phases, some};
ghost use Rattle.sig_tables.specs.View.{View as Scene, is_forced};
ghost use Rattle.sig_tables.specs.Moves.{ring_moves};
ghost use Rattle.sig_tables.specs.Layout.{Has};
ghost use Rattle.ring_barrier.specs.Shows.{Opens};
ghost use Rattle.tick_context.specs.Moves.{AreMoves};

use ring_barrier::Changes;
use sig_types::{Frame, PhaseSet};

/// No phase ends, and none begins.
pub fn no_changes() -> Changes
    ensures { AreMoves result (record { ends = []; begins = [] }) }
{
    Changes {
        ends: PhaseSet::empty(),
        begins: PhaseSet::empty(),
    }
}

/// Whether the rings rest: neither is open, no phase has demand and none is forced off, so that what is on stays on.
pub fn is_resting(opening: [bool; 2], demand: PhaseSet, forced: PhaseSet) -> bool
    ensures is { result ≡ (not (get_or opening 0 false || get_or opening 1 false)
        && (not (some (has demand) all_phases) && not (some (has forced) all_phases))) }
    ensures rests { (w : Scene) → Opens opening w → phases_of demand ≡ w.demand → Has forced (is_forced w) → IsTrue result
        → ring_moves w ≡ record { ends = []; begins = [] } }
{
    if opening[0] || opening[1] {
        return false;
    }
    if demand.is_empty() {
        forced.is_empty()
    } else {
        false
    }
}

/// Whether something is on in both rings.
pub fn are_both_on(on: [u8; 2]) -> bool
    ensures is { result ≡ (not (get_or on 0 0 == 0) && not (get_or on 1 0 == 0)) }
    ensures first { IsTrue result → get_or on 0 0 ≢ 0 }
    ensures second { IsTrue result → get_or on 1 0 ≢ 0 }
{
    if on[0] == 0 { false } else { on[1] != 0 }
}

/// Any frame shows sixteen phases.
pub fn shows_sixteen(frame: Frame)
    ensures veh { length frame.veh ≡ 16 }
    ensures ped { length frame.ped ≡ 16 }
{}
