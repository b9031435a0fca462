//! What a tick is about, before its calls and colours are looked at.

ghost use Rattle.std.specs.Prelude.{◌≡◌, ◌==◌, ℕ, not};

use call_store::Greens;
use flash_mode::RingTurn;
use sig_types::{Mode, PhaseSet};

/// What a tick is about.
#[derive(Clone, Copy)]
pub struct TickState {
    /// The pattern in command, and the clock in ticks of the day.
    pub command: u8,
    pub clock: u32,
    /// The mode before the colours are known.
    pub mode: Mode,
    /// The phases that the mode brings to green.
    pub goal: PhaseSet,
    pub ring_turn: RingTurn,
    /// The walk and the pedestrian clearance, in ticks, to which a preempt cuts those of the phases outside its goal.
    pub lesser: Option<(u32, u32)>,
    /// The counter of the cabinet in the cycle of its pattern, and its target, in ticks.
    pub counter: u32,
    pub target: u32,
    /// The priority request that is active, if one is.
    pub active: Option<u8>,
}

/// Whose greens begin in a turn.
pub fn greens(ring_turn: RingTurn) -> Greens
    ensures { result ≡ greens_of (ring_turn_meant ring_turn) }
{
    match ring_turn {
        RingTurn::Rest => Greens::Rest,
        RingTurn::StartUp => Greens::StartUp,
        RingTurn::Rings => Greens::Rings,
        RingTurn::Goal(_) => Greens::Rings,
    }
}

/// Whether a priority request is active.
pub fn is_asked(active: Option<u8>) -> bool
    ensures { (n : ℕ) → active ≡ some_number n → result ≡ not (n == 0) }
{
    match active {
        Some(_) => true,
        None => false,
    }
}

ghost use Rattle.prio_queue.specs.Places.{some_number};
ghost use Rattle.flash_mode.specs.RingTurns.{ring_turn_meant};
ghost use Rattle.call_store.specs.Walks.{greens_of};
