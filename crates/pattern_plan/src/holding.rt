//! The phases that a pattern holds onto the offset, and those that it never serves.

ghost use Rattle.std.specs.Prelude.{◌≡◌, ◌<◌, ◌≤◌, ◌==◌, ◌&&◌, ℕ};
ghost use Rattle.sig_types.specs.PhaseSet.{has};
ghost use Rattle.sig_tables.specs.Tables.{is_enabled, ring_of};
ghost use Rattle.sig_tables.specs.Slots.{is_omitted, is_coordinated, coordinated_phase};
ghost use Rattle.sig_tables.specs.Layout.{Has};

use sig_tables::{Tables, entry_in};
use sig_types::PhaseSet;

/// The phases that a pattern coordinates, of which the enabled ones are given. Any number of a pattern is taken: one that
/// there isn't coordinates none.
pub fn coordinated(tables: &Tables, enabled: PhaseSet, pattern: u8) -> PhaseSet
    requires enabled { Has enabled (is_enabled tables.now) }
    ensures { Has result (is_coordinated tables.now pattern) }
{
    let entries = tables.entries(pattern);
    let mut set = PhaseSet::empty();
    for phase in 1..17u8 {
        set = set.with_if(phase, entry_in(entries, phase).coordinated == 1);
    }
    enabled.meet(set)
}

/// The phases that a pattern never serves.
pub fn omitted(tables: &Tables, pattern: u8) -> PhaseSet
    ensures { Has result (is_omitted tables.now pattern) }
{
    let entries = tables.entries(pattern);
    let mut set = PhaseSet::empty();
    for phase in 1..17u8 {
        set = set.with_if(phase, entry_in(entries, phase).mode == 7);
    }
    set
}

/// Whether a phase, 1 to 16, is of a ring and among those that a pattern coordinates.
fn is_held_in(tables: &Tables, coordinated: PhaseSet, ring: u8, phase: u8) -> bool
    requires above { 0 < phase }
    requires within { phase ≤ 16 }
    ensures { result ≡ (ring_of tables.now phase == ring && has coordinated phase) }
{
    tables.phase(phase).ring == ring && coordinated.has(phase)
}

/// The least phase of a ring among those that a pattern coordinates; 0 where it coordinates none there.
pub fn coordinated_in(tables: &Tables, coordinated: PhaseSet, ring: u8) -> u8
    ensures phase { (n : ℕ) → Has coordinated (is_coordinated tables.now n) → result ≡ coordinated_phase tables.now n ring }
    ensures within { result ≤ 16 }
{
    for phase in 1..17u8 {
        if is_held_in(tables, coordinated, ring, phase) {
            return phase;
        }
    }
    0
}
