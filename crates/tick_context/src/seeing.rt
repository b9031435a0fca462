//! What a tick sees of the phases.

use sig_types::PhaseSet;

/// What a tick sees of the phases: those with demand, those that are active, and the Green ones to which an incompatible
/// phase has demand.
#[derive(Clone, Copy)]
pub struct TickInputs {
    pub demand: PhaseSet,
    pub active: PhaseSet,
    pub opposed: PhaseSet,
}
