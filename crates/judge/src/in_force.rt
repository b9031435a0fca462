//! The tables in force at a cabinet, and the sets by which conflicts are found.

ghost use Rattle.std.specs.Prelude.{◌≡◌, ◌<◌, ◌≤◌, ◌&&◌, not, ℕ};
ghost use Rattle.sig_types.specs.PhaseSet.{has};
ghost use Rattle.sig_types.specs.declared.frame.Colour.{Colour as ColourOf};
ghost use Rattle.sig_types.specs.declared.frame.Ped.{Ped as PedOf};
ghost use Rattle.sig_tables.specs.Layout.{Has};
ghost use Rattle.safety_laws.specs.Safe.{Indications};
ghost use Rattle.judge_laws.specs.Breaches.{shows, gives, are_together, is_lit_off};

use sig_tables::{Layout, Tables};
use sig_types::{Colour, Ped, PhaseSet};

/// The phases that show a colour other than red.
pub fn lit_phases(colours: &[Colour; 16]) -> PhaseSet
    ensures { (x : Indications) → x.colours ≡ colours.now → Has result (λ p. not (shows ColourOf.Red p x)) }
{
    let mut set = PhaseSet::empty();
    for phase in 1..17u8 {
        set = set.with_if(phase, colours[phase as usize - 1] != Colour::Red);
    }
    set
}

/// The phases that show a pedestrian signal other than don't walk.
pub fn walking_phases(signals: &[Ped; 16]) -> PhaseSet
    ensures { (x : Indications) → x.signals ≡ signals.now → Has result (λ p. not (gives PedOf.Dont p x)) }
{
    let mut set = PhaseSet::empty();
    for phase in 1..17u8 {
        set = set.with_if(phase, signals[phase as usize - 1] != Ped::Dont);
    }
    set
}

/// The set, or no phase.
fn only_if(set: PhaseSet, passes: bool) -> PhaseSet
    ensures { (p : ℕ) → has result p ≡ (passes && has set p) }
{
    if passes { set } else { PhaseSet::empty() }
}

/// The tables in force, with the phases that they enable and for each phase those that may not be on with it.
#[derive(Clone, Copy)]
pub struct InForce {
    tables: Tables,
    enabled: PhaseSet,
    incompatible: [PhaseSet; 16],
}

impl InForce {
    ghost use Rattle.judge.specs.InForce.{IsInForce, LitBy};

    /// These tables, with their sets.
    pub fn new(tables: &Tables) -> InForce
        ensures { IsInForce result tables.now }
    {
        let layout = Layout::of(tables, 1);
        let incompatible = layout.incompatible;
        InForce {
            tables: *tables,
            enabled: layout.enabled,
            incompatible,
        }
    }

    /// The tables.
    pub fn tables(&self) -> &Tables
        ensures { result.now ≡ self.now.tables }
    {
        &self.tables
    }

    /// The phases that are on together with a phase, 1 to 16, and may not be: by the phases that are lit and those that walk.
    pub fn together(&self, lit: PhaseSet, walking: PhaseSet, phase: u8) -> PhaseSet
        requires above { 0 < phase }
        requires within { phase ≤ 16 }
        ensures { (x : Indications) → IsInForce self.now self.now.tables → LitBy lit walking x → Has result (are_together self.now.tables x phase) }
    {
        let lit = only_if(lit, lit.has(phase));
        let walking = only_if(walking, walking.has(phase));
        self.incompatible[phase as usize - 1].meet(lit.union(walking))
    }

    /// Whether a phase, 1 to 16, is lit and disabled.
    pub fn is_lit_off(&self, lit: PhaseSet, walking: PhaseSet, phase: u8) -> bool
        requires above { 0 < phase }
        requires within { phase ≤ 16 }
        ensures { (x : Indications) → IsInForce self.now self.now.tables → LitBy lit walking x → result ≡ is_lit_off self.now.tables x phase }
    {
        let enabled = self.enabled.has(phase);
        let lamp = lit.has(phase);
        let signal = walking.has(phase);
        !enabled && (lamp || signal)
    }
}
