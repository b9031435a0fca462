//! The judge of a cabinet: one line at a time, in registers of one size.

ghost use Rattle.std.specs.Prelude.{◌≡◌, ◌∷◌, ℕ, List, Bool, []};
ghost use Rattle.sig_types.specs.declared.frame.Mode.{Mode as ModeOf};
ghost use Rattle.sig_tables.specs.declared.tables.Tables.{Tables as TablesOf};
ghost use Rattle.safety_laws.specs.Safe.{Indications};
ghost use Rattle.judge_laws.specs.Breaches.{within, frame_breaches};
ghost use Rattle.judge_laws.specs.Overrun.{each_overruns, phase_overruns};
ghost use Rattle.sig_types.specs.Phases.{all_phases};

use crate::in_force::{InForce, lit_phases, walking_phases};
use crate::lengths::Step;
use crate::lesser::Way;
use crate::phases::{CourseFound, PhaseFound, PhaseOverruns, PhaseWatch};
use sig_types::{Colour, Mode, Ped, PhaseSet};

/// What is kept of a cabinet, however many lines come.
#[derive(Clone, Copy)]
pub struct CabinetJudge {
    phases: [PhaseWatch; 16],
    known: bool,
}

impl CabinetJudge {
    ghost use Rattle.judge.specs.Cabinet.{AllFollow, ShowsAll, AllFound, found_breaches, AllRunOver, listed_overruns};
    ghost use Rattle.judge.specs.InForce.{IsInForce};

    /// Before any line. A cabinet is dark until then, unless the log begins in the middle.
    pub fn new(joined: bool) -> CabinetJudge
        ensures { (tables : ℕ → TablesOf) → AllFollow result joined tables [] }
    {
        CabinetJudge {
            phases: [PhaseWatch::new(joined); 16],
            known: !joined,
        }
    }

    /// Takes a line, and says what it breaks at each phase.
    fn steps(
        &mut self,
        tick: u32,
        veh: &[Colour; 16],
        ped: &[Ped; 16],
        mode: Mode,
        in_force: &InForce,
        tolerance: u8,
    ) -> [PhaseFound; 16]
        ensures { (joined : Bool) (tables : ℕ → TablesOf) (older : List (ℕ × Indications)) (line : ℕ × Indications)
            → AllFollow self.old joined tables older → ShowsAll tick veh.now ped.now mode in_force.now tables line
            → AllFound result tolerance joined tables older line × AllFollow self.new joined tables (line ∷ older) }
    {
        let step = Step {
            tick,
            known: self.known,
            tolerance,
        };
        let way = Way::of(in_force.tables(), mode);
        let lit = lit_phases(veh);
        let walking = walking_phases(ped);
        let mut found = [PhaseFound {
            together: PhaseSet::empty(),
            lit: false,
            course: CourseFound {
                order: false,
                clearance: false,
                green: false,
                pedestrian: false,
                on_green: false,
            },
        }; 16];
        for p in 0..16 {
            let phase = p as u8 + 1;
            let judged = self.phases[p].after(
                step,
                veh[p],
                ped[p],
                in_force.tables().phase(phase),
                Way::left(way, phase),
            );
            self.phases[p] = judged.watch;
            found[p] = PhaseFound {
                together: in_force.together(lit, walking, phase),
                lit: in_force.is_lit_off(lit, walking, phase),
                course: judged.found,
            };
        }
        self.known = true;
        found
    }

    /// What has run over its time at a tick, at each phase.
    fn each_overruns(&self, tick: u32, tolerance: u8) -> [PhaseOverruns; 16]
        ensures { AllRunOver self.now result tick tolerance }
    {
        let none = PhaseOverruns {
            yellow: None,
            clear: None,
            walk: None,
            flash: None,
        };
        let mut overruns = [none; 16];
        for p in 0..16 {
            overruns[p] = self.phases[p].overruns(tick, tolerance);
        }
        overruns
    }

    /// What has run over its time and has not ended at a tick.
    pub fn overruns(&self, tick: u32, tolerance: u8) -> [PhaseOverruns; 16]
        ensures { (joined : Bool) (tables : ℕ → TablesOf) (older : List (ℕ × Indications)) (cab : ℕ) → AllFollow self.now joined tables older
            → listed_overruns cab result ≡ each_overruns (phase_overruns tolerance cab tables tick older) all_phases }
    {
        self.each_overruns(tick, tolerance)
    }

    /// Takes a line of the cabinet, under the tables in force. What is found of the phases lists the breaches that the line shows.
    pub fn line(
        &mut self,
        tick: u32,
        veh: &[Colour; 16],
        ped: &[Ped; 16],
        mode: Mode,
        in_force: &InForce,
        tolerance: u8,
    ) -> [PhaseFound; 16]
        ensures { (joined : Bool) (tables : ℕ → TablesOf) (older : List (ℕ × Indications)) (line : ℕ × Indications) (cab : ℕ)
            → AllFollow self.old joined tables older → ShowsAll tick veh.now ped.now mode in_force.now tables line
            → (found_breaches cab tick result ≡ frame_breaches (within tolerance joined) cab tables older line)
            × AllFollow self.new joined tables (line ∷ older) }
    {
        self.steps(tick, veh, ped, mode, in_force, tolerance)
    }
}
