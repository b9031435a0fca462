//! What is kept of a cabinet: its judge, the tables in force, and what a frame or a load must follow.

ghost use Rattle.std.specs.Prelude.{◌≡◌, ◌∷◌, ◌++◌, ◌+◌, ℕ, List, [], Bool, OnOk, IfOk, Option, Some, None, map, Ok};
ghost use Rattle.trace_text.specs.declared.lines.Line.{Line as LineRow};
ghost use Rattle.sig_tables.specs.Putting.{put_content};
ghost use Rattle.safety_laws.specs.Whole.{downloads};
ghost use Rattle.scenario_data.specs.Content.{ScenarioContent};
ghost use Rattle.judge_session.specs.Told.{opening_at, load_told};
ghost use Rattle.judge_session.specs.Log.{frame_fault, load_fault};
ghost use Rattle.judge_session.specs.Report.{line_found, unknown_by, overruns_at, overruns_text};

use crate::faults::LineFault;
use crate::listing::{put_found, put_overruns};
use crate::texts::put_unknown;
use judge::{CabinetJudge, InForce};
use judge_laws::Terms;
use scenario_data::LoadItem;
use sig_tables::Tables;
use sig_types::{Colour, Mode, NoMemory, Ped};

/// What is kept of a cabinet, however many lines come.
#[derive(Clone, Copy)]
pub struct CabinetWatch {
    judge: CabinetJudge,
    in_force: InForce,
    known: bool,
    version: u32,
    last: Option<u32>,
}

impl CabinetWatch {
    ghost use Rattle.judge_session.specs.Standing.{WatchStands, Adds};

    /// Before any line.
    pub fn new(tables: &Tables, joined: bool) -> CabinetWatch
        ensures { (s : ScenarioContent) (cab : ℕ) → opening_at s cab ≡ tables.now → WatchStands result s joined cab [] }
    {
        let judge = CabinetJudge::new(joined);
        let in_force = InForce::new(tables);
        CabinetWatch {
            judge,
            in_force,
            known: true,
            version: 0,
            last: None,
        }
    }

    /// Why a frame of a cabinet that the scenario has can't follow.
    pub fn frame_fault(&self, tick: u32, version: u32) -> Option<LineFault>
        ensures { (s : ScenarioContent) (joined : Bool) (cab : ℕ) (before : List LineRow) → WatchStands self.now s joined cab before
            → result ≡ frame_fault tick version cab before }
    {
        let later = match self.last {
            Some(last) => last < tick,
            None => true,
        };
        if !later {
            return Some(LineFault::NotLater);
        }
        if version != self.version {
            return Some(LineFault::FrameVersion);
        }
        None
    }

    /// Why an accepted load of a cabinet that the scenario has can't follow.
    pub fn load_fault(&self, version: u32) -> Option<LineFault>
        ensures { (s : ScenarioContent) (joined : Bool) (cab : ℕ) (before : List LineRow) → WatchStands self.now s joined cab before
            → result ≡ load_fault version cab before }
    {
        if self.version.checked_add(1) == Some(version) {
            None
        } else {
            Some(LineFault::LoadVersion)
        }
    }

    /// Takes a frame that can follow: the lines of its breaches are appended. Gives how many breaches were found by then.
    pub fn frame(
        &mut self,
        out: &mut Vec<u8>,
        count: u64,
        cab: u32,
        tick: u32,
        veh: &[Colour; 16],
        ped: &[Ped; 16],
        mode: Mode,
        terms: Terms,
    ) -> Result<u64, NoMemory>
        ensures { IfOk result (λ now. (s : ScenarioContent) (before : List LineRow) (counter target version : ℕ) → WatchStands self.old s terms.joined cab before
            → version ≡ downloads cab before
            → Adds out.old.items out.new.items count now (line_found s terms before (LineRow.F cab tick veh.now ped.now mode counter target version))
            × WatchStands self.new s terms.joined cab (LineRow.F cab tick veh.now ped.now mode counter target version ∷ before)) }
    {
        self.last = Some(tick);
        if !self.known {
            return Ok(count);
        }
        let found = self
            .judge
            .line(tick, veh, ped, mode, &self.in_force, terms.tolerance);
        put_found(out, count, cab, tick, &found)
    }

    /// Takes an accepted load that can follow, and that the scenario has. Nothing is reported of it.
    pub fn put_load(&mut self, version: u32, load: &LoadItem)
        ensures { (s : ScenarioContent) (joined : Bool) (cab id : ℕ) (before : List LineRow) → WatchStands self.old s joined cab before
            → version ≡ downloads cab before + 1 → load_told s cab id ≡ Some (map put_content load.now.cells.items)
            → WatchStands self.new s joined cab (LineRow.L cab id (Ok version) ∷ before) }
    {
        self.version = version;
        if self.known {
            let mut tables = self.in_force.tables().copy();
            tables.put_each(load.cells.as_slice());
            self.in_force = InForce::new(&tables);
        }
    }

    /// Takes an accepted load that can follow, and that the scenario doesn't have. If the tables were known until now, a line reports that
    /// they aren't any more.
    pub fn put_unknown_load(
        &mut self,
        out: &mut Vec<u8>,
        cab: u32,
        id: u32,
        version: u32,
    ) -> Result<(), NoMemory>
        ensures { OnOk result ((s : ScenarioContent) (joined : Bool) (before : List LineRow) → WatchStands self.old s joined cab before
            → version ≡ downloads cab before + 1 → load_told s cab id ≡ None
            → (out.new.items ≡ out.old.items ++ unknown_by s before (LineRow.L cab id (Ok version)))
            × WatchStands self.new s joined cab (LineRow.L cab id (Ok version) ∷ before)) }
    {
        self.version = version;
        if self.known {
            self.known = false;
            return put_unknown(out, cab, id);
        }
        Ok(())
    }

    /// Appends the lines of the intervals that have run over their time at a tick and have not ended.
    pub fn overruns(
        &self,
        out: &mut Vec<u8>,
        cab: u32,
        tick: u32,
        terms: Terms,
    ) -> Result<(), NoMemory>
        ensures { OnOk result ((s : ScenarioContent) (before : List LineRow) → WatchStands self.now s terms.joined cab before
            → out.new.items ≡ out.old.items ++ overruns_text (overruns_at s terms tick before cab)) }
    {
        if !self.known {
            return Ok(());
        }
        let overruns = self.judge.overruns(tick, terms.tolerance);
        put_overruns(out, cab, &overruns)
    }
}
